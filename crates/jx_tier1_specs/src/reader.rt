//! The decisions of one segment, read by either coder.

ghost use Rattle.std.specs.Prelude.{◌≡◌, ◌^◌, ◌<◌, ℕ, length};
ghost use Rattle.jx_coder_specs.specs.MqTable.{MqContexts, mq_fresh};
ghost use Rattle.jx_tier1_specs.specs.Reading.{Reading, fresh_reading, read_answer, looked_of};

use crate::{Question, Source};
use jx_base::NoMemory;
use jx_mq::{Contexts, MqDecoder};
use jx_raw::RawReader;
use std::marker::Model;

/// Reads the decisions of one segment: by the arithmetic decoder, or as raw bits.
#[derive(Drop)]
pub struct Reader<'a> {
    is_raw: bool,
    decoder: MqDecoder<'a>,
    bits: RawReader<'a>,
    contexts: Contexts,
}

impl<'a> Model for Reader<'a> {
    ghost use Rattle.std.specs.Prelude.{◌≡◌, ◌^◌, ◌<◌, length};
    ghost use Rattle.jx_tier1_specs.specs.Reading.{Reading};

    ghost Value = { Reading };

    ghost view = { λ r. record { segment = r.decoder.bytes; raw = r.is_raw; mq = r.decoder.reader; left = r.bits.left; contexts = r.contexts } };

    ghost invariant = { λ r. (r.bits.bytes ≡ r.decoder.bytes) × (length r.decoder.bytes < 2 ^ 32) };
}

impl<'a> Reader<'a> {
    /// A reader at the start of a segment.
    pub fn new(is_raw: bool, segment: &'a [u8], contexts: Contexts) -> Reader<'a>
        requires { length segment.now < 2 ^ 32 }
        ensures { result ≡ fresh_reading is_raw segment.entry.now contexts }
    {
        Reader {
            is_raw,
            decoder: MqDecoder::new(segment),
            bits: RawReader::new(segment),
            contexts,
        }
    }

    /// How many bytes of the segment were read or compared.
    pub fn looked(&self) -> u32
        ensures { result ≡ looked_of self.now }
    {
        if self.is_raw {
            return self.bits.looked() as u32;
        }
        self.decoder.looked() as u32
    }

    /// Goes to the start of another segment, and keeps the contexts (T.800 D.4).
    pub fn begin(&mut self, is_raw: bool, segment: &'a [u8])
        requires { length segment.now < 2 ^ 32 }
        ensures { self.new ≡ fresh_reading is_raw segment.entry.now self.old.contexts }
    {
        self.is_raw = is_raw;
        self.decoder = MqDecoder::new(segment);
        self.bits = RawReader::new(segment);
    }

    /// Starts the contexts anew.
    pub fn renew(&mut self)
        ensures { self.new ≡ record self.old { contexts = mq_fresh } }
    {
        self.contexts = Contexts::new();
    }
}

#[tactic(auto, using(crate::proofs::Firsts::first_is))]
impl<'a> Source for Reader<'a> {
    ghost use Rattle.std.specs.Prelude.{true};
    ghost use Rattle.jx_tier1_specs.specs.Reading.{read_answer};

    ghost ask = { read_answer };

    ghost is_sure = { true };

    #[inline(always)]
    fn ask(&mut self, question: Question) -> Result<bool, NoMemory> {
        if self.is_raw {
            return Ok(self.bits.bit());
        }
        let bit = self.decoder.bit(&mut self.contexts, question.label);
        Ok(if question.turned { !bit } else { bit })
    }
}
