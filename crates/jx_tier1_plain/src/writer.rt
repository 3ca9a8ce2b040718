//! The decisions that a grid calls for, written into one segment by either coder.

ghost use Rattle.std.specs.Prelude.{◌≡◌, ◌<◌, ℕ, [], OnOk, IfOk};
ghost use Rattle.jx_coder_specs.specs.MqTable.{MqContexts, mq_fresh};
ghost use Rattle.jx_coder_specs.specs.MqWriting.{mq_writer};
ghost use Rattle.jx_tier1_specs.specs.Writing.{Writing, fresh_writing, after_coded, segment_by};

use crate::{Grid, answer};
use jx_base::NoMemory;
use jx_mq::{Contexts, MqEncoder};
use jx_raw::RawWriter;
use jx_tier1_specs::{Question, Source};
use std::alloc::Global;
use std::marker::Model;

/// Answers for a grid, and writes the answers into one segment: by the arithmetic encoder, or as
/// raw bits.
#[derive(Drop)]
pub struct Writer<'a> {
    target: &'a Grid,
    is_raw: bool,
    encoder: MqEncoder,
    bits: RawWriter,
    contexts: Contexts,
}

impl<'a> Model for Writer<'a> {
    ghost use Rattle.jx_tier1_specs.specs.Writing.{Writing};

    ghost Value = { Writing };

    ghost view = { λ w. record { target = w.target.now; raw = w.is_raw; mq = w.encoder; bits = w.bits; contexts = w.contexts } };
}

impl<'a> Writer<'a> {
    /// A writer at the start of a block's first segment.
    pub fn new(alloc: Global, target: &'a Grid, is_raw: bool) -> Writer<'a>
        ensures { result ≡ fresh_writing target.entry.now is_raw mq_fresh }
    {
        Writer {
            target,
            is_raw,
            encoder: MqEncoder::new(alloc),
            bits: RawWriter::new(alloc),
            contexts: Contexts::new(),
        }
    }

    /// Starts the contexts anew.
    pub fn renew(&mut self)
        ensures { self.new ≡ record self.old { contexts = mq_fresh } }
    {
        self.contexts = Contexts::new();
    }

    /// Writes a decision, as it is coded.
    fn put(&mut self, label: u8, bit: bool) -> Result<(), NoMemory>
        requires { label < 19 }
        ensures { OnOk result (self.new ≡ after_coded self.old label bit) }
    {
        if self.is_raw {
            return self.bits.bit(bit);
        }
        self.encoder.bit(&mut self.contexts, label, bit)
    }

    /// The segment so far, after which another one begins, with the contexts kept (T.800 D.4).
    pub fn finish(&mut self, alloc: Global, is_raw: bool) -> Result<Vec<u8>, NoMemory>
        ensures segment { IfOk result (λ bytes. bytes.items ≡ segment_by self.old) }
        ensures fresh { OnOk result (self.new ≡ fresh_writing self.old.target is_raw self.old.contexts) }
    {
        let encoder = std::mem::replace(&mut self.encoder, MqEncoder::new(alloc));
        let bits = std::mem::replace(&mut self.bits, RawWriter::new(alloc));
        let was_raw = self.is_raw;
        self.is_raw = is_raw;
        if was_raw {
            return bits.finish();
        }
        encoder.flush()
    }
}

impl<'a> Source for Writer<'a> {
    ghost use Rattle.std.specs.Prelude.{false};
    ghost use Rattle.jx_tier1_specs.specs.Writing.{write_answer};

    ghost ask = { write_answer };

    ghost is_sure = { false };

    fn ask(&mut self, question: Question) -> Result<bool, NoMemory> {
        let answer = answer(self.target, question);
        let turned = !self.is_raw && question.turned;
        self.put(question.label, if turned { !answer } else { answer })?;
        Ok(answer)
    }
}
