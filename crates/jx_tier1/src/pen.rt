//! Decisions that are given, written into one segment by either coder.

ghost use Rattle.std.specs.Prelude.{◌≡◌, ◌<◌, ℕ, [], true, OnOk, IfOk};
ghost use Rattle.jx_coder_specs.specs.MqTable.{MqContexts, mq_fresh};
ghost use Rattle.jx_coder_specs.specs.MqWriting.{mq_writer};
ghost use Rattle.jx_tier1_specs.specs.Asking.{told};
ghost use Rattle.jx_tier1_specs.specs.Symbol.{symbol_bit, symbol_asked};
ghost use Rattle.jx_tier1_specs.specs.Reading.{turned_over};
ghost use Rattle.jx_tier1_specs.specs.Writing.{Writing, fresh_writing, after_coded, write_answer, segment_by};
ghost use Rattle.jx_tier1_specs.specs.Ends.{stand_of};
ghost use Rattle.jx_tier1.specs.InStep.{no_grid};

use jx_base::NoMemory;
use jx_mq::{Contexts, MqEncoder};
use jx_raw::RawWriter;
use jx_tier1_specs::{About, Question, Stand};
use std::alloc::Global;
use std::marker::Model;

/// Writes answers that are given to it into one segment: by the arithmetic encoder, or as raw bits.
#[derive(Drop)]
pub struct Pen {
    is_raw: bool,
    encoder: MqEncoder,
    bits: RawWriter,
    contexts: Contexts,
}

impl Model for Pen {
    ghost use Rattle.jx_tier1_specs.specs.Writing.{Writing};
    ghost use Rattle.jx_tier1.specs.InStep.{no_grid};

    ghost Value = { Writing };

    ghost view = { λ p. record { target = no_grid; raw = p.is_raw; mq = p.encoder; bits = p.bits; contexts = p.contexts } };
}

/// A bit of a segmentation symbol (T.800 D.5).
fn symbol_question(bit: bool) -> Question
    ensures { result ≡ symbol_bit bit }
{
    Question {
        label: 18,
        turned: false,
        shift: 0,
        about: About::Symbol(bit),
    }
}

impl Pen {
    /// A pen at the start of a block's first segment, with room for so many bytes.
    pub fn new(alloc: Global, is_raw: bool, room: usize) -> Result<Pen, NoMemory>
        ensures { IfOk result (λ p. p ≡ fresh_writing no_grid is_raw mq_fresh) }
    {
        Ok(Pen {
            is_raw,
            encoder: MqEncoder::with_room(alloc, room)?,
            bits: RawWriter::new(alloc),
            contexts: Contexts::new(),
        })
    }

    /// Starts the contexts anew.
    pub fn renew(&mut self)
        ensures { self.new ≡ record self.old { contexts = mq_fresh } }
    {
        self.contexts = Contexts::new();
    }

    /// Writes a raw bit. It is apart, so that nothing of it stands between the decisions that are coded.
    #[cold]
    #[inline(never)]
    fn put_raw(&mut self, bit: bool) -> Result<(), NoMemory>
        requires { self.old.raw ≡ true }
        ensures { OnOk result ((label : ℕ) → self.new ≡ after_coded self.old label bit) }
    {
        self.bits.bit(bit)
    }

    /// Writes a decision, as it is coded.
    #[inline(always)]
    fn put(&mut self, label: u8, bit: bool) -> Result<(), NoMemory>
        requires { label < 19 }
        ensures { OnOk result (self.new ≡ after_coded self.old label bit) }
    {
        if self.is_raw {
            return self.put_raw(bit);
        }
        self.encoder.bit(&mut self.contexts, label, bit)
    }

    /// Writes the answer to a question.
    #[inline(always)]
    pub fn write(&mut self, question: Question, answer: bool) -> Result<(), NoMemory>
        requires { question.label < 19 }
        ensures { OnOk result (self.new ≡ after_coded self.old question.label (turned_over self.old.raw question answer)) }
    {
        let turned = !self.is_raw && question.turned;
        self.put(question.label, if turned { !answer } else { answer })
    }

    /// Writes a segmentation symbol (T.800 D.5).
    #[tactic(auto, unfolding(jx_tier1_specs::specs::Symbol::symbol_asked))]
    pub fn symbol(&mut self) -> Result<(), NoMemory>
        ensures { OnOk result (self.new ≡ (told write_answer symbol_asked self.old).1) }
    {
        self.write(symbol_question(true), true)?;
        self.write(symbol_question(false), false)?;
        self.write(symbol_question(true), true)?;
        self.write(symbol_question(false), false)
    }

    /// Where it stands within its segment.
    pub fn stand(&self) -> Stand
        ensures { result ≡ stand_of self.now }
    {
        if self.is_raw {
            return Stand {
                given: self.bits.looked(),
                places: 0,
            };
        }
        Stand {
            given: self.encoder.given_out(),
            places: self.encoder.places(),
        }
    }

    /// The segment so far, after which another one begins, with the contexts kept (T.800 D.4).
    pub fn finish(&mut self, alloc: Global, is_raw: bool) -> Result<Vec<u8>, NoMemory>
        ensures segment { IfOk result (λ bytes. bytes.items ≡ segment_by self.old) }
        ensures fresh { OnOk result (self.new ≡ fresh_writing self.old.target is_raw self.old.contexts) }
    {
        let encoder = std::mem::replace(&mut self.encoder, MqEncoder::new(alloc));
        let bits = std::mem::replace(&mut self.bits, RawWriter::new(alloc));
        let was_raw = self.is_raw;
        self.is_raw = is_raw;
        if was_raw {
            return bits.finish();
        }
        encoder.flush()
    }
}
