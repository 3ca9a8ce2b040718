//! The decisions that a grid calls for, written into one segment by either coder.

ghost use Rattle.std.specs.Prelude.{◌≡◌, ◌<◌, ℕ, OnOk, IfOk};
ghost use Rattle.jx_coder_specs.specs.MqTable.{mq_fresh};
ghost use Rattle.jx_tier1_specs.specs.Encoding.{renewed_writing};
ghost use Rattle.jx_tier1_specs.specs.Writing.{Writing, fresh_writing, after_coded, segment_by};

use crate::FlagGrid;
use crate::answers::answer;
use crate::pen::Pen;
use jx_base::{NoMemory, Style};
use jx_tier1_specs::{Question, Source};
use std::alloc::Global;
use std::marker::Model;

/// Answers for a grid, and writes the answers into one segment.
#[derive(Drop)]
pub struct Writer<'a> {
    target: &'a FlagGrid,
    pen: Pen,
}

impl<'a> Model for Writer<'a> {
    ghost use Rattle.jx_tier1_specs.specs.Writing.{Writing};

    ghost Value = { Writing };

    ghost view = { λ w. record { target = w.target.now; raw = w.pen.raw; mq = w.pen.mq; bits = w.pen.bits; contexts = w.pen.contexts } };
}

impl<'a> Writer<'a> {
    /// A writer at the start of a block's first segment.
    pub fn new(alloc: Global, target: &'a FlagGrid, is_raw: bool) -> Result<Writer<'a>, NoMemory>
        ensures { IfOk result (λ w. w ≡ fresh_writing target.entry.now is_raw mq_fresh) }
    {
        Ok(Writer {
            target,
            pen: Pen::new(alloc, is_raw, 64)?,
        })
    }

    /// Starts the contexts of a pass anew where the style has it.
    pub fn begin(&mut self, style: Style)
        ensures { self.new ≡ renewed_writing style.bits self.old }
    {
        if style.reset() {
            self.pen.renew();
        }
    }

    /// The segment so far, after which another one begins, with the contexts kept (T.800 D.4).
    pub fn finish(&mut self, alloc: Global, is_raw: bool) -> Result<Vec<u8>, NoMemory>
        ensures segment { IfOk result (λ bytes. bytes.items ≡ segment_by self.old) }
        ensures fresh { OnOk result (self.new ≡ fresh_writing self.old.target is_raw self.old.contexts) }
    {
        self.pen.finish(alloc, is_raw)
    }
}

impl<'a> Source for Writer<'a> {
    ghost use Rattle.std.specs.Prelude.{false};
    ghost use Rattle.jx_tier1_specs.specs.Writing.{write_answer};

    ghost ask = { write_answer };

    ghost is_sure = { false };

    #[inline(always)]
    fn ask(&mut self, question: Question) -> Result<bool, NoMemory> {
        let answer = answer(self.target, question);
        self.pen.write(question, answer)?;
        Ok(answer)
    }
}
