//! Decisions of one segment, each written into another.

ghost use Rattle.std.specs.Prelude.{◌≡◌, ◌^◌, ◌<◌, ℕ, length, IfOk, OnOk};
ghost use Rattle.jx_tier1_specs.specs.Reading.{fresh_reading, read_symbol};
ghost use Rattle.jx_tier1.specs.InStep.{Copying, renewed_both};

use crate::pen::Pen;
use jx_base::{NoMemory, Style};
use jx_tier1_specs::{Question, Reader, Source};
use std::marker::Model;

/// Answers by the decisions of a segment, and writes each answer into another segment.
#[derive(Drop)]
pub struct Copier<'a> {
    pub reader: Reader<'a>,
    pub pen: Pen,
}

impl<'a> Model for Copier<'a> {
    ghost use Rattle.jx_tier1.specs.InStep.{Copying};

    ghost Value = { Copying };

    ghost view = { λ c. record { reading = c.reader; writing = c.pen } };
}

impl<'a> Copier<'a> {
    /// Starts the contexts of a pass anew, as the old style has it and as the new one has it.
    pub fn renew(&mut self, old: Style, new: Style)
        ensures { self.new ≡ renewed_both old.bits new.bits self.old }
    {
        if old.reset() {
            self.reader.renew();
        }
        if new.reset() {
            self.pen.renew();
        }
    }
}

impl<'a> Source for Copier<'a> {
    ghost use Rattle.std.specs.Prelude.{false};
    ghost use Rattle.jx_tier1.specs.InStep.{copy_answer};

    ghost ask = { copy_answer };

    ghost is_sure = { false };

    #[inline(always)]
    fn ask(&mut self, question: Question) -> Result<bool, NoMemory> {
        let answer = self.reader.ask(question)?;
        self.pen.write(question, answer)?;
        Ok(answer)
    }
}
