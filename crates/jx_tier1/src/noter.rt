//! Decisions of one segment, each noted in the coefficients.

ghost use Rattle.std.specs.Prelude.{◌≡◌, ◌+◌, ◌-◌, ◌%◌, ◌^◌, ◌<◌, ◌≤◌, ℕ, Bool, false, if◌then◌else◌, OnOk, IfOk};
ghost use Rattle.jx_tier1_specs.specs.Cells.{Cells, coef_at, with_coef};
ghost use Rattle.jx_tier1_specs.specs.Pass.{IsScan, changed, with_bit, zeroed, number_in_run};
ghost use Rattle.jx_tier1_specs.specs.Reading.{read_answer, renewed};
ghost use Rattle.jx_tier1.specs.Noting.{Noting, noting, with_more, first_bit, noted_about};

use crate::FlagGrid;
use jx_base::{NoMemory, Style};
use jx_tier1_specs::{About, Coef, Plane, Question, Reader, Source};
use std::marker::Model;

/// Answers by the decisions of a segment, and notes each answer in the coefficients: the bits of a
/// plane that a scan has reached, and between the bits that name a place of a run and its sign these
/// two.
#[derive(Drop)]
pub struct Noter<'a> {
    pub reader: Reader<'a>,
    pub grid: FlagGrid,
    pub plane: Plane,
    pub high: bool,
    pub low: bool,
}

impl<'a> Model for Noter<'a> {
    ghost use Rattle.std.specs.Prelude.{◌<◌};
    ghost use Rattle.jx_tier1.specs.Noting.{Noting};

    ghost Value = { Noting };

    ghost view = { λ n. record { plane = n.plane; cells = n.grid; high = n.high; low = n.low; reading = n.reader } };

    ghost invariant = { λ n. n.plane.number < 74 };
}

/// The number that two bits name.
#[inline(always)]
fn number(high: bool, low: bool) -> u16
    ensures number { result ≡ number_in_run high low }
    ensures few { result < 4 }
{
    2 * u16::from(high) + u16::from(low)
}

/// Notes that so many places of a column from one downwards are decided to be 0.
#[tactic(auto, using(jx_tier1_specs::proofs::RunLemmas::zeroed_more))]
fn zero(grid: &mut FlagGrid, plane: Plane, count: u16, x: u16, y: u16)
    requires plane { plane.number < 74 }
    requires few { count ≤ 4 }
    ensures { grid.new ≡ zeroed plane count grid.old x y }
{
    for i in 0..count {
        let row = u32::from(y) + u32::from(i);
        grid.note(x, row, plane, 0, false);
    }
}

impl<'a> Noter<'a> {
    /// Starts a pass over a plane, whose contexts start anew where the style has it.
    pub fn begin(&mut self, plane: Plane, style: Style)
        requires { IsScan plane }
        ensures { self.new ≡ noting plane self.old.cells (renewed style.bits self.old.reading) }
    {
        if style.reset() {
            self.reader.renew();
        }
        self.plane = plane;
        self.high = false;
        self.low = false;
    }

    /// Notes a bit at a place.
    #[inline(always)]
    fn note_bit(&mut self, shift: u8, x: u16, y: u16, bit: bool)
        requires { shift < 128 }
        ensures { self.new ≡ record self.old { cells = changed self.old.cells x y (with_more self.old.plane shift bit) } }
    {
        self.grid.note(x, u32::from(y), self.plane, shift, bit);
    }

    /// Notes a sign, and that the places of its run above it are 0.
    #[inline(always)]
    fn note_sign(&mut self, shift: u8, x: u16, y: u16, negative: bool)
        requires { shift < 128 }
        ensures { self.new ≡ record self.old {
          cells = zeroed self.old.plane (number_in_run self.old.high self.old.low) (changed self.old.cells x y (first_bit self.old.plane shift negative)) x (y - number_in_run self.old.high self.old.low);
          high = false;
          low = false;
        } }
    {
        let coef = Coef {
            negative,
            bits: 1 << shift,
            planes: self.plane.number + 1,
        };
        self.grid.change(x, u32::from(y), coef);
        let above = number(self.high, self.low);
        zero(
            &mut self.grid,
            self.plane,
            above,
            x,
            y.saturating_sub(above),
        );
        self.high = false;
        self.low = false;
    }

    /// Notes whether one of four places has the bit 1.
    #[inline(always)]
    fn note_run(&mut self, x: u16, y: u16, any: bool)
        ensures { self.new ≡ (if any then self.old else record self.old { cells = zeroed self.old.plane 4 self.old.cells x y }) }
    {
        if any {
            return;
        }
        zero(&mut self.grid, self.plane, 4, x, y);
    }

    /// Notes an answer.
    #[inline(always)]
    fn note(&mut self, shift: u8, about: About, answer: bool)
        requires { shift < 128 }
        ensures { self.new ≡ noted_about self.old shift about answer }
    {
        match about {
            About::Bit(x, y) => self.note_bit(shift, x, y, answer),
            About::Sign(x, y) => self.note_sign(shift, x, y, answer),
            About::Run(x, y) => self.note_run(x, y, answer),
            About::High(..) => self.high = answer,
            About::Low(..) => self.low = answer,
            About::Symbol(_) => {}
        }
    }
}

impl<'a> Source for Noter<'a> {
    ghost use Rattle.std.specs.Prelude.{false};
    ghost use Rattle.jx_tier1.specs.Noting.{note_answer};

    ghost ask = { note_answer };

    ghost is_sure = { false };

    #[inline(always)]
    fn ask(&mut self, question: Question) -> Result<bool, NoMemory> {
        let answer = self.reader.ask(question)?;
        self.note(question.shift, question.about, answer);
        Ok(answer)
    }
}
