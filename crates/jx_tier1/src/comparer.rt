//! Two codings of a code-block, of which each decision is read twice and compared.

ghost use Rattle.std.specs.Prelude.{◌≡◌, ◌+◌, ◌*◌, ◌/◌, ◌%◌, ◌≤◌, ◌<◌, ◌^◌, OnOk, IfOk, IsOk};
ghost use Rattle.jx_base.specs.Passes.{is_causal};
ghost use Rattle.jx_tier1_specs.specs.Asking.{told};
ghost use Rattle.jx_tier1_specs.specs.Cells.{Cells};
ghost use Rattle.jx_tier1_specs.specs.Pass.{IsScan, plane_of, scanned};
ghost use Rattle.jx_tier1_specs.specs.Reading.{Decoding, coding_of};
ghost use Rattle.jx_tier1.specs.Beside.{Pair, Agree, AreBeside, both_answer, pair_begun, pair_ended};
ghost use Rattle.jx_tier1.specs.Blocks.{BlockWords};
ghost use Rattle.jx_tier1.specs.BlockPasses.{Shows, HasSizeOf, Ends};
ghost use Rattle.jx_tier1.specs.Walking.{IsNow};

use crate::block::BlockState;
use crate::contexts::Tables;
use crate::half::Half;
use crate::passes::walk_pass;
use crate::questions::plane_for;
use jx_base::{Band, NoMemory, Style};
use jx_tier1_specs::{Question, Source};
use std::marker::Model;

/// Answers by the decisions of one coding, and notes whether another one answers alike.
#[derive(Drop)]
pub struct Comparer<'a> {
    pub one: Half<'a>,
    pub two: Half<'a>,
    pub alike: bool,
}

impl<'a> Model for Comparer<'a> {
    ghost use Rattle.jx_tier1.specs.Beside.{Pair};

    ghost Value = { Pair };

    ghost view = { λ c. record { one = c.one; two = c.two; alike = c.alike } };
}

impl<'a> Source for Comparer<'a> {
    ghost use Rattle.std.specs.Prelude.{true};
    ghost use Rattle.jx_tier1.specs.Beside.{both_answer};

    ghost ask = { both_answer };

    ghost is_sure = { true };

    #[inline(always)]
    fn ask(&mut self, question: Question) -> Result<bool, NoMemory> {
        let one = self.one.reader.ask(question)?;
        let two = self.two.reader.ask(question)?;
        self.alike = self.alike && one == two;
        Ok(one)
    }
}

impl<'a> Comparer<'a> {
    /// Begins a pass of both.
    fn begin(&mut self, one: Style, two: Style, pass: u16)
        ensures { self.new ≡ pair_begun one.bits two.bits pass self.old }
    {
        self.one.begin(one, pass);
        self.two.begin(two, pass);
    }

    /// A pass's own decisions, of both.
    fn bits(
        &mut self,
        block: &mut BlockState,
        tables: &Tables,
        band: Band,
        style: Style,
        planes: u8,
        pass: u16,
    ) -> Result<(), NoMemory>
        requires scan { IsScan (plane_of band (is_causal style.bits) planes pass) }
        requires few { pass ≤ 220 }
        requires band { tables.now ≡ band }
        requires wide { block.old.width ≤ 1024 }
        requires high { block.old.height ≤ 1024 }
        ensures size { HasSizeOf block.old block.new }
        ensures walk { (g : Cells) → Shows planes pass g block.old → IsNow (plane_of band (is_causal style.bits) planes pass) g
            → OnOk result (Ends planes (pass + 1) (told both_answer (scanned pass (plane_of band (is_causal style.bits) planes pass) (g.width * g.height) 0 g) self.old) block.new self.new) }
    {
        let plane = plane_for(band, style, planes, pass);
        walk_pass(self, block, tables, plane, pass)?;
        Ok(())
    }

    /// Ends a pass of both.
    fn end(&mut self, one: Style, two: Style, pass: u16) -> Result<(), NoMemory>
        ensures { OnOk result (self.new ≡ pair_ended one.bits two.bits pass self.old) }
    {
        self.one.end(one, pass)?;
        self.two.end(two, pass)?;
        Ok(())
    }

    /// The next pass of the block, in the styles of both, which agree on causal contexts.
    pub fn pass(
        &mut self,
        block: &mut BlockState,
        tables: &Tables,
        band: Band,
        one: Style,
        two: Style,
        planes: u8,
        pass: u16,
    ) -> Result<(), NoMemory>
        requires scan { IsScan (plane_of band (is_causal one.bits) planes pass) }
        requires few { pass ≤ 220 }
        requires causal { is_causal two.bits ≡ is_causal one.bits }
        requires band { tables.now ≡ band }
        requires wide { block.old.width ≤ 1024 }
        requires high { block.old.height ≤ 1024 }
        ensures size { HasSizeOf block.old block.new }
        ensures beside { (a b : Decoding) → Agree planes pass a b block.old self.old → IsNow (plane_of band (is_causal one.bits) planes pass) a.cells
            → OnOk result (AreBeside (coding_of band one.bits planes) (coding_of band two.bits planes) pass a b block.new self.new) }
    {
        self.begin(one, two, pass);
        self.bits(block, tables, band, one, planes, pass)?;
        self.end(one, two, pass)?;
        Ok(())
    }
}
