//! One coding pass after another, coded.

ghost use Rattle.std.specs.Prelude.{◌≡◌, ◌+◌, ◌-◌, ◌*◌, ◌/◌, ◌<◌, ◌≤◌, ◌++◌, ◌∷◌, [], ◌||◌, ℕ, Bool, List, if◌then◌else◌, OnOk};
ghost use Rattle.jx_base.specs.Passes.{raw_pass, end_pass, is_causal};
ghost use Rattle.jx_tier1_specs.specs.Asking.{told};
ghost use Rattle.jx_tier1_specs.specs.Cells.{Cells};
ghost use Rattle.jx_tier1_specs.specs.Pass.{IsScan, plane_of, scanned};
ghost use Rattle.jx_tier1_specs.specs.Reading.{coding_of};
ghost use Rattle.jx_tier1.specs.Blocks.{BlockWords};
ghost use Rattle.jx_tier1.specs.BlockPasses.{Shows, HasSizeOf, Ends};
ghost use Rattle.jx_tier1.specs.Placing.{coded_in, Comes};
ghost use Rattle.jx_tier1.specs.Walking.{IsNow};
ghost use Rattle.jx_tier1_specs.specs.Writing.{Writing, fresh_writing, segment_by, write_answer};
ghost use Rattle.jx_tier1_specs.specs.Encoding.{Encoding, renewed_writing, after_symbol, closed, after_step};

use crate::block::BlockState;
use crate::contexts::Tables;
use crate::passes::walk_pass;
use crate::questions::plane_for;
use crate::writer::Writer;
use jx_base::{Band, NoMemory, Style, ends_segment, is_raw};
use jx_tier1_specs::ask_symbol;
use std::alloc::Global;
use std::marker::Model;

/// A block of which some passes were coded: the current segment, and the segments that are done. What
/// is kept of its coefficients so far stands apart, in `Marks`.
#[derive(Drop)]
pub struct Encoder<'a> {
    pub writer: Writer<'a>,
    pub segments: Vec<Vec<u8>>,
}

impl<'a> Model for Encoder<'a> {
    ghost use Rattle.std.specs.Prelude.{map};
    ghost use Rattle.jx_tier1_specs.specs.Encoding.{Encoding};
    ghost use Rattle.jx_tier1.specs.InStep.{no_grid};

    ghost Value = { Encoding };

    ghost view = { λ e. record { cells = no_grid; writing = e.writer; done = map (λ s. s.items) e.segments.items } };
}

impl<'a> Encoder<'a> {
    /// A pass's own decisions.
    fn bits(
        &mut self,
        block: &mut BlockState,
        tables: &Tables,
        band: Band,
        style: Style,
        planes: u8,
        pass: u16,
    ) -> Result<(), NoMemory>
        requires scan { IsScan (plane_of band (is_causal style.bits) planes pass) }
        requires few { pass ≤ 220 }
        requires band { tables.now ≡ band }
        requires wide { block.old.width ≤ 1024 }
        requires high { block.old.height ≤ 1024 }
        ensures size { HasSizeOf block.old block.new }
        ensures kept { self.new ≡ record self.old { writing = self.new.writing } }
        ensures walk { (g : Cells) → Shows planes pass g block.old → IsNow (plane_of band (is_causal style.bits) planes pass) g
            → OnOk result (Ends planes (pass + 1) (told write_answer (scanned pass (plane_of band (is_causal style.bits) planes pass) (g.width * g.height) 0 g)
            (renewed_writing style.bits self.old.writing)) block.new self.new.writing) }
    {
        self.writer.begin(style);
        let plane = plane_for(band, style, planes, pass);
        walk_pass(&mut self.writer, block, tables, plane, pass)?;
        Ok(())
    }

    /// The segmentation symbol after a pass, where there is one (T.800 D.5).
    fn symbol(&mut self, style: Style, pass: u16) -> Result<(), NoMemory>
        ensures encoding { OnOk result (self.new ≡ after_symbol style.bits pass self.old) }
        ensures cells { self.new.cells ≡ self.old.cells }
    {
        if style.segmentation() && pass % 3 == 0 {
            ask_symbol(&mut self.writer)?;
        }
        Ok(())
    }

    /// Ends a segment.
    fn close(&mut self, alloc: Global, style: Style, pass: u16) -> Result<(), NoMemory>
        requires { pass < 65535 }
        ensures encoding { OnOk result (self.new ≡ closed style.bits pass self.old) }
        ensures cells { self.new.cells ≡ self.old.cells }
    {
        let segment = self.writer.finish(alloc, is_raw(style, pass + 1))?;
        self.segments.push(segment)?;
        Ok(())
    }

    /// Ends a segment where the pass does, or is the last.
    fn finish(&mut self, alloc: Global, style: Style, pass: u16, last: bool) -> Result<(), NoMemory>
        requires { pass < 65535 }
        ensures encoding { OnOk result (self.new ≡ (if end_pass style.bits pass || last then closed style.bits pass self.old else self.old)) }
    {
        if last || ends_segment(style, pass) {
            return self.close(alloc, style, pass);
        }
        Ok(())
    }

    /// The next pass of the block, which may be the last.
    pub fn pass(
        &mut self,
        alloc: Global,
        block: &mut BlockState,
        tables: &Tables,
        band: Band,
        style: Style,
        planes: u8,
        pass: u16,
        last: bool,
    ) -> Result<(), NoMemory>
        requires scan { IsScan (plane_of band (is_causal style.bits) planes pass) }
        requires few { pass ≤ 220 }
        requires band { tables.now ≡ band }
        requires wide { block.old.width ≤ 1024 }
        requires high { block.old.height ≤ 1024 }
        requires kind { self.old.writing.raw ≡ raw_pass style.bits pass }
        ensures size { HasSizeOf block.old block.new }
        ensures walk { (g : Cells) → Shows planes pass g block.old → IsNow (plane_of band (is_causal style.bits) planes pass) g
            → OnOk result (Comes planes (pass + 1) (after_step (coding_of band style.bits planes) last pass (coded_in g self.old)) block.new self.new) }
    {
        self.bits(block, tables, band, style, planes, pass)?;
        self.symbol(style, pass)?;
        self.finish(alloc, style, pass, last)?;
        Ok(())
    }
}
