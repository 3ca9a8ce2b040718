//! One coding pass after another, decoded and coded in step.

ghost use Rattle.std.specs.Prelude.{◌≡◌, ◌+◌, ◌*◌, ◌++◌, ◌∷◌, [], ◌/◌, ◌%◌, ◌^◌, ◌==◌, ◌&&◌, ◌||◌, ◌<◌, ◌≤◌, ℕ, length, map, drop, OnOk, IfOk};
ghost use Rattle.jx_base.specs.Passes.{raw_pass, end_pass, is_causal, has_symbols};
ghost use Rattle.jx_tier1_specs.specs.Asking.{told};
ghost use Rattle.jx_tier1_specs.specs.Cells.{Cells};
ghost use Rattle.jx_tier1_specs.specs.Pass.{IsScan, plane_of, scanned};
ghost use Rattle.jx_tier1_specs.specs.Reading.{coding_of, first_segment, read_symbol, first_wrong, ends_by_symbol};
ghost use Rattle.jx_tier1.specs.InStep.{Recoding, begun, checked, copy_answer, marked, ended, recoded_pass, renewed_both};
ghost use Rattle.jx_tier1.specs.Blocks.{BlockWords};
ghost use Rattle.jx_tier1.specs.BlockPasses.{Shows, HasSizeOf, Ends};
ghost use Rattle.jx_tier1.specs.Placing.{placed, Goes};
ghost use Rattle.jx_tier1.specs.Walking.{IsNow};
ghost use Rattle.jx_tier1_specs.specs.Writing.{fresh_writing, segment_by};
ghost use Rattle.jx_tier1_specs.specs.Short.{AreShort};
ghost use Rattle.jx_tier1_specs.specs.Ends.{stand_of, end_in};

use crate::block::BlockState;
use crate::contexts::Tables;
use crate::copier::Copier;
use crate::ends::tell;
use crate::passes::walk_pass;
use crate::questions::plane_for;
use jx_base::{Band, NoMemory, Style, ends_segment, is_raw};
use jx_tier1_specs::{Stand, ask_symbol};
use std::alloc::Global;
use std::marker::Model;

/// A block of which some passes were decoded and coded in step. What is kept of its coefficients
/// stands apart, in `Marks`.
#[derive(Drop)]
pub struct Recoder<'a> {
    pub copier: Copier<'a>,
    pub segments: &'a [&'a [u8]],
    pub next: usize,
    pub wrong: Option<u16>,
    pub done: Vec<Vec<u8>>,
    pub stands: Vec<Stand>,
    pub looked: Vec<usize>,
}

impl<'a> Model for Recoder<'a> {
    ghost use Rattle.std.specs.Prelude.{map, drop};
    ghost use Rattle.jx_tier1_specs.specs.Segments.{bytes_of};
    ghost use Rattle.jx_tier1.specs.InStep.{Recoding, no_grid};

    ghost Value = { Recoding };

    ghost view = { λ r. record {
      cells = no_grid;
      copying = r.copier;
      rest = map bytes_of (drop r.next r.segments.now);
      wrong = r.wrong;
      done = map (λ s. s.items) r.done.items;
      stands = r.stands.items;
      looked = r.looked.items;
    } };
}

/// Whether a segmentation symbol follows a pass (T.800 D.5).
fn has_symbol(style: Style, pass: u16) -> bool
    ensures { result ≡ ends_by_symbol style.bits pass }
{
    style.segmentation() && pass % 3 == 0
}

/// Whether a segment ends with a pass, which may be the block's last.
fn is_end(style: Style, pass: u16, last: bool) -> bool
    ensures { result ≡ (end_pass style.bits pass || last) }
{
    ends_segment(style, pass) || last
}

impl<'a> Recoder<'a> {
    /// The next segment; one of no bytes where none is left.
    fn take_segment(&mut self) -> &'a [u8]
        requires { AreShort self.old.rest }
        ensures segment { result.now ≡ first_segment self.old.rest }
        ensures short { length result.now < 2 ^ 32 }
        ensures recoding { self.new ≡ record self.old { rest = drop 1 self.old.rest } }
        ensures rest { AreShort self.new.rest }
    {
        if self.next < self.segments.len() {
            let segment = self.segments[self.next];
            self.next += 1;
            return segment;
        }
        &[]
    }

    /// Begins a segment of the old style where the pass does.
    #[tactic(auto, unfolding(crate::specs::InStep::begun))]
    fn open(&mut self, style: Style, pass: u16)
        requires { AreShort self.old.rest }
        ensures recoding { self.new ≡ begun style.bits pass self.old }
        ensures rest { AreShort self.new.rest }
    {
        if pass == 0 || ends_segment(style, pass - 1) {
            let segment = self.take_segment();
            self.copier.reader.begin(is_raw(style, pass), segment);
        }
    }

    /// A pass's own decisions.
    fn bits(
        &mut self,
        block: &mut BlockState,
        tables: &Tables,
        band: Band,
        old: Style,
        new: Style,
        planes: u8,
        pass: u16,
    ) -> Result<(), NoMemory>
        requires scan { IsScan (plane_of band (is_causal old.bits) planes pass) }
        requires few { pass ≤ 220 }
        requires band { tables.now ≡ band }
        requires wide { block.old.width ≤ 1024 }
        requires high { block.old.height ≤ 1024 }
        ensures size { HasSizeOf block.old block.new }
        ensures kept { self.new ≡ record self.old { copying = self.new.copying } }
        ensures walk { (g : Cells) → Shows planes pass g block.old → IsNow (plane_of band (is_causal old.bits) planes pass) g
            → OnOk result (Ends planes (pass + 1) (told copy_answer (scanned pass (plane_of band (is_causal old.bits) planes pass) (g.width * g.height) 0 g)
            (renewed_both old.bits new.bits self.old.copying)) block.new self.new.copying) }
    {
        self.copier.renew(old, new);
        let plane = plane_for(band, old, planes, pass);
        walk_pass(&mut self.copier, block, tables, plane, pass)?;
        Ok(())
    }

    /// Whether the segmentation symbol after a pass of the old style is right, where there is one.
    fn symbol(&mut self, style: Style, pass: u16) -> Result<bool, NoMemory>
        ensures right { IfOk result (λ right. right ≡ (read_symbol style.bits pass self.old.copying.reading).0) }
        ensures recoding { OnOk result (self.new ≡ record self.old {
          copying = record self.old.copying { reading = (read_symbol style.bits pass self.old.copying.reading).1 };
        }) }
    {
        if !has_symbol(style, pass) {
            return Ok(true);
        }
        ask_symbol(&mut self.copier.reader)
    }

    /// Notes whether the segmentation symbol of the old style is wrong.
    #[tactic(auto, unfolding(crate::specs::InStep::checked))]
    fn check(&mut self, style: Style, pass: u16) -> Result<(), NoMemory>
        ensures recoding { OnOk result (self.new ≡ checked style.bits pass self.old) }
        ensures rest { OnOk result (self.new.rest ≡ self.old.rest) }
    {
        let right = self.symbol(style, pass)?;
        if self.wrong.is_none() && !right {
            self.wrong = Some(pass);
        }
        Ok(())
    }

    /// Writes the segmentation symbol of the new style, where there is one.
    #[tactic(auto, unfolding(crate::specs::InStep::marked))]
    fn mark(&mut self, style: Style, pass: u16) -> Result<(), NoMemory>
        ensures recoding { OnOk result (self.new ≡ marked style.bits pass self.old) }
        ensures rest { OnOk result (self.new.rest ≡ self.old.rest) }
    {
        if has_symbol(style, pass) {
            return self.copier.pen.symbol();
        }
        Ok(())
    }

    /// Notes where the pen stands at the end of a pass.
    fn note(&mut self) -> Result<(), NoMemory>
        ensures { OnOk result (self.new ≡ record self.old { stands = self.old.stands ++ stand_of self.old.copying.writing ∷ [] }) }
    {
        let stand = self.copier.pen.stand();
        self.stands.push(stand)?;
        Ok(())
    }

    /// Ends a segment of the new style, of which it is known then how far a decoder has looked.
    fn end(&mut self, alloc: Global, style: Style, pass: u16) -> Result<(), NoMemory>
        requires { pass < 65535 }
        ensures recoding { OnOk result (self.new ≡ record self.old {
          copying = record self.old.copying {
            writing = fresh_writing self.old.copying.writing.target (raw_pass style.bits (pass + 1)) self.old.copying.writing.contexts;
          };
          done = self.old.done ++ segment_by self.old.copying.writing ∷ [];
          stands = [];
          looked = self.old.looked ++ map (λ s. end_in (segment_by self.old.copying.writing) s) self.old.stands;
        }) }
    {
        let segment = self.copier.pen.finish(alloc, is_raw(style, pass + 1))?;
        tell(&mut self.looked, &self.stands, &segment)?;
        self.stands.clear();
        self.done.push(segment)?;
        Ok(())
    }

    /// Ends a pass, and a segment of the new style where the pass does.
    #[tactic(auto, unfolding(crate::specs::InStep::ended))]
    fn close(&mut self, alloc: Global, style: Style, pass: u16, last: bool) -> Result<(), NoMemory>
        requires { pass < 65535 }
        ensures recoding { OnOk result (self.new ≡ ended style.bits last pass self.old) }
        ensures rest { OnOk result (self.new.rest ≡ self.old.rest) }
    {
        self.note()?;
        if !is_end(style, pass, last) {
            return Ok(());
        }
        self.end(alloc, style, pass)?;
        Ok(())
    }

    /// The next pass of the block, which may be the last.
    pub fn pass(
        &mut self,
        alloc: Global,
        block: &mut BlockState,
        tables: &Tables,
        band: Band,
        old: Style,
        new: Style,
        planes: u8,
        pass: u16,
        last: bool,
    ) -> Result<(), NoMemory>
        requires scan { IsScan (plane_of band (is_causal old.bits) planes pass) }
        requires few { pass ≤ 220 }
        requires band { tables.now ≡ band }
        requires wide { block.old.width ≤ 1024 }
        requires high { block.old.height ≤ 1024 }
        requires rest { AreShort self.old.rest }
        ensures size { HasSizeOf block.old block.new }
        ensures rest { OnOk result (AreShort self.new.rest) }
        ensures walk { (g : Cells) → Shows planes pass g block.old → IsNow (plane_of band (is_causal old.bits) planes pass) g
            → OnOk result (Goes planes (pass + 1) (recoded_pass (coding_of band old.bits planes) (coding_of band new.bits planes) last pass (placed g self.old)) block.new self.new) }
    {
        self.open(old, pass);
        self.bits(block, tables, band, old, new, planes, pass)?;
        self.check(old, pass)?;
        self.mark(new, pass)?;
        self.close(alloc, new, pass, last)?;
        Ok(())
    }
}
