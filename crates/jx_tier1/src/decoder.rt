//! One coding pass after another, decoded.

ghost use Rattle.std.specs.Prelude.{◌≡◌, ◌+◌, ◌++◌, ◌∷◌, [], ◌/◌, ◌%◌, ◌^◌, ◌==◌, ◌&&◌, ◌<◌, ◌≤◌, ℕ, length, drop, All, OnOk, IfOk, IsOk};
ghost use Rattle.jx_tier1_specs.specs.Cells.{Cells, AreWithin};
ghost use Rattle.jx_tier1_specs.specs.Pass.{IsScan, plane_of};
ghost use Rattle.jx_tier1_specs.specs.Segments.{begins};
ghost use Rattle.jx_tier1_specs.specs.Reading.{Decoding, coding_of, first_segment, opened, read_bits, read_symbol, looked_of, read_within, read_pass, first_wrong};
ghost use Rattle.jx_tier1.specs.Blocks.{BlockWords};
ghost use Rattle.jx_tier1.specs.BlockPasses.{Shows, HasSizeOf};
ghost use Rattle.jx_tier1.specs.Walking.{IsNow};
ghost use Rattle.jx_tier1_specs.specs.Short.{AreShort, with_bits};
ghost use Rattle.jx_base.specs.Passes.{is_causal, has_symbols};

use crate::block::BlockState;
use crate::contexts::Tables;
use crate::noter::Noter;
use crate::passes::walk_pass;
use crate::questions::plane_for;
use jx_base::{Band, NoMemory, Style, ends_segment, is_raw};
use jx_tier1_specs::ask_symbol;
use std::marker::Model;

/// A block of which some passes were decoded.
#[derive(Drop)]
pub struct Decoder<'a> {
    pub noter: Noter<'a>,
    pub segments: &'a [&'a [u8]],
    pub next: usize,
    pub looked: Vec<usize>,
    pub wrong: Option<u16>,
}

impl<'a> Model for Decoder<'a> {
    ghost use Rattle.std.specs.Prelude.{map, drop};
    ghost use Rattle.jx_tier1_specs.specs.Segments.{bytes_of};
    ghost use Rattle.jx_tier1_specs.specs.Reading.{Decoding};

    ghost Value = { Decoding };

    ghost view = { λ d. record { cells = d.noter.cells; reading = d.noter.reading; rest = map bytes_of (drop d.next d.segments.now); looked = d.looked.items; wrong = d.wrong } };
}

/// Whether a pass is the first of its segment.
fn begins_segment(style: Style, pass: u16) -> bool
    ensures { result ≡ begins style.bits pass }
{
    pass == 0 || ends_segment(style, pass - 1)
}

/// Whether a segmentation symbol follows a pass (T.800 D.5).
fn has_symbol(style: Style, pass: u16) -> bool
    ensures { result ≡ has_symbols style.bits && pass % 3 == 0 }
{
    style.segmentation() && pass % 3 == 0
}

impl<'a> Decoder<'a> {
    /// The next segment; one of no bytes where none is left.
    fn take_segment(&mut self) -> &'a [u8]
        requires { AreShort self.old.rest }
        ensures segment { result.now ≡ first_segment self.old.rest }
        ensures short { length result.now < 2 ^ 32 }
        ensures decoding { self.new ≡ record self.old { rest = drop 1 self.old.rest } }
        ensures rest { AreShort self.new.rest }
    {
        if self.next < self.segments.len() {
            let segment = self.segments[self.next];
            self.next += 1;
            return segment;
        }
        &[]
    }

    /// Begins a segment where the pass does.
    fn open(&mut self, style: Style, pass: u16)
        requires { AreShort self.old.rest }
        ensures decoding { self.new ≡ opened style.bits pass self.old }
        ensures rest { AreShort self.new.rest }
        ensures cells { self.new.cells ≡ self.old.cells }
    {
        if begins_segment(style, pass) {
            let segment = self.take_segment();
            self.noter.reader.begin(is_raw(style, pass), segment);
        }
    }

    /// Whether the segmentation symbol after a pass is right, where there is one.
    fn symbol(&mut self, style: Style, pass: u16) -> Result<bool, NoMemory>
        ensures right { IfOk result (λ right. right ≡ (read_symbol style.bits pass self.old.reading).0) }
        ensures decoding { OnOk result (self.new ≡ record self.old { reading = (read_symbol style.bits pass self.old.reading).1 }) }
        ensures kept { self.new.cells ≡ self.old.cells }
    {
        if !has_symbol(style, pass) {
            return Ok(true);
        }
        ask_symbol(&mut self.noter.reader)
    }

    /// Notes what was looked at by the end of a pass, and whether its symbol is wrong.
    fn note(&mut self, pass: u16, right: bool) -> Result<(), NoMemory>
        ensures decoding { OnOk result (self.new ≡ record self.old {
          looked = self.old.looked ++ looked_of self.old.reading ∷ [];
          wrong = first_wrong self.old.wrong pass right;
        }) }
    {
        self.looked.push(self.noter.reader.looked() as usize)?;
        if self.wrong.is_none() && !right {
            self.wrong = Some(pass);
        }
        Ok(())
    }

    /// A pass's own decisions.
    fn bits(
        &mut self,
        block: &mut BlockState,
        tables: &Tables,
        band: Band,
        style: Style,
        planes: u8,
        pass: u16,
    ) -> Result<(), NoMemory>
        requires scan { IsScan (plane_of band (is_causal style.bits) planes pass) }
        requires few { pass ≤ 220 }
        requires band { tables.now ≡ band }
        requires wide { block.old.width ≤ 1024 }
        requires high { block.old.height ≤ 1024 }
        requires shows { Shows planes pass self.old.cells block.old }
        requires now { IsNow (plane_of band (is_causal style.bits) planes pass) self.old.cells }
        requires within { AreWithin planes ((pass + 2) / 3 + 1) self.old.cells }
        ensures decoding { OnOk result (self.new ≡ with_bits self.old (read_bits (coding_of band style.bits planes) pass self.old)) }
        ensures size { HasSizeOf block.old block.new }
        ensures shows { OnOk result (Shows planes (pass + 1) self.new.cells block.new) }
        ensures within { OnOk result (AreWithin planes ((pass + 2) / 3 + 1) self.new.cells) }
    {
        let plane = plane_for(band, style, planes, pass);
        self.noter.begin(plane, style);
        walk_pass(&mut self.noter, block, tables, plane, pass)?;
        Ok(())
    }

    /// A pass within its segment.
    fn pass_within(
        &mut self,
        block: &mut BlockState,
        tables: &Tables,
        band: Band,
        style: Style,
        planes: u8,
        pass: u16,
    ) -> Result<(), NoMemory>
        requires scan { IsScan (plane_of band (is_causal style.bits) planes pass) }
        requires few { pass ≤ 220 }
        requires band { tables.now ≡ band }
        requires wide { block.old.width ≤ 1024 }
        requires high { block.old.height ≤ 1024 }
        requires shows { Shows planes pass self.old.cells block.old }
        requires now { IsNow (plane_of band (is_causal style.bits) planes pass) self.old.cells }
        requires within { AreWithin planes ((pass + 2) / 3 + 1) self.old.cells }
        ensures decoding { OnOk result (self.new ≡ read_within (coding_of band style.bits planes) pass self.old) }
        ensures size { HasSizeOf block.old block.new }
        ensures shows { OnOk result (Shows planes (pass + 1) self.new.cells block.new) }
        ensures within { OnOk result (AreWithin planes ((pass + 2) / 3 + 1) self.new.cells) }
    {
        self.bits(block, tables, band, style, planes, pass)?;
        let right = self.symbol(style, pass)?;
        self.note(pass, right)
    }

    /// The next pass of the block, whose coefficients the words of the block show.
    pub fn pass(
        &mut self,
        block: &mut BlockState,
        tables: &Tables,
        band: Band,
        style: Style,
        planes: u8,
        pass: u16,
    ) -> Result<(), NoMemory>
        requires scan { IsScan (plane_of band (is_causal style.bits) planes pass) }
        requires few { pass ≤ 220 }
        requires band { tables.now ≡ band }
        requires wide { block.old.width ≤ 1024 }
        requires high { block.old.height ≤ 1024 }
        requires shows { Shows planes pass self.old.cells block.old }
        requires now { IsNow (plane_of band (is_causal style.bits) planes pass) self.old.cells }
        requires within { AreWithin planes ((pass + 2) / 3 + 1) self.old.cells }
        requires rest { AreShort self.old.rest }
        ensures decoding { OnOk result (self.new ≡ read_pass (coding_of band style.bits planes) pass self.old) }
        ensures size { HasSizeOf block.old block.new }
        ensures shows { OnOk result (Shows planes (pass + 1) self.new.cells block.new) }
        ensures within { OnOk result (AreWithin planes ((pass + 2) / 3 + 1) self.new.cells) }
        ensures rest { OnOk result (AreShort self.new.rest) }
    {
        self.open(style, pass);
        self.pass_within(block, tables, band, style, planes, pass)
    }
}
