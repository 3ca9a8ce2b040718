//! Code-blocks of a band that stay decoded while those of the other codestream that stand beside them are compared.

ghost use Rattle.std.specs.Prelude.{◌≡◌, ◌<◌, ◌^◌, ◌⊎◌, [], ℕ, slice_get, Some, IfOk, IfSome, OnOk};
ghost use Rattle.jx_base.specs.declared.pieces.Block.{Block};
ghost use Rattle.jx_base.specs.Places.{InRect};
ghost use Rattle.jx_geom.specs.Geometry.{band_in};
ghost use Rattle.jx_same.specs.Sides.{AreOnShelf, HasBandOf, agrees_at, geometry_at};

use crate::decoded::Decoded;
use crate::side::{BandName, InCells, Side};
use jx_base::NoMemory;
use std::alloc::Global;
use std::marker::Model;

/// Decoded code-blocks, at most as many as a cell has: each has a slot of its own there, and one that comes takes the place of that of
/// another cell. So a code-block is decoded once, as long as cells are gone through one after another.
#[derive(Drop)]
pub(crate) struct Shelf<'a> {
    slots: Vec<Option<Decoded<'a>>>,
    cells: InCells,
}

impl<'a> Model for Shelf<'a> {
    ghost use Rattle.std.specs.Prelude.{◌<◌, List, Option};
    ghost use Rattle.jx_base.specs.declared.pieces.Block.{Block};

    ghost Value = { List (Option Block) };

    ghost view = { λ s. s.slots.items };

    ghost invariant = { λ s. (s.cells.across < 32) × (s.cells.down < 32) × (0 < s.cells.columns) × (0 < s.cells.rows) };
}

/// What stands in a slot, where it has a place.
fn found<'b, 'a>(
    slots: &'b [Option<Decoded<'a>>],
    at: usize,
    x: u32,
    y: u32,
) -> Option<&'b Decoded<'a>>
    ensures there { IfSome result (λ d. slice_get slots.now at ≡ Some (Some d.now)) }
    ensures has { IfSome result (λ d. InRect d.now.rect x y) }
{
    let Some(slot) = slots.get(at) else {
        return None;
    };
    let Some(hand) = slot else {
        return None;
    };
    if !hand.has(x, y) {
        return None;
    }
    Some(hand)
}

/// Puts a code-block into a slot.
fn put<'a>(
    slots: &mut Vec<Option<Decoded<'a>>>,
    at: usize,
    hand: Decoded<'a>,
) -> Result<(), NoMemory>
    requires { at < 2 ^ 32 }
    ensures { OnOk result ((i : ℕ) (b : Block) → slice_get slots.new.items i ≡ Some (Some b)
        → (slice_get slots.old.items i ≡ Some (Some b)) ⊎ (b ≡ hand.entry)) }
{
    for _slot in slots.len()..at + 1 {
        slots.push(None)?;
    }
    slots[at] = Some(hand);
    Ok(())
}

impl<'a> Shelf<'a> {
    /// A shelf without a code-block. It takes no memory.
    pub(crate) fn new(alloc: Global, cells: InCells) -> Shelf<'a>
        requires across { cells.across < 32 }
        requires down { cells.down < 32 }
        requires columns { 0 < cells.columns }
        requires rows { 0 < cells.rows }
        ensures { result ≡ [] }
    {
        Shelf {
            slots: Vec::new(alloc),
            cells,
        }
    }

    /// The slot of the code-block that has a place.
    fn slot(&self, x: u32, y: u32) -> usize
        ensures { result < 2 ^ 32 }
    {
        let column = (x >> self.cells.across) % self.cells.columns;
        let row = (y >> self.cells.down) % self.cells.rows;
        // a cell has 256 at most, so nothing wraps
        row.wrapping_mul(self.cells.columns).wrapping_add(column) as usize
    }

    /// Whether a code-block that has a place of a band has the coefficient there that a codestream has: sign, magnitude bits and
    /// decoded planes. Where no code-block at hand has the place, the one that has it is decoded.
    ///
    /// # Errors
    ///
    /// `NoMemory` where memory is refused.
    pub(crate) fn agrees(
        &mut self,
        alloc: Global,
        block: &Decoded<'_>,
        side: &Side<'a>,
        name: BandName,
        x: u32,
        y: u32,
    ) -> Result<bool, NoMemory>
        requires shelf { AreOnShelf side.now name self.old }
        requires band { HasBandOf side.now name }
        requires place { InRect (band_in (geometry_at side.now) name.comp name.res name.band) x y }
        requires here { InRect block.now.rect x y }
        ensures shelf { OnOk result (AreOnShelf side.now name self.new) }
        ensures agrees { IfOk result (λ same. same ≡ agrees_at side.now name block.now x y) }
    {
        let at = self.slot(x, y);
        if let Some(hand) = found(&self.slots, at, x, y) {
            return Ok(block.agrees(hand, x, y));
        }
        let hand = Decoded::new(alloc, side.block_over(name, x, y))?;
        let same = block.agrees(&hand, x, y);
        put(&mut self.slots, at, hand)?;
        Ok(same)
    }
}
