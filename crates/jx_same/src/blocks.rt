//! The coefficients of a code-block of one codestream, compared with those of the same places in the other.

ghost use Rattle.std.specs.Prelude.{◌≡◌, ◌<◌, ◌+◌, ℕ, find, IfOk, IsTrue, OnOk};
ghost use Rattle.jx_base.specs.Places.{InRect, InSpan, column_at, row_at, size_of};
ghost use Rattle.jx_geom.specs.Geometry.{band_in, blocks_in};
ghost use Rattle.jx_same.specs.declared.answer.Field.TheVariants as field;
ghost use Rattle.jx_same.specs.Items.{block_items, coef_items, differs};
ghost use Rattle.jx_same.specs.Sides.{AreAligned, AreOnShelf, AreVoid, Covers, HasBandOf, geometry_at, meaning_at};

use crate::decoded::{Decoded, are_alike};
use crate::shelf::Shelf;
use crate::side::{BandName, Side};
use crate::{Field, Spot};
use jx_base::{Block, NoMemory, Rect, Span};
use std::alloc::Global;

/// The spot of a coefficient.
fn spot_of(tile: u16, name: BandName, x: u32, y: u32) -> Spot
    ensures { result
        ≡ record { field = field.Coef; tile = tile; comp = name.comp; res = name.res; band = name.band; x = x; y = y } }
{
    Spot {
        field: Field::Coef,
        tile,
        comp: name.comp,
        res: name.res,
        band: name.band,
        x,
        y,
    }
}

/// The place after another one of a rect, row by row; below the last one it is no place of the rect.
#[tactic(auto, using(crate::proofs::StepLemmas::next_across, crate::proofs::StepLemmas::next_down))]
fn place_after(rect: Rect, x: u32, y: u32) -> (u32, u32)
    requires { InRect rect x y }
    ensures { (n : ℕ) → x ≡ column_at rect n → y ≡ row_at rect n
        → (result.0 ≡ column_at rect (n + 1)) × (result.1 ≡ row_at rect (n + 1)) }
{
    if x + 1 < rect.x.high {
        return (x + 1, y);
    }
    (rect.x.low, y + 1)
}

/// The first place of a code-block of which the coefficients differ, row by row. Code-blocks of the other codestream come from a shelf.
fn compare_places<'a>(
    alloc: Global,
    a: &Side<'_>,
    block: &Decoded<'_>,
    b: &Side<'a>,
    shelf: &mut Shelf<'a>,
    name: BandName,
) -> Result<Option<Spot>, NoMemory>
    requires aligned { AreAligned a.now b.now name.comp }
    requires band { HasBandOf a.now name }
    requires block { Covers a.now name block.now }
    requires inside { (x y : ℕ) → InRect block.now.rect x y
        → InRect (band_in (geometry_at a.now) name.comp name.res name.band) x y }
    requires shelf { AreOnShelf b.now name shelf.old }
    ensures first { IfOk result (λ found. found
        ≡ find (differs (meaning_at a.now) (meaning_at b.now))
        (coef_items a.now.tile name.comp name.res name.band block.now.rect)) }
    ensures shelf { OnOk result (AreOnShelf b.now name shelf.new) }
{
    let rect = block.rect();
    let mut x = rect.x.low;
    let mut y = rect.y.low;
    for _number in 0..rect.area() {
        if !shelf.agrees(alloc, block, b, name, x, y)? {
            return Ok(Some(spot_of(a.tile(), name, x, y)));
        }
        (x, y) = place_after(rect, x, y);
    }
    Ok(None)
}

/// Whether a span has each number of another one.
fn has_span(span: Span, other: Span) -> bool
    ensures { IsTrue result → (n : ℕ) → InSpan other n → InSpan span n }
{
    span.low <= other.low && other.high <= span.high
}

/// Whether neither of two code-blocks has a pass, and the second has all places of the first.
fn are_void(a: &Block<'_>, b: &Block<'_>) -> bool
    ensures { IsTrue result → AreVoid a.now b.now }
{
    let none = a.passes == 0 && b.passes == 0;
    let across = has_span(b.rect.x, a.rect.x);
    let down = has_span(b.rect.y, a.rect.y);
    let inside = across && down;
    none && inside
}

/// The first place of a code-block of which the coefficients differ; none of them is decoded where the other codestream has the
/// same passes in the same segments, or both have none.
///
/// # Errors
///
/// `NoMemory` where memory is refused.
pub(crate) fn compare_block<'a>(
    alloc: Global,
    a: &Side<'_>,
    b: &Side<'a>,
    shelf: &mut Shelf<'a>,
    name: BandName,
    index: u32,
) -> Result<Option<Spot>, NoMemory>
    requires aligned { AreAligned a.now b.now name.comp }
    requires band { HasBandOf a.now name }
    requires index { index < size_of (blocks_in (geometry_at a.now) name.comp name.res name.band) }
    requires shelf { AreOnShelf b.now name shelf.old }
    ensures first { IfOk result (λ found. found
        ≡ find (differs (meaning_at a.now) (meaning_at b.now))
        (block_items (geometry_at a.now) name.comp name.res name.band index)) }
    ensures shelf { OnOk result (AreOnShelf b.now name shelf.new) }
{
    let block = a.block(name, index);
    let twin = b.block_over(name, block.rect.x.low, block.rect.y.low);
    if are_void(block, twin) {
        return Ok(None);
    }
    if are_alike(alloc, block, twin)? {
        return Ok(None);
    }
    let block = Decoded::new(alloc, block)?;
    compare_places(alloc, a, &block, b, shelf, name)
}
