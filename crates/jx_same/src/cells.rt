//! The code-blocks of rows of a band, compared cell by cell, so that none is decoded twice where those of the other codestream are
//! higher. A cell has the places of whole code-blocks of both codestreams, at most 1,024 by 1,024.

ghost use Rattle.std.specs.Prelude.{◌≡◌, ◌<◌, ◌≤◌, ◌+◌, ◌*◌, IfOk, OnOk, find};
ghost use Rattle.jx_base.specs.Joined.{joined};
ghost use Rattle.jx_base.specs.Places.{size_of};
ghost use Rattle.jx_geom.specs.Geometry.{blocks_in};
ghost use Rattle.jx_same.specs.Items.{block_items, differs};
ghost use Rattle.jx_same.specs.Runs.{IsBest, IsFirstRow, IsWalk, row_items};
ghost use Rattle.jx_same.specs.Sides.{AreAligned, AreOnShelf, HasBandOf, geometry_at, meaning_at};

use crate::Spot;
use crate::blocks::compare_block;
use crate::shelf::Shelf;
use crate::side::{BandName, Side, Walk};
use jx_base::NoMemory;
use std::alloc::Global;

/// The code-blocks of some columns in some rows of a band.
#[derive(Clone, Copy, Debug)]
pub(crate) struct Patch {
    pub(crate) low: u32,
    pub(crate) high: u32,
    pub(crate) left: u32,
    pub(crate) right: u32,
}

/// A difference in a row of code-blocks.
#[derive(Clone, Copy, Debug)]
pub(crate) struct Hit {
    pub(crate) row: u32,
    pub(crate) spot: Spot,
}

/// The first difference so far of rows of code-blocks: it stands in row `end`, and only the rows before have to be looked at.
#[derive(Clone, Copy, Debug)]
pub(crate) struct Best {
    pub(crate) end: u32,
    pub(crate) found: Option<Spot>,
}

/// The first place of the code-blocks of a band from one on below another of which the coefficients differ.
pub(crate) fn compare_between<'a>(
    alloc: Global,
    a: &Side<'_>,
    b: &Side<'a>,
    shelf: &mut Shelf<'a>,
    name: BandName,
    low: u32,
    high: u32,
) -> Result<Option<Spot>, NoMemory>
    requires aligned { AreAligned a.now b.now name.comp }
    requires band { HasBandOf a.now name }
    requires high { high ≤ size_of (blocks_in (geometry_at a.now) name.comp name.res name.band) }
    requires shelf { AreOnShelf b.now name shelf.old }
    ensures first { IfOk result (λ found. found
        ≡ find (differs (meaning_at a.now) (meaning_at b.now))
        (joined (block_items (geometry_at a.now) name.comp name.res name.band) low high)) }
    ensures shelf { OnOk result (AreOnShelf b.now name shelf.new) }
{
    for index in low..high {
        if let Some(spot) = compare_block(alloc, a, b, shelf, name, index)? {
            return Ok(Some(spot));
        }
    }
    Ok(None)
}

/// The index of the code-block of a row and a column; that behind the row's last is the next row's first.
fn index_in(walk: Walk, row: u32, column: u32) -> u32
    requires count { walk.count ≡ walk.wide * walk.high }
    requires row { row < walk.high }
    requires column { column ≤ walk.wide }
    ensures value { result ≡ row * walk.wide + column }
    ensures within { result ≤ walk.count }
{
    let first = row * walk.wide;
    first + column
}

/// The first row of a patch of which coefficients differ, with the first place of the patch in that row.
fn compare_patch<'a>(
    alloc: Global,
    a: &Side<'_>,
    b: &Side<'a>,
    shelf: &mut Shelf<'a>,
    name: BandName,
    walk: Walk,
    patch: Patch,
) -> Result<Option<Hit>, NoMemory>
    requires aligned { AreAligned a.now b.now name.comp }
    requires band { HasBandOf a.now name }
    requires walk { IsWalk (blocks_in (geometry_at a.now) name.comp name.res name.band) walk }
    requires columns { (patch.left ≤ walk.wide) × (patch.right ≤ walk.wide) }
    requires high { patch.high ≤ walk.high }
    requires shelf { AreOnShelf b.now name shelf.old }
    ensures first { IfOk result (λ hit. IsFirstRow (differs (meaning_at a.now) (meaning_at b.now))
        (row_items (block_items
        (geometry_at a.now) name.comp name.res name.band) walk.wide patch.left patch.right) patch.low patch.high hit) }
    ensures shelf { OnOk result (AreOnShelf b.now name shelf.new) }
{
    for row in patch.low..patch.high {
        let from = index_in(walk, row, patch.left);
        let behind = index_in(walk, row, patch.right);
        if let Some(spot) = compare_between(alloc, a, b, shelf, name, from, behind)? {
            return Ok(Some(Hit { row, spot }));
        }
    }
    Ok(None)
}

/// The first difference of rows, once the columns of a cell are compared too.
fn best_after<'a>(
    alloc: Global,
    a: &Side<'_>,
    b: &Side<'a>,
    shelf: &mut Shelf<'a>,
    name: BandName,
    walk: Walk,
    rows: Patch,
    best: Best,
) -> Result<Best, NoMemory>
    requires aligned { AreAligned a.now b.now name.comp }
    requires band { HasBandOf a.now name }
    requires walk { IsWalk (blocks_in (geometry_at a.now) name.comp name.res name.band) walk }
    requires columns { (rows.left ≤ rows.right) × (rows.right ≤ walk.wide) }
    requires high { rows.high ≤ walk.high }
    requires shelf { AreOnShelf b.now name shelf.old }
    requires best { IsBest (differs (meaning_at a.now) (meaning_at b.now))
        (row_items (block_items
        (geometry_at a.now) name.comp name.res name.band) walk.wide 0 rows.left) rows.low rows.high best }
    ensures best { IfOk result (λ after. IsBest (differs (meaning_at a.now) (meaning_at b.now))
        (row_items (block_items
        (geometry_at a.now) name.comp name.res name.band) walk.wide 0 rows.right) rows.low rows.high after) }
    ensures shelf { OnOk result (AreOnShelf b.now name shelf.new) }
{
    let patch = Patch {
        low: rows.low,
        high: best.end,
        left: rows.left,
        right: rows.right,
    };
    if let Some(hit) = compare_patch(alloc, a, b, shelf, name, walk, patch)? {
        return Ok(Best {
            end: hit.row,
            found: Some(hit.spot),
        });
    }
    Ok(best)
}

/// How far it is from a number to the next multiple of a size.
fn up_to_next(number: u32, size: u32) -> u32
    requires { 0 < size }
    ensures { 0 < result }
{
    size - number % size
}

/// Where the cell ends that has a column or a row, counted from `first` on; the band's end if the cell goes on behind it.
pub(crate) fn cell_end(first: u32, at: u32, size: u32, end: u32) -> u32
    requires at { at < end }
    requires size { 0 < size }
    ensures above { at < result }
    ensures within { result ≤ end }
{
    let rest = up_to_next(first.wrapping_add(at), size);
    at.saturating_add(rest).min(end)
}

/// The first place of the rows of a row of cells of which the coefficients differ.
fn compare_cells(
    alloc: Global,
    a: &Side<'_>,
    b: &Side<'_>,
    name: BandName,
    walk: Walk,
    low: u32,
    high: u32,
) -> Result<Option<Spot>, NoMemory>
    requires aligned { AreAligned a.now b.now name.comp }
    requires band { HasBandOf a.now name }
    requires walk { IsWalk (blocks_in (geometry_at a.now) name.comp name.res name.band) walk }
    requires low { low ≤ high }
    requires high { high ≤ walk.high }
    ensures { IfOk result (λ found. found ≡ find (differs (meaning_at a.now) (meaning_at b.now))
        (joined (row_items
        (block_items (geometry_at a.now) name.comp name.res name.band) walk.wide 0 walk.wide) low high)) }
{
    let mut shelf = Shelf::new(alloc, b.in_cells(name, a));
    let mut best = Best {
        end: high,
        found: None,
    };
    let mut left = 0;
    while left < walk.wide {
        let right = cell_end(walk.left, left, walk.columns, walk.wide);
        let rows = Patch {
            low,
            high,
            left,
            right,
        };
        best = best_after(alloc, a, b, &mut shelf, name, walk, rows, best)?;
        left = right;
    }
    Ok(best.found)
}

/// The first place of some rows of a band's code-blocks of which the coefficients differ.
///
/// # Errors
///
/// `NoMemory` where memory is refused.
pub(crate) fn compare_rows(
    alloc: Global,
    a: &Side<'_>,
    b: &Side<'_>,
    name: BandName,
    walk: Walk,
    low: u32,
    high: u32,
) -> Result<Option<Spot>, NoMemory>
    requires aligned { AreAligned a.now b.now name.comp }
    requires band { HasBandOf a.now name }
    requires walk { IsWalk (blocks_in (geometry_at a.now) name.comp name.res name.band) walk }
    requires high { high ≤ walk.high }
    ensures { IfOk result (λ found. found ≡ find (differs (meaning_at a.now) (meaning_at b.now))
        (joined (row_items
        (block_items (geometry_at a.now) name.comp name.res name.band) walk.wide 0 walk.wide) low high)) }
{
    let mut row = low;
    while row < high {
        let next = cell_end(walk.top, row, walk.rows, high);
        if let Some(spot) = compare_cells(alloc, a, b, name, walk, row, next)? {
            return Ok(Some(spot));
        }
        row = next;
    }
    Ok(None)
}
