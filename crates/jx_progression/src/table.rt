//! How many layers of each resolution were sent, in groups of resolutions with what holds of each of them.

ghost use Rattle.std.specs.Prelude.{◌≡◌, ◌<◌, ◌≤◌, ◌+◌, ◌*◌, ◌/◌, ℕ, IfOk, OnOk, length, slice_index, slice_index_or};
ghost use Rattle.std.specs.List.{All, Contains};
ghost use Rattle.jx_progression.specs.Groups.{IsWithin, group_at, no_bounds};
ghost use Rattle.jx_progression.specs.Steps.{row_at};
ghost use Rattle.jx_progression.specs.Tables.{IsReady};

use crate::bounds::{Bounds, bounds_of};
use crate::rows::{none_sent, row_at};
use jx_base::NoMemory;
use jx_geom::{Resolution, TileGeom};
use std::alloc::Global;

/// How many resolutions a group has, but for the last one.
const GROUP: usize = 128;

/// How many layers of each resolution were sent, and the groups.
#[derive(Drop)]
pub(crate) struct Table {
    /// How many layers of a resolution were sent, by its place in the list of all.
    pub sent: Vec<u16>,
    /// The places of the resolutions that have a precinct, group by group.
    pub places: Vec<usize>,
    /// What holds of each resolution of a group.
    pub groups: Vec<Bounds>,
}

/// Appends the place of a resolution if it has a precinct.
fn push_filled(row: Resolution, place: usize, places: &mut Vec<usize>) -> Result<(), NoMemory>
    ensures kept { OnOk result ((i : ℕ) → Contains places.old.items i → Contains places.new.items i) }
    ensures own { OnOk result (0 < row.precincts → Contains places.new.items place) }
{
    if row.precincts == 0 {
        return Ok(());
    }
    places.push(place)?;
    Ok(())
}

/// The places of the resolutions that have a precinct.
fn filled_places(alloc: Global, rows: &[Resolution]) -> Result<Vec<usize>, NoMemory>
    ensures { IfOk result (λ places. (i : ℕ) → i < length rows.now → 0 < (row_at rows.now i).precincts → Contains places.items i) }
{
    let mut places = Vec::new(alloc);
    for place in 0..rows.len() {
        push_filled(row_at(rows, place), place, &mut places)?;
    }
    Ok(places)
}

/// The places of the resolutions that have a precinct, those of one number side by side where there is more than one entry: an entry most
/// often names all components or few, and few resolutions' numbers.
fn places_of(alloc: Global, rows: &[Resolution], entries: usize) -> Result<Vec<usize>, NoMemory>
    ensures { IfOk result (λ places. (i : ℕ) → i < length rows.now → 0 < (row_at rows.now i).precincts → Contains places.items i) }
{
    let mut places = filled_places(alloc, rows)?;
    if entries <= 1 {
        return Ok(places);
    }
    places.sort_by_key(|place| row_at(rows, *place).res)?;
    Ok(places)
}

/// The places of a group.
pub(crate) fn group_of(places: &[usize], group: usize) -> &[usize]
    requires { 128 * group ≤ length places.now }
    ensures { result.now ≡ group_at places.now group }
{
    let rest = &places[GROUP * group..];
    &rest[..rest.len().min(GROUP)]
}

/// What holds of each resolution of each group.
fn groups_of(
    alloc: Global,
    rows: &[Resolution],
    places: &[usize],
    sent: &[u16],
) -> Result<Vec<Bounds>, NoMemory>
    ensures bounds { IfOk result (λ groups. (k : ℕ) → k < length groups.items → All (λ i. IsWithin (slice_index_or groups.items k no_bounds) (row_at rows.now i) (slice_index sent.now i)) (group_at places.now k)) }
    ensures count { IfOk result (λ groups. length groups.items ≡ length places.now / 128 + 1) }
{
    let mut groups = Vec::new(alloc);
    for group in 0..places.len() / GROUP + 1 {
        groups.push(bounds_of(rows, group_of(places, group), sent))?;
    }
    Ok(groups)
}

/// A table that says that no layer was sent, for so many entries.
pub(crate) fn no_table(alloc: Global, geom: &TileGeom, entries: usize) -> Result<Table, NoMemory>
    ensures ready { IfOk result (λ table. IsReady geom.now table) }
    ensures none { IfOk result (λ table. (i : ℕ) → slice_index table.sent.items i ≡ 0) }
{
    let rows = geom.resolutions();
    let sent = none_sent(alloc, geom)?;
    let places = places_of(alloc, rows, entries)?;
    let groups = groups_of(alloc, rows, &places, &sent)?;
    Ok(Table {
        sent,
        places,
        groups,
    })
}
