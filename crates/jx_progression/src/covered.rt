//! Whether each packet of a tile is in some progression entry.

ghost use Rattle.std.specs.Prelude.{◌≡◌, ◌↔◌, ◌<◌, ◌≤◌, ℕ, IfOk, IsTrue, OnOk, false, length, slice_index};
ghost use Rattle.jx_geom.specs.Resolutions.{resolutions_of};
ghost use Rattle.jx_progression.specs.Groups.{AreCoveredTo};
ghost use Rattle.jx_progression.specs.Packets.{AreCovered, HasUncovered};
ghost use Rattle.jx_progression.specs.Steps.{row_of};
ghost use Rattle.jx_progression.specs.Tables.{IsReady};

use crate::repeats::{is_repeat, repeats_of};
use crate::rows::sent_at;
use crate::sending::send_heads;
use crate::table::{Table, no_table};
use jx_base::NoMemory;
use jx_geom::{Resolution, TileGeom};
use jx_marker::Progression;
use std::alloc::Global;

/// Whether all layers of each resolution that has a precinct were sent.
pub(crate) fn are_all_sent(geom: &TileGeom, layers: u16, sent: &[u16]) -> bool
    ensures whole { IsTrue result → (i : ℕ) → i < length (resolutions_of geom.now) → 0 < (row_of geom.now i).precincts → layers ≤ slice_index sent.now i }
    ensures lacks { result ≡ false → (i : ℕ) × (i < length (resolutions_of geom.now)) × (0 < (row_of geom.now i).precincts) × (slice_index sent.now i < layers) }
{
    let rows = geom.resolutions();
    for place in 0..rows.len() {
        if rows[place].precincts > 0 && sent_at(sent, place) < layers {
            return false;
        }
    }
    true
}

/// Marks what the entries send, in a table that says that nothing was sent.
fn send_all(
    alloc: Global,
    geom: &TileGeom,
    layers: u16,
    entries: &[Progression],
    table: &mut Table,
) -> Result<(), NoMemory>
    requires ready { IsReady geom.now table.old }
    requires none { (i : ℕ) → slice_index table.old.sent.items i ≡ 0 }
    ensures { OnOk result (AreCoveredTo geom.now layers entries.now table.new.sent.items) }
{
    let repeats = repeats_of(alloc, entries, table.groups.len())?;
    let mut heads = Vec::new(alloc);
    for index in 0..entries.len() {
        heads.clear();
        let entry = unordered(entries[index]);
        send_heads(
            geom,
            layers,
            entry,
            is_repeat(&repeats, index),
            table,
            &mut heads,
        )?;
    }
    Ok(())
}

/// An entry of the first order, since which layers are covered doesn't depend on an order.
fn unordered(entry: Progression) -> Progression
    ensures { result ≡ record entry { order = 0 } }
{
    Progression { order: 0, ..entry }
}

/// Whether each packet of a tile of so many layers is in some progression entry (T.800, A.6.6). It makes no
/// list of them.
pub fn are_covered(
    alloc: Global,
    geom: &TileGeom,
    layers: u16,
    entries: &[Progression],
) -> Result<bool, NoMemory>
    ensures whole { IfOk result (λ covered. IsTrue covered ↔ AreCovered geom.now layers entries.now) }
    ensures lacks { IfOk result (λ covered. covered ≡ false → HasUncovered geom.now layers entries.now) }
{
    let mut table = no_table(alloc, geom, entries.len())?;
    send_all(alloc, geom, layers, entries, &mut table)?;
    Ok(are_all_sent(geom, layers, &table.sent))
}
