//! The list of a tile's packets.

ghost use Rattle.std.specs.Prelude.{◌≡◌, ◌≢◌, ◌↔◌, ℕ, IfOk, OnOk, length, slice_index};
ghost use Rattle.jx_base.specs.OrderNumbers.{IsOrderNumber};
ghost use Rattle.std.specs.List.{All, AllPairs, Contains};
ghost use Rattle.jx_progression.specs.declared.names.PacketName.{PacketName};
ghost use Rattle.jx_progression.specs.Groups.{AreCoveredTo};
ghost use Rattle.jx_progression.specs.Packets.{AreCovered, HasUncovered, IsOrder, IsPacketName};
ghost use Rattle.jx_progression.specs.Tables.{IsReady};

use crate::covered::are_all_sent;
use crate::entry::push_entry;
use crate::names::{OrderFault, PacketName};
use crate::repeats::{is_repeat, repeats_of};
use crate::table::{Table, no_table};
use jx_base::NoMemory;
use jx_geom::{Resolution, TileGeom};
use jx_marker::Progression;
use std::alloc::Global;

/// How many packets a tile has, at most the largest number of its type.
fn count(rows: &[Resolution], layers: u16) -> usize {
    let mut precincts: usize = 0;
    for row in rows {
        precincts = precincts.saturating_add(row.precincts as usize);
    }
    precincts.saturating_mul(usize::from(layers))
}

/// The lists of the entries joined, with a table that says that nothing was sent. Room is taken once.
fn list_all(
    alloc: Global,
    geom: &TileGeom,
    layers: u16,
    entries: &[Progression],
    table: &mut Table,
) -> Result<Vec<PacketName>, NoMemory>
    requires entries { All (λ e. IsOrderNumber e.order) entries.now }
    requires ready { IsReady geom.now table.old }
    requires none { (i : ℕ) → slice_index table.old.sent.items i ≡ 0 }
    ensures order { IfOk result (λ list. IsOrder geom.now layers entries.now (length entries.now) list.items) }
    ensures covered { OnOk result (AreCoveredTo geom.now layers entries.now table.new.sent.items) }
{
    let mut list = Vec::with_capacity(alloc, count(geom.resolutions(), layers))?;
    let repeats = repeats_of(alloc, entries, table.groups.len())?;
    for index in 0..entries.len() {
        let repeat = is_repeat(&repeats, index);
        push_entry(
            alloc,
            geom,
            layers,
            entries[index],
            repeat,
            table,
            &mut list,
        )?;
    }
    Ok(list)
}

/// The packets of a tile of so many layers, in the order in which they are sent (T.800, B.12). Each
/// progression entry sends those that it covers and that no entry before it sent, sorted by the key of its
/// order, a number from 0 to 4; its ends are cut down to what is there (A.6.6). `Uncovered` comes exactly
/// where some packet of the tile is in no entry. The time grows with the packets, and for each entry with the
/// resolutions of which it sends something and the groups of resolutions.
pub fn packets(
    alloc: Global,
    geom: &TileGeom,
    layers: u16,
    entries: &[Progression],
) -> Result<Vec<PacketName>, OrderFault>
    requires { All (λ e. IsOrderNumber e.order) entries.now }
    ensures order { IfOk result (λ list. IsOrder geom.now layers entries.now (length entries.now) list.items) }
    ensures whole { OnOk result (AreCovered geom.now layers entries.now) }
    ensures every { IfOk result (λ list. (p : PacketName) → Contains list.items p ↔ IsPacketName geom.now layers p) }
    ensures once { IfOk result (λ list. AllPairs (λ p q. p ≢ q) list.items) }
    ensures uncovered { result ≡ Err OrderFault.Uncovered → HasUncovered geom.now layers entries.now }
{
    let mut table = no_table(alloc, geom, entries.len())?;
    let list = list_all(alloc, geom, layers, entries, &mut table)?;
    if are_all_sent(geom, layers, &table.sent) {
        return Ok(list);
    }
    Err(OrderFault::Uncovered)
}
