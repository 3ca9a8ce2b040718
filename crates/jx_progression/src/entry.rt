//! The packets that an entry sends: the first of each group that stands together is listed and sorted, and its group is
//! spread from it.

ghost use Rattle.std.specs.Prelude.{◌≡◌, ◌<◌, ◌≤◌, ◌++◌, ℕ, IfOk, OnOk, drop, length, min, take, true};
ghost use Rattle.jx_base.specs.OrderNumbers.{IsOrderNumber};
ghost use Rattle.std.specs.List.Sorted.{IsPermutation};
ghost use Rattle.jx_base.specs.Joined.{joined};
ghost use Rattle.jx_geom.specs.Resolutions.{resolutions_of};
ghost use Rattle.jx_progression.specs.Groups.{IsSent};
ghost use Rattle.jx_progression.specs.Steps.{
  AreSorted,
  IsMarked,
  Lists,
  one_layer_head,
  one_precinct_head,
  row_heads,
};
ghost use Rattle.jx_progression.specs.Tables.{IsReady};

use crate::keys::{Order, by_layer, order_from, sort_key};
use crate::names::PacketName;
use crate::sending::send_heads;
use crate::spread::spread;
use crate::table::Table;
use jx_base::NoMemory;
use jx_geom::{Resolution, TileGeom};
use jx_marker::Progression;
use std::alloc::Global;

/// Lists the first packet of each layer of a resolution from one to an end.
fn push_layers(
    row: Resolution,
    from: u16,
    to: u16,
    list: &mut Vec<PacketName>,
) -> Result<(), NoMemory>
    ensures { OnOk result (list.new.items ≡ list.old.items ++ joined (one_layer_head row) from to) }
{
    for layer in from..to {
        list.push(PacketName {
            layer,
            res: row.res,
            comp: row.comp,
            precinct: 0,
        })?;
    }
    Ok(())
}

/// Lists the packet of a layer of each precinct of a resolution.
fn push_precincts(row: Resolution, layer: u16, list: &mut Vec<PacketName>) -> Result<(), NoMemory>
    ensures { OnOk result (list.new.items ≡ list.old.items ++ joined (one_precinct_head row layer) 0 row.precincts) }
{
    for precinct in 0..row.precincts {
        list.push(PacketName {
            layer,
            res: row.res,
            comp: row.comp,
            precinct,
        })?;
    }
    Ok(())
}

/// Lists the first packet of each group of a resolution, of which the layers from one to an end are to be sent.
#[tactic(auto, using(jx_base::proofs::Joined::joined_none), unfolding(crate::specs::Steps::row_heads))]
pub(crate) fn push_row(
    order: Order,
    row: Resolution,
    from: u16,
    to: u16,
    list: &mut Vec<PacketName>,
) -> Result<(), NoMemory>
    ensures { OnOk result (list.new.items ≡ list.old.items ++ row_heads order row from to) }
{
    if by_layer(order) {
        return push_layers(row, from, to, list);
    }
    if from < to {
        return push_precincts(row, from, list);
    }
    Ok(())
}

/// Sorts packets by their keys. Those of a resolution stand in order already: such runs are found and merged, so that a key
/// isn't made at each step of a sort, but some four times for a packet. It takes room for as many packets while it sorts.
fn sort_all(
    alloc: Global,
    geom: &TileGeom,
    order: Order,
    heads: &mut [PacketName],
) -> Result<(), NoMemory>
    ensures moved { IsPermutation heads.old heads.new }
    ensures sorted { OnOk result (AreSorted geom.now order heads.new) }
{
    heads.sort_by_key(alloc, |name| sort_key(geom, order, *name))?;
    Ok(())
}

/// Sorts the packets from a place on.
fn sort_from(
    alloc: Global,
    geom: &TileGeom,
    order: Order,
    from: usize,
    list: &mut [PacketName],
) -> Result<(), NoMemory>
    requires { from ≤ length list.old }
    ensures front { take from list.new ≡ take from list.old }
    ensures moved { IsPermutation (drop from list.old) (drop from list.new) }
    ensures sorted { OnOk result (AreSorted geom.now order (drop from list.new)) }
{
    sort_all(alloc, geom, order, &mut list[from..])
}

/// Appends what an entry sends: its packets of the layers that weren't sent, in its order. They are marked as sent.
/// Nothing is sent where an entry before it covers the same packets.
pub(crate) fn push_entry(
    alloc: Global,
    geom: &TileGeom,
    layers: u16,
    entry: Progression,
    repeat: bool,
    table: &mut Table,
    list: &mut Vec<PacketName>,
) -> Result<(), NoMemory>
    requires order { IsOrderNumber entry.order }
    requires ready { IsReady geom.now table.old }
    requires repeat { repeat ≡ true → (i : ℕ) → i < length (resolutions_of geom.now) → IsSent geom.now layers entry table.old.sent.items i }
    ensures front { OnOk result (take (length list.old.items) list.new.items ≡ list.old.items) }
    ensures lists { OnOk result (Lists geom.now layers entry table.old.sent.items (drop (length list.old.items) list.new.items)) }
    ensures marked { OnOk result (IsMarked geom.now layers entry table.old.sent.items table.new.sent.items) }
    ensures ready { OnOk result (IsReady geom.now table.new) }
{
    let _components = geom.components();
    let order = order_from(entry.order);
    let from = list.len();
    send_heads(geom, layers, entry, repeat, table, list)?;
    sort_from(alloc, geom, order, from, list)?;
    spread(geom, order, entry.lye.min(layers), from, list)?;
    Ok(())
}
