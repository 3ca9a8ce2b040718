//! Groups of packets that stand together, spread in place from the first packet of each.

ghost use Rattle.std.specs.Prelude.{◌≡◌, ◌≤◌, ◌<◌, ◌+◌, ◌-◌, ◌++◌, All, OnOk, drop, length, take};
ghost use Rattle.std.specs.List.{flat_map};
ghost use Rattle.jx_base.specs.Joined.{joined};
ghost use Rattle.jx_progression.specs.Steps.{group_names, group_size, one_layer, one_precinct};

use crate::keys::{Order, by_layer, count_precincts};
use crate::names::PacketName;
use jx_base::NoMemory;
use jx_geom::TileGeom;

/// How many packets stand together with one, of which the layers below an end are sent.
#[tactic(auto, unfolding(crate::specs::Steps::group_size))]
fn group_size(geom: &TileGeom, order: Order, end: u16, head: PacketName) -> usize
    ensures { result ≡ group_size geom.now order end head }
{
    if by_layer(order) {
        return count_precincts(geom, head.comp, head.res) as usize;
    }
    usize::from(end.saturating_sub(head.layer))
}

/// Appends a packet so many times.
fn push_copies(head: PacketName, more: usize, list: &mut Vec<PacketName>) -> Result<(), NoMemory>
    ensures front { OnOk result (take (length list.old.items) list.new.items ≡ list.old.items) }
    ensures size { OnOk result (length list.new.items ≡ length list.old.items + more) }
{
    for _ in 0..more {
        list.push(head)?;
    }
    Ok(())
}

/// Appends as many packets as the groups have besides their first ones, so that the list has its length.
fn make_room(
    geom: &TileGeom,
    order: Order,
    end: u16,
    from: usize,
    heads: usize,
    list: &mut Vec<PacketName>,
) -> Result<(), NoMemory>
    requires heads { from + heads ≡ length list.old.items }
    requires some { All (λ x. 0 < group_size geom.now order end x) (drop from list.old.items) }
    ensures front { OnOk result (take (length list.old.items) list.new.items ≡ list.old.items) }
    ensures size { OnOk result (length list.new.items ≡ from + length (flat_map (group_names geom.now order end) (drop from list.old.items))) }
{
    for done in 0..heads {
        let head = list[from + done];
        let size = group_size(geom, order, end, head);
        push_copies(head, size.saturating_sub(1), list)?;
    }
    Ok(())
}

/// Writes the packets of a layer of a resolution from a place on.
fn write_layer(head: PacketName, precincts: u32, at: usize, list: &mut [PacketName])
    requires { at + precincts ≤ length list.old }
    ensures { list.new ≡ take at list.old ++ joined (one_precinct head) 0 precincts ++ drop (at + precincts) list.old }
{
    for precinct in 0..precincts {
        list[at + precinct as usize] = PacketName {
            layer: head.layer,
            res: head.res,
            comp: head.comp,
            precinct,
        };
    }
}

/// Writes the packets of a precinct up to an end of its layers from a place on.
fn write_precinct(head: PacketName, end: u16, at: usize, list: &mut [PacketName])
    requires { at + (end - head.layer) ≤ length list.old }
    ensures { list.new ≡ take at list.old ++ joined (one_layer head) head.layer end ++ drop (at + (end - head.layer)) list.old }
{
    for layer in head.layer..end {
        list[at + usize::from(layer - head.layer)] = PacketName {
            layer,
            res: head.res,
            comp: head.comp,
            precinct: head.precinct,
        };
    }
}

/// Writes the packets of a group before a place, and gives the place of its first.
#[tactic(auto, unfolding(crate::specs::Steps::group_names, crate::specs::Steps::group_size))]
fn write_group(
    geom: &TileGeom,
    order: Order,
    end: u16,
    head: PacketName,
    to: usize,
    list: &mut [PacketName],
) -> usize
    requires room { group_size geom.now order end head ≤ to }
    requires to { to ≤ length list.old }
    ensures at { result ≡ to - group_size geom.now order end head }
    ensures list { list.new ≡ take (to - group_size geom.now order end head) list.old ++ group_names geom.now order end head ++ drop to list.old }
{
    if by_layer(order) {
        let precincts = count_precincts(geom, head.comp, head.res);
        let at = to - precincts as usize;
        write_layer(head, precincts, at, list);
        return at;
    }
    let at = to - usize::from(end.saturating_sub(head.layer));
    write_precinct(head, end, at, list);
    at
}

/// Writes the packets of all groups, from the last on: each before what was written, so that no group comes over the
/// first packets of those before it.
fn write_groups(
    geom: &TileGeom,
    order: Order,
    end: u16,
    from: usize,
    heads: usize,
    list: &mut [PacketName],
)
    requires heads { from + heads ≤ length list.old }
    requires some { All (λ x. 0 < group_size geom.now order end x) (take heads (drop from list.old)) }
    requires size { length list.old ≡ from + length (flat_map (group_names geom.now order end) (take heads (drop from list.old))) }
    ensures front { take from list.new ≡ take from list.old }
    ensures names { drop from list.new ≡ flat_map (group_names geom.now order end) (take heads (drop from list.old)) }
{
    let mut to = list.len();
    for done in 0..heads {
        let head = list[from + (heads - 1 - done)];
        to = write_group(geom, order, end, head, to, list);
    }
}

/// Puts the packets of a group in place of each packet from a place on.
pub(crate) fn spread(
    geom: &TileGeom,
    order: Order,
    end: u16,
    from: usize,
    list: &mut Vec<PacketName>,
) -> Result<(), NoMemory>
    requires from { from ≤ length list.old.items }
    requires some { All (λ x. 0 < group_size geom.now order end x) (drop from list.old.items) }
    ensures front { OnOk result (take from list.new.items ≡ take from list.old.items) }
    ensures names { OnOk result (drop from list.new.items ≡ flat_map (group_names geom.now order end) (drop from list.old.items)) }
{
    let heads = list.len() - from;
    make_room(geom, order, end, from, heads, list)?;
    write_groups(geom, order, end, from, heads, list);
    Ok(())
}
