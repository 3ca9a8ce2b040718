//! What an entry sends of the resolutions: the first packet of each group of packets that stand together is listed, and the layers are marked as
//! sent. Groups of resolutions of which it sends nothing are passed over.

ghost use Rattle.std.specs.Prelude.{◌≡◌, ◌<◌, ◌≤◌, ◌*◌, ℕ, OnOk, length, slice_set, true};
ghost use Rattle.std.specs.List.{All};
ghost use Rattle.jx_base.specs.OrderNumbers.{IsOrderNumber};
ghost use Rattle.jx_geom.specs.Resolutions.{resolutions_of};
ghost use Rattle.jx_progression.specs.Groups.{AreBounds, AreGroups, IsSent, SendsSome, group_at};
ghost use Rattle.jx_progression.specs.Steps.{HasPlaces};
ghost use Rattle.jx_progression.specs.Tables.{IsReady, SendsAll};

use crate::bounds::{Bounds, bounds_of, sends_nothing};
use crate::entry::push_row;
use crate::keys::order_from;
use crate::names::PacketName;
use crate::rows::{row_at, row_end, sent_at};
use crate::table::{Table, group_of};
use jx_base::NoMemory;
use jx_geom::TileGeom;
use jx_marker::Progression;

/// Marks so many layers of the resolution at a place as sent.
fn mark(place: usize, to: u16, sent: &mut [u16])
    requires { place < length sent.old }
    ensures { sent.new ≡ slice_set sent.old place to }
{
    sent[place] = to;
}

/// Lists and marks what an entry sends of the resolution at a place.
fn send_row(
    geom: &TileGeom,
    layers: u16,
    entry: Progression,
    place: usize,
    sent: &mut [u16],
    list: &mut Vec<PacketName>,
) -> Result<(), NoMemory>
    requires order { IsOrderNumber entry.order }
    requires places { HasPlaces geom.now sent.old }
    ensures some { OnOk result (SendsSome geom.now layers entry sent.old sent.new list.old.items list.new.items) }
    ensures sent { OnOk result (IsSent geom.now layers entry sent.new place) }
{
    let row = row_at(geom.resolutions(), place);
    let from = sent_at(sent, place);
    let to = row_end(layers, entry, row);
    if to <= from {
        return Ok(());
    }
    push_row(order_from(entry.order), row, from, to, list)?;
    mark(place, to, sent);
    Ok(())
}

/// Lists and marks what an entry sends of the resolutions at some places.
fn send_rows(
    geom: &TileGeom,
    layers: u16,
    entry: Progression,
    places: &[usize],
    sent: &mut [u16],
    list: &mut Vec<PacketName>,
) -> Result<(), NoMemory>
    requires order { IsOrderNumber entry.order }
    requires places { HasPlaces geom.now sent.old }
    ensures some { OnOk result (SendsSome geom.now layers entry sent.old sent.new list.old.items list.new.items) }
    ensures sent { OnOk result (All (IsSent geom.now layers entry sent.new) places.now) }
{
    for place in places {
        send_row(geom, layers, entry, *place, sent, list)?;
    }
    Ok(())
}

/// Lists and marks what an entry sends of the resolutions of a group, and takes the group's bounds anew; nothing is done where the bounds show
/// that it sends nothing.
fn send_group(
    geom: &TileGeom,
    layers: u16,
    entry: Progression,
    group: usize,
    places: &[usize],
    groups: &mut [Bounds],
    sent: &mut [u16],
    list: &mut Vec<PacketName>,
) -> Result<(), NoMemory>
    requires order { IsOrderNumber entry.order }
    requires places { HasPlaces geom.now sent.old }
    requires bounds { AreBounds geom.now places.now groups.old sent.old }
    requires group { group < length groups.old }
    requires begin { 128 * group ≤ length places.now }
    ensures some { OnOk result (SendsSome geom.now layers entry sent.old sent.new list.old.items list.new.items) }
    ensures sent { OnOk result (All (IsSent geom.now layers entry sent.new) (group_at places.now group)) }
    ensures bounds { OnOk result (AreBounds geom.now places.now groups.new sent.new) }
{
    if sends_nothing(groups[group], layers, entry) {
        return Ok(());
    }
    let own = group_of(places, group);
    send_rows(geom, layers, entry, own, sent, list)?;
    groups[group] = bounds_of(geom.resolutions(), own, sent);
    Ok(())
}

/// Lists and marks what an entry sends, group by group.
fn send_groups(
    geom: &TileGeom,
    layers: u16,
    entry: Progression,
    places: &[usize],
    groups: &mut [Bounds],
    sent: &mut [u16],
    list: &mut Vec<PacketName>,
) -> Result<(), NoMemory>
    requires order { IsOrderNumber entry.order }
    requires places { HasPlaces geom.now sent.old }
    requires groups { AreGroups geom.now places.now (length groups.old) }
    requires bounds { AreBounds geom.now places.now groups.old sent.old }
    ensures all { OnOk result (SendsAll geom.now layers entry sent.old sent.new list.old.items list.new.items) }
    ensures places { OnOk result (HasPlaces geom.now sent.new) }
    ensures bounds { OnOk result (AreBounds geom.now places.now groups.new sent.new) }
{
    for group in 0..groups.len() {
        send_group(geom, layers, entry, group, places, groups, sent, list)?;
    }
    Ok(())
}

/// Lists and marks what an entry sends: nothing, where an entry before it covers the same packets.
pub(crate) fn send_heads(
    geom: &TileGeom,
    layers: u16,
    entry: Progression,
    repeat: bool,
    table: &mut Table,
    list: &mut Vec<PacketName>,
) -> Result<(), NoMemory>
    requires order { IsOrderNumber entry.order }
    requires ready { IsReady geom.now table.old }
    requires repeat { repeat ≡ true → (i : ℕ) → i < length (resolutions_of geom.now) → IsSent geom.now layers entry table.old.sent.items i }
    ensures all { OnOk result (SendsAll geom.now layers entry table.old.sent.items table.new.sent.items list.old.items list.new.items) }
    ensures ready { OnOk result (IsReady geom.now table.new) }
{
    if repeat {
        return Ok(());
    }
    let places = table.places.as_slice();
    send_groups(
        geom,
        layers,
        entry,
        places,
        &mut table.groups,
        &mut table.sent,
        list,
    )?;
    Ok(())
}
