//! Lists of packets, cut into tile-parts.

use crate::checks::equal;
use jx_options::PartChoice;
use jx_progression::PacketName;
use jx_tile_parts::{count_parts, part_end};
use std::alloc::{AllocError, Global};
use std::process::Abort;
use std::test::Fail;

fn name(layer: u16, res: u8, comp: u16) -> PacketName {
    PacketName {
        layer,
        res,
        comp,
        precinct: 0,
    }
}

// How many packets each tile-part has.
fn sizes(alloc: Global, names: &[PacketName], parts: PartChoice) -> Result<Vec<usize>, AllocError> {
    let mut list = Vec::new(alloc);
    let mut from = 0;
    while from < names.len() {
        let end = part_end(names, from, parts);
        list.push(end - from)?;
        from = end;
    }
    Ok(list)
}

// Wants so many packets of each tile-part.
fn has_sizes(
    rt: &(impl Abort + AllocGlobal),
    names: &[PacketName],
    parts: PartChoice,
    want: &[usize],
) -> Result<(), Fail> {
    let sizes = sizes(rt.alloc(), names, parts)?;
    equal(rt, sizes.as_slice(), want);
    Ok(())
}

// Resolution 0 comes back, and begins a tile-part of its own.
#[test]
fn cut_by_each(rt: HostRuntime) -> Result<(), Fail> {
    let names = [
        name(0, 0, 0),
        name(0, 0, 0),
        name(0, 1, 0),
        name(0, 1, 1),
        name(1, 1, 1),
        name(1, 0, 1),
    ];
    has_sizes(&rt, &names, PartChoice::Resolution, &[2, 3, 1])?;
    has_sizes(&rt, &names, PartChoice::Layer, &[4, 2])?;
    has_sizes(&rt, &names, PartChoice::Component, &[3, 3])?;
    has_sizes(&rt, &names, PartChoice::None, &[6])
}

// A packet in each of 300 layers.
fn in_layers(alloc: Global) -> Result<Vec<PacketName>, AllocError> {
    let mut names = Vec::new(alloc);
    for layer in 0..300_u16 {
        names.push(name(layer, 0, 0))?;
    }
    Ok(names)
}

// Each of 300 layers has a tile-part; a tile without packets has one.
#[test]
fn counted(rt: HostRuntime) -> Result<(), Fail> {
    let names = in_layers(rt.alloc())?;
    are_counted(&rt, names.as_slice());
    Ok(())
}

fn are_counted(rt: &impl Abort, names: &[PacketName]) {
    equal(rt, count_parts(names, PartChoice::Layer), 300);
    equal(rt, count_parts(names, PartChoice::Resolution), 1);
    equal(rt, count_parts(names, PartChoice::None), 1);
    equal(rt, count_parts(&[], PartChoice::Layer), 1);
    equal(rt, count_parts(&[], PartChoice::None), 1);
}
