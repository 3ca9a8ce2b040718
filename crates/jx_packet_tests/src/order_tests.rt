//! Lists of packets: how many, and which stand at places.

ghost use Rattle.std.specs.Prelude.{IsTrue};
ghost use Rattle.std.specs.List.{All};
ghost use Rattle.jx_base.specs.OrderNumbers.{IsOrderNumber};

use crate::checks::{check, equal, equal_at};
use crate::geometries::{WHOLE, geometry, shape};
use jx_geom::{Canvas, CompShape, TileGeom};
use jx_marker::Progression;
use jx_progression::{OrderFault, PacketName, packets};
use std::alloc::{AllocError, Global};
use std::process::Abort;
use std::test::Fail;

fn have_orders(entries: &[Progression]) -> bool
    ensures { IsTrue result → All (λ e. IsOrderNumber e.order) entries.now }
{
    for entry in entries {
        if entry.order > 4 {
            return false;
        }
    }
    true
}

/// A packet by layer, resolution, component and precinct.
type Name = (u16, u8, u16, u32);

/// How many packets there are, and some by their places; or none, since the entries leave out a packet.
type Want = Option<(usize, &'static [(usize, Name)])>;

/// Orders, each with the ends of the layers, resolutions and components from 0 on for which it is; how often all of them stand
/// one after the other.
type Entries = (&'static [(u8, u16, u8, u16)], usize);

/// The number of layers, the entries, and what is wanted.
type Row = (u16, Entries, Want);

/// A tile from the corner: its side and the picture's first column and row; components by their columns' and rows' distances,
/// levels and exponent of code-blocks, and how often all of them stand; whether precincts of resolution 0 have one place.
type Tile = (u32, u32, &'static [(u8, u8, u8, u8)], usize, bool);

fn name((layer, res, comp, precinct): Name) -> PacketName {
    PacketName {
        layer,
        res,
        comp,
        precinct,
    }
}

fn entries_of(alloc: Global, (entries, times): Entries) -> Result<Vec<Progression>, AllocError> {
    let mut all = Vec::new(alloc);
    for _ in 0..times {
        for (order, lye, re, ce) in entries {
            all.push(Progression {
                rs: 0,
                cs: 0,
                lye: *lye,
                re: *re,
                ce: *ce,
                order: *order,
            })?;
        }
    }
    Ok(all)
}

fn comps_of(alloc: Global, (_, _, comps, times, low): Tile) -> Result<Vec<CompShape>, AllocError> {
    let mut precincts = WHOLE;
    if low {
        precincts[0] = 0;
    }
    let mut all = Vec::new(alloc);
    for _ in 0..times {
        for (dx, dy, levels, exponent) in comps {
            let blocks = (*exponent, *exponent);
            all.push(shape(*dx, *dy, *levels, blocks, precincts))?;
        }
    }
    Ok(all)
}

fn tile_of(alloc: Global, tile: Tile) -> Result<TileGeom, Fail> {
    let canvas = Canvas {
        x1: tile.0,
        y1: tile.0,
        x0: tile.1,
        y0: tile.1,
        tw: tile.0,
        th: tile.0,
        tx: 0,
        ty: 0,
    };
    let comps = comps_of(alloc, tile)?;
    geometry(alloc, &canvas, 0, &comps)
}

fn expect(
    rt: &(impl Abort + AllocGlobal),
    geom: &TileGeom,
    layers: u16,
    entries: &[Progression],
    want: Want,
) {
    check(rt, have_orders(entries));
    match (packets(rt.alloc(), geom, layers, entries), want) {
        (Ok(list), Some((length, places))) => are_at(rt, &list, length, places),
        (Err(OrderFault::Uncovered), None) => {}
        _ => check(rt, false),
    }
}

fn are_at(rt: &impl Abort, list: &[PacketName], length: usize, places: &[(usize, Name)]) {
    equal(rt, list.len(), length);
    for (at, want) in places {
        equal_at(rt, at, list.get(*at).copied(), Some(name(*want)));
    }
}

/// Wants these lists of a tile for so many layers and these entries.
fn are_lists(rt: &(impl Abort + AllocGlobal), tile: Tile, rows: &[Row]) -> Result<(), Fail> {
    let geom = tile_of(rt.alloc(), tile)?;
    for (layers, entries, want) in rows {
        let entries = entries_of(rt.alloc(), *entries)?;
        expect(rt, &geom, *layers, &entries, *want);
    }
    Ok(())
}

/// The second component has more levels.
const LEVELS: Tile = (64, 0, &[(1, 1, 1, 4), (1, 1, 5, 4)], 1, false);

const BY_LEVELS: [(usize, Name); 8] = [
    (0, (0, 0, 0, 0)),
    (1, (0, 0, 1, 0)),
    (2, (0, 1, 0, 0)),
    (3, (0, 1, 1, 0)),
    (4, (0, 2, 1, 0)),
    (5, (0, 3, 1, 0)),
    (6, (0, 4, 1, 0)),
    (7, (0, 5, 1, 0)),
];

/// The second entry begins behind a long list.
const MANY: [(usize, Name); 4] = [
    (0, (0, 0, 0, 0)),
    (196_607, (2, 0, 0, 65_535)),
    (196_608, (3, 0, 0, 0)),
    (262_143, (3, 0, 0, 65_535)),
];

/// Without an entry no packet is sent, which is right for a tile without packets.
const FEW: [Row; 3] = [
    (1, (&[(0, u16::MAX, 33, 0)], 1), Some((8, &BY_LEVELS))),
    (2, (&[], 1), None),
    (0, (&[], 1), Some((0, &[]))),
];

const WIDE: [Row; 5] = [
    (3, (&[(0, u16::MAX, 33, 0)], 1), Some((24, &[]))),
    (3, (&[(1, u16::MAX, 33, 0)], 1), Some((24, &[]))),
    (3, (&[(2, u16::MAX, 33, 0)], 1), Some((24, &[]))),
    (3, (&[(3, u16::MAX, 33, 0)], 1), Some((24, &[]))),
    (3, (&[(4, u16::MAX, 33, 0)], 1), Some((24, &[]))),
];

const LONG: [Row; 1] = [(
    4,
    (&[(3, 3, 33, 0), (0, u16::MAX, 33, 0)], 1),
    Some((262_144, &MANY)),
)];

const NONE: [Row; 1] = [(u16::MAX, (&[(1, 1, 33, 16_384)], 728), Some((0, &[])))];

const WIDE_TILE: Tile = (60_000, 0, &[(2, 2, 5, 6), (255, 255, 1, 6)], 1, false);

const SMALL_PRECINCTS: Tile = (256, 0, &[(1, 1, 0, 4)], 1, true);

/// No multiple of 255 lies in the picture, so no component has a packet.
const EMPTY: Tile = (3, 1, &[(255, 1, 32, 4)], 16_384, false);

const TILES: [(Tile, &[Row]); 4] = [
    (LEVELS, &FEW),
    (WIDE_TILE, &WIDE),
    (SMALL_PRECINCTS, &LONG),
    (EMPTY, &NONE),
];

#[test]
fn lists_of_tiles(rt: HostRuntime) -> Result<(), Fail> {
    for (tile, rows) in &TILES {
        are_lists(&rt, *tile, rows)?;
    }
    Ok(())
}

const BY_COMPONENT: [(usize, Name); 3] = [
    (0, (0, 0, 0, 0)),
    (1, (0, 0, 1, 0)),
    (98_303, (2, 1, 16_383, 0)),
];

const BY_PLACE: [(usize, Name); 3] = [
    (0, (0, 0, 0, 0)),
    (1, (1, 0, 0, 0)),
    (98_303, (2, 1, 16_383, 0)),
];

const ALL: [Row; 5] = [
    (3, (&[(0, 3, 33, 0)], 1), Some((98_304, &BY_COMPONENT))),
    (3, (&[(1, 3, 33, 0)], 1), Some((98_304, &BY_COMPONENT))),
    (3, (&[(2, 3, 33, 0)], 1), Some((98_304, &BY_PLACE))),
    (3, (&[(3, 3, 33, 0)], 1), Some((98_304, &BY_PLACE))),
    (3, (&[(4, 3, 33, 0)], 1), Some((98_304, &BY_PLACE))),
];

const COMPONENTS: Tile = (1, 0, &[(1, 1, 1, 4)], 16_384, false);

// Each component has a packet in two resolutions and three layers.
#[test]
fn all_components_have_packets(rt: HostRuntime) -> Result<(), Fail> {
    are_lists(&rt, COMPONENTS, &ALL)
}
