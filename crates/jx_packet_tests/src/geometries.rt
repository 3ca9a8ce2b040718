//! Geometries of tiles that are made from what is within the ranges, and queries of what they have.

ghost use Rattle.std.specs.Prelude.{◌≡◌, ◌<◌, ◌*◌, ◌↔◌, IsTrue};
ghost use Rattle.jx_base.specs.Places.{size_of};
ghost use Rattle.jx_geom.specs.Geometry.{HasResolution, ShapesInRange, precincts_in, blocks_in};
ghost use Rattle.jx_geom.specs.Ranges.{HasBand};

use crate::ranges::{is_canvas, is_shape, is_within_limits};
use jx_base::{Band, Rect, Span};
use jx_geom::{Canvas, CompShape, TileGeom, tiles};
use std::alloc::Global;
use std::test::Fail;

pub(crate) const BANDS: [Band; 4] = [Band::LL, Band::HL, Band::LH, Band::HH];

const NO_PLACE: Rect = Rect {
    x: Span { low: 0, high: 0 },
    y: Span { low: 0, high: 0 },
};

/// A precinct for each resolution.
pub(crate) const WHOLE: [u8; 33] = [0xff; 33];

fn are_in_range(comps: &[CompShape]) -> bool
    ensures { IsTrue result → ShapesInRange comps.now }
{
    for comp in comps {
        if !is_shape(comp) {
            return false;
        }
    }
    true
}

/// The geometry of a tile, where what it is made from is within the ranges.
pub(crate) fn geometry(
    alloc: Global,
    canvas: &Canvas,
    tile: u16,
    comps: &[CompShape],
) -> Result<TileGeom, Fail> {
    let sound = is_canvas(canvas) && u64::from(tile) < tiles(canvas) && are_in_range(comps);
    let few = comps.len() <= 16_384;
    if !sound || !few || !is_within_limits(canvas, tile, comps) {
        return Err("out of range")?;
    }
    Ok(TileGeom::new(alloc, canvas, tile, comps)?)
}

pub(crate) fn has_resolution(geom: &TileGeom, comp: u16, res: u8) -> bool
    ensures { IsTrue result ↔ HasResolution geom.now comp res }
{
    usize::from(comp) < geom.components() && res <= geom.levels(comp)
}

pub(crate) fn has_band(res: u8, band: Band) -> bool
    ensures { IsTrue result ↔ HasBand res band }
{
    match band {
        Band::LL => res == 0,
        Band::HL | Band::LH | Band::HH => res > 0,
    }
}

/// The places of a band: from those of its first code-block to those of its last one; none where it has no block.
pub(crate) fn band_at(geom: &TileGeom, comp: u16, res: u8, band: Band) -> Option<Rect> {
    if !has_resolution(geom, comp, res) || !has_band(res, band) {
        return None;
    }
    let grid = geom.block_grid(comp, res, band);
    if grid.count() == 0 {
        return Some(NO_PLACE);
    }
    let first = grid.block(0);
    let last = grid.block(grid.count() - 1);
    Some(Rect {
        x: Span {
            low: first.x.low,
            high: last.x.high,
        },
        y: Span {
            low: first.y.low,
            high: last.y.high,
        },
    })
}

pub(crate) fn cells_at(geom: &TileGeom, comp: u16, res: u8, band: Band) -> Option<Rect> {
    if has_resolution(geom, comp, res) && has_band(res, band) {
        Some(geom.cells(comp, res, band))
    } else {
        None
    }
}

pub(crate) fn precincts_at(geom: &TileGeom, comp: u16, res: u8) -> Option<(u32, u32)> {
    if has_resolution(geom, comp, res) {
        Some(geom.precincts(comp, res))
    } else {
        None
    }
}

pub(crate) fn has_precinct(geom: &TileGeom, comp: u16, res: u8, precinct: u32) -> bool
    requires { HasResolution geom.now comp res }
    ensures { IsTrue result ↔ precinct < size_of (precincts_in geom.now comp res) }
{
    let (columns, rows) = geom.precincts(comp, res);
    precinct < columns * rows
}

pub(crate) fn point_at(geom: &TileGeom, comp: u16, res: u8, precinct: u32) -> Option<(u64, u64)> {
    geom.point_of(comp, res, precinct)
}

pub(crate) fn blocks_at(
    geom: &TileGeom,
    comp: u16,
    res: u8,
    band: Band,
    precinct: u32,
) -> Option<Rect> {
    if !has_resolution(geom, comp, res)
        || !has_band(res, band)
        || !has_precinct(geom, comp, res, precinct)
    {
        return None;
    }
    Some(geom.blocks(comp, res, band, precinct))
}

pub(crate) fn has_block(geom: &TileGeom, comp: u16, res: u8, band: Band, index: u32) -> bool
    requires res { HasResolution geom.now comp res }
    requires band { HasBand res band }
    ensures { IsTrue result ↔ index < size_of (blocks_in geom.now comp res band) }
{
    u64::from(index) < area(geom.cells(comp, res, band))
}

pub(crate) fn block_at(
    geom: &TileGeom,
    comp: u16,
    res: u8,
    band: Band,
    index: u32,
) -> Option<Rect> {
    if !has_resolution(geom, comp, res)
        || !has_band(res, band)
        || !has_block(geom, comp, res, band, index)
    {
        return None;
    }
    Some(geom.block_grid(comp, res, band).block(index))
}

pub(crate) fn area(rect: Rect) -> u64
    ensures { result ≡ size_of rect }
{
    u64::from(rect.x.high.saturating_sub(rect.x.low))
        * u64::from(rect.y.high.saturating_sub(rect.y.low))
}

pub(crate) fn shape(
    dx: u8,
    dy: u8,
    levels: u8,
    blocks: (u8, u8),
    precincts: [u8; 33],
) -> CompShape {
    CompShape {
        dx,
        dy,
        levels,
        xcb: blocks.0,
        ycb: blocks.1,
        precincts,
    }
}

/// A tile of a picture that begins at column 5, in tiles of 24 by 16, of two components, the second with every other column.
pub(crate) fn two_components(alloc: Global, tile: u16) -> Result<TileGeom, Fail> {
    let canvas = Canvas {
        x1: 40,
        y1: 16,
        x0: 5,
        y0: 0,
        tw: 24,
        th: 16,
        tx: 0,
        ty: 0,
    };
    let mut precincts = WHOLE;
    precincts[0] = 0x33;
    precincts[1] = 0x44;
    let comps = [
        shape(1, 1, 1, (4, 4), precincts),
        shape(2, 1, 1, (4, 4), precincts),
    ];
    geometry(alloc, &canvas, tile, &comps)
}
