//! Worked values: bands, precincts and their reference points, parts without places, the ends of the ranges.

use crate::checks::{equal, equal_at};
use crate::geometries::{
    WHOLE, area, band_at, blocks_at, cells_at, geometry, point_at, precincts_at, shape,
    two_components,
};
use crate::ranges::{is_canvas, is_shape};
use jx_base::{Band, Rect};
use jx_geom::{Canvas, CompShape, TileGeom, count_blocks, count_precincts, tiles};
use std::process::Abort;
use std::test::Fail;

/// What is asked of a resolution.
#[derive(Clone, Copy)]
enum Of {
    /// The places of a band: its columns and rows.
    Places(Band),
    /// How many places a band has.
    Count(Band),
    /// How many cells of code-blocks a band has.
    Cells(Band),
    /// How many of them lie in the first precinct.
    Blocks(Band),
    /// How many columns of precincts there are.
    Columns,
    Precincts,
    /// The reference point of a precinct.
    Point(u32),
}

type Four = (u64, u64, u64, u64);

/// A component, its resolution, what is asked of it, and the answer.
type Row = (u16, u8, Of, Four);

/// The ends of a rectangle.
fn ends(rect: Rect) -> Four {
    (
        u64::from(rect.x.low),
        u64::from(rect.x.high),
        u64::from(rect.y.low),
        u64::from(rect.y.high),
    )
}

fn ends_of(rect: Option<Rect>) -> Option<Four> {
    match rect {
        Some(rect) => Some(ends(rect)),
        None => None,
    }
}

fn area_of(rect: Option<Rect>) -> Option<Four> {
    match rect {
        Some(rect) => Some((area(rect), 0, 0, 0)),
        None => None,
    }
}

fn point_of(point: Option<(u64, u64)>) -> Option<Four> {
    match point {
        Some((x, y)) => Some((x, y, 0, 0)),
        None => None,
    }
}

fn precincts_of(size: Option<(u32, u32)>, rows: bool) -> Option<Four> {
    match size {
        Some((columns, high)) if rows => Some((u64::from(columns), u64::from(high), 0, 0)),
        Some((columns, _)) => Some((u64::from(columns), 0, 0, 0)),
        None => None,
    }
}

fn answer(geom: &TileGeom, comp: u16, res: u8, of: Of) -> Option<Four> {
    match of {
        Of::Places(band) => ends_of(band_at(geom, comp, res, band)),
        Of::Count(band) => area_of(band_at(geom, comp, res, band)),
        Of::Cells(band) => area_of(cells_at(geom, comp, res, band)),
        Of::Blocks(band) => area_of(blocks_at(geom, comp, res, band, 0)),
        Of::Columns => precincts_of(precincts_at(geom, comp, res), false),
        Of::Precincts => precincts_of(precincts_at(geom, comp, res), true),
        Of::Point(precinct) => point_of(point_at(geom, comp, res, precinct)),
    }
}

fn are_answers(rt: &impl Abort, geom: &TileGeom, rows: &[Row]) {
    for (comp, res, of, want) in rows {
        equal_at(
            rt,
            &(*comp, *res),
            answer(geom, *comp, *res, *of),
            Some(*want),
        );
    }
}

const FIRST: [Row; 12] = [
    (0, 1, Of::Places(Band::HL), (2, 12, 0, 8)),
    (0, 1, Of::Places(Band::LH), (3, 12, 0, 8)),
    (0, 0, Of::Precincts, (2, 1, 0, 0)),
    (0, 0, Of::Point(0), (5, 0, 0, 0)),
    (0, 0, Of::Point(1), (16, 0, 0, 0)),
    (0, 1, Of::Precincts, (2, 1, 0, 0)),
    (0, 1, Of::Point(0), (5, 0, 0, 0)),
    (0, 1, Of::Point(1), (16, 0, 0, 0)),
    (1, 0, Of::Precincts, (1, 1, 0, 0)),
    (1, 0, Of::Point(0), (5, 0, 0, 0)),
    (1, 1, Of::Precincts, (1, 1, 0, 0)),
    (1, 1, Of::Point(0), (5, 0, 0, 0)),
];

const SECOND: [Row; 12] = [
    (0, 0, Of::Precincts, (2, 1, 0, 0)),
    (0, 0, Of::Point(0), (24, 0, 0, 0)),
    (0, 0, Of::Point(1), (32, 0, 0, 0)),
    (0, 1, Of::Precincts, (2, 1, 0, 0)),
    (0, 1, Of::Point(0), (24, 0, 0, 0)),
    (0, 1, Of::Point(1), (32, 0, 0, 0)),
    (1, 0, Of::Precincts, (2, 1, 0, 0)),
    (1, 0, Of::Point(0), (24, 0, 0, 0)),
    (1, 0, Of::Point(1), (32, 0, 0, 0)),
    (1, 1, Of::Precincts, (2, 1, 0, 0)),
    (1, 1, Of::Point(0), (24, 0, 0, 0)),
    (1, 1, Of::Point(1), (32, 0, 0, 0)),
];

fn is_first(rt: &impl Abort, geom: &TileGeom) {
    equal(rt, ends(geom.tile()), (5, 24, 0, 16));
    are_answers(rt, geom, &FIRST);
}

#[test]
fn two_components_with_offset(rt: HostRuntime) -> Result<(), Fail> {
    is_first(&rt, &two_components(rt.alloc(), 0)?);
    are_answers(&rt, &two_components(rt.alloc(), 1)?, &SECOND);
    Ok(())
}

/// No resolution has a place, as no multiple of 255 lies in the picture.
const NONE: [Row; 9] = [
    (0, 0, Of::Count(Band::LL), (0, 0, 0, 0)),
    (0, 0, Of::Cells(Band::LL), (0, 0, 0, 0)),
    (0, 0, Of::Columns, (0, 0, 0, 0)),
    (0, 1, Of::Count(Band::HL), (0, 0, 0, 0)),
    (0, 1, Of::Cells(Band::HL), (0, 0, 0, 0)),
    (0, 1, Of::Columns, (0, 0, 0, 0)),
    (0, 2, Of::Count(Band::HH), (0, 0, 0, 0)),
    (0, 2, Of::Cells(Band::HH), (0, 0, 0, 0)),
    (0, 2, Of::Columns, (0, 0, 0, 0)),
];

/// Resolution 0 is empty, resolution 1 isn't.
const ODD: [Row; 3] = [
    (0, 0, Of::Columns, (0, 0, 0, 0)),
    (0, 1, Of::Precincts, (1, 1, 0, 0)),
    (0, 1, Of::Cells(Band::HL), (1, 0, 0, 0)),
];

/// Resolution 1 has a place, its bands have none.
const EVEN: [Row; 4] = [
    (0, 1, Of::Precincts, (1, 1, 0, 0)),
    (0, 1, Of::Blocks(Band::HL), (0, 0, 0, 0)),
    (0, 1, Of::Blocks(Band::LH), (0, 0, 0, 0)),
    (0, 1, Of::Blocks(Band::HH), (0, 0, 0, 0)),
];

/// One tile over a picture.
fn whole(x: (u32, u32), y: (u32, u32)) -> Canvas {
    Canvas {
        x1: x.1,
        y1: y.1,
        x0: x.0,
        y0: y.0,
        tw: x.1,
        th: y.1,
        tx: 0,
        ty: 0,
    }
}

/// One tile over a picture, with a component of so many levels.
fn is_of_levels(
    rt: &(impl Abort + AllocGlobal),
    x: (u32, u32),
    high: u32,
    step: u8,
    levels: u8,
    rows: &[Row],
) -> Result<(), Fail> {
    let comp = shape(step, 1, levels, (4, 4), WHOLE);
    let geom = geometry(rt.alloc(), &whole(x, (0, high)), 0, &[comp])?;
    are_answers(rt, &geom, rows);
    Ok(())
}

#[test]
fn parts_without_places(rt: HostRuntime) -> Result<(), Fail> {
    is_of_levels(&rt, (1, 3), 3, 255, 2, &NONE)?;
    is_of_levels(&rt, (1, 2), 1, 1, 1, &ODD)?;
    is_of_levels(&rt, (0, 1), 1, 1, 1, &EVEN)
}

/// All places of the largest canvas.
const ALL_PLACES: u128 = 18446744065119617025;

/// Tiles of 3 by 3 at the far corner of the largest canvas.
const FAR: Canvas = Canvas {
    x1: u32::MAX,
    y1: u32::MAX,
    x0: u32::MAX - 4,
    y0: u32::MAX - 2,
    tw: 3,
    th: 3,
    tx: u32::MAX - 5,
    ty: u32::MAX - 4,
};

/// The side of the one tile, or none for the far corner; the tile; the subsampling both ways, the levels and the exponent of
/// blocks both ways; whether the precincts of resolution 0 have one place; the code-blocks and the precincts.
const COUNTS: [(Option<u32>, u16, (u8, u8, u8), bool, (u128, u128)); 7] = [
    (Some(65536), 0, (1, 0, 2), false, (268435456, 4)),
    (Some(u32::MAX), 0, (1, 0, 2), true, (ALL_PLACES, ALL_PLACES)),
    (
        Some(u32::MAX),
        0,
        (255, 0, 2),
        false,
        (17730440827009, 265225),
    ),
    (Some(1), 0, (1, 32, 2), false, (1, 33)),
    (None, 0, (1, 32, 2), false, (2, 1)),
    (None, 3, (1, 1, 6), true, (2, 2)),
    (None, 3, (255, 3, 6), true, (0, 0)),
];

/// The code-blocks and precincts of a component, where it and its tile are within the ranges.
fn counts(canvas: &Canvas, tile: u16, comp: &CompShape) -> Option<(u128, u128)> {
    if is_canvas(canvas) && u64::from(tile) < tiles(canvas) && is_shape(comp) {
        Some((
            count_blocks(canvas, tile, comp),
            count_precincts(canvas, tile, comp),
        ))
    } else {
        None
    }
}

#[test]
fn ends_of_the_ranges(rt: HostRuntime) {
    for (side, tile, (step, levels, exponent), low, want) in &COUNTS {
        let canvas = match side {
            Some(side) => whole((0, *side), (0, *side)),
            None => FAR,
        };
        let mut precincts = WHOLE;
        if *low {
            precincts[0] = 0;
        }
        let comp = shape(*step, *step, *levels, (*exponent, *exponent), precincts);
        equal(&rt, counts(&canvas, *tile, &comp), Some(*want));
    }
}
