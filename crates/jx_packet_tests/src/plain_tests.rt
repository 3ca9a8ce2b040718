//! All of small tiles, compared with a plain count of places.

use crate::checks::{check, equal_at};
use crate::geometries::{
    BANDS, WHOLE, area, band_at, block_at, blocks_at, cells_at, geometry, has_band, precincts_at,
    shape,
};
use crate::ranges::is_canvas;
use jx_base::{Band, Rect};
use jx_geom::{Canvas, CompShape, TileGeom, tiles};
use std::process::Abort;
use std::test::Fail;

/// A plain count on canvases of at most 32 by 32: each place is tried by itself.
#[derive(Drop)]
struct Plain {
    canvas: Canvas,
    tile: u16,
    comp: CompShape,
}

const SIDE: u32 = 32;

/// Whether a column, or a row, of the grid lies in the picture and in the column of tiles of a number.
fn lies_in(at: u64, ends: (u32, u32), offset: u32, size: u32, number: u32) -> bool {
    at >= u64::from(ends.0)
        && at < u64::from(ends.1)
        && size > 0
        && at.saturating_sub(u64::from(offset)) / u64::from(size.max(1)) == u64::from(number)
}

impl Plain {
    /// The columns of tiles: that of the picture's last place, and those before it.
    fn columns(&self) -> u32 {
        self.canvas
            .x1
            .saturating_sub(1)
            .saturating_sub(self.canvas.tx)
            / self.canvas.tw.max(1)
            + 1
    }

    fn has_sample(&self, x: u64, y: u64) -> bool {
        let columns = self.columns().max(1);
        let c = &self.canvas;
        let x = x.wrapping_mul(u64::from(self.comp.dx));
        let y = y.wrapping_mul(u64::from(self.comp.dy));
        lies_in(x, (c.x0, c.x1), c.tx, c.tw, u32::from(self.tile) % columns)
            && lies_in(y, (c.y0, c.y1), c.ty, c.th, u32::from(self.tile) / columns)
    }

    fn has_place(&self, res: u8, x: u32, y: u32) -> bool {
        let depth = u32::from(self.comp.levels.saturating_sub(res)).min(20);
        let step = 1u64 << depth;
        self.has_sample(
            u64::from(x).wrapping_mul(step),
            u64::from(y).wrapping_mul(step),
        )
    }

    /// A band's place lies among its resolution's places, at even or odd columns and rows.
    fn has_band_place(&self, res: u8, band: Band, x: u32, y: u32) -> bool {
        let (x, y) = (x.min(SIDE), y.min(SIDE));
        match band {
            Band::LL => self.has_place(res, x, y),
            Band::HL => self.has_place(res, 2 * x + 1, 2 * y),
            Band::LH => self.has_place(res, 2 * x, 2 * y + 1),
            Band::HH => self.has_place(res, 2 * x + 1, 2 * y + 1),
        }
    }

    /// The exponents of the cells: of precincts, of their part in a band, and of blocks.
    fn exponents(&self, res: u8) -> [(u32, u32); 3] {
        let byte = u32::from(self.comp.precincts[usize::from(res.min(32))]);
        let whole = (byte & 15, byte >> 4);
        let part = if res == 0 {
            whole
        } else {
            (whole.0.saturating_sub(1), whole.1.saturating_sub(1))
        };
        [
            whole,
            part,
            (
                part.0.min(u32::from(self.comp.xcb)),
                part.1.min(u32::from(self.comp.ycb)),
            ),
        ]
    }

    fn has(&self, res: u8, band: Option<Band>, x: u32, y: u32) -> bool {
        match band {
            None => self.has_place(res, x, y),
            Some(band) => self.has_band_place(res, band, x, y),
        }
    }

    /// How many places there are, and how many cells have one.
    fn counts(&self, res: u8, band: Option<Band>, size: (u32, u32)) -> (u64, u64) {
        let mut seen = [false; 1024];
        let mut places = 0u64;
        let mut cells = 0u64;
        for y in 0..SIDE {
            for x in 0..SIDE {
                if self.has(res, band, x, y) {
                    places = places.saturating_add(1);
                    let at = (y >> size.1.min(15)) * SIDE + (x >> size.0.min(15));
                    if let Some(cell) = seen.get_mut(at as usize) {
                        cells = cells.saturating_add(u64::from(!*cell));
                        *cell = true;
                    }
                }
            }
        }
        (places, cells)
    }
}

fn holds(rect: Rect, x: u32, y: u32) -> bool {
    rect.x.low <= x && x < rect.x.high && rect.y.low <= y && y < rect.y.high
}

/// Compares each place of a band.
fn compare_places(rt: &impl Abort, plain: &Plain, rect: Rect, res: u8, band: Band) {
    for y in 0..SIDE {
        for x in 0..SIDE {
            let want = plain.has_band_place(res, band, x, y);
            equal_at(rt, &(res, band, x, y), holds(rect, x, y), want);
        }
    }
}

/// How many places a band's blocks have together, and how many cells its precincts.
fn sums(geom: &TileGeom, res: u8, band: Band) -> (u64, u64) {
    let mut places = 0u64;
    let mut cells = 0u64;
    for index in 0..1024 {
        if let Some(block) = block_at(geom, 0, res, band, index) {
            places = places.saturating_add(area(block));
        }
        if let Some(blocks) = blocks_at(geom, 0, res, band, index) {
            cells = cells.saturating_add(area(blocks));
        }
    }
    (places, cells)
}

/// Compares the precincts and blocks of a band with the plain count.
fn compare_band(rt: &impl Abort, plain: &Plain, geom: &TileGeom, res: u8, band: Band) {
    let want = plain.counts(res, Some(band), plain.exponents(res)[2]);
    match (band_at(geom, 0, res, band), cells_at(geom, 0, res, band)) {
        (Some(rect), Some(cells)) => {
            equal_at(rt, &(res, band), (area(rect), area(cells)), want);
            compare_places(rt, plain, rect, res, band);
        }
        _ => check(rt, false),
    }
    equal_at(rt, &(res, band), sums(geom, res, band), want);
}

/// Compares all of a tile's component.
fn compare(rt: &impl Abort, plain: &Plain, geom: &TileGeom) {
    for res in 0..plain.comp.levels.min(32) + 1 {
        let (_, want) = plain.counts(res, None, plain.exponents(res)[0]);
        match precincts_at(geom, 0, res) {
            Some((columns, rows)) => {
                equal_at(rt, &res, u64::from(columns) * u64::from(rows), want);
            }
            None => check(rt, false),
        }
        for band in BANDS {
            if has_band(res, band) {
                compare_band(rt, plain, geom, res, band);
            }
        }
    }
}

/// Compares two tiles, where the canvas has them.
fn compare_tiles(
    rt: &(impl Abort + AllocGlobal),
    canvas: Canvas,
    comp: CompShape,
) -> Result<(), Fail> {
    check(rt, is_canvas(&canvas));
    for tile in 0..2 {
        if u64::from(tile) < tiles(&canvas) {
            let geom = geometry(rt.alloc(), &canvas, tile, &[comp])?;
            compare(rt, &Plain { canvas, tile, comp }, &geom);
        }
    }
    Ok(())
}

/// The ends of pictures, and their tiles' first place and size, across and down.
const ACROSS: [(u32, u32, u32, u32); 4] = [
    (0, 9, 0, 9),
    (5, 22, 3, 7),
    (1, 2, 1, 1),
    (13, 30, 2, 24),
];

const DOWN: [(u32, u32, u32, u32); 3] = [(0, 5, 0, 5), (3, 19, 1, 11), (6, 31, 0, 8)];

#[test]
fn plain_counts_on_small_canvases(rt: HostRuntime) -> Result<(), Fail> {
    let mut small = WHOLE;
    small[0] = 0x20;
    small[1] = 0x13;
    small[2] = 0x21;
    let shapes = [
        shape(1, 1, 2, (2, 3), WHOLE),
        shape(1, 2, 2, (3, 2), small),
        shape(3, 1, 1, (2, 2), small),
        shape(2, 5, 3, (2, 2), WHOLE),
    ];
    for (x0, x1, tx, tw) in ACROSS {
        for (y0, y1, ty, th) in DOWN {
            let canvas = Canvas {
                x1,
                y1,
                x0,
                y0,
                tw,
                th,
                tx,
                ty,
            };
            for comp in shapes {
                compare_tiles(&rt, canvas, comp)?;
            }
        }
    }
    Ok(())
}
