//! The rects of a tile, from its own rect on.

ghost use Rattle.std.specs.Prelude.{◌≡◌, ◌≤◌, ◌<◌, ◌^◌, ◌*◌, ◌-◌, ◌↔◌, None, IfSome, IsTrue};
ghost use Rattle.jx_base.specs.Places.{InSpan, column_at, row_at, size_of};
ghost use Rattle.jx_geom.specs.Counts.{tile_count, precinct_count};
ghost use Rattle.jx_geom.specs.Grids.{AreCells, cell_part};
ghost use Rattle.jx_geom.specs.Ranges.{CanvasInRange, ShapeInRange, HasBand};
ghost use Rattle.jx_geom.specs.Rects.{
  tiles_across,
  tiles_down,
  tile_rect,
  component_rect,
  resolution_rect,
  band_rect,
  off_across,
  off_down,
  band_level,
  precinct_cells,
  block_cells,
  precinct_part,
  precinct_blocks,
  precinct_column_point,
  precinct_row_point,
};

use crate::exponents::{Exponents, of_block, of_part, of_precinct};
use crate::shape::{Canvas, CompShape};
use crate::spans::{cells_of, count_tiles, every, has_none, one_band, one_tile, part_of, point_of};
use jx_base::{Band, Rect};

/// How many tiles a canvas has: those across times those down (T.800, equation B-5).
pub fn tiles(canvas: &Canvas) -> u64
    requires { CanvasInRange canvas.now }
    ensures { result ≡ tile_count canvas.now }
{
    across(canvas) * down(canvas)
}

fn across(canvas: &Canvas) -> u64
    requires { CanvasInRange canvas.now }
    ensures value { result ≡ tiles_across canvas.now }
    ensures bound { result < 2 ^ 32 }
{
    count_tiles(canvas.x1, canvas.tx, canvas.tw)
}

fn down(canvas: &Canvas) -> u64
    requires { CanvasInRange canvas.now }
    ensures value { result ≡ tiles_down canvas.now }
    ensures bound { result < 2 ^ 32 }
{
    count_tiles(canvas.y1, canvas.ty, canvas.th)
}

/// A tile's places on the reference grid (T.800, B.3).
#[tactic(auto, using(jx_base::proofs::Raster::row_below), unfolding(crate::specs::Rects::tile_rect))]
pub fn tile_of(canvas: &Canvas, tile: u16) -> Rect
    requires canvas { CanvasInRange canvas.now }
    requires tile { tile < tile_count canvas.now }
    ensures { result ≡ tile_rect canvas.now tile }
{
    let wide = across(canvas);
    let column = u64::from(tile) % wide;
    let row = u64::from(tile) / wide;
    Rect {
        x: one_tile(canvas.x0, canvas.x1, canvas.tx, canvas.tw, column),
        y: one_tile(canvas.y0, canvas.y1, canvas.ty, canvas.th, row),
    }
}

/// A tile-component's places.
#[tactic(auto, unfolding(crate::specs::Rects::component_rect))]
pub(crate) fn component_of(tile: Rect, shape: &CompShape) -> Rect
    requires { ShapeInRange shape.now }
    ensures { result ≡ component_rect tile shape.now }
{
    Rect {
        x: every(tile.x, u64::from(shape.dx)),
        y: every(tile.y, u64::from(shape.dy)),
    }
}

/// Whether a tile-component has no place. The rows are looked at only where it has a column.
#[tactic(auto, using(crate::proofs::EmptyLemmas::zero_left, crate::proofs::EmptyLemmas::zero_right, crate::proofs::EmptyLemmas::zero_factor), unfolding(crate::specs::Rects::component_rect))]
pub(crate) fn is_empty(tile: Rect, shape: &CompShape) -> bool
    requires { ShapeInRange shape.now }
    ensures { IsTrue result ↔ (size_of (component_rect tile shape.now) ≡ 0) }
{
    has_none(tile.x, u32::from(shape.dx)) || has_none(tile.y, u32::from(shape.dy))
}

/// A resolution's places.
#[tactic(auto, using(std::proofs::lemmas::Nat::pow_pos), unfolding(crate::specs::Rects::resolution_rect))]
pub(crate) fn resolution_of(tile: Rect, shape: &CompShape, res: u8) -> Rect
    requires shape { ShapeInRange shape.now }
    requires res { res ≤ shape.now.levels }
    ensures { result ≡ resolution_rect tile shape.now res }
{
    let comp = component_of(tile, shape);
    let step = 1u64 << u32::from(shape.levels - res);
    Rect {
        x: every(comp.x, step),
        y: every(comp.y, step),
    }
}

/// Whether a band is the high one across, and down; its level.
fn offsets(band: Band) -> (u32, u32)
    ensures across { result.0 ≡ off_across band }
    ensures down { result.1 ≡ off_down band }
{
    match band {
        Band::LL => (0, 0),
        Band::HL => (1, 0),
        Band::LH => (0, 1),
        Band::HH => (1, 1),
    }
}

fn level_of(shape: &CompShape, res: u8, band: Band) -> u32
    requires shape { ShapeInRange shape.now }
    requires res { res ≤ shape.now.levels }
    requires band { HasBand res band }
    ensures value { result ≡ band_level shape.now res band }
    ensures bound { result ≤ 32 }
    ensures some { (off_across band ≤ result) × (off_down band ≤ result) }
{
    match band {
        Band::LL => u32::from(shape.levels),
        Band::HL | Band::LH | Band::HH => u32::from(shape.levels - res) + 1,
    }
}

/// A band's places.
#[tactic(auto, unfolding(crate::specs::Rects::band_rect))]
pub(crate) fn band_of(tile: Rect, shape: &CompShape, res: u8, band: Band) -> Rect
    requires shape { ShapeInRange shape.now }
    requires res { res ≤ shape.now.levels }
    requires band { HasBand res band }
    ensures { result ≡ band_rect tile shape.now res band }
{
    let comp = component_of(tile, shape);
    let level = level_of(shape, res, band);
    let (right, low) = offsets(band);
    Rect {
        x: one_band(comp.x, level, right),
        y: one_band(comp.y, level, low),
    }
}

/// The precincts of a resolution, as cells.
#[tactic(auto, unfolding(crate::specs::Rects::precinct_cells))]
pub(crate) fn precincts_of(tile: Rect, shape: &CompShape, res: u8) -> Rect
    requires shape { ShapeInRange shape.now }
    requires res { res ≤ shape.now.levels }
    ensures { result ≡ precinct_cells tile shape.now res }
{
    let whole = resolution_of(tile, shape, res);
    let size = of_precinct(shape, res);
    Rect {
        x: cells_of(whole.x, size.across),
        y: cells_of(whole.y, size.down),
    }
}

/// The cells of a size that have a place of a rect.
pub(crate) fn cells_in(places: Rect, size: Exponents) -> Rect
    requires wide { size.across < 16 }
    requires high { size.down < 16 }
    ensures { AreCells places result size.across size.down }
{
    Rect {
        x: cells_of(places.x, size.across),
        y: cells_of(places.y, size.down),
    }
}

/// The blocks of a band, as cells.
#[tactic(auto, unfolding(crate::specs::Rects::block_cells))]
pub(crate) fn blocks_of(tile: Rect, shape: &CompShape, res: u8, band: Band) -> Rect
    requires shape { ShapeInRange shape.now }
    requires res { res ≤ shape.now.levels }
    requires band { HasBand res band }
    ensures { result ≡ block_cells tile shape.now res band }
{
    cells_in(band_of(tile, shape, res, band), of_block(shape, res))
}

/// The column of the cell of a number among the cells of a rect, row by row.
#[tactic(auto, using(jx_base::proofs::Raster::raster_in))]
fn column_of(cells: Rect, index: u32) -> u32
    requires { index < size_of cells }
    ensures value { result ≡ column_at cells index }
    ensures inside { InSpan cells.x result }
{
    cells.x.low + index % (cells.x.high - cells.x.low)
}

/// The row of that cell.
#[tactic(auto, using(jx_base::proofs::Raster::raster_in))]
fn row_of(cells: Rect, index: u32) -> u32
    requires { index < size_of cells }
    ensures value { result ≡ row_at cells index }
    ensures inside { InSpan cells.y result }
{
    cells.y.low + index / (cells.x.high - cells.x.low)
}

/// The places of a rect in the cell of a number.
#[tactic(auto, using(crate::proofs::SpanLemmas::cells_times, std::proofs::lemmas::Nat::pow_pos))]
pub(crate) fn block_in(places: Rect, cells: Rect, size: Exponents, index: u32) -> Rect
    requires cells { AreCells places cells size.across size.down }
    requires index { index < size_of cells }
    ensures { result ≡ cell_part places cells size.across size.down index }
{
    let column = column_of(cells, index);
    let row = row_of(cells, index);
    Rect {
        x: part_of(places.x, size.across, column),
        y: part_of(places.y, size.down, row),
    }
}

/// The part of a band that lies in a precinct.
#[tactic(auto, using(crate::proofs::RectLemmas::precinct_column_low, crate::proofs::RectLemmas::precinct_row_low, crate::proofs::SpanLemmas::halved_times), unfolding(crate::specs::Rects::precinct_part))]
fn precinct_part_of(tile: Rect, shape: &CompShape, res: u8, band: Band, precinct: u32) -> Rect
    requires shape { ShapeInRange shape.now }
    requires res { res ≤ shape.now.levels }
    requires band { HasBand res band }
    requires precinct { precinct < precinct_count tile shape.now res }
    ensures { result ≡ precinct_part tile shape.now res band precinct }
{
    let places = band_of(tile, shape, res, band);
    let cells = precincts_of(tile, shape, res);
    let size = of_part(shape, res);
    let column = column_of(cells, precinct);
    let row = row_of(cells, precinct);
    Rect {
        x: part_of(places.x, size.across, column),
        y: part_of(places.y, size.down, row),
    }
}

/// The blocks of a precinct in a band, as cells.
#[tactic(auto, unfolding(crate::specs::Rects::precinct_blocks))]
pub(crate) fn precinct_blocks_of(
    tile: Rect,
    shape: &CompShape,
    res: u8,
    band: Band,
    precinct: u32,
) -> Rect
    requires shape { ShapeInRange shape.now }
    requires res { res ≤ shape.now.levels }
    requires band { HasBand res band }
    requires precinct { precinct < precinct_count tile shape.now res }
    ensures { result ≡ precinct_blocks tile shape.now res band precinct }
{
    let places = precinct_part_of(tile, shape, res, band, precinct);
    let size = of_block(shape, res);
    Rect {
        x: cells_of(places.x, size.across),
        y: cells_of(places.y, size.down),
    }
}

/// How many columns and rows of the reference grid lie from one place of a resolution to the next.
fn steps_of(shape: &CompShape, res: u8) -> (u64, u64)
    requires shape { ShapeInRange shape.now }
    requires res { res ≤ shape.now.levels }
    ensures across { result.0 ≡ 2 ^ (shape.now.levels - res) * shape.now.dx }
    ensures down { result.1 ≡ 2 ^ (shape.now.levels - res) * shape.now.dy }
{
    let step = 1u64 << u32::from(shape.levels - res);
    (step * u64::from(shape.dx), step * u64::from(shape.dy))
}

/// Where a precinct stands on the reference grid; none where the resolution has no such precinct.
#[tactic(auto, using(crate::proofs::RectLemmas::precinct_column_fits, crate::proofs::RectLemmas::precinct_row_fits, crate::proofs::RectLemmas::precinct_column_low, crate::proofs::RectLemmas::precinct_row_low), unfolding(crate::specs::Rects::precinct_column_point, crate::specs::Rects::precinct_row_point, crate::specs::Rects::precinct_cells))]
pub(crate) fn point_of_precinct(
    tile: Rect,
    shape: &CompShape,
    res: u8,
    precinct: u32,
) -> Option<(u64, u64)>
    requires shape { ShapeInRange shape.now }
    requires res { res ≤ shape.now.levels }
    ensures there { IfSome result (λ p. precinct < precinct_count tile shape.now res) }
    ensures across { IfSome result (λ p. p.0 ≡ precinct_column_point tile shape.now res (column_at (precinct_cells tile shape.now res) precinct)) }
    ensures down { IfSome result (λ p. p.1 ≡ precinct_row_point tile shape.now res (row_at (precinct_cells tile shape.now res) precinct)) }
    ensures fits { IfSome result (λ p. (p.0 < 2 ^ 32) × (p.1 < 2 ^ 32)) }
    ensures none { result ≡ None → precinct_count tile shape.now res ≤ precinct }
{
    let places = resolution_of(tile, shape, res);
    let size = of_precinct(shape, res);
    let cells = cells_in(places, size);
    if u64::from(precinct) >= cells.area() {
        return None;
    }
    let (right, below) = steps_of(shape, res);
    let column = column_of(cells, precinct);
    let row = row_of(cells, precinct);
    let x = point_of(tile.x.low, places.x.low, size.across, right, column);
    let y = point_of(tile.y.low, places.y.low, size.down, below, row);
    Some((x, y))
}
