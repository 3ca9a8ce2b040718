//! How many blocks and precincts a tile-component has.

ghost use Rattle.std.specs.Prelude.{◌≡◌, ◌≤◌, ◌<◌, ◌+◌, ◌*◌, ◌^◌, ◌↔◌, IsTrue};
ghost use Rattle.jx_base.specs.Places.{size_of};
ghost use Rattle.jx_geom.specs.Counts.{
  tile_count,
  precinct_count,
  block_count,
  resolution_blocks,
  component_blocks,
  component_precincts,
};
ghost use Rattle.jx_geom.specs.Ranges.{CanvasInRange, ShapeInRange, HasBand};
ghost use Rattle.jx_geom.specs.Rects.{component_rect, tile_rect};

use crate::rects::{blocks_of, is_empty, precincts_of, tile_of};
use crate::shape::{Canvas, CompShape};
use jx_base::{Band, Rect};

/// How many cells a rect of cells has.
fn count(cells: Rect) -> u128
    ensures value { result ≡ size_of cells }
    ensures bound { result < 2 ^ 64 }
{
    let wide = cells.x.high.saturating_sub(cells.x.low);
    let high = cells.y.high.saturating_sub(cells.y.low);
    u128::from(u64::from(wide) * u64::from(high))
}

fn count_band(tile: Rect, shape: &CompShape, res: u8, band: Band) -> u128
    requires shape { ShapeInRange shape.now }
    requires res { res ≤ shape.now.levels }
    requires band { HasBand res band }
    ensures value { result ≡ block_count tile shape.now res band }
    ensures bound { result < 2 ^ 64 }
{
    count(blocks_of(tile, shape, res, band))
}

#[tactic(auto, unfolding(crate::specs::Counts::resolution_blocks))]
pub(crate) fn count_resolution(tile: Rect, shape: &CompShape, res: u8) -> u128
    requires shape { ShapeInRange shape.now }
    requires res { res ≤ shape.now.levels }
    ensures value { result ≡ resolution_blocks tile shape.now res }
    ensures bound { result < 2 ^ 66 }
{
    if res == 0 {
        return count_band(tile, shape, res, Band::LL);
    }
    let right = count_band(tile, shape, res, Band::HL);
    let low = count_band(tile, shape, res, Band::LH);
    right + low + count_band(tile, shape, res, Band::HH)
}

/// How many precincts a resolution has.
pub(crate) fn count_precincts_at(tile: Rect, shape: &CompShape, res: u8) -> u128
    requires shape { ShapeInRange shape.now }
    requires res { res ≤ shape.now.levels }
    ensures value { result ≡ precinct_count tile shape.now res }
    ensures bound { result < 2 ^ 64 }
{
    count(precincts_of(tile, shape, res))
}

/// How many code-blocks a component has, over all bands, in a tile of these places.
#[tactic(auto, using(jx_base::proofs::Sums::sum_below_next), unfolding(crate::specs::Counts::component_blocks))]
fn count_all_blocks(tile: Rect, comp: &CompShape) -> u128
    requires { ShapeInRange comp.now }
    ensures value { result ≡ component_blocks tile comp.now }
    ensures bound { result < 2 ^ 72 }
{
    let mut total = 0;
    for res in 0..comp.levels + 1 {
        total += count_resolution(tile, comp, res);
    }
    total
}

/// How many precincts, over all resolutions.
#[tactic(auto, using(jx_base::proofs::Sums::sum_below_next), unfolding(crate::specs::Counts::component_precincts))]
fn count_all_precincts(tile: Rect, comp: &CompShape) -> u128
    requires { ShapeInRange comp.now }
    ensures value { result ≡ component_precincts tile comp.now }
    ensures bound { result < 2 ^ 72 }
{
    let mut total = 0;
    for res in 0..comp.levels + 1 {
        total += count_precincts_at(tile, comp, res);
    }
    total
}

/// How many code-blocks and precincts a component has in a tile of these places on the reference grid
/// (T.800, B.6 and B.7); none where it has no sample there, which costs a few operations.
pub fn count_in(tile: Rect, comp: &CompShape) -> (u128, u128)
    requires { ShapeInRange comp.now }
    ensures blocks { result.0 ≡ component_blocks tile comp.now }
    ensures precincts { result.1 ≡ component_precincts tile comp.now }
    ensures few_blocks { result.0 < 2 ^ 72 }
    ensures few_precincts { result.1 < 2 ^ 72 }
{
    count_known(tile, comp, is_empty(tile, comp))
}

/// The same of a component of which it is known whether it has no place in the tile.
#[tactic(auto, using(crate::proofs::EmptyLemmas::no_precincts, crate::proofs::EmptyLemmas::no_blocks))]
pub fn count_known(tile: Rect, comp: &CompShape, none: bool) -> (u128, u128)
    requires shape { ShapeInRange comp.now }
    requires none { IsTrue none ↔ (size_of (component_rect tile comp.now) ≡ 0) }
    ensures blocks { result.0 ≡ component_blocks tile comp.now }
    ensures precincts { result.1 ≡ component_precincts tile comp.now }
    ensures few_blocks { result.0 < 2 ^ 72 }
    ensures few_precincts { result.1 < 2 ^ 72 }
{
    if none {
        return (0, 0);
    }
    (
        count_all_blocks(tile, comp),
        count_all_precincts(tile, comp),
    )
}

/// How many code-blocks a component of a tile has, over all its bands (T.800, B.7).
pub fn count_blocks(canvas: &Canvas, tile: u16, comp: &CompShape) -> u128
    requires canvas { CanvasInRange canvas.now }
    requires tile { tile < tile_count canvas.now }
    requires comp { ShapeInRange comp.now }
    ensures value { result ≡ component_blocks (tile_rect canvas.now tile) comp.now }
    ensures bound { result < 2 ^ 72 }
{
    count_in(tile_of(canvas, tile), comp).0
}

/// How many precincts a component of a tile has, over all its resolutions (T.800, B.6).
pub fn count_precincts(canvas: &Canvas, tile: u16, comp: &CompShape) -> u128
    requires canvas { CanvasInRange canvas.now }
    requires tile { tile < tile_count canvas.now }
    requires comp { ShapeInRange comp.now }
    ensures value { result ≡ component_precincts (tile_rect canvas.now tile) comp.now }
    ensures bound { result < 2 ^ 72 }
{
    count_in(tile_of(canvas, tile), comp).1
}
