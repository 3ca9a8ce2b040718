//! Tile-components without a place. Components in a row with equal sampling factors are asked once.

ghost use Rattle.std.specs.Prelude.{◌≡◌, ◌<◌, ◌-◌, ◌↔◌, IsTrue, [], length};
ghost use Rattle.jx_geom.specs.Counts.{tile_blocks, tile_precincts};
ghost use Rattle.jx_geom.specs.Geometry.{LacksPlace, ShapesInRange};
ghost use Rattle.jx_geom.specs.Resolutions.{all_resolutions};

use crate::rects::is_empty;
use crate::shape::CompShape;
use jx_base::Rect;

/// Whether a component has no place in a tile, where `last` says it of the component before it.
#[tactic(auto, using(crate::proofs::EmptyLemmas::same_factors))]
pub fn is_empty_after(tile: Rect, comps: &[CompShape], comp: usize, last: bool) -> bool
    requires comp { comp < length comps.now }
    requires comps { ShapesInRange comps.now }
    requires last { 0 < comp → IsTrue last ↔ LacksPlace tile comps.now (comp - 1) }
    ensures { IsTrue result ↔ LacksPlace tile comps.now comp }
{
    let shape = &comps[comp];
    if comp > 0 {
        let before = &comps[comp - 1];
        if before.dx == shape.dx && before.dy == shape.dy {
            return last;
        }
    }
    is_empty(tile, shape)
}

/// Whether no component has a place in a tile, so that the tile has no precinct and no code-block.
pub fn has_no_place(tile: Rect, comps: &[CompShape]) -> bool
    requires { ShapesInRange comps.now }
    ensures blocks { IsTrue result → tile_blocks tile comps.now ≡ 0 }
    ensures precincts { IsTrue result → tile_precincts tile comps.now ≡ 0 }
    ensures list { IsTrue result → all_resolutions tile comps.now ≡ [] }
{
    let mut none = false;
    for comp in 0..comps.len() {
        none = is_empty_after(tile, comps, comp, none);
        if !none {
            return false;
        }
    }
    true
}
