//! The code-blocks of a band one after another.

ghost use Rattle.std.specs.Prelude.{◌≡◌, ◌≤◌, ◌<◌, ℕ};
ghost use Rattle.jx_base.specs.declared.names.Band.{Band};
ghost use Rattle.jx_base.specs.declared.names.Rect.{Rect};
ghost use Rattle.jx_base.specs.Places.{size_of};
ghost use Rattle.jx_geom.specs.declared.shape.CompShape.{CompShape};
ghost use Rattle.jx_geom.specs.Counts.{block_count};
ghost use Rattle.jx_geom.specs.Grids.{grid_of};
ghost use Rattle.jx_geom.specs.Ranges.{ShapeInRange, HasBand};
ghost use Rattle.jx_geom.specs.Rects.{block_rect};
ghost use Rattle.jx_base.specs.Limits.{most_blocks};

use crate::exponents::{Exponents, of_block};
use crate::rects::{band_of, block_in, cells_in};
use crate::shape::CompShape;
use jx_base::{Band, Rect};
use std::marker::Model;

/// The code-blocks of a band by their indices (T.800, B.7). It holds the band's places and its cells, so
/// that each block takes a few operations.
#[derive(Clone, Copy, Debug)]
pub struct BlockGrid {
    places: Rect,
    cells: Rect,
    size: Exponents,
}

impl Model for BlockGrid {
    ghost use Rattle.jx_geom.specs.Grids.{GridValue, IsGrid};

    ghost Value = { GridValue };

    ghost view = { λ g. record { places = g.places; cells = g.cells; across = g.size.across; down = g.size.down } };

    ghost inverse = { λ v. record { places = v.places; cells = v.cells; size = record { across = v.across; down = v.down } } };

    ghost invariant = { λ g. IsGrid (record { places = g.places; cells = g.cells; across = g.size.across; down = g.size.down }) };
}

/// The blocks of a band.
#[tactic(auto, unfolding(crate::specs::Rects::block_cells))]
pub(crate) fn grid_of(tile: Rect, shape: &CompShape, res: u8, band: Band) -> BlockGrid
    requires shape { ShapeInRange shape.now }
    requires res { res ≤ shape.now.levels }
    requires band { HasBand res band }
    requires few { block_count tile shape.now res band ≤ most_blocks }
    ensures { result ≡ grid_of tile shape.now res band }
{
    let places = band_of(tile, shape, res, band);
    let size = of_block(shape, res);
    BlockGrid {
        places,
        cells: cells_in(places, size),
        size,
    }
}

impl BlockGrid {
    /// How many code-blocks the band has.
    pub fn count(&self) -> u32
        ensures value { result ≡ size_of self.now.cells }
        ensures bound { result ≤ most_blocks }
    {
        self.cells.area() as u32
    }

    /// The places of the block of an index, of whichever band these are the blocks.
    #[tactic(auto, unfolding(crate::specs::Rects::block_rect))]
    pub fn block(&self, index: u32) -> Rect
        requires { index < size_of self.now.cells }
        ensures { (tile : Rect) (s : CompShape) (r : ℕ) (b : Band) → self.now ≡ grid_of tile s r b → result ≡ block_rect tile s r b index }
    {
        block_in(self.places, self.cells, self.size, index)
    }
}
