//! The geometry of the one tile.

ghost use Rattle.std.specs.Prelude.{◌≡◌, IfOk};
ghost use Rattle.jx_generate.specs.Headers.{AreSizes, canvas_made, geometry_made, shape_made};
ghost use Rattle.jx_generate.specs.Making.{count_drawn};

use jx_base::NoMemory;
use jx_geom::{Canvas, CompShape, TileGeom, count_blocks};
use std::alloc::Global;

/// A picture of one tile.
fn canvas(width: u32, height: u32) -> Canvas
    ensures { result ≡ canvas_made width height }
{
    Canvas {
        x1: width,
        y1: height,
        x0: 0,
        y0: 0,
        tw: width,
        th: height,
        tx: 0,
        ty: 0,
    }
}

/// A component: five levels, code-blocks of 64 by 64, and precincts of the largest size.
fn shape() -> CompShape
    ensures { result ≡ shape_made }
{
    CompShape {
        dx: 1,
        dy: 1,
        levels: 5,
        xcb: 6,
        ycb: 6,
        precincts: [255; 33],
    }
}

/// The geometry of the tile.
pub(crate) fn geometry(alloc: Global, width: u32, height: u32) -> Result<TileGeom, NoMemory>
    requires { AreSizes width height }
    ensures { IfOk result (λ g. g ≡ geometry_made width height) }
{
    let canvas = canvas(width, height);
    let shapes = [shape(), shape(), shape()];
    TileGeom::new(alloc, &canvas, 0, &shapes)
}

/// How many code-blocks it has.
pub(crate) fn count(width: u32, height: u32) -> u32
    requires { AreSizes width height }
    ensures { result ≡ count_drawn width height }
{
    let blocks = count_blocks(&canvas(width, height), 0, &shape());
    3 * blocks as u32
}
