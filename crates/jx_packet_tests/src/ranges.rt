//! Whether what a geometry is to be made from is in the ranges that jx_geom asks for.

ghost use Rattle.std.specs.Prelude.{◌≤◌, ◌<◌, ◌+◌, ◌↔◌, IsTrue};
ghost use Rattle.jx_geom.specs.Counts.{tile_count};
ghost use Rattle.jx_geom.specs.Geometry.{ShapesInRange, WithinLimits};
ghost use Rattle.jx_geom.specs.Ranges.{CanvasInRange, NumbersInRange, PrecinctsInRange, ShapeInRange};

use jx_geom::{Canvas, CompShape, count_in, tile_of};

/// Whether the canvas is in the ranges of rule 4: the first tile holds a place of the picture, and the
/// picture has one.
pub(crate) fn is_canvas(canvas: &Canvas) -> bool
    ensures { IsTrue result ↔ CanvasInRange canvas.now }
{
    begins(canvas.x0, canvas.x1, canvas.tx, canvas.tw)
        && begins(canvas.y0, canvas.y1, canvas.ty, canvas.th)
}

/// Whether tiles of a size begin at or before the picture's start, and the first one reaches past it.
fn begins(start: u32, end: u32, offset: u32, size: u32) -> bool
    ensures { IsTrue result ↔ ((0 < size) × (offset ≤ start) × (start < end) × (start < offset + size)) }
{
    offset <= start && start < end && start - offset < size
}

/// Whether the shape is in the ranges of rules 4, 6 and 8.
pub(crate) fn is_shape(shape: &CompShape) -> bool
    ensures { IsTrue result ↔ ShapeInRange shape.now }
{
    has_numbers(shape) && has_precincts(shape)
}

fn has_numbers(shape: &CompShape) -> bool
    ensures { IsTrue result ↔ NumbersInRange shape.now }
{
    let steps = shape.dx > 0 && shape.dy > 0 && shape.levels <= 32;
    let wide = 2 <= shape.xcb && shape.xcb <= 10;
    let high = 2 <= shape.ycb && shape.ycb <= 10;
    steps && wide && high && shape.xcb + shape.ycb <= 12
}

fn has_precincts(shape: &CompShape) -> bool
    requires { shape.now.levels ≤ 32 }
    ensures { IsTrue result ↔ PrecinctsInRange shape.now }
{
    for res in 1..shape.levels + 1 {
        let byte = shape.precincts[usize::from(res)];
        if byte % 16 == 0 || byte / 16 == 0 {
            return false;
        }
    }
    true
}

/// Whether a tile with components of these shapes has at most 2^22 blocks and 2^22 precincts, as limits 5
/// and 6 allow.
pub(crate) fn is_within_limits(canvas: &Canvas, tile: u16, comps: &[CompShape]) -> bool
    requires canvas { CanvasInRange canvas.now }
    requires tile { tile < tile_count canvas.now }
    requires comps { ShapesInRange comps.now }
    ensures { IsTrue result ↔ WithinLimits canvas.now tile comps.now }
{
    let places = tile_of(canvas, tile);
    let mut blocks: u128 = 0;
    let mut precincts: u128 = 0;
    for comp in comps {
        let (own_blocks, own_precincts) = count_in(places, comp);
        blocks += own_blocks;
        precincts += own_precincts;
        if blocks > 1 << 22 || precincts > 1 << 22 {
            return false;
        }
    }
    true
}
