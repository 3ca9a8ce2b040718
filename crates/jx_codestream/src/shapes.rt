//! How components are divided, by the segments that say it (ITU-T T.800, A.6).

ghost use Rattle.std.specs.Prelude.{◌≡◌, ◌≤◌, length, map, IfOk, ℕ, Some};
ghost use Rattle.std.specs.List.{range_with_len};
ghost use Rattle.jx_codestream.specs.Params.{precincts_of, shape_in, shape_or};
ghost use Rattle.jx_codestream.specs.Shapes.{comp_shape, divided, no_size, shapes_in, size_in, sized};

use crate::component::precincts_of;
use crate::index::Index;
use crate::precedence::{shape_in, shape_of};
use jx_base::NoMemory;
use jx_geom::CompShape;
use jx_marker::{CompSize, Segment, Shape, Siz};
use std::alloc::Global;

/// A component that isn't there.
const NO_SIZE: CompSize = CompSize {
    ssiz: 0,
    dx: 1,
    dy: 1,
};

/// How many components a picture has, at most 16,384.
pub fn comps_of(siz: &Siz) -> u16
    requires { length siz.now.comps ≤ 16384 }
    ensures { result ≡ length siz.now.comps }
{
    siz.comps.as_slice().len() as u16
}

/// A component's subsampling.
fn size_of(siz: &Siz, comp: u16) -> CompSize
    ensures { result ≡ size_in siz.now comp }
{
    match siz.comps.as_slice().get(usize::from(comp)) {
        Some(size) => *size,
        None => NO_SIZE,
    }
}

/// A component of which no segment says how it is divided.
fn undivided(size: CompSize) -> CompShape
    ensures { result ≡ divided size (shape_or None) }
{
    CompShape {
        dx: size.dx,
        dy: size.dy,
        levels: 0,
        xcb: 0,
        ycb: 0,
        precincts: precincts_of(&[]),
    }
}

/// A component that is divided as a COD or COC says.
fn divided(size: CompSize, shape: &Shape) -> CompShape
    ensures { result ≡ divided size shape.now }
{
    CompShape {
        dx: size.dx,
        dy: size.dy,
        levels: shape.levels,
        xcb: shape.xcb,
        ycb: shape.ycb,
        precincts: precincts_of(shape.precincts.as_slice()),
    }
}

/// The shape of a component.
pub fn comp_shape(siz: &Siz, own: &Index, main: &Index, comp: u16) -> CompShape
    ensures { result ≡ comp_shape (record { siz = siz.now; main = main.now.segments.now; own = own.now.segments.now }) comp }
{
    let size = size_of(siz, comp);
    match shape_of(own, main, comp) {
        Some(shape) => divided(size, shape),
        None => undivided(size),
    }
}

/// The shapes of all components.
pub fn shapes_of(
    alloc: Global,
    siz: &Siz,
    own: &Index,
    main: &Index,
) -> Result<Vec<CompShape>, NoMemory>
    requires { length siz.now.comps ≤ 16384 }
    ensures { IfOk result (λ shapes. shapes.items ≡ shapes_in (record { siz = siz.now; main = main.now.segments.now; own = own.now.segments.now })) }
{
    let mut shapes = Vec::new(alloc);
    for comp in 0..comps_of(siz) {
        shapes.push(comp_shape(siz, own, main, comp))?;
    }
    Ok(shapes)
}

/// How a segment says that components are divided.
pub fn shape_by(segment: &Segment) -> CompShape
    ensures { result ≡ divided no_size (shape_or (shape_in (Some segment.now))) }
{
    match shape_in(segment) {
        Some(shape) => divided(NO_SIZE, shape),
        None => undivided(NO_SIZE),
    }
}

/// The shapes of all components where each is divided as this one.
pub fn sized_shapes(alloc: Global, siz: &Siz, shape: &CompShape) -> Result<Vec<CompShape>, NoMemory>
    requires { length siz.now.comps ≤ 16384 }
    ensures { IfOk result (λ shapes. shapes.items ≡ map (sized siz.now shape.now) (range_with_len 0 (length siz.now.comps))) }
{
    let comps = comps_of(siz);
    let mut shapes = Vec::with_capacity(alloc, usize::from(comps))?;
    for comp in 0..comps {
        let size = size_of(siz, comp);
        shapes.push(CompShape {
            dx: size.dx,
            dy: size.dy,
            ..*shape
        })?;
    }
    Ok(shapes)
}
