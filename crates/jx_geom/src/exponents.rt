//! Exponents of precincts and blocks at a resolution.

ghost use Rattle.std.specs.Prelude.{◌≡◌, ◌≤◌, ◌<◌};
ghost use Rattle.jx_geom.specs.Ranges.{ShapeInRange, exponent_across, exponent_down};
ghost use Rattle.jx_geom.specs.Rects.{part_across, part_down, block_across, block_down};

use crate::shape::CompShape;

/// The exponents of a cell's width and height.
#[derive(Clone, Copy, Debug)]
pub(crate) struct Exponents {
    pub(crate) across: u32,
    pub(crate) down: u32,
}

/// Those of a precinct, in its resolution.
pub(crate) fn of_precinct(shape: &CompShape, res: u8) -> Exponents
    requires shape { ShapeInRange shape.now }
    requires res { res ≤ shape.now.levels }
    ensures across { result.across ≡ exponent_across shape.now res }
    ensures down { result.down ≡ exponent_down shape.now res }
    ensures wide { result.across < 16 }
    ensures high { result.down < 16 }
{
    let byte = shape.precincts[usize::from(res)];
    Exponents {
        across: u32::from(byte % 16),
        down: u32::from(byte / 16),
    }
}

/// Those of a precinct in a band: half the size above resolution 0.
pub(crate) fn of_part(shape: &CompShape, res: u8) -> Exponents
    requires shape { ShapeInRange shape.now }
    requires res { res ≤ shape.now.levels }
    ensures across { result.across ≡ part_across shape.now res }
    ensures down { result.down ≡ part_down shape.now res }
    ensures wide { result.across < 16 }
    ensures high { result.down < 16 }
{
    let whole = of_precinct(shape, res);
    let halvings = u32::from(res.min(1));
    Exponents {
        across: whole.across.saturating_sub(halvings),
        down: whole.down.saturating_sub(halvings),
    }
}

/// Those of a code-block: at most those of a precinct in a band.
pub(crate) fn of_block(shape: &CompShape, res: u8) -> Exponents
    requires shape { ShapeInRange shape.now }
    requires res { res ≤ shape.now.levels }
    ensures across { result.across ≡ block_across shape.now res }
    ensures down { result.down ≡ block_down shape.now res }
    ensures wide { result.across < 16 }
    ensures high { result.down < 16 }
{
    let part = of_part(shape, res);
    Exponents {
        across: part.across.min(u32::from(shape.xcb)),
        down: part.down.min(u32::from(shape.ycb)),
    }
}
