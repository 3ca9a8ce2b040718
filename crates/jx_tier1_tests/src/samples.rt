//! What several of these modules draw on: a row of numbers, lists of segments, and a grid.

ghost use Rattle.std.specs.Prelude.{◌<◌, ◌≤◌, ◌^◌, length, IfOk};
ghost use Rattle.jx_tier1_specs.specs.Cells.{HasSize};
ghost use Rattle.jx_tier1_specs.specs.Short.{AreShort};

use jx_base::NoMemory;
use jx_tier1_plain::{Grid, place};
use jx_tier1_specs::{Coef, Segments};
use std::alloc::Global;

/// The next of a row of numbers that look random.
pub(crate) fn next(x: u64) -> u64 {
    x.wrapping_mul(6364136223846793005)
        .wrapping_add(1442695040888963407)
}

/// One segment.
#[tactic(auto, using(jx_tier1_specs::proofs::Firsts::one_short))]
pub(crate) fn one<'a>(alloc: Global, bytes: &'a [u8]) -> Result<Segments<'a>, NoMemory>
    requires { length bytes.now < 2 ^ 32 }
    ensures { IfOk result (λ s. AreShort s) }
{
    let mut segments = Segments::new(alloc);
    segments.push(bytes)?;
    Ok(segments)
}

/// Segments as they were written; none where one has 2^16 bytes.
#[tactic(auto, using(crate::proofs::ShortLemmas::short_more, crate::proofs::ShortLemmas::short_none))]
pub(crate) fn gathered<'a>(alloc: Global, lists: &'a [Vec<u8>]) -> Result<Segments<'a>, NoMemory>
    ensures { IfOk result (λ s. AreShort s) }
{
    let mut segments = Segments::new(alloc);
    for list in lists {
        let bytes = list.as_slice();
        if bytes.len() > 0xFFFF {
            return Err(NoMemory);
        }
        segments.push(bytes)?;
    }
    Ok(segments)
}

/// The coefficient of the place of number n: its magnitude is n modulo 32 in five planes, and it is
/// negative where n is odd.
pub(crate) fn nth(n: u32) -> Coef {
    Coef {
        negative: n % 2 == 1,
        bits: u128::from(n % 32),
        planes: 5,
    }
}

/// A grid of these coefficients in the plain form.
pub(crate) fn plain(alloc: Global, width: u16, height: u16) -> Result<Grid, NoMemory>
    requires wide { width ≤ 1024 }
    requires high { height ≤ 1024 }
    ensures { IfOk result (λ g. HasSize g) }
{
    let mut grid = Grid::new(alloc, width, height)?;
    for n in 0..u32::from(width) * u32::from(height) {
        let (x, y) = place(width, height, n);
        grid.set(x, y, nth(n));
    }
    Ok(grid)
}
