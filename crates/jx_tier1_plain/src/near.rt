//! What is seen of a place's neighbours, with causal contexts or without (T.800, D.3.1, D.7).

ghost use Rattle.std.specs.Prelude.{◌≡◌, ◌+◌, ◌<◌, ◌≤◌, ℤ, pos, negsuc, ◌≤ℤ◌};
ghost use Rattle.jx_tier1_specs.specs.Cells.{Cells, IsPlace};
ghost use Rattle.jx_tier1_specs.specs.Near.{coef_near, one_at, sides_of, upright_of, diagonals_of, has_near, leaning, across_of, down_of};
ghost use Rattle.jx_tier1_specs.specs.Labels.{sign_row};
ghost use Rattle.jx_tier1_specs.specs.Pass.{label_at};

use crate::Grid;
use jx_tier1_specs::{Coef, Plane, sign_label, significance_label};

/// What is seen from a place in row `y`, columns and rows being counted from 1 on.
#[tactic(auto, unfolding(jx_tier1_specs::specs::Near::coef_near))]
fn near(grid: &Grid, causal: bool, y: u16, column: u16, row: u16) -> Coef
    requires { y < 1024 }
    ensures { result ≡ coef_near grid.now causal y column row }
{
    let beyond = causal && y % 4 == 3 && row == y + 2;
    if column == 0 || row == 0 || column > grid.width() || row > grid.height() || beyond {
        return Coef {
            negative: false,
            bits: 0,
            planes: 0,
        };
    }
    grid.at(column - 1, row - 1)
}

/// 1 where a significant coefficient is seen there, else 0.
fn one(grid: &Grid, causal: bool, y: u16, column: u16, row: u16) -> u8
    requires { y < 1024 }
    ensures one { result ≡ one_at grid.now causal y column row }
    ensures most { result ≤ 1 }
{
    if near(grid, causal, y, column, row).is_significant() {
        return 1;
    }
    0
}

/// How many neighbours to the sides are significant.
#[tactic(auto, unfolding(jx_tier1_specs::specs::Near::sides_of))]
fn sides(grid: &Grid, causal: bool, x: u16, y: u16) -> u8
    requires { IsPlace grid.now x y }
    ensures count { result ≡ sides_of grid.now causal x y }
    ensures most { result ≤ 2 }
{
    one(grid, causal, y, x, y + 1) + one(grid, causal, y, x + 2, y + 1)
}

/// How many neighbours above and below are significant.
#[tactic(auto, unfolding(jx_tier1_specs::specs::Near::upright_of))]
fn upright(grid: &Grid, causal: bool, x: u16, y: u16) -> u8
    requires { IsPlace grid.now x y }
    ensures count { result ≡ upright_of grid.now causal x y }
    ensures most { result ≤ 2 }
{
    one(grid, causal, y, x + 1, y) + one(grid, causal, y, x + 1, y + 2)
}

/// How many neighbours on the diagonals are significant.
#[tactic(auto, unfolding(jx_tier1_specs::specs::Near::diagonals_of))]
fn diagonals(grid: &Grid, causal: bool, x: u16, y: u16) -> u8
    requires { IsPlace grid.now x y }
    ensures count { result ≡ diagonals_of grid.now causal x y }
    ensures most { result ≤ 4 }
{
    let above = one(grid, causal, y, x, y) + one(grid, causal, y, x + 2, y);
    above + one(grid, causal, y, x, y + 2) + one(grid, causal, y, x + 2, y + 2)
}

/// Which way the signs of two coefficients lean: the sum of those that are significant, cut to -1
/// to 1 (T.800 table D.2).
#[tactic(auto, unfolding(jx_tier1_specs::specs::Near::leaning))]
fn lean(a: Coef, b: Coef) -> i8
    ensures value { result ≡ leaning a b }
    ensures from { negsuc 0 ≤ℤ result }
    ensures to { result ≤ℤ pos 1 }
{
    let positives = u8::from(a.is_significant() && !a.negative)
        + u8::from(b.is_significant() && !b.negative);
    let negatives = u8::from(a.is_significant() && a.negative)
        + u8::from(b.is_significant() && b.negative);
    if negatives < positives {
        return 1;
    }
    if positives < negatives {
        return -1;
    }
    0
}

/// Whether a neighbour of a place is significant.
pub(crate) fn is_near(grid: &Grid, causal: bool, x: u16, y: u16) -> bool
    requires { IsPlace grid.now x y }
    ensures { result ≡ has_near grid.now causal x y }
{
    sides(grid, causal, x, y) + upright(grid, causal, x, y) + diagonals(grid, causal, x, y) > 0
}

/// The label of the first bits of a place.
pub(crate) fn label(grid: &Grid, plane: Plane, x: u16, y: u16) -> u8
    requires { IsPlace grid.now x y }
    ensures label { result ≡ label_at plane grid.now x y }
    ensures within { result ≤ 8 }
{
    significance_label(
        plane.band,
        sides(grid, plane.causal, x, y),
        upright(grid, plane.causal, x, y),
        diagonals(grid, plane.causal, x, y),
    )
}

/// The label of the sign of a place, and whether its decision is turned over.
#[tactic(auto, unfolding(jx_tier1_specs::specs::Near::across_of, jx_tier1_specs::specs::Near::down_of))]
pub(crate) fn label_of_sign(grid: &Grid, causal: bool, x: u16, y: u16) -> (u8, bool)
    requires { IsPlace grid.now x y }
    ensures row { result ≡ sign_row (across_of grid.now causal x y) (down_of grid.now causal x y) }
    ensures within { result.0 < 19 }
{
    let across = lean(
        near(grid, causal, y, x, y + 1),
        near(grid, causal, y, x + 2, y + 1),
    );
    let down = lean(
        near(grid, causal, y, x + 1, y),
        near(grid, causal, y, x + 1, y + 2),
    );
    sign_label(across, down)
}
