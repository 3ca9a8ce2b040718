//! The run mode of cleanup passes (T.800, D.3.4).

ghost use Rattle.std.specs.Prelude.{◌≡◌, ◌+◌, ◌-◌, ◌<◌, ◌≤◌, ℕ, true, false, OnOk, IsTrue, IsOk};
ghost use Rattle.jx_tier1_specs.specs.Cells.{Cells, coef_at, significant, IsPlace, AreWithin, IsKept};
ghost use Rattle.jx_tier1_specs.specs.Asking.{told};
ghost use Rattle.jx_tier1_specs.specs.Pass.{IsScan, is_quiet, is_run, zeroed, named_at, place_at, run_at, cleanup_at, number_in_run};

use crate::Grid;
use crate::near::{label, label_of_sign};
use crate::steps::{is_done, put_bit, put_sign, shift, usual};
use jx_base::NoMemory;
use jx_tier1_specs::{About, Plane, Question, Source};

/// Whether a coefficient is left to the cleanup pass with nothing significant near.
fn is_quiet_at(grid: &Grid, plane: Plane, x: u16, y: u16) -> bool
    requires { IsPlace grid.now x y }
    ensures { result ≡ is_quiet plane grid.now x y }
{
    let coef = grid.at(x, y);
    !coef.is_significant() && !is_done(plane, coef) && label(grid, plane, x, y) == 0
}

/// Whether the run mode begins at a place.
fn is_run_at(grid: &Grid, plane: Plane, x: u16, y: u16) -> bool
    requires { IsPlace grid.now x y }
    ensures run { result ≡ is_run plane grid.now x y }
    ensures whole { IsTrue result → y + 4 ≤ grid.now.height }
{
    if y % 4 != 0 || y + 4 > grid.height() {
        return false;
    }
    is_quiet_at(grid, plane, x, y)
        && is_quiet_at(grid, plane, x, y + 1)
        && is_quiet_at(grid, plane, x, y + 2)
        && is_quiet_at(grid, plane, x, y + 3)
}

/// Decides that the first places of a column are 0.
#[tactic(auto, using(jx_tier1_specs::proofs::RunLemmas::zeroed_more))]
fn zero_first(grid: &mut Grid, plane: Plane, x: u16, y: u16, count: u16)
    requires scan { IsScan plane }
    requires place { IsPlace grid.old x y }
    requires whole { y + 4 ≤ grid.old.height }
    requires few { count ≤ 4 }
    requires within { AreWithin plane.planes (plane.number + 1) grid.old }
    ensures grid { grid.new ≡ zeroed plane count grid.old x y }
    ensures kept { IsKept plane.planes (plane.number + 1) grid.old grid.new }
{
    for i in 0..count {
        put_bit(grid, plane, x, y + i, false);
    }
}

/// Makes the named one of four quiet places significant, and those above it 0.
fn decide_named<S: Source>(
    source: &mut S,
    grid: &mut Grid,
    plane: Plane,
    x: u16,
    y: u16,
    n: u16,
) -> Result<(), NoMemory>
    requires scan { IsScan plane }
    requires place { IsPlace grid.old x y }
    requires whole { y + 4 ≤ grid.old.height }
    requires few { n < 4 }
    requires quiet { (coef_at grid.old x (y + n)).bits ≡ 0 }
    requires within { AreWithin plane.planes (plane.number + 1) grid.old }
    ensures grid { OnOk result (grid.new ≡ (told S.ask (named_at plane grid.old x y n) source.old).0) }
    ensures source { OnOk result (source.new ≡ (told S.ask (named_at plane grid.old x y n) source.old).1) }
    ensures sure { S.is_sure ≡ true → IsOk result }
    ensures kept { IsKept plane.planes (plane.number + 1) grid.old grid.new }
{
    let (label, turned) = label_of_sign(grid, plane.causal, x, y + n);
    let negative = source.ask(Question {
        label,
        turned,
        shift: shift(plane),
        about: About::Sign(x, y + n),
    })?;
    put_sign(grid, plane, x, y + n, negative);
    zero_first(grid, plane, x, y, n);
    Ok(())
}

/// Asks which of four quiet places is the first with the bit 1.
fn decide_place<S: Source>(
    source: &mut S,
    grid: &mut Grid,
    plane: Plane,
    x: u16,
    y: u16,
) -> Result<(), NoMemory>
    requires scan { IsScan plane }
    requires place { IsPlace grid.old x y }
    requires whole { y + 4 ≤ grid.old.height }
    requires quiet { IsTrue (is_run plane grid.old x y) }
    requires within { AreWithin plane.planes (plane.number + 1) grid.old }
    ensures grid { OnOk result (grid.new ≡ (told S.ask (place_at plane grid.old x y) source.old).0) }
    ensures source { OnOk result (source.new ≡ (told S.ask (place_at plane grid.old x y) source.old).1) }
    ensures sure { S.is_sure ≡ true → IsOk result }
    ensures kept { IsKept plane.planes (plane.number + 1) grid.old grid.new }
{
    let shift = shift(plane);
    let high = source.ask(Question {
        label: 18,
        turned: false,
        shift,
        about: About::High(x, y),
    })?;
    let low = source.ask(Question {
        label: 18,
        turned: false,
        shift,
        about: About::Low(x, y),
    })?;
    decide_named(source, grid, plane, x, y, number(high, low))
}

/// The number that two bits name.
fn number(high: bool, low: bool) -> u16
    ensures number { result ≡ number_in_run high low }
    ensures few { result < 4 }
{
    2 * u16::from(high) + u16::from(low)
}

/// The run mode.
fn run<S: Source>(
    source: &mut S,
    grid: &mut Grid,
    plane: Plane,
    x: u16,
    y: u16,
) -> Result<(), NoMemory>
    requires scan { IsScan plane }
    requires place { IsPlace grid.old x y }
    requires whole { y + 4 ≤ grid.old.height }
    requires quiet { IsTrue (is_run plane grid.old x y) }
    requires within { AreWithin plane.planes (plane.number + 1) grid.old }
    ensures grid { OnOk result (grid.new ≡ (told S.ask (run_at plane grid.old x y) source.old).0) }
    ensures source { OnOk result (source.new ≡ (told S.ask (run_at plane grid.old x y) source.old).1) }
    ensures sure { S.is_sure ≡ true → IsOk result }
    ensures kept { IsKept plane.planes (plane.number + 1) grid.old grid.new }
{
    let any = source.ask(Question {
        label: 17,
        turned: false,
        shift: shift(plane),
        about: About::Run(x, y),
    })?;
    if any {
        return decide_place(source, grid, plane, x, y);
    }
    zero_first(grid, plane, x, y, 4);
    Ok(())
}

/// A cleanup pass at a place (T.800 D.3.4).
pub(crate) fn cleanup<S: Source>(
    source: &mut S,
    grid: &mut Grid,
    plane: Plane,
    x: u16,
    y: u16,
) -> Result<(), NoMemory>
    requires scan { IsScan plane }
    requires place { IsPlace grid.old x y }
    requires within { AreWithin plane.planes (plane.number + 1) grid.old }
    ensures grid { OnOk result (grid.new ≡ (told S.ask (cleanup_at plane grid.old x y) source.old).0) }
    ensures source { OnOk result (source.new ≡ (told S.ask (cleanup_at plane grid.old x y) source.old).1) }
    ensures sure { S.is_sure ≡ true → IsOk result }
    ensures kept { IsKept plane.planes (plane.number + 1) grid.old grid.new }
{
    if is_run_at(grid, plane, x, y) {
        return run(source, grid, plane, x, y);
    }
    usual(source, grid, plane, x, y)
}
