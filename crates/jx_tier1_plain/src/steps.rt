//! What a coding pass decides at a place (T.800, D.3).

ghost use Rattle.std.specs.Prelude.{◌≡◌, ◌+◌, ◌-◌, ◌^◌, ◌<◌, ◌≤◌, ℕ, Bool, true, false, ◌&&◌, ◌||◌, ◌==◌, not, nat_lt, nat_le, if◌then◌else◌, IfOk, OnOk, IsTrue, IsOk};
ghost use Rattle.jx_tier1_specs.specs.Cells.{Cells, coef_at, significant, IsPlace, IsWithin, AreWithin, IsKept};
ghost use Rattle.jx_tier1_specs.specs.Asking.{told};
ghost use Rattle.jx_tier1_specs.specs.Pass.{IsScan, shift_of, is_decided, is_refined, with_bit, with_sign, changed, sign_of, bit_of, significance_at, refinement_at, usual_at};

use crate::Grid;
use crate::near::{is_near, label, label_of_sign};
use jx_base::NoMemory;
use jx_tier1_specs::{About, Coef, Plane, Question, Source, refinement_label};

/// The weight of a bit of the plane is 2 to this power.
pub(crate) fn shift(plane: Plane) -> u8
    requires { IsScan plane }
    ensures { result ≡ shift_of plane }
{
    plane.planes - 1 - plane.number
}

/// The weight of a bit of the plane.
#[tactic(auto, using(jx_tier1_specs::proofs::Weights::weight_is))]
fn weight(plane: Plane) -> u128
    requires { IsScan plane }
    ensures { result ≡ 2 ^ shift_of plane }
{
    1 << shift(plane)
}

/// Whether the bit of the plane was decided.
pub(crate) fn is_done(plane: Plane, coef: Coef) -> bool
    ensures { result ≡ is_decided plane coef }
{
    coef.planes > plane.number
}

/// Whether the coefficient was refined in an earlier plane.
fn was_refined(plane: Plane, coef: Coef) -> bool
    requires { IsScan plane }
    ensures { result ≡ is_refined plane coef }
{
    coef.bits >> (plane.planes - plane.number) >= 2
}

/// Decides the bit of the plane at a place.
pub(crate) fn put_bit(grid: &mut Grid, plane: Plane, x: u16, y: u16, bit: bool)
    requires scan { IsScan plane }
    requires place { IsPlace grid.old x y }
    requires within { AreWithin plane.planes (plane.number + 1) grid.old }
    requires undecided { IsTrue bit → (coef_at grid.old x y).planes ≤ plane.number }
    ensures grid { grid.new ≡ changed grid.old x y (with_bit plane bit) }
    ensures kept { IsKept plane.planes (plane.number + 1) grid.old grid.new }
{
    let coef = grid.at(x, y);
    let bits = if bit {
        coef.bits + weight(plane)
    } else {
        coef.bits
    };
    grid.set(
        x,
        y,
        Coef {
            negative: coef.negative,
            bits,
            planes: plane.number + 1,
        },
    );
}

/// Makes the coefficient at a place significant.
pub(crate) fn put_sign(grid: &mut Grid, plane: Plane, x: u16, y: u16, negative: bool)
    requires scan { IsScan plane }
    requires place { IsPlace grid.old x y }
    requires within { AreWithin plane.planes (plane.number + 1) grid.old }
    requires insignificant { (coef_at grid.old x y).bits ≡ 0 }
    ensures grid { grid.new ≡ changed grid.old x y (with_sign plane negative) }
    ensures kept { IsKept plane.planes (plane.number + 1) grid.old grid.new }
{
    let coef = grid.at(x, y);
    grid.set(
        x,
        y,
        Coef {
            negative,
            bits: coef.bits + weight(plane),
            planes: plane.number + 1,
        },
    );
}

/// Asks for the sign of a coefficient that becomes significant (T.800 D.3.2).
fn decide_sign<S: Source>(
    source: &mut S,
    grid: &mut Grid,
    plane: Plane,
    x: u16,
    y: u16,
) -> Result<(), NoMemory>
    requires scan { IsScan plane }
    requires place { IsPlace grid.old x y }
    requires within { AreWithin plane.planes (plane.number + 1) grid.old }
    requires insignificant { (coef_at grid.old x y).bits ≡ 0 }
    ensures grid { OnOk result (grid.new ≡ (told S.ask (sign_of plane grid.old x y) source.old).0) }
    ensures source { OnOk result (source.new ≡ (told S.ask (sign_of plane grid.old x y) source.old).1) }
    ensures sure { S.is_sure ≡ true → IsOk result }
    ensures kept { IsKept plane.planes (plane.number + 1) grid.old grid.new }
{
    let (label, turned) = label_of_sign(grid, plane.causal, x, y);
    let negative = source.ask(Question {
        label,
        turned,
        shift: shift(plane),
        about: About::Sign(x, y),
    })?;
    put_sign(grid, plane, x, y, negative);
    Ok(())
}

/// Asks for the bit of an insignificant coefficient, and at 1 for its sign (T.800 D.3.1).
fn decide_bit<S: Source>(
    source: &mut S,
    grid: &mut Grid,
    plane: Plane,
    x: u16,
    y: u16,
) -> Result<(), NoMemory>
    requires scan { IsScan plane }
    requires place { IsPlace grid.old x y }
    requires within { AreWithin plane.planes (plane.number + 1) grid.old }
    requires insignificant { (coef_at grid.old x y).bits ≡ 0 }
    ensures grid { OnOk result (grid.new ≡ (told S.ask (bit_of plane grid.old x y) source.old).0) }
    ensures source { OnOk result (source.new ≡ (told S.ask (bit_of plane grid.old x y) source.old).1) }
    ensures sure { S.is_sure ≡ true → IsOk result }
    ensures kept { IsKept plane.planes (plane.number + 1) grid.old grid.new }
{
    let bit = source.ask(Question {
        label: label(grid, plane, x, y),
        turned: false,
        shift: shift(plane),
        about: About::Bit(x, y),
    })?;
    if bit {
        return decide_sign(source, grid, plane, x, y);
    }
    put_bit(grid, plane, x, y, false);
    Ok(())
}

/// A significance pass at a place.
pub(crate) fn significance<S: Source>(
    source: &mut S,
    grid: &mut Grid,
    plane: Plane,
    x: u16,
    y: u16,
) -> Result<(), NoMemory>
    requires scan { IsScan plane }
    requires place { IsPlace grid.old x y }
    requires within { AreWithin plane.planes (plane.number + 1) grid.old }
    ensures grid { OnOk result (grid.new ≡ (told S.ask (significance_at plane grid.old x y) source.old).0) }
    ensures source { OnOk result (source.new ≡ (told S.ask (significance_at plane grid.old x y) source.old).1) }
    ensures sure { S.is_sure ≡ true → IsOk result }
    ensures kept { IsKept plane.planes (plane.number + 1) grid.old grid.new }
{
    let coef = grid.at(x, y);
    if coef.is_significant() || is_done(plane, coef) || label(grid, plane, x, y) == 0 {
        return Ok(());
    }
    decide_bit(source, grid, plane, x, y)
}

/// A refinement pass at a place.
pub(crate) fn refinement<S: Source>(
    source: &mut S,
    grid: &mut Grid,
    plane: Plane,
    x: u16,
    y: u16,
) -> Result<(), NoMemory>
    requires scan { IsScan plane }
    requires place { IsPlace grid.old x y }
    requires within { AreWithin plane.planes (plane.number + 1) grid.old }
    ensures grid { OnOk result (grid.new ≡ (told S.ask (refinement_at plane grid.old x y) source.old).0) }
    ensures source { OnOk result (source.new ≡ (told S.ask (refinement_at plane grid.old x y) source.old).1) }
    ensures sure { S.is_sure ≡ true → IsOk result }
    ensures kept { IsKept plane.planes (plane.number + 1) grid.old grid.new }
{
    let coef = grid.at(x, y);
    if !coef.is_significant() || is_done(plane, coef) {
        return Ok(());
    }
    let bit = source.ask(Question {
        label: refinement_label(was_refined(plane, coef), is_near(grid, plane.causal, x, y)),
        turned: false,
        shift: shift(plane),
        about: About::Bit(x, y),
    })?;
    put_bit(grid, plane, x, y, bit);
    Ok(())
}

/// A cleanup pass at a place outside the run mode.
pub(crate) fn usual<S: Source>(
    source: &mut S,
    grid: &mut Grid,
    plane: Plane,
    x: u16,
    y: u16,
) -> Result<(), NoMemory>
    requires scan { IsScan plane }
    requires place { IsPlace grid.old x y }
    requires within { AreWithin plane.planes (plane.number + 1) grid.old }
    ensures grid { OnOk result (grid.new ≡ (told S.ask (usual_at plane grid.old x y) source.old).0) }
    ensures source { OnOk result (source.new ≡ (told S.ask (usual_at plane grid.old x y) source.old).1) }
    ensures sure { S.is_sure ≡ true → IsOk result }
    ensures kept { IsKept plane.planes (plane.number + 1) grid.old grid.new }
{
    let coef = grid.at(x, y);
    if coef.is_significant() || is_done(plane, coef) {
        return Ok(());
    }
    decide_bit(source, grid, plane, x, y)
}
