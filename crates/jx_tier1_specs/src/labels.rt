//! Context labels (T.800, Tables D.1 to D.4).

ghost use Rattle.std.specs.Prelude.{◌≡◌, ◌+◌, ◌<◌, ◌≤◌, ℤ, pos, negsuc, ◌≤ℤ◌};
ghost use Rattle.jx_tier1_specs.specs.Labels.{label_in, low_rows, diagonal_rows, significance_row, sign_row, refinement_row};

use jx_base::Band;

/// The label in a band that is low across, or, with sides and upright exchanged, in one that is
/// high across and low down.
fn low_label(sides: u8, upright: u8, diagonals: u8) -> u8
    requires sides { sides ≤ 2 }
    requires upright { upright ≤ 2 }
    ensures label { result ≡ label_in (low_rows sides upright diagonals) }
    ensures within { result ≤ 8 }
{
    if sides == 2 {
        return 8;
    }
    if sides == 1 {
        if upright > 0 {
            return 7;
        }
        return if diagonals > 0 { 6 } else { 5 };
    }
    if upright > 0 {
        return upright + 2;
    }
    if diagonals > 1 { 2 } else { diagonals }
}

/// The label in a band that is high both ways.
fn diagonal_label(straight: u8, diagonals: u8) -> u8
    ensures label { result ≡ label_in (diagonal_rows straight diagonals) }
    ensures within { result ≤ 8 }
{
    if diagonals > 2 {
        return 8;
    }
    if diagonals == 2 {
        return if straight > 0 { 7 } else { 6 };
    }
    if straight > 1 {
        return diagonals * 3 + 2;
    }
    diagonals * 3 + straight
}

/// The label of a bit that may make a coefficient significant (T.800 table D.1), by how many of its
/// neighbours are significant: at most 2 to the sides, 2 above and below, 4 on the diagonals.
#[tactic(auto, unfolding(crate::specs::Labels::significance_row))]
pub fn significance_label(band: Band, sides: u8, upright: u8, diagonals: u8) -> u8
    requires sides { sides ≤ 2 }
    requires upright { upright ≤ 2 }
    requires diagonals { diagonals ≤ 4 }
    ensures label { result ≡ significance_row band sides upright diagonals }
    ensures within { result ≤ 8 }
{
    match band {
        Band::LL | Band::LH => low_label(sides, upright, diagonals),
        Band::HL => low_label(upright, sides, diagonals),
        Band::HH => diagonal_label(sides + upright, diagonals),
    }
}

/// The label of a sign (T.800 table D.3), and whether its decision is turned over, by which way the
/// signs of the neighbours lean across and down: -1, 0 or 1.
#[tactic(auto, unfolding(crate::specs::Labels::sign_row))]
pub fn sign_label(h: i8, v: i8) -> (u8, bool)
    requires h_from { negsuc 0 ≤ℤ h }
    requires h_to { h ≤ℤ pos 1 }
    requires v_from { negsuc 0 ≤ℤ v }
    requires v_to { v ≤ℤ pos 1 }
    ensures row { result ≡ sign_row h v }
    ensures within { result.0 < 19 }
{
    match (h, v) {
        (1, 1) => (13, false),
        (1, 0) => (12, false),
        (1, _) => (11, false),
        (0, 1) => (10, false),
        (0, 0) => (9, false),
        (0, _) => (10, true),
        (_, 1) => (11, true),
        (_, 0) => (12, true),
        _ => (13, true),
    }
}

/// The label of a further bit (T.800 table D.4): whether the coefficient was refined before, and
/// whether one of its eight neighbours is significant.
#[tactic(auto, unfolding(crate::specs::Labels::refinement_row))]
pub fn refinement_label(refined: bool, near: bool) -> u8
    ensures label { result ≡ refinement_row refined near }
    ensures within { result < 19 }
{
    if refined {
        return 16;
    }
    if near { 15 } else { 14 }
}
