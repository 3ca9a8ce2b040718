//! The rules that a SIZ segment may violate (ITU-T T.800, A.5.1).

ghost use Rattle.std.specs.Prelude.{◌≡◌, ◌+◌, ◌*◌, ◌≤◌, ◌<◌, ◌%◌, ◌∷◌, [], length, false, true, Some, None};
ghost use Rattle.std.specs.List.{list_all};
ghost use Rattle.byteorder.specs.Endian.{big_from};
ghost use Rattle.jx_marker.specs.Values.{values_from, comp_size_at};
ghost use Rattle.jx_marker.specs.Rules.{breaks_3, breaks_4, breaks_5, axis_fits, comp_size_fits, first_true};
ghost use Rattle.jx_marker.specs.RuleNumbers.{CAPABILITIES, SIZ_FIELDS, SIZ_LENGTH};
ghost use Rattle.jx_marker.specs.Codes.{SIZ};

use crate::CompSize;
use crate::fields::comp_size_at;
use crate::numbers::{u16_at, u32_at};
use crate::rule_numbers::{CAPABILITIES, SIZ_FIELDS, SIZ_LENGTH};

// Rule 3: the length of SIZ isn't that of its components.
#[tactic(auto, unfolding(crate::specs::Rules::breaks_3))]
fn breaks_component_count(body: &[u8]) -> bool
    requires { 36 ≤ length body.now }
    ensures value { result ≡ breaks_3 SIZ body.now }
    ensures whole { result ≡ false → 36 + 3 * big_from 34 2 body.now ≤ length body.now }
{
    2 + body.len() != 38 + 3 * usize::from(u16_at(body, 34))
}

fn axis_fits(end: u32, begin: u32, tile: u32, first: u32) -> bool
    ensures { result ≡ axis_fits end begin tile first }
{
    tile > 0
        && first <= begin
        && begin < end
        && u64::from(begin) < u64::from(first) + u64::from(tile)
}

// The axis whose end stands at this place; its other three numbers follow eight bytes apart.
fn axis_fits_at(body: &[u8], at: usize) -> bool
    requires { at + 28 ≤ length body.now }
    ensures { result ≡ axis_fits (big_from at 4 body.now) (big_from (at + 8) 4 body.now) (big_from (at + 16) 4 body.now) (big_from (at + 24) 4 body.now) }
{
    axis_fits(
        u32_at(body, at),
        u32_at(body, at + 8),
        u32_at(body, at + 16),
        u32_at(body, at + 24),
    )
}

fn comp_size_fits(comp: CompSize) -> bool
    ensures { result ≡ comp_size_fits comp }
{
    comp.ssiz % 128 + 1 <= 38 && comp.dx > 0 && comp.dy > 0
}

#[tactic(auto, using(crate::proofs::ValueLemmas::all_left))]
fn comp_sizes_fit(body: &[u8], count: u16) -> bool
    requires { 36 + 3 * count ≤ length body.now }
    ensures { result ≡ list_all comp_size_fits (values_from comp_size_at 3 count 36 body.now) }
{
    let mut at = 36usize;
    for _i in 0..count {
        if !comp_size_fits(comp_size_at(body, at)) {
            return false;
        }
        at += 3;
    }
    true
}

// Rule 4: the number of components, a depth, a subsampling factor, or the canvas and its tiles.
#[tactic(auto, using(crate::proofs::ValueLemmas::length_values), unfolding(crate::specs::Rules::breaks_4))]
fn breaks_canvas(body: &[u8]) -> bool
    requires { 36 + 3 * big_from 34 2 body.now ≤ length body.now }
    ensures { result ≡ breaks_4 SIZ body.now }
{
    let count = u16_at(body, 34);
    if count == 0 || count > 16384 {
        return true;
    }
    if !axis_fits_at(body, 2) {
        return true;
    }
    if !axis_fits_at(body, 6) {
        return true;
    }
    !comp_sizes_fit(body, count)
}

// Rule 5: Rsiz asks for Part 2 or Part 15.
#[tactic(auto, unfolding(crate::specs::Rules::breaks_5))]
fn breaks_capabilities(body: &[u8]) -> bool
    requires { 36 ≤ length body.now }
    ensures { result ≡ breaks_5 SIZ body.now }
{
    u16_at(body, 0) >= 0x4000
}

pub(crate) fn siz_rule(body: &[u8]) -> Option<u8>
    requires { 36 ≤ length body.now }
    ensures { result ≡ first_true ((SIZ_LENGTH, breaks_3 SIZ body.now) ∷ (SIZ_FIELDS, breaks_4 SIZ body.now) ∷ (CAPABILITIES, breaks_5 SIZ body.now) ∷ []) }
{
    if breaks_component_count(body) {
        return Some(SIZ_LENGTH);
    }
    if breaks_canvas(body) {
        return Some(SIZ_FIELDS);
    }
    if breaks_capabilities(body) {
        return Some(CAPABILITIES);
    }
    None
}
