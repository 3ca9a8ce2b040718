//! Which of the rules 1 to 13 a marker segment violates first (ITU-T T.800, Annex A).

ghost use Rattle.std.specs.Prelude.{◌≡◌, ◌+◌, ◌-◌, ◌*◌, ◌≤◌, ◌<◌, ◌%◌, ◌∷◌, [], nat_le, length, drop, false, true, Some, None, slice_index};
ghost use Rattle.std.specs.List.{list_all, list_any};
ghost use Rattle.jx_marker.specs.Markers.{has_length, stands_alone, index_size, entry_size, progression_size};
ghost use Rattle.jx_marker.specs.Values.{values_from, progression_at, index_at};
ghost use Rattle.jx_marker.specs.Segments.{length_at, body_at};
ghost use Rattle.jx_marker.specs.Rules.{breaks_1, breaks_2, breaks_6, breaks_7, breaks_8, breaks_9, breaks_10, breaks_11, breaks_12, breaks_13, least_length, shape_fits, cod_fits, has_zero_exponent, quant_fits, progression_fits, is_order, first_true, rules_inside, first_broken};
ghost use Rattle.jx_marker.specs.RuleNumbers.{CODING, COMPONENT, LENGTH_LISTS, PRECINCTS, PROGRESSIONS, QUANTIZATION, REGION, STYLE};
ghost use Rattle.jx_marker.specs.Codes.{SIZ, COD, COC, QCD, QCC, RGN, POC};

use crate::Progression;
use crate::codes::{COC, COD, PLM, PLT, POC, PPM, PPT, QCC, QCD, RGN, SIZ, SOT, TLM};
use crate::fields::progression_at;
use crate::markers::{entry_size, has_length, index_size, progression_size, stands_alone};
use crate::numbers::{narrow_at, u16_at};
use crate::rule_numbers::{
    CODING, COMPONENT, LENGTH, LENGTH_LISTS, MARKER, PRECINCTS, PROGRESSIONS, QUANTIZATION, REGION,
    STYLE,
};
use crate::siz_rules::siz_rule;

// Rule 2: no marker, or one that stands in tile data alone.
#[tactic(auto, unfolding(crate::specs::Rules::breaks_2))]
fn breaks_marker(bytes: &[u8]) -> bool
    ensures { result ≡ breaks_2 bytes.now }
{
    bytes.len() >= 2 && !(bytes[0] == 255 && (has_length(bytes[1]) || stands_alone(bytes[1])))
}

fn least_length(comps: u16, code: u8) -> usize
    ensures { result ≡ least_length comps code }
{
    match code {
        SIZ => 38,
        COD => 8,
        COC => 4 + index_size(comps),
        QCD => 3,
        QCC | RGN => 3 + index_size(comps),
        POC => 2 + progression_size(comps),
        _ => 2,
    }
}

// Rule 1: no room for a marker or a length, or a length that is too short or runs past the end.
#[tactic(auto, unfolding(crate::specs::Rules::breaks_1))]
fn breaks_length(comps: u16, bytes: &[u8]) -> bool
    ensures { result ≡ breaks_1 comps bytes.now }
{
    if bytes.len() < 2 {
        return true;
    }
    let code = bytes[1];
    if !has_length(code) {
        return false;
    }
    if bytes.len() < 4 {
        return true;
    }
    let length = usize::from(u16_at(bytes, 2));
    bytes.len() < 2 + length || length < least_length(comps, code) || (code == SOT && length != 10)
}

// From the number of levels on: the length, by the flags' bit 0, and the ranges.
fn shape_fits(flags: u8, at: usize, body: &[u8]) -> bool
    requires some { at + 1 ≤ length body.now }
    requires near { at < 8 }
    ensures { result ≡ shape_fits flags at body.now }
{
    let levels = body[at];
    let precincts = if flags % 2 == 1 {
        1 + usize::from(levels)
    } else {
        0
    };
    body.len() == at + 5 + precincts
        && levels <= 32
        && body[at + 1] <= 8
        && body[at + 2] <= 8
        && body[at + 1] + body[at + 2] <= 8
        && body[at + 4] <= 1
}

/// Whether one of the five progression orders has this number (Table A.16).
fn is_order(number: u8) -> bool
    ensures { result ≡ is_order number }
{
    number <= 4
}

fn cod_fits(body: &[u8]) -> bool
    requires { 6 ≤ length body.now }
    ensures { result ≡ cod_fits body.now }
{
    body[0] < 8 && is_order(body[1]) && u16_at(body, 2) > 0 && body[4] <= 1
}

fn has_zero_exponent(sizes: u8) -> bool
    ensures { result ≡ has_zero_exponent sizes }
{
    sizes % 16 == 0 || sizes / 16 == 0
}

// Rule 6 of COD.
#[tactic(auto, unfolding(crate::specs::Rules::breaks_6))]
fn breaks_default_coding(comps: u16, body: &[u8]) -> bool
    requires { 6 ≤ length body.now }
    ensures { result ≡ breaks_6 comps COD body.now }
{
    !(cod_fits(body) && shape_fits(body[0], 5, body))
}

// Rule 6 of COC.
#[tactic(auto, unfolding(crate::specs::Rules::breaks_6))]
fn breaks_component_coding(comps: u16, body: &[u8]) -> bool
    requires { 2 + index_size comps ≤ length body.now }
    ensures { result ≡ breaks_6 comps COC body.now }
{
    let flags = body[index_size(comps)];
    !(flags < 2 && shape_fits(flags, 1 + index_size(comps), body))
}

// Rule 7: bit 6 or 7 of the code-block style, three bytes after the number of levels.
fn breaks_style(at: usize, body: &[u8]) -> bool
    requires { at + 3 < length body.now }
    ensures { result ≡ nat_le 64 (slice_index body.now (at + 3)) }
{
    body[at + 3] >= 64
}

// Rule 8: a precinct exponent of 0 above resolution 0, whose byte stands five after the number of levels.
fn breaks_precincts(at: usize, body: &[u8]) -> bool
    requires { at < 8 }
    ensures { result ≡ list_any has_zero_exponent (drop (at + 6) body.now) }
{
    body.iter()
        .skip(at + 6)
        .any(|sizes| has_zero_exponent(*sizes))
}

// Rule 12: a component's index isn't below the number of components.
fn breaks_index(comps: u16, body: &[u8]) -> bool
    requires { index_size comps ≤ length body.now }
    ensures { result ≡ nat_le comps (index_at comps 0 body.now) }
{
    narrow_at(body, index_size(comps), 0) >= comps
}

#[tactic(auto, unfolding(crate::specs::Rules::breaks_6, crate::specs::Rules::breaks_7, crate::specs::Rules::breaks_8))]
fn cod_rule(comps: u16, body: &[u8]) -> Option<u8>
    requires { 6 ≤ length body.now }
    ensures { result ≡ first_true ((CODING, breaks_6 comps COD body.now) ∷ (STYLE, breaks_7 comps COD body.now) ∷ (PRECINCTS, breaks_8 comps COD body.now) ∷ []) }
{
    if breaks_default_coding(comps, body) {
        return Some(CODING);
    }
    if breaks_style(5, body) {
        return Some(STYLE);
    }
    if breaks_precincts(5, body) {
        return Some(PRECINCTS);
    }
    None
}

#[tactic(auto, unfolding(crate::specs::Rules::breaks_6, crate::specs::Rules::breaks_7, crate::specs::Rules::breaks_8, crate::specs::Rules::breaks_12))]
fn coc_rule(comps: u16, body: &[u8]) -> Option<u8>
    requires { 2 + index_size comps ≤ length body.now }
    ensures { result ≡ first_true ((CODING, breaks_6 comps COC body.now) ∷ (STYLE, breaks_7 comps COC body.now) ∷ (PRECINCTS, breaks_8 comps COC body.now) ∷ (COMPONENT, breaks_12 comps COC body.now) ∷ []) }
{
    if breaks_component_coding(comps, body) {
        return Some(CODING);
    }
    let at = 1 + index_size(comps);
    if breaks_style(at, body) {
        return Some(STYLE);
    }
    if breaks_precincts(at, body) {
        return Some(PRECINCTS);
    }
    if breaks_index(comps, body) {
        return Some(COMPONENT);
    }
    None
}

// Rule 9 at the place of Sqcd: the style, and whole entries.
fn quant_fits(at: usize, body: &[u8]) -> bool
    requires some { at + 1 ≤ length body.now }
    requires near { at < 8 }
    ensures { result ≡ quant_fits at body.now }
{
    let entries = body.len() - (at + 1);
    let size = entry_size(body[at]);
    body[at] % 32 <= 2 && size <= entries && entries % size == 0
}

#[tactic(auto, unfolding(crate::specs::Rules::breaks_9))]
fn qcd_rule(comps: u16, body: &[u8]) -> Option<u8>
    requires { 1 ≤ length body.now }
    ensures { result ≡ first_true ((QUANTIZATION, breaks_9 comps QCD body.now) ∷ []) }
{
    if quant_fits(0, body) {
        None
    } else {
        Some(QUANTIZATION)
    }
}

#[tactic(auto, unfolding(crate::specs::Rules::breaks_9, crate::specs::Rules::breaks_12))]
fn qcc_rule(comps: u16, body: &[u8]) -> Option<u8>
    requires { 1 + index_size comps ≤ length body.now }
    ensures { result ≡ first_true ((QUANTIZATION, breaks_9 comps QCC body.now) ∷ (COMPONENT, breaks_12 comps QCC body.now) ∷ []) }
{
    if !quant_fits(index_size(comps), body) {
        return Some(QUANTIZATION);
    }
    if breaks_index(comps, body) {
        return Some(COMPONENT);
    }
    None
}

#[tactic(auto, unfolding(crate::specs::Rules::breaks_10, crate::specs::Rules::breaks_12))]
fn rgn_rule(comps: u16, body: &[u8]) -> Option<u8>
    requires { 1 + index_size comps ≤ length body.now }
    ensures { result ≡ first_true ((REGION, breaks_10 comps RGN body.now) ∷ (COMPONENT, breaks_12 comps RGN body.now) ∷ []) }
{
    let at = index_size(comps);
    if !(body.len() == at + 2 && body[at] == 0) {
        return Some(REGION);
    }
    if breaks_index(comps, body) {
        return Some(COMPONENT);
    }
    None
}

fn progression_fits(entry: Progression) -> bool
    ensures { result ≡ progression_fits entry }
{
    entry.rs < entry.re
        && (entry.ce == 0 || entry.cs < entry.ce)
        && entry.lye > 0
        && is_order(entry.order)
}

#[tactic(auto, using(crate::proofs::ValueLemmas::all_left, crate::proofs::ValueLemmas::room_left))]
fn progressions_fit(comps: u16, body: &[u8], count: usize) -> bool
    requires { count * progression_size comps ≤ length body.now }
    ensures { result ≡ list_all progression_fits (values_from (progression_at comps) (progression_size comps) count 0 body.now) }
{
    let size = progression_size(comps);
    let mut at = 0usize;
    for _i in 0..count {
        if !progression_fits(progression_at(comps, body, at)) {
            return false;
        }
        at += size;
    }
    true
}

#[tactic(auto, unfolding(crate::specs::Rules::breaks_11))]
fn poc_rule(comps: u16, body: &[u8]) -> Option<u8>
    ensures { result ≡ first_true ((PROGRESSIONS, breaks_11 comps POC body.now) ∷ []) }
{
    let size = progression_size(comps);
    if body.len() % size != 0 {
        return Some(PROGRESSIONS);
    }
    if !progressions_fit(comps, body, body.len() / size) {
        return Some(PROGRESSIONS);
    }
    None
}

// Rule 13: a list of lengths, or packed packet headers, too short for their first fields.
#[tactic(auto, unfolding(crate::specs::Rules::breaks_13))]
fn lengths_rule(code: u8, body: &[u8]) -> Option<u8>
    ensures { result ≡ first_true ((LENGTH_LISTS, breaks_13 code body.now) ∷ []) }
{
    let broken = match code {
        PLM | PLT | PPM | PPT => body.is_empty(),
        TLM => body.len() < 2,
        _ => false,
    };
    if broken { Some(LENGTH_LISTS) } else { None }
}

/// The first of the rules 3 to 13 that a whole segment violates, by its marker's second byte and the
/// bytes after its length.
fn rule_inside(comps: u16, code: u8, body: &[u8]) -> Option<u8>
    requires { least_length comps code ≤ 2 + length body.now }
    ensures { result ≡ first_true (rules_inside comps code body.now) }
{
    match code {
        SIZ => siz_rule(body),
        COD => cod_rule(comps, body),
        COC => coc_rule(comps, body),
        QCD => qcd_rule(comps, body),
        QCC => qcc_rule(comps, body),
        RGN => rgn_rule(comps, body),
        POC => poc_rule(comps, body),
        _ => lengths_rule(code, body),
    }
}

/// The bytes after the length of the segment at the front.
pub fn body_of(bytes: &[u8]) -> &[u8]
    requires room { 2 + length_at bytes.now ≤ length bytes.now }
    requires some { 2 ≤ length_at bytes.now }
    ensures { result.now ≡ body_at bytes.now }
{
    let size = usize::from(u16_at(bytes, 2)) - 2;
    let (_, after) = bytes.split_at(4);
    let (body, _) = after.split_at(size);
    body
}

/// The first of the rules 1 to 13 that is violated at the front of these bytes.
pub fn first_broken(comps: u16, bytes: &[u8]) -> Option<u8>
    ensures { result ≡ first_broken comps bytes.now }
{
    if breaks_marker(bytes) {
        return Some(MARKER);
    }
    if breaks_length(comps, bytes) {
        return Some(LENGTH);
    }
    if !has_length(bytes[1]) {
        return None;
    }
    rule_inside(comps, bytes[1], body_of(bytes))
}
