//! Volumes of packets, as `--poc` names them (ITU-T T.800, A.6.6, Table A.32).

ghost use Rattle.std.specs.Prelude.{◌≡◌, ◌≤◌, ◌∷◌, [], IfOk, MatchOption, None, Some, map};
ghost use Rattle.std.specs.Char.{to_ascii_lowercase};
ghost use Rattle.std.specs.Option.{option_map};
ghost use Rattle.std.specs.Str.{bytes_eq};
ghost use Rattle.jx_base.specs.Texts.{number_in};
ghost use Rattle.jx_options.specs.Choices.{changes_in};
ghost use Rattle.jx_options.specs.Parts.{more_parts};
ghost use Rattle.jx_options.specs.Values.{parts_of};
ghost use Rattle.jx_options.specs.Volumes.{all_six, number_from_0, order_named, parse_poc, volume_in, volume_of, volume_with, volumes_in};

use crate::numbers::number_in;
use crate::options::PocChoice;
use jx_base::NoMemory;
use jx_marker::Progression;
use std::alloc::Global;

/// A text is a name of small letters, in any case.
fn is_named(text: &str, name: &str) -> bool
    requires { map to_ascii_lowercase name.now ≡ name.now }
    ensures { result ≡ bytes_eq (map to_ascii_lowercase text.now) name.now }
{
    text.eq_ignore_ascii_case(name)
}

/// The order that a text names (Table A.16).
fn order_named(text: &str) -> Option<u8>
    ensures { result ≡ order_named text.now }
{
    if is_named(text, "lrcp") {
        return Some(0);
    }
    if is_named(text, "rlcp") {
        return Some(1);
    }
    if is_named(text, "rpcl") {
        return Some(2);
    }
    if is_named(text, "pcrl") {
        return Some(3);
    }
    if is_named(text, "cprl") {
        return Some(4);
    }
    None
}

/// A number from 0 up to a greatest one.
fn number_from_0(most: u32, text: &str) -> Option<u32>
    ensures { result ≡ number_from_0 most text.now }
{
    if text == "0" {
        return Some(0);
    }
    number_in(most, text)
}

/// What stands before the first comma, and behind it.
fn at_comma<'a>(text: &'a str) -> Option<(&'a str, &'a str)>
    ensures { MatchOption result (parts_of 44 text.entry.now ≡ text.entry.now ∷ [])
        (λ x. parts_of 44 text.entry.now ≡ x.0.now ∷ parts_of 44 x.1.now) }
{
    text.split_once(',')
}

/// The first volume of a text, and what stands behind its slash where there is one.
fn at_slash<'a>(text: &'a str) -> (&'a str, Option<&'a str>)
    ensures { parts_of 47 text.entry.now ≡ result.0.now ∷ more_parts 47 result.1 }
{
    match text.split_once('/') {
        Some((part, rest)) => (part, Some(rest)),
        None => (text, None),
    }
}

/// The six texts of a volume.
#[derive(Drop)]
struct Fields<'a> {
    rs: &'a str,
    cs: &'a str,
    lye: &'a str,
    re: &'a str,
    ce: &'a str,
    order: &'a str,
}

/// They are separated by commas.
fn fields_of<'a>(text: &'a str) -> Option<Fields<'a>>
    ensures { MatchOption result (volume_of (parts_of 44 text.entry.now) ≡ None)
        (λ f. parts_of 44 text.entry.now ≡ f.rs.now ∷ f.cs.now ∷ f.lye.now ∷ f.re.now ∷ f.ce.now ∷ f.order.now ∷ []) }
{
    let Some((rs, text)) = at_comma(text) else {
        return None;
    };
    let Some((cs, text)) = at_comma(text) else {
        return None;
    };
    let Some((lye, text)) = at_comma(text) else {
        return None;
    };
    let Some((re, text)) = at_comma(text) else {
        return None;
    };
    let Some((ce, order)) = at_comma(text) else {
        return None;
    };
    match at_comma(order) {
        Some(_) => None,
        None => Some(Fields {
            rs,
            cs,
            lye,
            re,
            ce,
            order,
        }),
    }
}

/// The entry of these numbers, where it has a resolution and a component.
fn volume_with(rs: u32, cs: u32, lye: u32, re: u32, ce: u32, order: u8) -> Option<Progression>
    requires { (rs ≤ 32) × (cs ≤ 16383) × (lye ≤ 65535) × (re ≤ 33) × (ce ≤ 16384) }
    ensures { result ≡ volume_with rs cs lye re ce order }
{
    if rs < re && cs < ce {
        return Some(Progression {
            rs: rs as u8,
            cs: cs as u16,
            lye: lye as u16,
            re: re as u8,
            ce: ce as u16,
            order,
        });
    }
    None
}

/// The entry that six texts spell.
fn volume_of(fields: &Fields<'_>) -> Option<Progression>
    ensures { result ≡ all_six (number_from_0 32 fields.now.rs.now) (number_from_0 16383 fields.now.cs.now)
        (number_in 65535 fields.now.lye.now) (number_in 33 fields.now.re.now) (number_in 16384 fields.now.ce.now)
        (order_named fields.now.order.now) }
{
    let Some(rs) = number_from_0(32, fields.rs) else {
        return None;
    };
    let Some(cs) = number_from_0(16_383, fields.cs) else {
        return None;
    };
    let Some(lye) = number_in(65_535, fields.lye) else {
        return None;
    };
    let Some(re) = number_in(33, fields.re) else {
        return None;
    };
    let Some(ce) = number_in(16_384, fields.ce) else {
        return None;
    };
    match order_named(fields.order) {
        Some(order) => volume_with(rs, cs, lye, re, ce, order),
        None => None,
    }
}

/// The entry that a text spells.
#[tactic(auto, unfolding(crate::specs::Volumes::volume_in))]
fn volume_in(text: &str) -> Option<Progression>
    ensures { result ≡ volume_in text.now }
{
    match fields_of(text) {
        Some(fields) => volume_of(&fields),
        None => None,
    }
}

/// The volumes that a text spells, 1 to 32.
fn volumes_in(alloc: Global, text: &str) -> Result<Option<Vec<Progression>>, NoMemory>
    ensures { IfOk result (λ found. option_map (λ list. list.items) found ≡ volumes_in text.now) }
{
    let mut volumes = Vec::new(alloc);
    let mut rest = text;
    for _turn in 0..32_usize {
        let (part, more) = at_slash(rest);
        match volume_in(part) {
            Some(volume) => volumes.push(volume)?,
            None => return Ok(None),
        }
        match more {
            Some(more) => rest = more,
            None => return Ok(Some(volumes)),
        }
    }
    Ok(None)
}

/// The progression changes that a word asks for.
pub fn parse_poc(alloc: Global, word: &str) -> Result<Option<PocChoice>, NoMemory>
    ensures { IfOk result (λ said. option_map changes_in said ≡ parse_poc word.now) }
{
    if word == "none" {
        return Ok(Some(PocChoice::None));
    }
    if word == "keep" {
        return Ok(Some(PocChoice::Keep));
    }
    match volumes_in(alloc, word) {
        Ok(Some(volumes)) => Ok(Some(PocChoice::Volumes(volumes))),
        Ok(None) => Ok(None),
        Err(NoMemory) => Err(NoMemory),
    }
}
