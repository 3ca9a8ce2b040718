//! The precincts of all resolutions (ITU-T T.800, A.6.1, Table A.21).

ghost use Rattle.std.specs.Prelude.{◌≡◌, ◌==◌, ◌++◌, OnOk, string_bytes};
ghost use Rattle.std.specs.List.{flat_map, list_all};
ghost use Rattle.jx_show.specs.Facts.{side_of, stated_precincts};
ghost use Rattle.jx_show.specs.Json.{next_size_json, precincts_json, size_json, sizes_json};
ghost use Rattle.jx_show.specs.Text.{next_size, precincts_text, size_text, sizes_text};

use crate::fact::About;
use crate::json::push_pair;
use crate::lines::push_about;
use std::alloc::AllocError;

/// A side by its exponent, which is at most 15.
pub(crate) fn side_of(exponent: u8) -> u32
    ensures { result ≡ side_of exponent }
{
    1 << exponent.min(15)
}

fn are_all(bytes: &[u8], byte: u8) -> bool
    ensures { result ≡ list_all (λ other. other == byte) bytes.now }
{
    bytes.iter().all(|other| *other == byte)
}

/// The bytes that are stated: one where the precincts of all resolutions are alike, which are 15 and 15 where none stand.
#[tactic(auto, unfolding(crate::specs::Facts::stated_precincts))]
pub(crate) fn stated_precincts(precincts: &[u8]) -> &[u8]
    ensures { result.now ≡ stated_precincts precincts.now }
{
    let Some((first, rest)) = precincts.split_first() else {
        return &[255];
    };
    if are_all(rest, *first) {
        return &precincts[..1];
    }
    precincts
}

/// Appends columns and rows of a precinct.
#[tactic(auto, unfolding(crate::specs::Text::size_text))]
fn push_size(text: &mut String, byte: u8) -> Result<(), AllocError>
    ensures { OnOk result (string_bytes text.new ≡ string_bytes text.old ++ size_text byte) }
{
    let columns = side_of(byte % 16);
    let rows = side_of(byte / 16);
    write!(text, "{columns} x {rows}")
}

fn push_next_size(text: &mut String, byte: u8) -> Result<(), AllocError>
    ensures { OnOk result (string_bytes text.new ≡ string_bytes text.old ++ next_size byte) }
{
    text.push_str(", ")?;
    push_size(text, byte)
}

fn push_more_sizes(text: &mut String, bytes: &[u8]) -> Result<(), AllocError>
    ensures { OnOk result (string_bytes text.new ≡ string_bytes text.old ++ flat_map next_size bytes.now) }
{
    for byte in bytes {
        push_next_size(text, *byte)?;
    }
    Ok(())
}

#[tactic(auto, unfolding(crate::specs::Text::sizes_text))]
fn push_sizes(text: &mut String, bytes: &[u8]) -> Result<(), AllocError>
    ensures { OnOk result (string_bytes text.new ≡ string_bytes text.old ++ sizes_text bytes.now) }
{
    let Some((first, rest)) = bytes.split_first() else {
        return Ok(());
    };
    push_size(text, *first)?;
    push_more_sizes(text, rest)
}

/// Appends the line of precincts.
#[tactic(auto, unfolding(crate::specs::Text::precincts_text))]
pub(crate) fn push_line(text: &mut String, about: About, bytes: &[u8]) -> Result<(), AllocError>
    ensures { OnOk result (string_bytes text.new ≡ string_bytes text.old ++ precincts_text about bytes.now) }
{
    text.push_str("precincts")?;
    push_about(text, about)?;
    text.push_str(": ")?;
    push_sizes(text, bytes)?;
    text.push_str("\n")
}

#[tactic(auto, unfolding(crate::specs::Json::size_json))]
fn push_size_json(text: &mut String, byte: u8) -> Result<(), AllocError>
    ensures { OnOk result (string_bytes text.new ≡ string_bytes text.old ++ size_json byte) }
{
    push_pair(text, side_of(byte % 16), side_of(byte / 16))
}

fn push_next_size_json(text: &mut String, byte: u8) -> Result<(), AllocError>
    ensures { OnOk result (string_bytes text.new ≡ string_bytes text.old ++ next_size_json byte) }
{
    text.push_str(", ")?;
    push_size_json(text, byte)
}

fn push_more_sizes_json(text: &mut String, bytes: &[u8]) -> Result<(), AllocError>
    ensures { OnOk result (string_bytes text.new ≡ string_bytes text.old ++ flat_map next_size_json bytes.now) }
{
    for byte in bytes {
        push_next_size_json(text, *byte)?;
    }
    Ok(())
}

#[tactic(auto, unfolding(crate::specs::Json::sizes_json))]
fn push_sizes_json(text: &mut String, bytes: &[u8]) -> Result<(), AllocError>
    ensures { OnOk result (string_bytes text.new ≡ string_bytes text.old ++ sizes_json bytes.now) }
{
    let Some((first, rest)) = bytes.split_first() else {
        return Ok(());
    };
    push_size_json(text, *first)?;
    push_more_sizes_json(text, rest)
}

/// Appends the member of precincts, behind a comma.
#[tactic(auto, unfolding(crate::specs::Json::precincts_json))]
pub(crate) fn push_member(text: &mut String, about: About, bytes: &[u8]) -> Result<(), AllocError>
    ensures { OnOk result (string_bytes text.new ≡ string_bytes text.old ++ precincts_json about bytes.now) }
{
    text.push_str(",\n  \"precincts")?;
    push_about(text, about)?;
    text.push_str("\": [")?;
    push_sizes_json(text, bytes)?;
    text.push_str("]")?;
    Ok(())
}
