//! Lists of precincts' exponents.

ghost use Rattle.std.specs.Prelude.{◌≡◌, ◌<◌, IfOk, Some, option_map};
ghost use Rattle.std.specs.Fmt.{decimal};
ghost use Rattle.std.specs.Str.{bytes_eq};
ghost use Rattle.jx_options.specs.Values.{item_in, item_text, precincts_in};
ghost use Rattle.jx_base.specs.Texts.{after};

use crate::parts::first_part;
use jx_base::NoMemory;
use std::alloc::Global;

/// What stands after a beginning.
fn after<'a>(start: &[u8], text: &'a [u8]) -> Option<&'a [u8]>
    ensures { option_map (λ rest. rest.now) result ≡ after start.now text.entry.now }
{
    text.strip_prefix(start)
}

/// What stands after an exponent's digits.
#[tactic(auto, using(std::proofs::lemmas::Fmt::decimal_digit, crate::proofs::ItemLemmas::two_digits))]
fn after_exponent<'a>(exponent: u8, text: &'a [u8]) -> Option<&'a [u8]>
    requires { exponent < 16 }
    ensures { option_map (λ rest. rest.now) result ≡ after (decimal exponent) text.entry.now }
{
    if exponent < 10 {
        return after(&[48 + exponent], text);
    }
    after(&[49, 38 + exponent], text)
}

/// Whether a text spells a byte's exponents, as `7x6`.
fn is_item(byte: u8, text: &[u8]) -> bool
    ensures { result ≡ bytes_eq text.now (item_text byte) }
{
    let Some(rest) = after_exponent(byte % 16, text) else {
        return false;
    };
    let Some(height) = after(b"x", rest) else {
        return false;
    };
    match after_exponent(byte / 16, height) {
        Some(rest) => rest.is_empty(),
        None => false,
    }
}

/// The byte that a text spells. There are so few that each is tried.
fn item_in(text: &[u8]) -> Option<u8>
    ensures { result ≡ item_in text.now }
{
    for byte in 0..=255_u8 {
        if is_item(byte, text) {
            return Some(byte);
        }
    }
    None
}

/// The precincts that a text spells, 1 to 33 bytes.
pub(crate) fn precincts_in(alloc: Global, text: &[u8]) -> Result<Option<Vec<u8>>, NoMemory>
    ensures { IfOk result (λ found. option_map (λ bytes. bytes.items) found ≡ precincts_in text.now) }
{
    let mut bytes = Vec::new(alloc);
    let mut rest = text;
    for _turn in 0..33_usize {
        let (part, more) = first_part(b',', rest);
        match item_in(part) {
            Some(byte) => bytes.push(byte)?,
            None => return Ok(None),
        }
        match more {
            Some(more) => rest = more,
            None => return Ok(Some(bytes)),
        }
    }
    Ok(None)
}
