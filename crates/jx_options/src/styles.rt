//! Styles of code-blocks by their names.

ghost use Rattle.std.specs.Prelude.{◌≡◌};
ghost use Rattle.jx_options.specs.Parts.{with_bit};
ghost use Rattle.jx_options.specs.Values.{style_in, style_names, value_in};

use crate::parts::first_part;
use jx_base::Style;

/// The bit that a name names (ITU-T T.800, Table A.19).
fn bit_named(name: &[u8]) -> Option<u8>
    ensures { result ≡ value_in style_names name.now }
{
    if name == b"bypass".as_slice() {
        return Some(1);
    }
    if name == b"reset".as_slice() {
        return Some(2);
    }
    if name == b"terminate".as_slice() {
        return Some(4);
    }
    if name == b"causal".as_slice() {
        return Some(8);
    }
    if name == b"segment".as_slice() {
        return Some(32);
    }
    None
}

/// Some bits and the one that a name names, where it isn't among them.
fn with_name(bits: u8, name: &[u8]) -> Option<u8>
    ensures { result ≡ with_bit bits (value_in style_names name.now) }
{
    match bit_named(name) {
        Some(bit) if bits & bit == 0 => Some(bits | bit),
        _ => None,
    }
}

/// The style of which a text has the names, each once, with plus signs between them.
pub(crate) fn style_in(text: &[u8]) -> Option<Style>
    ensures { result ≡ style_in text.now }
{
    let mut bits = 0;
    let mut left = Some(text);
    while let Some(rest) = left {
        let (name, more) = first_part(b'+', rest);
        match with_name(bits, name) {
            Some(next) => bits = next,
            None => return None,
        }
        left = more;
    }
    Some(Style { bits })
}
