//! A box's line in a list.

ghost use Rattle.std.specs.Prelude.{◌≡◌, ◌+◌, ◌-◌, ◌<◌, ◌≤◌, ◌++◌, ◌∷◌, [], true, string_bytes, OnOk};
ghost use Rattle.std.specs.List.{list_all, flat_map};
ghost use Rattle.jx_jp2.specs.Lines.{indent, is_shown, hex_digit, hex_pair, type_text, line_text};

use crate::Boxed;
use byteorder::{BigEndian, ByteOrder};
use std::alloc::AllocError;

fn indent(depth: u8) -> &'static str
    requires { depth ≤ 2 }
    ensures { result.now ≡ indent depth }
{
    match depth {
        0 => "",
        1 => "  ",
        _ => "    ",
    }
}

fn is_shown(byte: u8) -> bool
    ensures { result ≡ is_shown byte }
{
    (0x20..=0x7E).contains(&byte)
}

fn hex_digit(n: u8) -> u8
    requires { n < 16 }
    ensures digit { result ≡ hex_digit n }
    ensures ascii { result < 128 }
{
    if n < 10 { b'0' + n } else { b'A' - 10 + n }
}

fn push_ascii(text: &mut String, byte: u8) -> Result<(), AllocError>
    requires { byte < 128 }
    ensures { OnOk result (string_bytes text.new ≡ string_bytes text.old ++ byte ∷ []) }
{
    text.push(char::from(byte))
}

fn push_hex(text: &mut String, byte: u8) -> Result<(), AllocError>
    ensures { OnOk result (string_bytes text.new ≡ string_bytes text.old ++ hex_pair byte) }
{
    push_ascii(text, hex_digit(byte / 16))?;
    push_ascii(text, hex_digit(byte % 16))
}

pub(crate) fn push_shown(text: &mut String, kind: &[u8]) -> Result<(), AllocError>
    requires { list_all is_shown kind.now ≡ true }
    ensures { OnOk result (string_bytes text.new ≡ string_bytes text.old ++ kind.now) }
{
    for byte in kind {
        push_ascii(text, *byte)?;
    }
    Ok(())
}

pub(crate) fn push_digits(text: &mut String, kind: &[u8]) -> Result<(), AllocError>
    ensures { OnOk result (string_bytes text.new ≡ string_bytes text.old ++ flat_map hex_pair kind.now) }
{
    for byte in kind {
        push_hex(text, *byte)?;
    }
    Ok(())
}

pub(crate) fn is_text(kind: &[u8]) -> bool
    ensures { result ≡ list_all is_shown kind.now }
{
    kind.iter().all(|byte| is_shown(*byte))
}

#[tactic(auto, unfolding(crate::specs::Lines::type_text))]
fn push_type(text: &mut String, kind: &[u8]) -> Result<(), AllocError>
    ensures { OnOk result (string_bytes text.new ≡ string_bytes text.old ++ type_text kind.now) }
{
    if is_text(kind) {
        push_shown(text, kind)
    } else {
        push_digits(text, kind)
    }
}

/// Appends the line of a box of a type, at a depth. After an `Err` the text may have a part of it.
pub fn push_line(text: &mut String, depth: u8, kind: u32, boxed: &Boxed) -> Result<(), AllocError>
    requires deep { depth ≤ 2 }
    requires span { boxed.now.head ≤ boxed.now.to }
    ensures { OnOk result (string_bytes text.new ≡ string_bytes text.old ++ line_text depth kind boxed.now.head (boxed.now.to - boxed.now.head)) }
{
    let mut four = [0u8; 4];
    BigEndian::write_u32(&mut four, kind);
    let place = boxed.head;
    let size = boxed.to - boxed.head;
    text.push_str(indent(depth))?;
    push_type(text, &four)?;
    write!(text, " {place} {size}\n")?;
    Ok(())
}
