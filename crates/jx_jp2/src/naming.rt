//! The names of the boxes on the top level, in one line, and the file's brand.

ghost use Rattle.std.specs.Prelude.{◌≡◌, ◌≤◌, ◌++◌, length, string_bytes, OnOk, IfOk};
ghost use Rattle.std.specs.List.{flat_map, list_all};
ghost use Rattle.jx_base.specs.Limits.{most_bytes};
ghost use Rattle.jx_jp2.specs.Names.{AreKinds, HasNames, brand_of, brand_text, is_plain, name_text, names_text, next_name, quoted};

use crate::heads::{read_box, tbox};
use crate::kinds::FTYP;
use crate::lines::{is_text, push_digits, push_shown};
use crate::numbers::u32_at;
use byteorder::{BigEndian, ByteOrder};
use std::alloc::{AllocError, Global};

fn is_plain(byte: u8) -> bool
    ensures { result ≡ is_plain byte }
{
    !(byte == b'"' || byte == b'\\')
}

fn are_plain(kind: &[u8]) -> bool
    ensures { result ≡ list_all is_plain kind.now }
{
    kind.iter().all(|byte| is_plain(*byte))
}

#[tactic(auto, unfolding(crate::specs::Names::name_text))]
fn push_name(text: &mut String, kind: &[u8]) -> Result<(), AllocError>
    ensures { OnOk result (string_bytes text.new ≡ string_bytes text.old ++ name_text kind.now) }
{
    if is_text(kind) && are_plain(kind) {
        push_shown(text, kind)
    } else {
        push_digits(text, kind)
    }
}

fn push_quoted(text: &mut String, kind: u32) -> Result<(), AllocError>
    ensures { OnOk result (string_bytes text.new ≡ string_bytes text.old ++ quoted kind) }
{
    let mut four = [0u8; 4];
    BigEndian::write_u32(&mut four, kind);
    text.push_str("\"")?;
    push_name(text, &four)?;
    text.push_str("\"")
}

fn push_next(text: &mut String, kind: u32) -> Result<(), AllocError>
    ensures { OnOk result (string_bytes text.new ≡ string_bytes text.old ++ next_name kind) }
{
    text.push_str(", ")?;
    push_quoted(text, kind)
}

fn push_others(text: &mut String, kinds: &[u32]) -> Result<(), AllocError>
    ensures { OnOk result (string_bytes text.new ≡ string_bytes text.old ++ flat_map next_name kinds.now) }
{
    for kind in kinds {
        push_next(text, *kind)?;
    }
    Ok(())
}

// The names of types, with commas between them.
#[tactic(auto, unfolding(crate::specs::Names::names_text))]
fn names_text(alloc: Global, kinds: &[u32]) -> Result<String, AllocError>
    ensures { IfOk result (λ text. string_bytes text ≡ names_text kinds.now) }
{
    let mut text = String::new(alloc);
    let Some((first, rest)) = kinds.split_first() else {
        return Ok(text);
    };
    push_quoted(&mut text, *first)?;
    push_others(&mut text, rest)?;
    Ok(text)
}

// The types of the boxes on the top level, up to the first that breaks rule 32, 33 or 34, or to the file's end.
fn kinds_of(alloc: Global, bytes: &[u8]) -> Result<Vec<u32>, AllocError>
    requires { length bytes.now ≤ most_bytes }
    ensures { IfOk result (λ kinds. AreKinds bytes.now kinds.items) }
{
    let mut kinds = Vec::new(alloc);
    let mut at = 0;
    while at < bytes.len() {
        let Ok(boxed) = read_box(bytes, true, bytes.len(), at) else {
            return Ok(kinds);
        };
        kinds.push(tbox(bytes, at))?;
        at = boxed.to as usize;
    }
    Ok(kinds)
}

/// The names of the boxes on the top level in order of place, each between quotation marks, with a comma and a space between them: the four
/// characters of a type where all are from 20 to 7E in hexadecimal and neither a quotation mark nor a backslash, else its eight hexadecimal
/// digits in capitals. Boxes are read up to the first that breaks rule 32, 33 or 34, or to the file's end.
///
/// # Errors
///
/// There was no memory.
pub fn names(alloc: Global, bytes: &[u8]) -> Result<String, AllocError>
    requires { length bytes.now ≤ most_bytes }
    ensures { IfOk result (λ text. HasNames bytes.now (string_bytes text)) }
{
    let kinds = kinds_of(alloc, bytes)?;
    names_text(alloc, &kinds)
}

// The brand as a number of four bytes; none where no file type box of as many bytes stands behind the signature.
#[tactic(auto, unfolding(crate::specs::Names::brand_of))]
fn brand_of(bytes: &[u8]) -> Option<u32>
    requires { length bytes.now ≤ most_bytes }
    ensures { result ≡ brand_of bytes.now }
{
    if bytes.len() < 12 {
        return None;
    }
    let Ok(boxed) = read_box(bytes, true, bytes.len(), 12) else {
        return None;
    };
    if tbox(bytes, 12) == FTYP && boxed.from + 4 <= boxed.to {
        return Some(u32_at(bytes, boxed.from as usize));
    }
    None
}

/// The brand of the file type box behind the signature (ITU-T T.800, I.5.2), written as a name of a box; two quotation marks where there is
/// none.
///
/// # Errors
///
/// There was no memory.
#[tactic(auto, unfolding(crate::specs::Names::brand_text))]
pub fn brand(alloc: Global, bytes: &[u8]) -> Result<String, AllocError>
    requires { length bytes.now ≤ most_bytes }
    ensures { IfOk result (λ text. string_bytes text ≡ brand_text (brand_of bytes.now)) }
{
    let mut text = String::new(alloc);
    match brand_of(bytes) {
        None => text.push_str("\"\"")?,
        Some(brand) => push_quoted(&mut text, brand)?,
    }
    Ok(text)
}
