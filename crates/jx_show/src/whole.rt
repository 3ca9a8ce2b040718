//! All facts of a codestream as text.

ghost use Rattle.std.specs.Prelude.{◌≡◌, ◌++◌, IfOk, OnOk, string_bytes};
ghost use Rattle.std.specs.List.{All};
ghost use Rattle.jx_base.specs.Sound.{IsSound};
ghost use Rattle.jx_codestream.specs.InRange.{StreamInRange};
ghost use Rattle.jx_show.specs.Facts.{facts_of};
ghost use Rattle.jx_show.specs.File.{boxes_json, file_text, json_head, lent_names, lines_head};
ghost use Rattle.jx_show.specs.Stated.{text_of};

use crate::bytes::push_bytes;
use crate::counts::push_totals;
use crate::headers::{push_header, push_tiles};
use crate::orders::entries_joined;
use crate::picture::{of_tile, push_picture, push_sizes};
use crate::segments::push_entries;
use jx_base::{Block, NoMemory};
use jx_codestream::{Stream, comps_of};
use jx_marker::Progression;
use std::alloc::{AllocError, Global};

/// Appends the facts of a codestream that was read, with the code-blocks that were gathered of it, in their order: the picture and its tiles
/// on the reference grid, the components' samples (ITU-T T.800, A.5.1), what the main header says (A.6), how many packets, code-blocks,
/// tile-parts, comments and coded bytes there are, and what each tile says itself.
fn push_facts(
    alloc: Global,
    text: &mut String,
    json: bool,
    stream: &Stream,
    blocks: &[Block<'_>],
) -> Result<(), NoMemory>
    requires range { StreamInRange stream.now }
    requires sound { All IsSound blocks.now }
    ensures { OnOk result (string_bytes text.new
        ≡ string_bytes text.old ++ text_of json (facts_of stream.now blocks.now)) }
{
    push_picture(text, json, stream)?;
    push_sizes(text, json, &stream.siz)?;
    let joined = entries_joined(alloc, stream.main.as_slice())?;
    let entries: &[Progression] = &joined;
    push_header(text, json, None, entries.is_empty(), stream.main.as_slice())?;
    push_entries(text, json, of_tile(None), entries)?;
    push_totals(alloc, text, json, stream, blocks)?;
    push_bytes(alloc, text, json, comps_of(&stream.siz), blocks)?;
    push_tiles(text, json, stream, entries)?;
    Ok(())
}

/// Appends what stands before the facts' lines.
fn push_lines_head(text: &mut String, names: Option<&str>, brand: &str) -> Result<(), AllocError>
    ensures { OnOk result (string_bytes text.new
        ≡ string_bytes text.old ++ lines_head (lent_names names.entry) brand.now) }
{
    match names {
        None => text.push_str("file: codestream\n"),
        Some(names) => write!(text, "file: JP2\nbrand: {brand}\nboxes: {names}\n"),
    }
}

/// Appends a JP2 file's brand, and the names of its boxes, as members.
fn push_boxes(text: &mut String, names: &str, brand: &str) -> Result<(), AllocError>
    ensures { OnOk result (string_bytes text.new ≡ string_bytes text.old ++ boxes_json names.now brand.now) }
{
    text.push_str("{\n  \"file\": \"JP2\",\n  \"brand\": ")?;
    text.push_str(brand)?;
    text.push_str(",\n  \"boxes\": [")?;
    text.push_str(names)?;
    text.push_str("]")?;
    Ok(())
}

/// Appends what stands before the facts' members.
fn push_json_head(text: &mut String, names: Option<&str>, brand: &str) -> Result<(), AllocError>
    ensures { OnOk result (string_bytes text.new
        ≡ string_bytes text.old ++ json_head (lent_names names.entry) brand.now) }
{
    match names {
        None => text.push_str("{\n  \"file\": \"codestream\""),
        Some(names) => push_boxes(text, names, brand),
    }
}

/// What is told of a file with a codestream: that it is one, or a JP2 file of this brand with boxes of these names, then the facts of
/// the codestream; in lines, or as one JSON object. Of a tile or a component holds the fact that names it. Where none does, that holds which names less: what
/// a tile says of a component stands before what it says of all its components, that before what the main header says of the component,
/// and that before what the main header says of all (ITU-T T.800, A.6).
///
/// # Errors
///
/// `NoMemory` where memory is refused.
pub fn show_file(
    alloc: Global,
    names: Option<&str>,
    brand: &str,
    stream: &Stream,
    blocks: &[Block<'_>],
    json: bool,
) -> Result<String, NoMemory>
    requires range { StreamInRange stream.now }
    requires sound { All IsSound blocks.now }
    ensures { IfOk result (λ text. string_bytes text
        ≡ file_text json (lent_names names.entry) brand.now (facts_of stream.now blocks.now)) }
{
    let mut text = String::new(alloc);
    if json {
        push_json_head(&mut text, names, brand)?;
        push_facts(alloc, &mut text, true, stream, blocks)?;
        text.push_str("\n}\n")?;
        return Ok(text);
    }
    push_lines_head(&mut text, names, brand)?;
    push_facts(alloc, &mut text, false, stream, blocks)?;
    Ok(text)
}
