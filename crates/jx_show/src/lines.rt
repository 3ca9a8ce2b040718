//! Facts as text, a line for each.

ghost use Rattle.std.specs.Prelude.{◌≡◌, ◌++◌, OnOk, string_bytes};
ghost use Rattle.jx_show.specs.Text.{about_text, comps_text, entry_text, fact_text, order_text, part_text, style_text, told, value_text};

use crate::fact::{About, Fact, Value};
use crate::words::{name_text, order_called, word_text};
use jx_base::Style;
use jx_marker::Progression;
use std::alloc::AllocError;

/// Appends words and a number where one is named.
fn push_part(text: &mut String, words: &str, part: Option<usize>) -> Result<(), AllocError>
    ensures { OnOk result (string_bytes text.new ≡ string_bytes text.old ++ part_text words.now part) }
{
    match part {
        None => Ok(()),
        Some(number) => write!(text, "{words}{number}"),
    }
}

/// Appends of what a fact is told.
pub(crate) fn push_about(text: &mut String, about: About) -> Result<(), AllocError>
    ensures { OnOk result (string_bytes text.new ≡ string_bytes text.old ++ about_text about) }
{
    push_part(text, " ", about.number)?;
    push_part(text, " of component ", wide(about.comp))?;
    push_part(text, " of tile ", wide(about.tile))?;
    Ok(())
}

fn wide(part: Option<u16>) -> Option<usize>
    ensures { result ≡ part }
{
    match part {
        None => None,
        Some(number) => Some(usize::from(number)),
    }
}

fn push_told(text: &mut String, holds: bool, words: &str) -> Result<(), AllocError>
    ensures { OnOk result (string_bytes text.new ≡ string_bytes text.old ++ told holds words.now) }
{
    if holds {
        return text.push_str(words);
    }
    Ok(())
}

/// Appends the names of the bits of a code-block style that are set.
fn push_style(text: &mut String, style: Style) -> Result<(), AllocError>
    ensures { OnOk result (string_bytes text.new ≡ string_bytes text.old ++ style_text style.bits) }
{
    push_told(text, style.bits % 64 == 0, " none")?;
    push_told(text, style.bypass(), " bypass")?;
    push_told(text, style.reset(), " reset")?;
    push_told(text, style.terminate(), " terminate")?;
    push_told(text, style.causal(), " causal")?;
    push_told(text, style.bits / 16 % 2 == 1, " predictable")?;
    push_told(text, style.segmentation(), " segment")
}

fn push_comps(text: &mut String, from: u16, end: u16) -> Result<(), AllocError>
    ensures { OnOk result (string_bytes text.new ≡ string_bytes text.old ++ comps_text from end) }
{
    if end == 0 {
        return write!(text, ", components from {from}");
    }
    write!(text, ", components from {from} below {end}")
}

/// Appends an order's word, layers and resolutions of an entry.
fn push_order(text: &mut String, order: &str, entry: Progression) -> Result<(), AllocError>
    ensures { OnOk result (string_bytes text.new ≡ string_bytes text.old ++ order_text order.now entry) }
{
    let (lye, rs, re) = (entry.lye, entry.rs, entry.re);
    write!(
        text,
        " {order}, layers below {lye}, resolutions from {rs} below {re}"
    )
}

/// Appends an entry of a POC segment.
fn push_entry(text: &mut String, entry: Progression) -> Result<(), AllocError>
    ensures { OnOk result (string_bytes text.new ≡ string_bytes text.old ++ entry_text entry) }
{
    push_order(text, order_called(entry.order), entry)?;
    push_comps(text, entry.cs, entry.ce)?;
    Ok(())
}

/// Appends a value.
#[tactic(auto, unfolding(crate::specs::Text::value_text))]
fn push_value(text: &mut String, value: Value) -> Result<(), AllocError>
    ensures { OnOk result (string_bytes text.new ≡ string_bytes text.old ++ value_text value) }
{
    match value {
        Value::Count(number) => write!(text, " {number}"),
        Value::Size(columns, rows) => write!(text, " {columns} x {rows}"),
        Value::Place(column, row) => write!(text, " {column}, {row}"),
        Value::Holds(true) => text.push_str(" yes"),
        Value::Holds(false) => text.push_str(" no"),
        Value::Word(word) => {
            let word = word_text(word);
            write!(text, " {word}")
        }
        Value::Style(style) => push_style(text, style),
        Value::Entry(entry) => push_entry(text, entry),
    }
}

/// Appends a fact's line.
#[tactic(auto, unfolding(crate::specs::Text::fact_text))]
pub(crate) fn push_fact(text: &mut String, fact: &Fact) -> Result<(), AllocError>
    ensures { OnOk result (string_bytes text.new ≡ string_bytes text.old ++ fact_text fact.now) }
{
    text.push_str(name_text(fact.name))?;
    push_about(text, fact.about)?;
    text.push_str(":")?;
    push_value(text, fact.value)?;
    text.push_str("\n")
}
