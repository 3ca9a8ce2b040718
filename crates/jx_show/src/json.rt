//! Facts as members of a JSON object (RFC 8259).

ghost use Rattle.std.specs.Prelude.{◌≡◌, ◌++◌, OnOk, string_bytes};
ghost use Rattle.jx_show.specs.Json.{comps_json, entry_json, fact_json, flag_json, holds_json, layers_json, order_json, pair_json, style_json, value_json, word_json};

use crate::fact::{Fact, Value};
use crate::lines::push_about;
use crate::words::{name_text, order_called, word_text};
use jx_base::Style;
use jx_marker::Progression;
use std::alloc::AllocError;

#[tactic(auto, unfolding(crate::specs::Json::pair_json))]
pub(crate) fn push_pair(text: &mut String, first: u32, second: u32) -> Result<(), AllocError>
    ensures { OnOk result (string_bytes text.new ≡ string_bytes text.old ++ pair_json first second) }
{
    write!(text, "[{first}, {second}]")
}

fn holds_json(holds: bool) -> &'static str
    ensures { result.now ≡ holds_json holds }
{
    if holds { "true" } else { "false" }
}

#[tactic(auto, unfolding(crate::specs::Json::word_json))]
fn push_word(text: &mut String, word: &str) -> Result<(), AllocError>
    ensures { OnOk result (string_bytes text.new ≡ string_bytes text.old ++ word_json word.now) }
{
    write!(text, "\"{word}\"")
}

/// Appends words, and whether something holds.
#[tactic(auto, unfolding(crate::specs::Json::flag_json))]
fn push_holds(text: &mut String, words: &str, holds: bool) -> Result<(), AllocError>
    ensures { OnOk result (string_bytes text.new ≡ string_bytes text.old ++ flag_json words.now holds) }
{
    text.push_str(words)?;
    text.push_str(holds_json(holds))
}

/// Appends the bits of a code-block style.
fn push_style(text: &mut String, style: Style) -> Result<(), AllocError>
    ensures { OnOk result (string_bytes text.new ≡ string_bytes text.old ++ style_json style.bits) }
{
    push_holds(text, "{\"bypass\": ", style.bypass())?;
    push_holds(text, ", \"reset\": ", style.reset())?;
    push_holds(text, ", \"terminate\": ", style.terminate())?;
    push_holds(text, ", \"causal\": ", style.causal())?;
    push_holds(text, ", \"predictable\": ", style.bits / 16 % 2 == 1)?;
    push_holds(text, ", \"segment\": ", style.segmentation())?;
    text.push_str("}")?;
    Ok(())
}

fn push_comps(text: &mut String, from: u16, end: u16) -> Result<(), AllocError>
    ensures { OnOk result (string_bytes text.new ≡ string_bytes text.old ++ comps_json from end) }
{
    if end == 0 {
        return write!(text, "[{from}]");
    }
    push_pair(text, u32::from(from), u32::from(end))
}

#[tactic(auto, unfolding(crate::specs::Json::layers_json))]
fn push_layers(text: &mut String, layers: u16) -> Result<(), AllocError>
    ensures { OnOk result (string_bytes text.new ≡ string_bytes text.old ++ layers_json layers) }
{
    write!(text, ", \"layers\": {layers}, \"resolutions\": ")
}

/// Appends an order's word, layers and resolutions of an entry.
fn push_order(text: &mut String, order: &str, entry: Progression) -> Result<(), AllocError>
    ensures { OnOk result (string_bytes text.new ≡ string_bytes text.old ++ order_json order.now entry) }
{
    text.push_str("{\"order\": ")?;
    push_word(text, order)?;
    push_layers(text, entry.lye)?;
    push_pair(text, u32::from(entry.rs), u32::from(entry.re))
}

/// Appends an entry of a POC segment.
fn push_entry(text: &mut String, entry: Progression) -> Result<(), AllocError>
    ensures { OnOk result (string_bytes text.new ≡ string_bytes text.old ++ entry_json entry) }
{
    push_order(text, order_called(entry.order), entry)?;
    text.push_str(", \"components\": ")?;
    push_comps(text, entry.cs, entry.ce)?;
    text.push_str("}")
}

/// Appends a value.
#[tactic(auto, unfolding(crate::specs::Json::value_json))]
fn push_value(text: &mut String, value: Value) -> Result<(), AllocError>
    ensures { OnOk result (string_bytes text.new ≡ string_bytes text.old ++ value_json value) }
{
    match value {
        Value::Count(number) => write!(text, "{number}"),
        Value::Size(columns, rows) => push_pair(text, columns, rows),
        Value::Place(column, row) => push_pair(text, column, row),
        Value::Holds(holds) => text.push_str(holds_json(holds)),
        Value::Word(word) => push_word(text, word_text(word)),
        Value::Style(style) => push_style(text, style),
        Value::Entry(entry) => push_entry(text, entry),
    }
}

/// Appends a fact's member, behind a comma.
#[tactic(auto, unfolding(crate::specs::Json::fact_json))]
pub(crate) fn push_fact(text: &mut String, fact: &Fact) -> Result<(), AllocError>
    ensures { OnOk result (string_bytes text.new ≡ string_bytes text.old ++ fact_json fact.now) }
{
    text.push_str(",\n  \"")?;
    text.push_str(name_text(fact.name))?;
    push_about(text, fact.about)?;
    text.push_str("\": ")?;
    push_value(text, fact.value)
}
