//! What a marker segment says of a tile, or of all tiles (ITU-T T.800, A.6).

ghost use Rattle.std.specs.Prelude.{◌≡◌, ◌++◌, OnOk, Some, string_bytes};
ghost use Rattle.jx_show.specs.Facts.{cod_facts, entry_facts, quant_facts, segment_facts, shape_facts, topic_of};
ghost use Rattle.jx_show.specs.Stated.{text_of};

use crate::fact::{About, Name, Value, Word};
use crate::picture::{fact, of_comp, of_tile};
use crate::sizes::{side_of, stated_precincts};
use crate::stated::{push_all, push_kept, push_one, push_precincts};
use crate::words::{quantization_word, wavelet_word};
use jx_base::{NoMemory, Style};
use jx_marker::{Cod, Progression, Quant, Segment, Shape};

fn numbered(about: About, number: usize) -> About
    ensures { result ≡ record about { number = Some number } }
{
    About {
        number: Some(number),
        ..about
    }
}

/// Appends levels, wavelet, code-blocks and precincts.
fn push_shape(text: &mut String, json: bool, about: About, shape: &Shape) -> Result<(), NoMemory>
    ensures { OnOk result (string_bytes text.new
        ≡ string_bytes text.old ++ text_of json (shape_facts about shape.now)) }
{
    let size = Value::Size(side_of(shape.xcb), side_of(shape.ycb));
    let style = Style { bits: shape.style };
    push_all(
        text,
        json,
        &[
            fact(Name::Levels, about, Value::Count(u128::from(shape.levels))),
            fact(
                Name::Wavelet,
                about,
                Value::Word(wavelet_word(shape.wavelet)),
            ),
            fact(Name::BlockSize, about, size),
            fact(Name::BlockStyle, about, Value::Style(style)),
        ],
    )?;
    let precincts = stated_precincts(shape.precincts.as_slice());
    push_precincts(text, json, about, precincts)
}

/// Appends order where it is `ordered`, layers, component transform, SOP and EPH.
fn push_cod(
    text: &mut String,
    json: bool,
    about: About,
    ordered: bool,
    cod: &Cod,
) -> Result<(), NoMemory>
    ensures { OnOk result (string_bytes text.new
        ≡ string_bytes text.old ++ text_of json (cod_facts about ordered cod.now)) }
{
    let order = fact(Name::Order, about, Value::Word(Word::Order(cod.order)));
    push_kept(text, json, ordered, order)?;
    push_all(
        text,
        json,
        &[
            fact(Name::Layers, about, Value::Count(u128::from(cod.layers))),
            fact(Name::Transform, about, Value::Holds(cod.transform == 1)),
            fact(Name::Sop, about, Value::Holds(cod.sop)),
            fact(Name::Eph, about, Value::Holds(cod.eph)),
        ],
    )
}

/// Appends the style of quantization and the guard bits.
fn push_quant(text: &mut String, json: bool, about: About, quant: &Quant) -> Result<(), NoMemory>
    ensures { OnOk result (string_bytes text.new
        ≡ string_bytes text.old ++ text_of json (quant_facts about quant.now)) }
{
    let word = quantization_word(quant.sqcd % 32);
    push_all(
        text,
        json,
        &[
            fact(Name::Quantization, about, Value::Word(word)),
            fact(
                Name::Guard,
                about,
                Value::Count(u128::from(quant.sqcd / 32)),
            ),
        ],
    )
}

/// Appends entries of POC.
pub(crate) fn push_entries(
    text: &mut String,
    json: bool,
    about: About,
    entries: &[Progression],
) -> Result<(), NoMemory>
    ensures { OnOk result (string_bytes text.new
        ≡ string_bytes text.old ++ text_of json (entry_facts about 0 entries.now)) }
{
    for (number, entry) in entries.iter().enumerate() {
        let about = numbered(about, number);
        push_one(
            text,
            json,
            fact(Name::Progression, about, Value::Entry(*entry)),
        )?;
    }
    Ok(())
}

/// In which order the segments of a header are told, from 0 below 5; 5 are those of which nothing is told.
#[tactic(auto, unfolding(crate::specs::Facts::topic_of))]
pub(crate) fn topic_of(segment: &Segment) -> u8
    ensures { result ≡ topic_of segment.now }
{
    match segment {
        Segment::Cod(_) => 0,
        Segment::Qcd(_) => 1,
        Segment::Coc { .. } => 2,
        Segment::Qcc { .. } => 3,
        Segment::Rgn { .. } => 4,
        _ => 5,
    }
}

/// Appends what a segment says of a tile, or of all tiles.
#[tactic(auto, unfolding(crate::specs::Facts::segment_facts))]
pub(crate) fn push_segment(
    text: &mut String,
    json: bool,
    tile: Option<u16>,
    ordered: bool,
    segment: &Segment,
) -> Result<(), NoMemory>
    ensures { OnOk result (string_bytes text.new
        ≡ string_bytes text.old ++ text_of json (segment_facts tile ordered segment.now)) }
{
    match segment {
        Segment::Cod(cod) => {
            push_cod(text, json, of_tile(tile), ordered, cod)?;
            push_shape(text, json, of_tile(tile), &cod.shape)
        }
        Segment::Qcd(quant) => push_quant(text, json, of_tile(tile), quant),
        Segment::Coc { comp, shape } => push_shape(text, json, of_comp(tile, *comp), shape),
        Segment::Qcc { comp, quant } => push_quant(text, json, of_comp(tile, *comp), quant),
        Segment::Rgn { comp, shift } => {
            let about = of_comp(tile, *comp);
            let shift = Value::Count(u128::from(*shift));
            push_one(text, json, fact(Name::Region, about, shift))
        }
        _ => Ok(()),
    }
}
