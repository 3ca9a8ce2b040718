//! What the main header and the tiles' own headers say (ITU-T T.800, A.6).

ghost use Rattle.std.specs.Prelude.{◌≡◌, ◌<◌, ◌++◌, OnOk, Some, length, string_bytes};
ghost use Rattle.jx_base.specs.Joined.{joined};
ghost use Rattle.jx_codestream.specs.First.{tile_number};
ghost use Rattle.jx_codestream.specs.InRange.{StreamInRange};
ghost use Rattle.jx_codestream.specs.Tiles.{entries_joined};
ghost use Rattle.jx_show.specs.Facts.{facts_on, header_facts, parts_of_tile, tile_facts, topic_facts};
ghost use Rattle.jx_show.specs.Stated.{text_of};

use crate::fact::{Name, Value};
use crate::orders::own_entries;
use crate::picture::{fact, of_tile};
use crate::segments::{push_entries, push_segment, topic_of};
use crate::stated::push_kept;
use jx_base::NoMemory;
use jx_codestream::Stream;
use jx_marker::{Progression, Segment};

/// Appends what a segment says where it is of a topic.
fn push_on(
    text: &mut String,
    json: bool,
    tile: Option<u16>,
    ordered: bool,
    topic: u8,
    segment: &Segment,
) -> Result<(), NoMemory>
    ensures { OnOk result (string_bytes text.new
        ≡ string_bytes text.old ++ text_of json (facts_on tile ordered topic segment.now)) }
{
    if topic_of(segment) == topic {
        return push_segment(text, json, tile, ordered, segment);
    }
    Ok(())
}

/// Appends what the segments of a topic say.
#[tactic(auto, unfolding(crate::specs::Facts::topic_facts))]
fn push_topic(
    text: &mut String,
    json: bool,
    tile: Option<u16>,
    ordered: bool,
    segments: &[Segment],
    topic: u8,
) -> Result<(), NoMemory>
    ensures { OnOk result (string_bytes text.new
        ≡ string_bytes text.old ++ text_of json (topic_facts tile ordered segments.now topic)) }
{
    for segment in segments {
        push_on(text, json, tile, ordered, topic, segment)?;
    }
    Ok(())
}

/// Appends what a header says of a tile, or of all tiles; its COD's order where it is `ordered`.
pub(crate) fn push_header(
    text: &mut String,
    json: bool,
    tile: Option<u16>,
    ordered: bool,
    segments: &[Segment],
) -> Result<(), NoMemory>
    ensures { OnOk result (string_bytes text.new
        ≡ string_bytes text.old ++ text_of json (header_facts tile ordered segments.now)) }
{
    for topic in 0..5 {
        push_topic(text, json, tile, ordered, segments, topic)?;
    }
    Ok(())
}

/// How many tile-parts a tile has.
pub(crate) fn parts_of_tile(stream: &Stream, tile: u16) -> usize
    requires range { StreamInRange stream.now }
    requires tile { tile < tile_number stream.now.siz }
    ensures { result ≡ parts_of_tile stream.now tile }
{
    stream.tile(tile).bodies.as_slice().len()
}

/// Appends what is told of a tile.
#[tactic(auto, unfolding(crate::specs::Facts::tile_facts))]
fn push_tile(
    text: &mut String,
    json: bool,
    stream: &Stream,
    main: &[Progression],
    usual: usize,
    tile: u16,
) -> Result<(), NoMemory>
    requires range { StreamInRange stream.now }
    requires tile { tile < tile_number stream.now.siz }
    requires main { main.now ≡ entries_joined stream.now.main }
    requires usual { usual ≡ parts_of_tile stream.now 0 }
    ensures { OnOk result (string_bytes text.new ≡ string_bytes text.old ++ text_of json (tile_facts stream.now tile)) }
{
    let parts = parts_of_tile(stream, tile);
    let about = of_tile(Some(tile));
    let count = Value::Count(parts as u128);
    push_kept(
        text,
        json,
        parts != usual,
        fact(Name::TileParts, about, count),
    )?;
    let own = own_entries(stream.main.as_slice(), main, stream.tile(tile));
    let ordered = main.is_empty() && own.is_empty();
    push_header(text, json, Some(tile), ordered, stream.header(tile))?;
    push_entries(text, json, about, own)
}

/// Appends what is told of each tile.
pub(crate) fn push_tiles(
    text: &mut String,
    json: bool,
    stream: &Stream,
    main: &[Progression],
) -> Result<(), NoMemory>
    requires range { StreamInRange stream.now }
    requires main { main.now ≡ entries_joined stream.now.main }
    ensures { OnOk result (string_bytes text.new
        ≡ string_bytes text.old ++ text_of json (joined (tile_facts stream.now) 0 (tile_number stream.now.siz))) }
{
    let usual = parts_of_tile(stream, 0);
    for tile in 0..stream.tile_count() {
        push_tile(text, json, stream, main, usual, tile)?;
    }
    Ok(())
}
