//! How many packets, code-blocks, tile-parts and segments there are.

ghost use Rattle.std.specs.Prelude.{◌≡◌, ◌≤◌, ◌<◌, ◌^◌, ◌++◌, OnOk, string_bytes};
ghost use Rattle.std.specs.List.{All};
ghost use Rattle.jx_base.specs.Joined.{sum_below};
ghost use Rattle.jx_base.specs.Sound.{IsSound};
ghost use Rattle.jx_codestream.specs.First.{tile_number};
ghost use Rattle.jx_codestream.specs.InRange.{StreamInRange};
ghost use Rattle.jx_codestream.specs.Shapes.{tile_at};
ghost use Rattle.jx_show.specs.Facts.{comments_of_tile, count_fact, is_marked, lengths_of_tile, marked_in, packed_of_tile, stands_fact, tiles_with_ppt, total_facts, One};
ghost use Rattle.jx_show.specs.Stated.{text_of};

use crate::bytes::all_bytes;
use crate::fact::{Fact, Name, Value};
use crate::headers::parts_of_tile;
use crate::picture::{fact, of_tile};
use crate::stated::push_all;
use jx_base::{Block, NoMemory};
use jx_codestream::Stream;
use jx_marker::Segment;
use jx_tile::count_all;
use std::alloc::Global;

/// Segments that are counted.
#[derive(Clone, Copy)]
pub enum Mark {
    Plm,
    Ppm,
    Tlm,
    Com,
}

fn is_marked(mark: Mark, segment: &Segment) -> bool
    ensures { result ≡ is_marked mark segment.now }
{
    match mark {
        Mark::Plm => matches!(segment, Segment::Plm(_)),
        Mark::Ppm => matches!(segment, Segment::Ppm { .. }),
        Mark::Tlm => matches!(segment, Segment::Tlm(_)),
        Mark::Com => matches!(segment, Segment::Com(_)),
    }
}

/// How many segments of a kind a header has.
fn marked_in(mark: Mark, segments: &[Segment]) -> u64
    ensures value { result ≡ marked_in mark segments.now }
{
    let mut count = 0;
    for segment in segments {
        if is_marked(mark, segment) {
            count += 1;
        }
    }
    count
}

/// 1 where PLT stands in the header of one of a tile's tile-parts, else 0.
fn lengths_of_tile(stream: &Stream, tile: u16) -> u128
    requires range { StreamInRange stream.now }
    requires tile { tile < tile_number stream.now.siz }
    ensures value { result ≡ lengths_of_tile stream.now tile }
    ensures most { result ≤ 1 }
{
    if stream.tile(tile).has_plt { 1 } else { 0 }
}

/// 1 where the headers of a tile's packets stand apart from its packets, else 0.
fn packed_of_tile(stream: &Stream, tile: u16) -> u128
    requires range { StreamInRange stream.now }
    requires tile { tile < tile_number stream.now.siz }
    ensures value { result ≡ packed_of_tile (tile_at stream.now tile).heads }
    ensures most { result ≤ 1 }
{
    match stream.tile(tile).heads.pieces() {
        Some(_) => 1,
        None => 0,
    }
}

/// The comments in the headers of a tile's tile-parts.
fn comments_of_tile(stream: &Stream, tile: u16) -> u128
    requires range { StreamInRange stream.now }
    requires tile { tile < tile_number stream.now.siz }
    ensures value { result ≡ comments_of_tile stream.now tile }
    ensures most { result < 2 ^ 65 }
{
    let tile = stream.tile(tile);
    u128::from(marked_in(Mark::Com, tile.header.as_slice())) + tile.notes.as_slice().len() as u128
}

/// The tiles with PLT.
fn all_lengths(stream: &Stream) -> u128
    requires { StreamInRange stream.now }
    ensures { result ≡ sum_below (lengths_of_tile stream.now) (tile_number stream.now.siz) }
{
    let mut count = 0;
    for tile in 0..stream.tile_count() {
        count += lengths_of_tile(stream, tile);
    }
    count
}

/// The tiles that have PPT: none where the main header has PPM.
fn tiles_with_ppt(stream: &Stream, ppm: u128) -> u128
    requires { StreamInRange stream.now }
    ensures { result ≡ tiles_with_ppt stream.now ppm }
{
    if ppm > 0 {
        return 0;
    }
    let mut count = 0;
    for tile in 0..stream.tile_count() {
        count += packed_of_tile(stream, tile);
    }
    count
}

/// The comments in the headers of all tile-parts.
fn all_comments(stream: &Stream) -> u128
    requires { StreamInRange stream.now }
    ensures value { result ≡ sum_below (comments_of_tile stream.now) (tile_number stream.now.siz) }
    ensures most { result < 2 ^ 81 }
{
    let mut count = 0;
    for tile in 0..stream.tile_count() {
        count += comments_of_tile(stream, tile);
    }
    count
}

fn count_fact(name: Name, count: u128) -> Fact
    ensures { One result ≡ count_fact name count }
{
    fact(name, of_tile(None), Value::Count(count))
}

fn stands_fact(name: Name, count: u128) -> Fact
    ensures { One result ≡ stands_fact name count }
{
    fact(name, of_tile(None), Value::Holds(count > 0))
}

/// Appends what is counted of the codestream.
pub(crate) fn push_totals(
    alloc: Global,
    text: &mut String,
    json: bool,
    stream: &Stream,
    blocks: &[Block<'_>],
) -> Result<(), NoMemory>
    requires range { StreamInRange stream.now }
    requires sound { All IsSound blocks.now }
    ensures { OnOk result (string_bytes text.new
        ≡ string_bytes text.old ++ text_of json (total_facts stream.now blocks.now)) }
{
    let main = stream.main_view(alloc)?;
    let packets = count_all(alloc, stream, &main)?.1;
    drop(main);
    let segments = stream.main.as_slice();
    let notes = u128::from(marked_in(Mark::Com, segments));
    let plm = u128::from(marked_in(Mark::Plm, segments));
    let ppm = u128::from(marked_in(Mark::Ppm, segments));
    let tlm = u128::from(marked_in(Mark::Tlm, segments));
    push_all(
        text,
        json,
        &[
            count_fact(Name::Packets, packets),
            count_fact(Name::Blocks, blocks.len() as u128),
            count_fact(Name::TileParts, parts_of_tile(stream, 0) as u128),
            stands_fact(Name::Plt, all_lengths(stream)),
            stands_fact(Name::Plm, plm),
            stands_fact(Name::Ppm, ppm),
            stands_fact(Name::Ppt, tiles_with_ppt(stream, ppm)),
            stands_fact(Name::Tlm, tlm),
            count_fact(Name::Comments, notes + all_comments(stream)),
            count_fact(Name::Bytes, all_bytes(blocks)),
        ],
    )
}
