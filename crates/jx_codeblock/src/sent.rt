//! How many bytes of a block are sent by the end of each pass.

ghost use Rattle.std.specs.Prelude.{◌≡◌, ◌≤◌, ◌<◌, ◌+◌, ◌-◌, ◌^◌, ◌++◌, ◌∷◌, [], map, length, replicate, slice_index_or, IfOk, OnOk};
ghost use Rattle.jx_base.specs.Pieces.{value_of, bytes_in};
ghost use Rattle.std.specs.List.{range_with_len};
ghost use Rattle.jx_tier1_specs.specs.Segments.{bytes_of};
ghost use Rattle.jx_codeblock.specs.Segments.{ends_below, bytes_before, less_last_ff, sent_by_looks};
ghost use Rattle.jx_codeblock.specs.Tables.{rows, AreFew};
ghost use Rattle.jx_base.specs.Limits.{most_bytes};

use jx_base::{NoMemory, Piece, Style, ends_segment};
use std::alloc::Global;

/// Appends a number, so many times.
fn repeat(table: &mut Vec<u32>, count: u16, number: u32) -> Result<(), NoMemory>
    ensures { OnOk result (table.new.items ≡ table.old.items ++ replicate count number) }
{
    for _ in 0..count {
        table.push(number)?;
    }
    Ok(())
}

/// How many bytes are sent by the end of each number of passes, where those are that the pieces have.
pub(crate) fn by_pieces(alloc: Global, pieces: &[Piece<'_>]) -> Result<Vec<u32>, NoMemory>
    requires { bytes_in (map value_of pieces.now) ≤ most_bytes }
    ensures { IfOk result (λ table. table.items ≡ 0 ∷ rows 0 (map value_of pieces.now)) }
{
    let mut table = Vec::with_capacity(alloc, pieces.len() + 1)?;
    table.push(0)?;
    let mut sent = 0u32;
    for piece in pieces {
        repeat(&mut table, piece.passes.saturating_sub(1), sent)?;
        sent += piece.bytes.len() as u32;
        table.push(sent)?;
    }
    Ok(table)
}

/// The number in a place of a table, 0 past its end.
pub(crate) fn number_at(table: &[u32], at: usize) -> u32
    ensures { result ≡ slice_index_or table.now at 0 }
{
    if at < table.len() {
        return table[at];
    }
    0
}

/// How many bytes were looked at by the end of a pass, 0 past the last one.
fn seen_at(looked: &[usize], pass: usize) -> usize
    ensures { result ≡ slice_index_or looked.now pass 0 }
{
    if pass < looked.len() {
        return looked[pass];
    }
    0
}

/// The segment of a number, one of no bytes where there is none.
fn segment_at<'a>(segments: &[&'a [u8]], at: usize) -> &'a [u8]
    ensures { result.now ≡ slice_index_or (map bytes_of segments.now) at [] }
{
    if at < segments.len() {
        return segments[at];
    }
    &[]
}

/// So many bytes of a segment, less one that is FF and would stand last.
fn less_last_ff(segment: &[u8], looked: usize) -> usize
    ensures value { result ≡ less_last_ff segment.now looked }
    ensures most { result ≤ looked }
{
    if looked > 0 && looked <= segment.len() && segment[looked - 1] == 0xFF {
        return looked - 1;
    }
    looked
}

/// How many bytes are sent by the end of `passes` passes, of `all` passes, where `before` are in the
/// segments before the one of number `at`.
#[tactic(auto, unfolding(crate::specs::Segments::sent_by_looks))]
fn sent_at(
    style: Style,
    all: u16,
    segments: &[&[u8]],
    looked: &[usize],
    passes: u16,
    at: usize,
    before: u32,
) -> u32
    requires at { at ≡ ends_below style.bits passes }
    requires before { before ≡ bytes_before (map bytes_of segments.now) at }
    requires few { AreFew style.bits (map bytes_of segments.now) looked.now }
    requires bytes { bytes_before (map bytes_of segments.now) (length segments.now) ≤ most_bytes }
    ensures { result ≡ sent_by_looks style.bits all (map bytes_of segments.now) looked.now passes }
{
    if passes == all {
        return all_bytes(segments);
    }
    if passes == 0 || ends_segment(style, passes - 1) {
        return before;
    }
    let seen = seen_at(looked, usize::from(passes - 1));
    before + less_last_ff(segment_at(segments, at), seen) as u32
}

/// How many bytes segments have.
fn all_bytes(segments: &[&[u8]]) -> u32
    requires { bytes_before (map bytes_of segments.now) (length segments.now) ≤ most_bytes }
    ensures { result ≡ bytes_before (map bytes_of segments.now) (length segments.now) }
{
    let mut bytes = 0;
    for segment in segments {
        bytes += segment.len() as u32;
    }
    bytes
}

/// The number of the segment after a pass, and how many bytes the segments before it have.
#[tactic(auto, using(crate::proofs::RoomLemmas::next_ended, crate::proofs::RoomLemmas::next_still, crate::proofs::RoomLemmas::next_most, crate::proofs::RoomLemmas::next_bytes))]
fn next_segment(style: Style, segments: &[&[u8]], pass: u16, at: usize, before: u32) -> (usize, u32)
    requires at { at ≡ ends_below style.bits pass }
    requires before { before ≡ bytes_before (map bytes_of segments.now) at }
    requires bytes { bytes_before (map bytes_of segments.now) (length segments.now) ≤ most_bytes }
    ensures at { result.0 ≡ ends_below style.bits (pass + 1) }
    ensures before { result.1 ≡ bytes_before (map bytes_of segments.now) result.0 }
{
    if !ends_segment(style, pass) {
        return (at, before);
    }
    (at + 1, before + segment_at(segments, at).len() as u32)
}

/// How many bytes are sent by the end of each number of passes, where those are that the decoder looked
/// at.
#[tactic(auto, using(crate::proofs::RoomLemmas::listed_next, crate::proofs::RoomLemmas::listed_all))]
pub(crate) fn by_looks(
    alloc: Global,
    style: Style,
    passes: u16,
    segments: &[&[u8]],
    looked: &[usize],
) -> Result<Vec<u32>, NoMemory>
    requires passes { passes < 2 ^ 15 }
    requires few { AreFew style.bits (map bytes_of segments.now) looked.now }
    requires bytes { bytes_before (map bytes_of segments.now) (length segments.now) ≤ most_bytes }
    ensures { IfOk result (λ table. table.items ≡ map (sent_by_looks style.bits passes (map bytes_of segments.now) looked.now) (range_with_len 0 (passes + 1))) }
{
    let mut table = Vec::with_capacity(alloc, usize::from(passes) + 1)?;
    let mut at = 0;
    let mut before = 0;
    for sent in 0..passes + 1 {
        table.push(sent_at(style, passes, segments, looked, sent, at, before))?;
        (at, before) = next_segment(style, segments, sent, at, before);
    }
    Ok(table)
}
