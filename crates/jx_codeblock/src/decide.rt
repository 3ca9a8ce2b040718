//! Which of a block's bytes each layer has.

ghost use Rattle.std.specs.Prelude.{◌≡◌, ◌≤◌, ◌<◌, ◌+◌, ◌-◌, map, IfOk, None};
ghost use Rattle.std.specs.List.{range_with_len};
ghost use Rattle.jx_base.specs.Sound.{IsSound};
ghost use Rattle.jx_codeblock.specs.Jobs.{AreEnds};
ghost use Rattle.jx_codeblock.specs.Laws.{decoded_first};
ghost use Rattle.jx_codeblock.specs.Recoding.{layer_parts_after, sent_in, own_segments, has_own_ends, decoded_in};
ghost use Rattle.jx_codeblock.specs.Groups.{groups};
ghost use Rattle.jx_codeblock.specs.Segments.{sent_by_looks, sent_by_pieces};

use crate::looks::looked_in;
use crate::own::{all_cut, all_noted, last_within, own_ends};
use crate::parts::all_parts;
use crate::segments::{goes_on, joined, segments_apart, segments_in};
use crate::sent::by_pieces;
use crate::{LayerEnd, LayerPart};
use jx_base::{Block, NoMemory};
use jx_tier1_specs::Segments;
use std::alloc::Global;

/// Whether each end is a pass at which a layer of the input ended.
fn has_own_ends(alloc: Global, block: &Block<'_>, ends: &[LayerEnd]) -> Result<bool, NoMemory>
    requires ends { AreEnds 0 0 block.now.passes ends.now }
    ensures { IfOk result (λ has. has ≡ has_own_ends block.now.pieces ends.now) }
{
    let own = own_ends(alloc, block.pieces.as_slice(), block.passes)?;
    Ok(all_noted(&own, ends))
}

/// How many bytes of a block are sent by the end of each number of passes, where those are that the
/// decoder looked at in its own segments, by the end of the first `last` passes. Where each segment is one
/// piece no byte is copied.
fn looked_at(alloc: Global, block: &Block<'_>, last: u16) -> Result<Vec<u32>, NoMemory>
    requires sound { IsSound block.now }
    requires some { 1 ≤ block.now.passes }
    requires last { last ≤ block.now.passes }
    ensures { let segments = own_segments block.now in
        IfOk result (λ table. table.items ≡ map (sent_by_looks block.now.style.bits block.now.passes segments
        (decoded_first block.now block.now.style.bits segments last).looked) (range_with_len 0 (block.now.passes + 1))) }
{
    let pieces = block.pieces.as_slice();
    if !goes_on(block.style, pieces) {
        let segments = segments_apart(alloc, block.style, pieces)?;
        return own_looked(alloc, block, last, segments);
    }
    let whole = joined(alloc, pieces)?;
    let segments = segments_in(alloc, block.style, pieces, &whole)?;
    own_looked(alloc, block, last, segments)
}

/// The same from segments that are the block's own.
fn own_looked(
    alloc: Global,
    block: &Block<'_>,
    last: u16,
    segments: Segments<'_>,
) -> Result<Vec<u32>, NoMemory>
    requires sound { IsSound block.now }
    requires some { 1 ≤ block.now.passes }
    requires last { last ≤ block.now.passes }
    requires own { segments ≡ groups block.now.style.bits block.now.pieces }
    ensures { let segments = own_segments block.now in
        IfOk result (λ table. table.items ≡ map (sent_by_looks block.now.style.bits block.now.passes segments
        (decoded_first block.now block.now.style.bits segments last).looked) (range_with_len 0 (block.now.passes + 1))) }
{
    looked_in(alloc, block, block.style, last, segments)
}

/// The parts, where as many bytes are sent as the pieces have.
fn parts_by_pieces(
    alloc: Global,
    block: &Block<'_>,
    ends: &[LayerEnd],
) -> Result<Vec<LayerPart>, NoMemory>
    requires sound { IsSound block.now }
    requires ends { AreEnds 0 0 block.now.passes ends.now }
    ensures { IfOk result (λ parts. parts.items ≡ layer_parts_after block.now.style.bits (sent_by_pieces block.now.pieces) 0 ends.now) }
{
    let table = by_pieces(alloc, block.pieces.as_slice())?;
    all_parts(alloc, block.style, ends, &table)
}

/// The parts, where as many bytes are sent as the decoder looked at. It decodes to the last end that lies
/// within a segment.
fn parts_by_looks(
    alloc: Global,
    block: &Block<'_>,
    ends: &[LayerEnd],
) -> Result<Vec<LayerPart>, NoMemory>
    requires sound { IsSound block.now }
    requires some { 1 ≤ block.now.passes }
    requires ends { AreEnds 0 0 block.now.passes ends.now }
    ensures { let segments = own_segments block.now in
        IfOk result (λ parts. parts.items ≡ layer_parts_after block.now.style.bits (sent_by_looks block.now.style.bits block.now.passes segments
        (decoded_in block.now block.now.style.bits segments).looked) 0 ends.now) }
{
    let last = last_within(block.style, block.passes, ends);
    let table = looked_at(alloc, block, last)?;
    all_parts(alloc, block.style, ends, &table)
}

/// The parts of a block that keeps its segments. It is decoded only where an end lies within a segment
/// and some end isn't one of the input's.
pub(crate) fn parts_of(
    alloc: Global,
    block: &Block<'_>,
    ends: &[LayerEnd],
) -> Result<Vec<LayerPart>, NoMemory>
    requires sound { IsSound block.now }
    requires ends { AreEnds 0 0 block.now.passes ends.now }
    ensures { IfOk result (λ parts. parts.items ≡ layer_parts_after block.now.style.bits (sent_in block.now None ends.now (own_segments block.now)) 0 ends.now) }
{
    if has_own_ends(alloc, block, ends)? {
        return parts_by_pieces(alloc, block, ends);
    }
    if block.passes == 0 {
        return parts_by_pieces(alloc, block, ends);
    }
    if all_cut(block.style, block.passes, ends) {
        return parts_by_pieces(alloc, block, ends);
    }
    parts_by_looks(alloc, block, ends)
}
