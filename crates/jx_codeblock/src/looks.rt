//! What a block's passes decode to, and how much of its segments the decoder looks at.

ghost use Rattle.std.specs.Prelude.{◌≡◌, ◌≤◌, ◌+◌, ◌-◌, length, map, IfOk};
ghost use Rattle.std.specs.List.{range_with_len};
ghost use Rattle.jx_base.specs.Sound.{IsSound};
ghost use Rattle.jx_tier1_specs.specs.Short.{AreShort};
ghost use Rattle.jx_codeblock.specs.Laws.{decoded_first};
ghost use Rattle.jx_codeblock.specs.Recoding.{own_segments, decoded_in, wrong_in};
ghost use Rattle.jx_codeblock.specs.Groups.{groups};
ghost use Rattle.jx_codeblock.specs.Segments.{bytes_before, sent_by_looks};
ghost use Rattle.jx_base.specs.Limits.{most_bytes};

use crate::segments::{goes_on, joined, segments_apart, segments_in};
use crate::sent::by_looks;
use jx_base::{Block, NoMemory, Style};
use jx_tier1::{Coded, FlagDecoded, Segments, decode_flags};
use std::alloc::Global;

/// What passes of a block decode to, from its first on.
fn decode(alloc: Global, block: &Block<'_>, coded: &Coded<'_>) -> Result<FlagDecoded, NoMemory>
    requires sound { IsSound block.now }
    requires some { 1 ≤ block.now.passes }
    requires band { coded.now.band ≡ block.now.name.band }
    requires planes { coded.now.planes ≡ block.now.planes - block.now.zero }
    requires passes { coded.now.passes ≤ block.now.passes }
    requires short { AreShort coded.now.segments }
    ensures grid { IfOk result (λ d. d.grid ≡ (decoded_first block.now coded.now.style.bits coded.now.segments coded.now.passes).cells) }
    ensures looked { IfOk result (λ d. d.looked.items ≡ (decoded_first block.now coded.now.style.bits coded.now.segments coded.now.passes).looked) }
    ensures wrong { IfOk result (λ d. d.wrong ≡ (decoded_first block.now coded.now.style.bits coded.now.segments coded.now.passes).wrong) }
{
    let wide = block.rect.x.len() as u16;
    let high = block.rect.y.len() as u16;
    decode_flags(alloc, wide, high, coded)
}

/// So many first passes of a block in segments of a style.
fn coded_first<'a>(
    block: &Block<'_>,
    style: Style,
    passes: u16,
    segments: Segments<'a>,
) -> Coded<'a>
    requires { IsSound block.now }
    ensures band { result.band ≡ block.now.name.band }
    ensures style { result.style ≡ style }
    ensures planes { result.planes ≡ block.now.planes - block.now.zero }
    ensures passes { result.passes ≡ passes }
    ensures segments { result.segments ≡ segments.entry }
{
    Coded {
        band: block.name.band,
        style,
        planes: block.planes - block.zero,
        passes,
        segments,
    }
}

/// The passes of a block in segments of a style.
pub(crate) fn coded_in<'a>(block: &Block<'_>, style: Style, segments: Segments<'a>) -> Coded<'a>
    requires { IsSound block.now }
    ensures band { result.band ≡ block.now.name.band }
    ensures style { result.style ≡ style }
    ensures planes { result.planes ≡ block.now.planes - block.now.zero }
    ensures passes { result.passes ≡ block.now.passes }
    ensures segments { result.segments ≡ segments.entry }
{
    coded_first(block, style, block.passes, segments)
}

/// How many bytes of a block are sent by the end of each number of passes, where those are that the
/// decoder looks at in these segments of a style. It looks at the first `last` passes: behind them the
/// numbers at ends of segments stand, and no others.
pub(crate) fn looked_in(
    alloc: Global,
    block: &Block<'_>,
    style: Style,
    last: u16,
    segments: Segments<'_>,
) -> Result<Vec<u32>, NoMemory>
    requires sound { IsSound block.now }
    requires some { 1 ≤ block.now.passes }
    requires last { last ≤ block.now.passes }
    requires few { bytes_before segments (length segments) ≤ most_bytes }
    ensures { let segments = segments.entry in
        IfOk result (λ table. table.items ≡ map (sent_by_looks style.bits block.now.passes segments
        (decoded_first block.now style.bits segments last).looked) (range_with_len 0 (block.now.passes + 1))) }
{
    let coded = coded_first(block, style, last, segments);
    let decoded = decode(alloc, block, &coded)?;
    by_looks(
        alloc,
        style,
        block.passes,
        coded.segments.as_slice(),
        &decoded.looked,
    )
}

/// What a block's passes decode to from its own segments. Where each segment is one piece no byte is
/// copied.
pub(crate) fn own_decoded(alloc: Global, block: &Block<'_>) -> Result<FlagDecoded, NoMemory>
    requires sound { IsSound block.now }
    requires some { 1 ≤ block.now.passes }
    ensures grid { IfOk result (λ d. d.grid ≡ (decoded_in block.now block.now.style.bits (own_segments block.now)).cells) }
    ensures wrong { IfOk result (λ d. d.wrong ≡ wrong_in block.now) }
{
    let pieces = block.pieces.as_slice();
    if !goes_on(block.style, pieces) {
        let segments = segments_apart(alloc, block.style, pieces)?;
        return own_from(alloc, block, segments);
    }
    let whole = joined(alloc, pieces)?;
    let segments = segments_in(alloc, block.style, pieces, &whole)?;
    own_from(alloc, block, segments)
}

/// The same from segments that are the block's own.
fn own_from(
    alloc: Global,
    block: &Block<'_>,
    segments: Segments<'_>,
) -> Result<FlagDecoded, NoMemory>
    requires sound { IsSound block.now }
    requires some { 1 ≤ block.now.passes }
    requires own { segments ≡ groups block.now.style.bits block.now.pieces }
    ensures grid { IfOk result (λ d. d.grid ≡ (decoded_in block.now block.now.style.bits (own_segments block.now)).cells) }
    ensures wrong { IfOk result (λ d. d.wrong ≡ wrong_in block.now) }
{
    let coded = coded_in(block, block.style, segments);
    decode(alloc, block, &coded)
}
