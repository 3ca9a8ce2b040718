//! Blocks of many pieces, some without bytes, and of layers that end within a segment.

ghost use Rattle.std.specs.Prelude.{◌≡◌, ◌≤◌, ◌<◌, length, IfOk};
ghost use Rattle.jx_base.specs.Markers.{HasNoMarker};
ghost use Rattle.jx_base.specs.Sound.{IsSound};
ghost use Rattle.jx_codeblock.specs.Jobs.{AreEnds};

use crate::blocks::{block_of, in_one, kept, one_piece, part};
use crate::checks::{equal, given};
use jx_base::{Block, NoMemory, Piece, Pieces, Style};
use jx_codeblock::{Ends, LayerEnd};
use std::alloc::Global;
use std::test::Fail;

/// The bytes of the piece of a pass: none, the first ones, the second ones, and so on in turn.
fn bytes_of<'a>(pass: u16, first: &'a [u8], second: &'a [u8]) -> &'a [u8]
    requires first { HasNoMarker 0 first.now }
    requires second { HasNoMarker 0 second.now }
    requires few { length first.now ≤ 100 }
    requires also { length second.now ≤ 100 }
    ensures markers { HasNoMarker 0 result.now }
    ensures few { length result.now ≤ 100 }
{
    if pass % 3 == 0 {
        return &[];
    }
    if pass % 3 == 1 {
        return first;
    }
    second
}

/// Thirteen passes, each of which is a piece of a layer of its own; each third has no bytes.
#[tactic(auto, using(crate::proofs::Samples::spread_pieces, crate::proofs::Samples::spread_bytes))]
fn thirteen_pieces<'a>(
    alloc: Global,
    style: Style,
    first: &'a [u8],
    second: &'a [u8],
) -> Result<Block<'a>, NoMemory>
    requires first { HasNoMarker 0 first.now }
    requires second { HasNoMarker 0 second.now }
    requires few { length first.now ≤ 100 }
    requires also { length second.now ≤ 100 }
    ensures sound { IfOk result (λ b. IsSound b) }
    ensures passes { IfOk result (λ b. b.passes ≡ 13) }
{
    let mut pieces = Pieces::new(alloc);
    for pass in 0..13_u16 {
        pieces.push(Piece {
            layer: pass,
            first: pass,
            passes: 1,
            bytes: bytes_of(pass, first, second),
        })?;
    }
    Ok(block_of(style, 4, 13, pieces))
}

/// Some passes in the first layer, more by the second, all by the third.
fn in_three(alloc: Global, first: u16, second: u16, all: u16) -> Result<Ends, NoMemory>
    requires some { 1 ≤ first }
    requires more { first < second }
    requires all { second < all }
    ensures { IfOk result (λ ends. AreEnds 0 0 all ends) }
{
    let mut ends = Ends::new(alloc);
    ends.push(LayerEnd {
        layer: 0,
        passes: first,
    })?;
    ends.push(LayerEnd {
        layer: 1,
        passes: second,
    })?;
    ends.push(LayerEnd {
        layer: 2,
        passes: all,
    })?;
    Ok(ends)
}

// Where each pass is terminated each piece is a part, and their bytes are found one after another.
#[test]
fn each_piece_a_part(rt: HostRuntime) -> Result<(), Fail> {
    let alloc = rt.alloc();
    let block = given(thirteen_pieces(alloc, Style { bits: 4 }, &[1, 2], &[3]))?;
    let ends = given(in_one(alloc, 13))?;
    let (parts, bytes) = given(kept(alloc, &block, ends))?;
    equal(&rt, parts.len(), 13);
    equal(
        &rt,
        bytes.as_slice(),
        [1, 2, 3, 1, 2, 3, 1, 2, 3, 1, 2, 3].as_slice(),
    );
    Ok(())
}

// Layers that have five pieces, one, and seven with the last one empty: each begins where the one before it ended.
#[test]
fn pieces_joined_in_layers(rt: HostRuntime) -> Result<(), Fail> {
    let alloc = rt.alloc();
    let block = given(thirteen_pieces(alloc, Style { bits: 0 }, &[1, 2], &[3]))?;
    let ends = given(in_three(alloc, 5, 6, 13))?;
    let (parts, bytes) = given(kept(alloc, &block, ends))?;
    equal(
        &rt,
        parts.as_slice(),
        [
            part(0, 0, 5, 0, 5),
            part(1, 5, 1, 5, 6),
            part(2, 6, 7, 6, 12),
        ]
        .as_slice(),
    );
    equal(
        &rt,
        bytes.as_slice(),
        [1, 2, 3, 1, 2, 3, 1, 2, 3, 1, 2, 3].as_slice(),
    );
    Ok(())
}

// Two ends within a segment: the decoder looked at its only byte before the first pass, and all of it is sent with that pass.
#[test]
fn two_ends_in_a_segment(rt: HostRuntime) -> Result<(), Fail> {
    let alloc = rt.alloc();
    let block = given(one_piece(alloc, &[1]))?;
    let ends = given(in_three(alloc, 1, 2, 4))?;
    let (parts, bytes) = given(kept(alloc, &block, ends))?;
    equal(
        &rt,
        parts.as_slice(),
        [
            part(0, 0, 1, 0, 1),
            part(1, 1, 1, 1, 1),
            part(2, 2, 2, 1, 1),
        ]
        .as_slice(),
    );
    equal(&rt, bytes.as_slice(), [1].as_slice());
    Ok(())
}
