//! Blocks that are kept, in their own layers and in others.

ghost use Rattle.std.specs.Prelude.{◌≡◌, ◌≤◌, ◌^◌, [], length, IfOk, None};
ghost use Rattle.jx_base.specs.Markers.{HasNoMarker};
ghost use Rattle.jx_base.specs.Pieces.{ArePieces, bytes_in};
ghost use Rattle.jx_base.specs.Sound.{IsSound};
ghost use Rattle.jx_codeblock.specs.Jobs.{AreEnds};

use crate::blocks::{block_of, in_one, in_two, kept, one_piece, part};
use crate::checks::{equal, given};
use jx_base::{Block, NoMemory, Piece, Pieces, Style};
use jx_codeblock::Ends;
use std::alloc::Global;
use std::test::Fail;

/// Two pieces of two layers, each with two passes.
#[tactic(auto, using(crate::proofs::Samples::two_pieces, crate::proofs::Samples::two_bytes))]
fn two_pieces<'a>(alloc: Global, first: &'a [u8], second: &'a [u8]) -> Result<Block<'a>, NoMemory>
    requires first { HasNoMarker 0 first.now }
    requires second { HasNoMarker 0 second.now }
    requires few { length first.now ≤ 100 }
    requires also { length second.now ≤ 100 }
    ensures sound { IfOk result (λ b. IsSound b) }
    ensures passes { IfOk result (λ b. b.passes ≡ 4) }
{
    let mut pieces = Pieces::new(alloc);
    pieces.push(Piece {
        layer: 0,
        first: 0,
        passes: 2,
        bytes: first,
    })?;
    pieces.push(Piece {
        layer: 1,
        first: 2,
        passes: 2,
        bytes: second,
    })?;
    Ok(block_of(Style { bits: 0 }, 7, 4, pieces))
}

// In its own layers a block has its own pieces.
#[test]
fn own_layers(rt: HostRuntime) -> Result<(), Fail> {
    let alloc = rt.alloc();
    let block = given(two_pieces(alloc, &[1, 2], &[3]))?;
    let ends = given(in_two(alloc, 2, 1))?;
    let (parts, bytes) = given(kept(alloc, &block, ends))?;
    equal(
        &rt,
        parts.as_slice(),
        [part(0, 0, 2, 0, 2), part(1, 2, 2, 2, 3)].as_slice(),
    );
    equal(&rt, bytes.as_slice(), [1, 2, 3].as_slice());
    Ok(())
}

// Two layers joined: all bytes are sent.
#[test]
fn in_one_layer(rt: HostRuntime) -> Result<(), Fail> {
    let alloc = rt.alloc();
    let block = given(two_pieces(alloc, &[1, 2], &[3]))?;
    let ends = given(in_one(alloc, 4))?;
    let (parts, bytes) = given(kept(alloc, &block, ends))?;
    equal(&rt, parts.as_slice(), [part(0, 0, 4, 0, 3)].as_slice());
    equal(&rt, bytes.as_slice(), [1, 2, 3].as_slice());
    Ok(())
}

// An end within a segment has the bytes that the decoder looked at: here the only one.
#[test]
fn within_a_segment(rt: HostRuntime) -> Result<(), Fail> {
    let alloc = rt.alloc();
    let block = given(one_piece(alloc, &[1]))?;
    let ends = given(in_two(alloc, 2, 1))?;
    let (parts, bytes) = given(kept(alloc, &block, ends))?;
    equal(
        &rt,
        parts.as_slice(),
        [part(0, 0, 2, 0, 1), part(1, 2, 2, 1, 1)].as_slice(),
    );
    equal(&rt, bytes.as_slice(), [1].as_slice());
    Ok(())
}

// The same of a segment in two pieces, which is put together.
#[test]
fn within_a_joined_segment(rt: HostRuntime) -> Result<(), Fail> {
    let alloc = rt.alloc();
    let block = given(two_pieces(alloc, &[], &[1]))?;
    let ends = given(in_two(alloc, 3, 1))?;
    let (parts, bytes) = given(kept(alloc, &block, ends))?;
    equal(
        &rt,
        parts.as_slice(),
        [part(0, 0, 3, 0, 1), part(1, 3, 1, 1, 1)].as_slice(),
    );
    equal(&rt, bytes.as_slice(), [1].as_slice());
    Ok(())
}

// By the end of the first pass the decoder looked at two bytes, of which the last is FF: one is sent.
#[test]
fn without_a_last_ff(rt: HostRuntime) -> Result<(), Fail> {
    let alloc = rt.alloc();
    let block = given(one_piece(alloc, &[0xF0, 0xFF, 0x10]))?;
    let ends = given(in_two(alloc, 1, 1))?;
    let (parts, bytes) = given(kept(alloc, &block, ends))?;
    equal(
        &rt,
        parts.as_slice(),
        [part(0, 0, 1, 0, 1), part(1, 1, 3, 1, 3)].as_slice(),
    );
    equal(&rt, bytes.as_slice(), [0xF0, 0xFF, 0x10].as_slice());
    Ok(())
}

#[test]
fn without_pieces(rt: HostRuntime) -> Result<(), Fail> {
    let alloc = rt.alloc();
    let block = block_of(Style { bits: 0 }, 9, 0, Pieces::new(alloc));
    let (parts, bytes) = given(kept(alloc, &block, Ends::new(alloc)))?;
    equal(&rt, parts.len(), 0);
    equal(&rt, bytes.len(), 0);
    Ok(())
}
