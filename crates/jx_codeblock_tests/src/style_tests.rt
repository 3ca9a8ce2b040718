//! Blocks that are coded anew in another style.

ghost use Rattle.std.specs.Prelude.{◌≡◌, ◌≤◌, ◌<◌, ◌-◌, ◌*◌, ◌%◌, ◌^◌, length, IfOk};
ghost use Rattle.jx_base.specs.Markers.{HasNoMarker};
ghost use Rattle.jx_base.specs.Pieces.{ArePieces, bytes_in};
ghost use Rattle.jx_base.specs.Sound.{IsSound};
ghost use Rattle.jx_codeblock.specs.Jobs.{AreEnds, IsAsked};

use crate::blocks::{block_of, done, in_one, in_two, kept, one_pass, one_piece, part};
use crate::checks::{check, equal, given};
use jx_base::{Block, NoMemory, Piece, Pieces, Style};
use jx_codeblock::{BlockFault, Ends, Job, LayerPart};
use std::alloc::Global;
use std::test::Fail;

/// Two coded planes in four passes, each a segment.
#[tactic(auto, using(crate::proofs::Samples::each_pass, crate::proofs::Samples::each_bytes))]
fn each_pass<'a>(
    alloc: Global,
    style: Style,
    first: &'a [u8],
    later: &'a [u8],
) -> Result<Block<'a>, NoMemory>
    requires first { HasNoMarker 0 first.now }
    requires later { HasNoMarker 0 later.now }
    requires few { length first.now ≤ 100 }
    requires also { length later.now ≤ 100 }
    ensures sound { IfOk result (λ b. IsSound b) }
    ensures passes { IfOk result (λ b. b.passes ≡ 4) }
{
    let mut pieces = Pieces::new(alloc);
    pieces.push(Piece {
        layer: 0,
        first: 0,
        passes: 1,
        bytes: first,
    })?;
    pieces.push(Piece {
        layer: 0,
        first: 1,
        passes: 1,
        bytes: later,
    })?;
    pieces.push(Piece {
        layer: 0,
        first: 2,
        passes: 1,
        bytes: later,
    })?;
    pieces.push(Piece {
        layer: 0,
        first: 3,
        passes: 1,
        bytes: later,
    })?;
    Ok(block_of(style, 7, 4, pieces))
}

/// Codes a block of whole planes anew.
#[tactic(auto, using(crate::proofs::Samples::asked_whole))]
fn anew(
    alloc: Global,
    block: &Block<'_>,
    bits: u8,
    ends: Ends,
) -> Result<(Vec<LayerPart>, Vec<u8>), BlockFault>
    requires sound { IsSound block.now }
    requires ends { AreEnds 0 0 block.now.passes ends }
    requires whole { block.now.passes % 3 ≡ 1 }
{
    let job = Job {
        number: 3,
        block,
        style: Some(Style { bits }),
        ends,
    };
    done(alloc, &job)
}

/// Codes a block without passes anew.
#[tactic(auto, using(crate::proofs::Samples::asked_none))]
fn none_anew(
    alloc: Global,
    block: &Block<'_>,
    bits: u8,
) -> Result<(Vec<LayerPart>, Vec<u8>), BlockFault>
    requires sound { IsSound block.now }
    requires none { block.now.passes ≡ 0 }
{
    let job = Job {
        number: 3,
        block,
        style: Some(Style { bits }),
        ends: Ends::new(alloc),
    };
    done(alloc, &job)
}

// No pass, no part, in any style.
#[test]
fn without_passes(rt: HostRuntime) -> Result<(), Fail> {
    let alloc = rt.alloc();
    let block = block_of(Style { bits: 0 }, 9, 0, Pieces::new(alloc));
    let (parts, bytes) = none_anew(alloc, &block, 0x2F).ok().ok_or("refused")?;
    equal(&rt, parts.len(), 0);
    equal(&rt, bytes.len(), 0);
    Ok(())
}

// +1 in one pass gets a segmentation symbol, and loses it again.
#[test]
fn with_symbols_and_without(rt: HostRuntime) -> Result<(), Fail> {
    let alloc = rt.alloc();
    for (from, to, own, new) in [(0u8, 0x20u8, 0x03u8, 0x01u8), (0x20, 0, 0x01, 0x03)] {
        let bytes = [own];
        check(&rt, own < 0xFF);
        let block = given(one_pass(alloc, Style { bits: from }, &bytes))?;
        let ends = given(in_one(alloc, 1))?;
        let (parts, bytes) = anew(alloc, &block, to, ends).ok().ok_or("refused")?;
        equal(&rt, parts.as_slice(), [part(0, 0, 1, 0, 1)].as_slice());
        equal(&rt, bytes.as_slice(), [new].as_slice());
    }
    Ok(())
}

// The symbol after the only pass isn't 1010: refused with the job's number.
#[test]
fn wrong_symbol(rt: HostRuntime) -> Result<(), Fail> {
    let alloc = rt.alloc();
    let block = given(one_pass(alloc, Style { bits: 0x20 }, &[0x03]))?;
    let ends = given(in_one(alloc, 1))?;
    let fault = anew(alloc, &block, 0, ends).err();
    equal(&rt, fault, Some(BlockFault::BadSegmentation(3)));
    let ends = given(in_one(alloc, 1))?;
    let fault = anew(alloc, &block, 8, ends).err();
    equal(&rt, fault, Some(BlockFault::BadSegmentation(3)));
    Ok(())
}

// The same block may be kept.
#[test]
fn wrong_symbol_kept(rt: HostRuntime) -> Result<(), Fail> {
    let alloc = rt.alloc();
    let block = given(one_pass(alloc, Style { bits: 0x20 }, &[0x03]))?;
    let ends = given(in_one(alloc, 1))?;
    let (parts, bytes) = kept(alloc, &block, ends).ok().ok_or("refused")?;
    equal(&rt, parts.as_slice(), [part(0, 0, 1, 0, 1)].as_slice());
    equal(&rt, bytes.as_slice(), [0x03].as_slice());
    Ok(())
}

// +3 in four passes: a segment for each of them, and one segment again.
#[test]
fn each_pass_terminated(rt: HostRuntime) -> Result<(), Fail> {
    let alloc = rt.alloc();
    let block = given(one_piece(alloc, &[0x01]))?;
    let ends = given(in_one(alloc, 4))?;
    let (parts, bytes) = anew(alloc, &block, 4, ends).ok().ok_or("refused")?;
    equal(
        &rt,
        parts.as_slice(),
        [
            part(0, 0, 1, 0, 1),
            part(0, 1, 1, 1, 3),
            part(0, 2, 1, 3, 5),
            part(0, 3, 1, 5, 7),
        ]
        .as_slice(),
    );
    equal(
        &rt,
        bytes.as_slice(),
        [0x03, 0xFF, 0x7F, 0xFF, 0x7F, 0xFF, 0x7F].as_slice(),
    );
    let block = given(each_pass(alloc, Style { bits: 4 }, &[0x03], &[0xFF, 0x7F]))?;
    let ends = given(in_one(alloc, 4))?;
    let (parts, bytes) = anew(alloc, &block, 0, ends).ok().ok_or("refused")?;
    equal(&rt, parts.as_slice(), [part(0, 0, 4, 0, 1)].as_slice());
    equal(&rt, bytes.as_slice(), [0x01].as_slice());
    Ok(())
}

// A block of whole planes takes another causal bit.
#[test]
fn causal(rt: HostRuntime) -> Result<(), Fail> {
    let alloc = rt.alloc();
    let block = given(one_piece(alloc, &[0x01]))?;
    let ends = given(in_one(alloc, 4))?;
    let (parts, bytes) = anew(alloc, &block, 8, ends).ok().ok_or("refused")?;
    equal(&rt, parts.as_slice(), [part(0, 0, 4, 0, 1)].as_slice());
    equal(&rt, bytes.as_slice(), [0x01].as_slice());
    Ok(())
}

// Two layers that end where new segments do.
#[test]
fn in_layers(rt: HostRuntime) -> Result<(), Fail> {
    let alloc = rt.alloc();
    let block = given(each_pass(alloc, Style { bits: 4 }, &[0x03], &[0xFF, 0x7F]))?;
    let ends = given(in_two(alloc, 2, 2))?;
    let (parts, bytes) = anew(alloc, &block, 6, ends).ok().ok_or("refused")?;
    equal(
        &rt,
        parts.as_slice(),
        [
            part(0, 0, 1, 0, 1),
            part(0, 1, 1, 1, 3),
            part(2, 2, 1, 3, 5),
            part(2, 3, 1, 5, 7),
        ]
        .as_slice(),
    );
    equal(&rt, bytes.len(), 7);
    Ok(())
}

// A layer that ends within the new segment has what the decoder looked at, here the only byte.
#[test]
fn within_a_new_segment(rt: HostRuntime) -> Result<(), Fail> {
    let alloc = rt.alloc();
    let block = given(each_pass(alloc, Style { bits: 4 }, &[0x03], &[0xFF, 0x7F]))?;
    let ends = given(in_two(alloc, 1, 2))?;
    let (parts, bytes) = anew(alloc, &block, 0, ends).ok().ok_or("refused")?;
    equal(
        &rt,
        parts.as_slice(),
        [part(0, 0, 1, 0, 1), part(2, 1, 3, 1, 1)].as_slice(),
    );
    equal(&rt, bytes.as_slice(), [0x01].as_slice());
    Ok(())
}
