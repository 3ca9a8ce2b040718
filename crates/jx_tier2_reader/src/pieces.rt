//! The pieces of packets, put to their blocks (ITU-T T.800, B.7 and B.10).

ghost use Rattle.std.specs.Prelude.{◌≡◌, ◌≤◌, ◌<◌, ◌+◌, ◌^◌, length, OnOk, slice_get};
ghost use Rattle.std.specs.List.{All};
ghost use Rattle.jx_base.specs.Pieces.{value_of};
ghost use Rattle.jx_geom.specs.Leaves.{AreLeaves};
ghost use Rattle.jx_packet_header.specs.Precinct.{all_blocks};
ghost use Rattle.jx_geom.specs.Precincts.{HasPrecinct, leaf_number, leaves};
ghost use Rattle.jx_tier2_reader.specs.Data.{parts_length};
ghost use Rattle.jx_tier2_reader.specs.Blocks.{founds_from, zero_in};
ghost use Rattle.jx_tier2_reader.specs.Put.{put_to, put_one, put_all};
ghost use Rattle.jx_tier2_reader.specs.Reading.{CanPut, HasRoom, found_of};

use crate::packet::Packet;
use jx_base::{Block, NoMemory, Piece};
use jx_geom::{Leaves, TileGeom};
use jx_packet_header::{HeaderPart, Precinct};
use jx_progression::PacketName;

/// Puts a piece behind those of its block. The first also tells the block's zero planes.
fn put_to<'a>(block: &mut Block<'a>, zero: u8, piece: Piece<'a>) -> Result<(), NoMemory>
    requires { block.old.passes + piece.passes < 2 ^ 16 }
    ensures { OnOk result (block.new ≡ put_to block.old (record { number = 0; zero = zero; piece = value_of piece.entry })) }
{
    if block.pieces.len() == 0 {
        block.zero = zero;
    }
    block.passes += piece.passes;
    block.pieces.push(piece)
}

/// Puts a piece to the block of a number.
#[tactic(auto, unfolding(crate::specs::Put::put_one))]
fn put_at<'a>(
    blocks: &mut Vec<Block<'a>>,
    number: usize,
    zero: u8,
    piece: Piece<'a>,
) -> Result<(), NoMemory>
    requires there { number < length blocks.old.items }
    requires few { HasRoom (slice_get blocks.old.items number) piece.passes }
    ensures { OnOk result (blocks.new.items ≡ put_one blocks.old.items (record { number = number; zero = zero; piece = value_of piece.entry })) }
{
    put_to(&mut blocks[number], zero, piece)
}

/// The zero planes that were told of a precinct's block, 0 where none were.
fn zero_of(precinct: &Precinct, block: u32) -> u8
    requires { block < length (all_blocks precinct.now.bands) }
    ensures { result ≡ zero_in precinct.now block }
{
    match precinct.zero(block) {
        Some(zero) => zero,
        None => 0,
    }
}

/// The number among those of the tile of a code-block of a packet's precinct.
fn leaf_number(geom: &TileGeom, all: &Leaves, name: PacketName, block: u32) -> usize
    requires all { AreLeaves geom.now name.comp name.res name.precinct all.now }
    requires block { block < leaves geom.now name.comp name.res name.precinct }
    ensures { result ≡ leaf_number geom.now name.comp name.res name.precinct block }
{
    all.number(block)
}

/// Puts the bytes of a part to its block.
fn put_part<'a>(
    blocks: &mut Vec<Block<'a>>,
    geom: &TileGeom,
    all: &Leaves,
    precinct: &Precinct,
    name: PacketName,
    part: HeaderPart,
    bytes: &'a [u8],
) -> Result<(), NoMemory>
    requires precinct { HasPrecinct geom.now name.comp name.res name.precinct }
    requires leaves { length (all_blocks precinct.now.bands) ≡ leaves geom.now name.comp name.res name.precinct }
    requires all { AreLeaves geom.now name.comp name.res name.precinct all.now }
    requires block { part.block < length (all_blocks precinct.now.bands) }
    requires there { (found_of geom.now name precinct.now part bytes.now).number < length blocks.old.items }
    requires few { HasRoom (slice_get blocks.old.items (found_of geom.now name precinct.now part bytes.now).number) part.passes }
    ensures { OnOk result (blocks.new.items ≡ put_one blocks.old.items (found_of geom.now name precinct.now part bytes.now)) }
{
    let piece = Piece {
        layer: name.layer,
        first: part.first,
        passes: part.passes,
        bytes,
    };
    let zero = zero_of(precinct, part.block);
    put_at(
        blocks,
        leaf_number(geom, all, name, part.block),
        zero,
        piece,
    )
}

/// Puts the pieces of a packet to their blocks. The precinct is the packet's, after its header was read.
pub(crate) fn put_pieces<'a>(
    blocks: &mut Vec<Block<'a>>,
    geom: &TileGeom,
    precinct: &Precinct,
    name: PacketName,
    packet: &Packet<'a>,
) -> Result<(), NoMemory>
    requires precinct { HasPrecinct geom.now name.comp name.res name.precinct }
    requires leaves { length (all_blocks precinct.now.bands) ≡ leaves geom.now name.comp name.res name.precinct }
    requires parts { All (λ p. p.block < length (all_blocks precinct.now.bands)) packet.now.parts.items }
    requires bytes { parts_length packet.now.parts.items ≤ length packet.now.bytes.now }
    requires can { CanPut blocks.old.items (founds_from geom.now name precinct.now packet.now.bytes.now packet.now.parts.items) }
    ensures { OnOk result (blocks.new.items ≡ put_all blocks.old.items (founds_from geom.now name precinct.now packet.now.bytes.now packet.now.parts.items)) }
{
    if packet.parts.is_empty() {
        return Ok(());
    }
    let all = geom.leaves(name.comp, name.res, name.precinct);
    let mut rest = packet.bytes;
    for part in &packet.parts {
        let (bytes, behind) = rest.split_at(part.length as usize);
        put_part(blocks, geom, &all, precinct, name, *part, bytes)?;
        rest = behind;
    }
    Ok(())
}
