//! The packets of one tile (ITU-T T.800, A.7.4, A.7.5 and B.9 to B.12).

ghost use Rattle.std.specs.Prelude.{◌≡◌, ◌≤◌, ◌<◌, ◌+◌, [], length, take, IfErr, OnOk};
ghost use Rattle.jx_tile.specs.Faults.{HasCause};
ghost use Rattle.jx_codestream.specs.Shapes.{tile_at};
ghost use Rattle.jx_tile.specs.Frame.{AreOfTile};
ghost use Rattle.jx_tier2_reader.specs.Blocks.{blocks_of_tile};
ghost use Rattle.jx_tile.specs.Covered.{IsListOf, IsWhole};
ghost use Rattle.jx_tier2_reader.specs.Gathered.{AreTileBlocks, BreaksTile, head_pieces};
ghost use Rattle.jx_tier2_reader.specs.InRange.{DataInRange, HeadsInRange};
ghost use Rattle.jx_tier2_reader.specs.Reading.{IsFront, IsInside, IsTask};
ghost use Rattle.jx_base.specs.Limits.{most_bytes};

use crate::StreamFault;
use crate::fresh::precincts_of;
use crate::heads::{end_in, join, packed_in, packed_pieces, window_of};
use crate::pieces::put_pieces;
use crate::rest::Rest;
use jx_base::Block;
use jx_codestream::{Body, Stream, TileView};
use jx_geom::TileGeom;
use jx_progression::PacketName;
use std::alloc::Global;

/// What the packets of a tile are read by.
#[derive(Drop)]
struct Source<'t, 'a> {
    /// The file.
    bytes: &'a [u8],
    /// What its headers say.
    stream: &'t Stream,
    /// The tile's geometry, which numbers its precincts and blocks.
    geom: &'t TileGeom,
    /// The tile's packets in their order.
    list: &'t [PacketName],
    /// The pieces of the file that are its packed headers, none where each header stands before its packet.
    pieces: &'t [Body],
}

impl<'t, 'a> Source<'t, 'a> {
    /// Reads the packet that comes next in the list, and puts its pieces to their blocks.
    fn read_next(
        &self,
        number: usize,
        rest: &mut Rest<'_>,
        blocks: &mut Vec<Block<'a>>,
    ) -> Result<(), StreamFault>
        requires task { IsTask self.now.bytes.now self.now.stream.now self.now.geom.now self.now.list.now }
        requires number { number < length self.now.list.now }
        requires front { IsFront self.now.bytes.now self.now.stream.now self.now.geom.now.tile (take number self.now.list.now) rest.old blocks.old.items }
        requires inside { IsInside self.now.bytes.now rest.old }
        ensures front { OnOk result (IsFront self.now.bytes.now self.now.stream.now self.now.geom.now.tile (take (number + 1) self.now.list.now) rest.new blocks.new.items) }
        ensures inside { OnOk result (IsInside self.now.bytes.now rest.new) }
        ensures err { IfErr result (λ e. HasCause (BreaksTile self.now.bytes.now self.now.stream.now self.now.geom.now.tile) e) }
    {
        let name = self.list[number];
        let body = rest.due();
        let precinct = self
            .geom
            .precinct_number(name.comp, name.res, name.precinct) as usize;
        let window = window_of(self.bytes, body);
        let packet = match rest.read(precinct, name, number, window, body.at as usize) {
            Ok(packet) => packet,
            Err(fault) => return Err(fault),
        };
        rest.pass(body, packet.count);
        match put_pieces(blocks, self.geom, rest.precinct(precinct), name, &packet) {
            Ok(()) => Ok(()),
            Err(_) => Err(StreamFault::NoMemory),
        }
    }

    /// Reads all of the list's packets, behind which no byte of the tile is left.
    fn read_all(&self, rest: &mut Rest<'_>, blocks: &mut Vec<Block<'a>>) -> Result<(), StreamFault>
        requires task { IsTask self.now.bytes.now self.now.stream.now self.now.geom.now self.now.list.now }
        requires pieces { self.now.pieces.now ≡ head_pieces self.now.stream.now self.now.geom.now.tile }
        requires front { IsFront self.now.bytes.now self.now.stream.now self.now.geom.now.tile (take 0 self.now.list.now) rest.old blocks.old.items }
        requires inside { IsInside self.now.bytes.now rest.old }
        ensures ok { OnOk result (AreTileBlocks self.now.bytes.now self.now.stream.now self.now.geom.now.tile blocks.new.items) }
        ensures err { IfErr result (λ e. HasCause (BreaksTile self.now.bytes.now self.now.stream.now self.now.geom.now.tile) e) }
    {
        for number in 0..self.list.len() {
            match self.read_next(number, rest, blocks) {
                Ok(()) => {}
                Err(fault) => return Err(fault),
            }
        }
        match rest.check_left(self.pieces) {
            Ok(()) => Ok(()),
            Err(fault) => Err(fault),
        }
    }
}

/// Reads the packets of a tile in the order of their list, and puts their pieces to the tile's blocks. Rules
/// 26 to 31 are answered, each at the first place where one is violated.
pub(crate) fn read_tile<'a>(
    alloc: Global,
    bytes: &'a [u8],
    stream: &Stream,
    view: &TileView<'_>,
    geom: &TileGeom,
    list: &[PacketName],
    blocks: &mut Vec<Block<'a>>,
) -> Result<(), StreamFault>
    requires fits { length bytes.now ≤ most_bytes }
    requires tile { AreOfTile stream.now view.now geom.now }
    requires order { IsListOf stream.now geom.now.tile list.now }
    requires whole { IsWhole stream.now geom.now.tile }
    requires bodies { DataInRange bytes.now (tile_at stream.now geom.now.tile).bodies }
    requires heads { HeadsInRange bytes.now (head_pieces stream.now geom.now.tile) }
    requires blocks { blocks.old.items ≡ blocks_of_tile stream.now geom.now [] }
    ensures ok { OnOk result (AreTileBlocks bytes.now stream.now geom.now.tile blocks.new.items) }
    ensures err { IfErr result (λ e. HasCause (BreaksTile bytes.now stream.now geom.now.tile) e) }
{
    let precincts = precincts_of(alloc, stream, view, geom)?;
    let tile = stream.tile(geom.number());
    let bodies = tile.bodies.as_slice();
    let heads = tile.heads.pieces();
    let pieces = packed_pieces(heads);
    let joined = join(alloc, bytes, pieces)?;
    let packed = packed_in(bytes, heads, &joined);
    let mut rest = Rest::new(bodies, end_in(heads, bodies), packed, precincts);
    let source = Source {
        bytes,
        stream,
        geom,
        list,
        pieces,
    };
    source.read_all(&mut rest, blocks)
}
