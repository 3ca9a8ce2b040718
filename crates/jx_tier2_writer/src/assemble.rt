//! The tile-parts of a tile, one after another (ITU-T T.800, A.4.2).

ghost use Rattle.std.specs.Prelude.{◌≡◌, ◌≤◌, ◌<◌, ◌+◌, ◌^◌, ◌++◌, ◌∷◌, List, [], length, map, Err, IfOk, OnOk};
ghost use Rattle.std.specs.List.{All, concat};
ghost use Rattle.jx_base.specs.declared.pieces.Block.{Block};
ghost use Rattle.jx_marker.specs.Ranges.{InRange};
ghost use Rattle.jx_progression.specs.Packets.{IsPacketName};
ghost use Rattle.jx_codestream.specs.declared.headers.HeaderKind.TheVariants.{First};
ghost use Rattle.jx_codestream.specs.Params.{header_of};
ghost use Rattle.jx_codestream.specs.Shapes.{layers_of};
ghost use Rattle.jx_codestream.specs.Spells.{AreSegments, part_bytes};
ghost use Rattle.jx_tile.specs.Covered.{IsListOf};
ghost use Rattle.jx_tile.specs.Frame.{AreOfTile};
ghost use Rattle.jx_tile_parts.specs.Groups.{HasFewParts, groups_of};
ghost use Rattle.jx_tier2_writer.specs.Assembled.{AreOwn, AreTileBytes, HasMoreBytes};
ghost use Rattle.jx_tier2_writer.specs.Names.{AreSendings, tile_names};
ghost use Rattle.jx_tier2_writer.specs.Own.{AreOwnBlocks};
ghost use Rattle.jx_tier2_writer.specs.Packed.{own_packets, own_parts};
ghost use Rattle.jx_tier2_writer.specs.Pieces.{IsLayout, IsPartOut, pieces_with, tile_pieces};
ghost use Rattle.jx_tier2_writer.specs.Tile.{AreAtMost};

use crate::parts::Coded;
use crate::precincts::sendings_of;
use crate::sending::Sending;
use crate::tile::AssembleFault;
use crate::tile_part::{PartOut, PartPlace, pack_part};
use jx_base::NoMemory;
use jx_codestream::{Stream, TileView};
use jx_geom::TileGeom;
use jx_options::Marks;
use jx_progression::PacketName;
use jx_tile_parts::{count_parts, part_end};
use std::alloc::Global;

/// What a tile is written from, but for its headers and its blocks: what is sent of each precinct, its packets in their order, and its
/// tile-parts.
#[derive(Drop)]
pub(crate) struct Layout {
    pub(crate) list: Vec<Sending>,
    pub(crate) names: Vec<PacketName>,
    pub(crate) parts: Vec<PartOut>,
}

/// Puts a tile-part behind others.
fn push_part(parts: &mut Vec<PartOut>, part: PartOut) -> Result<(), NoMemory>
    ensures items { OnOk result (parts.new.items ≡ parts.old.items ++ part ∷ []) }
    ensures long { OnOk result (length parts.new.items ≡ length parts.old.items + 1) }
{
    parts.push(part)?;
    Ok(())
}

/// The one tile-part of a tile without packets.
fn pack_empty<B: Coded>(
    alloc: Global,
    stream: &Stream,
    geom: &TileGeom,
    values: &[B],
    list: &[Sending],
    marks: Marks,
    names: &[PacketName],
    most: u32,
) -> Result<Vec<PartOut>, AssembleFault>
    requires list { AreSendings stream.now geom.now (map B.block values.now) (map B.bytes values.now) (tile_names geom.now) list.now }
    requires none { names.now ≡ [] }
    requires comps { length stream.now.siz.comps ≤ 16384 }
    requires tile { geom.now.tile < length stream.now.tiles }
    requires header { All (InRange (length stream.now.siz.comps)) (header_of stream.now geom.now.tile) }
    ensures value { IfOk result (λ parts. map concat (pieces_with (own_packets marks stream.now geom.now (map B.block values.now)) names.now parts.items)
        ≡ map (part_bytes (length stream.now.siz.comps)) (own_parts marks stream.now geom.now (map B.block values.now) names.now)) }
    ensures parts { IfOk result (λ parts. All (IsPartOut (own_packets marks stream.now geom.now (map B.block values.now)) names.now) parts.items) }
    ensures short { IfOk result (λ parts. AreAtMost most (own_parts marks stream.now geom.now (map B.block values.now) names.now)) }
    ensures long { result ≡ Err AssembleFault.TooLong → AreAtMost most (own_parts marks stream.now geom.now (map B.block values.now) names.now) → ⊥ }
{
    let place = PartPlace {
        part: 0,
        parts: 1,
        packet: 0,
    };
    let part = match pack_part(alloc, stream, geom, values, list, marks, names, place, most) {
        Ok(part) => part,
        Err(fault) => return Err(fault),
    };
    let mut parts = Vec::new(alloc);
    push_part(&mut parts, part)?;
    Ok(parts)
}

/// The tile-parts of a tile of which the packets are named; `TooLong` exactly where one of them has more than `most` bytes.
fn pack_named<B: Coded>(
    alloc: Global,
    stream: &Stream,
    geom: &TileGeom,
    values: &[B],
    list: &[Sending],
    marks: Marks,
    names: &[PacketName],
    most: u32,
) -> Result<Vec<PartOut>, AssembleFault>
    requires list { AreSendings stream.now geom.now (map B.block values.now) (map B.bytes values.now) (tile_names geom.now) list.now }
    requires each { All (IsPacketName geom.now (layers_of stream.now geom.now.tile)) names.now }
    requires few { length names.now ≤ 2 ^ 22 }
    requires parts { length (groups_of marks.parts names.now) ≤ 255 }
    requires comps { length stream.now.siz.comps ≤ 16384 }
    requires tile { geom.now.tile < length stream.now.tiles }
    requires header { All (InRange (length stream.now.siz.comps)) (header_of stream.now geom.now.tile) }
    ensures value { IfOk result (λ parts. map concat (pieces_with (own_packets marks stream.now geom.now (map B.block values.now)) names.now parts.items)
        ≡ map (part_bytes (length stream.now.siz.comps)) (own_parts marks stream.now geom.now (map B.block values.now) names.now)) }
    ensures parts { IfOk result (λ parts. All (IsPartOut (own_packets marks stream.now geom.now (map B.block values.now)) names.now) parts.items) }
    ensures short { IfOk result (λ parts. AreAtMost most (own_parts marks stream.now geom.now (map B.block values.now) names.now)) }
    ensures long { result ≡ Err AssembleFault.TooLong → AreAtMost most (own_parts marks stream.now geom.now (map B.block values.now) names.now) → ⊥ }
{
    if names.is_empty() {
        return pack_empty(alloc, stream, geom, values, list, marks, names, most);
    }
    let count = count_parts(names, marks.parts) as u8;
    let mut parts: Vec<PartOut> = Vec::new(alloc);
    let mut from = 0;
    while from < names.len() {
        let end = part_end(names, from, marks.parts);
        let place = PartPlace {
            part: parts.len() as u8,
            parts: count,
            packet: from,
        };
        let own = &names[from..end];
        let part = match pack_part(alloc, stream, geom, values, list, marks, own, place, most) {
            Ok(part) => part,
            Err(fault) => return Err(fault),
        };
        push_part(&mut parts, part)?;
        from = end;
    }
    Ok(parts)
}

/// A tile laid out: `names` are its packets in their order, `values` its blocks by their numbers in the tile. `TooLong` comes exactly where one of its tile-parts has more
/// than `most` bytes. The time grows with the packets, and with the blocks and their parts.
pub(crate) fn pack_values<B: Coded>(
    alloc: Global,
    stream: &Stream,
    view: &TileView<'_>,
    geom: &TileGeom,
    names: Vec<PacketName>,
    values: &[B],
    marks: Marks,
    most: u32,
) -> Result<Layout, AssembleFault>
    requires tile { AreOfTile stream.now view.now geom.now }
    requires order { IsListOf stream.now geom.now.tile names.items }
    requires each { All (IsPacketName geom.now (layers_of stream.now geom.now.tile)) names.items }
    requires short { length names.items ≤ 2 ^ 22 }
    requires header { AreSegments First (length stream.now.siz.comps) [] (header_of stream.now geom.now.tile) }
    requires own { AreOwnBlocks stream.now geom.now (map B.block values.now) }
    requires few { HasFewParts marks.parts stream.now geom.now.tile }
    ensures layout { IfOk result (λ layout. IsLayout marks stream.now geom.now (map B.block values.now) (map B.bytes values.now) layout) }
    ensures value { IfOk result (λ layout. (blocks : List Block) → AreOwn stream.now geom.now.tile blocks (map B.block values.now)
        → (is : AreTileBytes marks stream.now blocks geom.now.tile (map concat (tile_pieces (own_packets marks stream.now geom.now (map B.block values.now)) layout))) × AreAtMost most is.parts) }
    ensures long { result ≡ Err AssembleFault.TooLong → (blocks : List Block) → AreOwn stream.now geom.now.tile blocks (map B.block values.now)
        → HasMoreBytes marks stream.now blocks geom.now.tile most }
{
    let list = match sendings_of(alloc, stream, view, geom, values) {
        Ok(list) => list,
        Err(_) => return Err(AssembleFault::NoMemory),
    };
    let parts = match pack_named(alloc, stream, geom, values, &list, marks, &names, most) {
        Ok(parts) => parts,
        Err(fault) => return Err(fault),
    };
    Ok(Layout { list, names, parts })
}
