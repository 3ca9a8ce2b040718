//! One tile-part: its header, and which packets it has (ITU-T T.800, A.4).

ghost use Rattle.std.specs.Prelude.{◌≡◌, ◌≤◌, ◌<◌, ◌+◌, ◌++◌, ◌^◌, List, length, map, Err, IfOk, OnOk, [], if◌then◌else◌};
ghost use Rattle.std.specs.List.{All};
ghost use Rattle.jx_marker.specs.declared.Segment.TheVariants as segment;
ghost use Rattle.jx_marker.specs.Ranges.{InRange};
ghost use Rattle.jx_marker.specs.Segments.{spelling};
ghost use Rattle.jx_progression.specs.Packets.{IsPacketName};
ghost use Rattle.jx_codestream.specs.Params.{header_of};
ghost use Rattle.jx_codestream.specs.Shapes.{layers_of};
ghost use Rattle.jx_codestream.specs.Spells.{all_bytes, part_bytes};
ghost use Rattle.jx_tier2_reader.specs.Written.{bytes_from};
ghost use Rattle.jx_tier2_writer.specs.Lengths.{length_segments};
ghost use Rattle.jx_tier2_writer.specs.Names.{AreSendings, tile_names};
ghost use Rattle.jx_tier2_writer.specs.Packed.{own_packets, own_part, own_segments, total};
ghost use Rattle.jx_tier2_writer.specs.TileParts.{written_part_header};

use crate::lengths::put_lengths;
use crate::parts::Coded;
use crate::segments::put_segments;
use crate::sending::Sending;
use crate::tile::{AssembleFault, lengths_of};
use jx_base::NoMemory;
use jx_codestream::{Stream, comps_of};
use jx_geom::TileGeom;
use jx_marker::{Segment, Sot, put_segment};
use jx_options::Marks;
use jx_progression::PacketName;
use std::alloc::Global;

/// Where a tile-part stands in its tile.
#[derive(Clone, Copy)]
pub(crate) struct PartPlace {
    /// Its number, from 0 on.
    pub(crate) part: u8,
    /// How many tile-parts the tile has.
    pub(crate) parts: u8,
    /// The number of its first packet in the tile.
    pub(crate) packet: usize,
}

/// A tile-part that is ready to be written.
#[derive(Drop)]
pub(crate) struct PartOut {
    /// SOT, the header and SOD.
    pub(crate) front: Vec<u8>,
    /// The number of its first packet in the tile.
    pub(crate) from: usize,
    /// The number of the packet after its last.
    pub(crate) end: usize,
    /// How many bytes it has.
    pub(crate) size: u32,
}

/// Appends the tile's own segments, in its first tile-part.
fn put_own(part: u8, own: &[Segment], comps: u16, out: &mut Vec<u8>) -> Result<(), NoMemory>
    requires { All (InRange comps) own.now }
    ensures { OnOk result (out.new.items ≡ out.old.items ++ all_bytes comps (own_segments part own.now)) }
{
    if part != 0 {
        return Ok(());
    }
    put_segments(own, comps, out)
}

/// Appends PLT, where it is asked.
fn put_plt(
    alloc: Global,
    asked: bool,
    lengths: &[u32],
    comps: u16,
    out: &mut Vec<u8>,
) -> Result<(), NoMemory>
    requires few { length lengths.now ≤ 2 ^ 22 }
    requires together { total lengths.now < 2 ^ 32 }
    ensures { OnOk result (out.new.items ≡ out.old.items ++ all_bytes comps (if asked then length_segments lengths.now else [])) }
{
    if !asked {
        return Ok(());
    }
    put_lengths(alloc, lengths, comps, out)
}

/// What stands between SOT and SOD in a tile-part with packets of these lengths.
fn header_bytes(
    alloc: Global,
    stream: &Stream,
    tile: u16,
    part: u8,
    marks: Marks,
    lengths: &[u32],
) -> Result<Vec<u8>, NoMemory>
    requires comps { length stream.now.siz.comps ≤ 16384 }
    requires tile { tile < length stream.now.tiles }
    requires own { All (InRange (length stream.now.siz.comps)) (header_of stream.now tile) }
    requires few { length lengths.now ≤ 2 ^ 22 }
    requires together { total lengths.now < 2 ^ 32 }
    ensures { IfOk result (λ bytes. bytes.items ≡ all_bytes (length stream.now.siz.comps) (written_part_header marks (header_of stream.now tile) part lengths.now)) }
{
    let comps = comps_of(&stream.siz);
    let mut bytes = Vec::new(alloc);
    put_own(part, stream.header(tile), comps, &mut bytes)?;
    put_plt(alloc, marks.plt, lengths, comps, &mut bytes)?;
    Ok(bytes)
}

/// The sum of lengths.
fn sum_of(lengths: &[u32]) -> u128
    ensures value { result ≡ total lengths.now }
    ensures bound { result ≤ 2 ^ 96 }
{
    let mut sum = 0;
    for length in lengths {
        sum += u128::from(*length);
    }
    sum
}

/// How many bytes a tile-part has, with 12 of SOT and 2 of SOD.
fn size_of(header: &[u8], lengths: &[u32]) -> u128
    ensures { result ≡ 14 + length header.now + total lengths.now }
{
    14 + header.len() as u128 + sum_of(lengths)
}

/// Appends SOT.
fn put_sot(sot: Sot, comps: u16, out: &mut Vec<u8>) -> Result<(), NoMemory>
    ensures { OnOk result (out.new.items ≡ out.old.items ++ spelling comps (segment.Sot sot)) }
{
    put_segment(&Segment::Sot(sot), comps, out)
}

/// Appends SOD.
fn put_sod(comps: u16, out: &mut Vec<u8>) -> Result<(), NoMemory>
    ensures { OnOk result (out.new.items ≡ out.old.items ++ spelling comps segment.Sod) }
{
    put_segment(&Segment::Sod, comps, out)
}

/// Appends SOT, the header's segments and SOD.
fn put_front(sot: Sot, header: &[u8], comps: u16, out: &mut Vec<u8>) -> Result<(), NoMemory>
    ensures { OnOk result (out.new.items ≡ out.old.items ++ (spelling comps (segment.Sot sot) ++ (header.now ++ spelling comps segment.Sod))) }
{
    put_sot(sot, comps, out)?;
    out.extend_from_slice(header)?;
    put_sod(comps, out)
}

/// What stands before the packets of a tile-part: SOT, the header's segments and SOD.
fn front_bytes(
    alloc: Global,
    stream: &Stream,
    tile: u16,
    place: PartPlace,
    header: &[u8],
    size: u32,
) -> Result<Vec<u8>, NoMemory>
    requires { length stream.now.siz.comps ≤ 16384 }
    ensures { IfOk result (λ bytes. bytes.items ≡ spelling (length stream.now.siz.comps) (segment.Sot (record { tile = tile; psot = size; part = place.part; parts = place.parts }))
        ++ (header.now ++ spelling (length stream.now.siz.comps) segment.Sod)) }
{
    let comps = comps_of(&stream.siz);
    let mut out = Vec::with_capacity(alloc, header.len() + 14)?;
    let sot = Sot {
        tile,
        psot: size,
        part: place.part,
        parts: place.parts,
    };
    put_front(sot, header, comps, &mut out)?;
    Ok(out)
}

/// The tile-part with these packets of a tile, but for the packets; `TooLong` exactly where it has more than `most` bytes with them.
pub(crate) fn pack_part<B: Coded>(
    alloc: Global,
    stream: &Stream,
    geom: &TileGeom,
    values: &[B],
    list: &[Sending],
    marks: Marks,
    names: &[PacketName],
    place: PartPlace,
    most: u32,
) -> Result<PartOut, AssembleFault>
    requires list { AreSendings stream.now geom.now (map B.block values.now) (map B.bytes values.now) (tile_names geom.now) list.now }
    requires each { All (IsPacketName geom.now (layers_of stream.now geom.now.tile)) names.now }
    requires few { place.packet + length names.now ≤ 2 ^ 22 }
    requires comps { length stream.now.siz.comps ≤ 16384 }
    requires tile { geom.now.tile < length stream.now.tiles }
    requires header { All (InRange (length stream.now.siz.comps)) (header_of stream.now geom.now.tile) }
    ensures bytes { IfOk result (λ p. p.front.items ++ bytes_from (own_packets marks stream.now geom.now (map B.block values.now)) place.packet names.now
        ≡ part_bytes (length stream.now.siz.comps) (own_part marks stream.now geom.now (map B.block values.now) place.part place.parts place.packet names.now)) }
    ensures size { IfOk result (λ p. p.size ≡ (own_part marks stream.now geom.now (map B.block values.now) place.part place.parts place.packet names.now).sot.psot) }
    ensures first { IfOk result (λ p. p.from ≡ place.packet) }
    ensures last { IfOk result (λ p. p.end ≡ place.packet + length names.now) }
    ensures short { IfOk result (λ p. (own_part marks stream.now geom.now (map B.block values.now) place.part place.parts place.packet names.now).sot.psot ≤ most) }
    ensures long { result ≡ Err AssembleFault.TooLong
        → most < (own_part marks stream.now geom.now (map B.block values.now) place.part place.parts place.packet names.now).sot.psot }
{
    let lengths = match lengths_of(alloc, stream, geom, values, list, marks, names, most) {
        Ok(lengths) => lengths,
        Err(fault) => return Err(fault),
    };
    let header = header_bytes(alloc, stream, geom.number(), place.part, marks, &lengths)?;
    let size = size_of(&header, &lengths);
    if size > u128::from(most) {
        return Err(AssembleFault::TooLong);
    }
    let size = size as u32;
    let front = front_bytes(alloc, stream, geom.number(), place, &header, size)?;
    Ok(PartOut {
        front,
        from: place.packet,
        end: place.packet + names.len(),
        size,
    })
}
