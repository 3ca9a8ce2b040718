//! The packets of a tile (ITU-T T.800, B.9 and B.10), and their lengths.

ghost use Rattle.std.specs.Prelude.{◌≡◌, ◌≤◌, ◌<◌, ◌+◌, ◌++◌, ◌^◌, ℕ, List, length, map, OnOk};
ghost use Rattle.jx_geom.specs.Precincts.{HasPrecinct};
ghost use Rattle.jx_progression.specs.Packets.{IsPacketName};
ghost use Rattle.jx_codestream.specs.Shapes.{layers_of};
ghost use Rattle.jx_tier2_reader.specs.Written.{packet_bytes};
ghost use Rattle.jx_tier2_writer.specs.Names.{AreSendings, tile_names};
ghost use Rattle.jx_tier2_writer.specs.Own.{IsSending};
ghost use Rattle.jx_tier2_writer.specs.Packed.{eph_of, marks_length, own_packet, sop_of};
ghost use Rattle.jx_tier2_writer.specs.BlockParts.{AreBlockParts, row_bytes};

use crate::block_parts::{BlockPart, block_at};
use crate::parts::Coded;
use crate::sending::Sending;
use jx_base::NoMemory;
use jx_codestream::Stream;
use jx_geom::TileGeom;
use jx_marker::{eph, sop};
use jx_options::Marks;
use jx_progression::PacketName;

/// What is sent of the precinct of a packet.
fn sending_at<'a, B: Coded>(
    stream: &Stream,
    geom: &TileGeom,
    values: &[B],
    list: &'a [Sending],
    name: PacketName,
) -> &'a Sending
    requires list { AreSendings stream.now geom.now (map B.block values.now) (map B.bytes values.now) (tile_names geom.now) list.now }
    requires there { HasPrecinct geom.now name.comp name.res name.precinct }
    ensures { IsSending stream.now geom.now (map B.block values.now) (map B.bytes values.now) name.comp name.res name.precinct result.now }
{
    let number = geom.precinct_number(name.comp, name.res, name.precinct);
    &list[number as usize]
}

/// How many bytes the parts of a packet have.
fn body_length(row: &[BlockPart]) -> u128
    ensures value { (datas : List (List ℕ)) → AreBlockParts datas row.now → result ≡ length (row_bytes datas row.now) }
    ensures bound { result ≤ 2 ^ 96 }
{
    let mut sum = 0;
    for sent in row {
        sum += u128::from(sent.part.to.saturating_sub(sent.part.from));
    }
    sum
}

/// How many bytes SOP and EPH take in a packet.
fn marks_length(marks: Marks) -> u128
    ensures value { result ≡ marks_length marks }
    ensures bound { result ≤ 8 }
{
    if marks.sop && marks.eph {
        return 8;
    }
    if marks.sop {
        return 6;
    }
    if marks.eph {
        return 2;
    }
    0
}

/// How many bytes a packet takes.
pub(crate) fn packet_length<B: Coded>(
    stream: &Stream,
    geom: &TileGeom,
    values: &[B],
    list: &[Sending],
    marks: Marks,
    name: PacketName,
) -> u128
    requires list { AreSendings stream.now geom.now (map B.block values.now) (map B.bytes values.now) (tile_names geom.now) list.now }
    requires there { IsPacketName geom.now (layers_of stream.now geom.now.tile) name }
    ensures value { result ≡ length (packet_bytes 0 (own_packet marks stream.now geom.now (map B.block values.now) name)) }
    ensures bound { result ≤ 2 ^ 97 }
{
    let sending = sending_at(stream, geom, values, list, name);
    let layer = usize::from(name.layer);
    let header = sending.header(layer).len() as u128;
    let body = body_length(sending.parts(layer));
    marks_length(marks) + header + body
}

/// Appends SOP, where it is asked.
fn put_sop(asked: bool, number: usize, out: &mut Vec<u8>) -> Result<(), NoMemory>
    ensures { OnOk result (out.new.items ≡ out.old.items ++ sop_of asked number) }
{
    if !asked {
        return Ok(());
    }
    out.extend_from_slice(&sop((number % 65_536) as u16))?;
    Ok(())
}

/// Appends EPH, where it is asked.
fn put_eph(asked: bool, out: &mut Vec<u8>) -> Result<(), NoMemory>
    ensures { OnOk result (out.new.items ≡ out.old.items ++ eph_of asked) }
{
    if !asked {
        return Ok(());
    }
    out.extend_from_slice(&eph())?;
    Ok(())
}

/// Appends the coded bytes of a packet.
fn put_body<B: Coded>(values: &[B], row: &[BlockPart], out: &mut Vec<u8>) -> Result<(), NoMemory>
    requires { AreBlockParts (map B.bytes values.now) row.now }
    ensures { OnOk result (out.new.items ≡ out.old.items ++ row_bytes (map B.bytes values.now) row.now) }
{
    for sent in row {
        let block = block_at(values, sent.block as usize);
        block.append(&sent.part, out)?;
    }
    Ok(())
}

/// Appends a packet, `number` being its number in its tile.
pub(crate) fn put_packet<B: Coded>(
    stream: &Stream,
    geom: &TileGeom,
    values: &[B],
    list: &[Sending],
    marks: Marks,
    name: PacketName,
    number: usize,
    out: &mut Vec<u8>,
) -> Result<(), NoMemory>
    requires list { AreSendings stream.now geom.now (map B.block values.now) (map B.bytes values.now) (tile_names geom.now) list.now }
    requires there { IsPacketName geom.now (layers_of stream.now geom.now.tile) name }
    ensures { OnOk result (out.new.items ≡ out.old.items ++ packet_bytes number (own_packet marks stream.now geom.now (map B.block values.now) name)) }
{
    let sending = sending_at(stream, geom, values, list, name);
    let layer = usize::from(name.layer);
    put_sop(marks.sop, number, out)?;
    out.extend_from_slice(sending.header(layer))?;
    put_eph(marks.eph, out)?;
    put_body(values, sending.parts(layer), out)?;
    Ok(())
}
