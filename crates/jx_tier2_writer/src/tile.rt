//! The lengths of packets of a tile.

ghost use Rattle.std.specs.Prelude.{◌≡◌, ◌≤◌, ◌<◌, List, map, Err, IfOk};
ghost use Rattle.std.specs.List.{All};
ghost use Rattle.jx_progression.specs.Packets.{IsPacketName};
ghost use Rattle.jx_codestream.specs.Shapes.{layers_of};
ghost use Rattle.jx_tier2_writer.specs.Names.{AreSendings, tile_names};
ghost use Rattle.jx_tier2_writer.specs.Packed.{own_length, total};

use crate::packets::packet_length;
use crate::parts::Coded;
use crate::sending::Sending;
use jx_base::NoMemory;
use jx_codestream::Stream;
use jx_geom::TileGeom;
use jx_options::Marks;
use jx_progression::PacketName;
use std::alloc::Global;

/// Why a tile isn't put together.
#[derive(Clone, Copy, Debug, PartialEq, Eq)]
pub enum AssembleFault {
    /// A tile-part has more bytes than it may have.
    TooLong,
    /// Memory was refused.
    NoMemory,
}

impl From<NoMemory> for AssembleFault {
    ghost use Rattle.std.specs.Prelude.{◌≡◌};
    ghost use Rattle.jx_tier2_writer.specs.declared.tile.AssembleFault.TheVariants.{NoMemory as out_of_memory};

    ghost from_gives = { λ _ fault. fault ≡ out_of_memory };

    fn from(_: NoMemory) -> Self {
        AssembleFault::NoMemory
    }
}

/// The lengths of packets of a tile; `TooLong` where they are more than `most` bytes together. No sum is above `most`.
pub(crate) fn lengths_of<B: Coded>(
    alloc: Global,
    stream: &Stream,
    geom: &TileGeom,
    values: &[B],
    list: &[Sending],
    marks: Marks,
    names: &[PacketName],
    most: u32,
) -> Result<Vec<u32>, AssembleFault>
    requires list { AreSendings stream.now geom.now (map B.block values.now) (map B.bytes values.now) (tile_names geom.now) list.now }
    requires each { All (IsPacketName geom.now (layers_of stream.now geom.now.tile)) names.now }
    ensures value { IfOk result (λ lengths. lengths.items ≡ map (own_length marks stream.now geom.now (map B.block values.now)) names.now) }
    ensures few { IfOk result (λ lengths. total lengths.items ≤ most) }
    ensures long { result ≡ Err AssembleFault.TooLong → most < total (map (own_length marks stream.now geom.now (map B.block values.now)) names.now) }
{
    let mut lengths = Vec::new(alloc);
    let mut sum: u32 = 0;
    for name in names {
        let length = packet_length(stream, geom, values, list, marks, *name);
        if length > u128::from(most - sum) {
            return Err(AssembleFault::TooLong);
        }
        if lengths.push(length as u32).is_err() {
            return Err(AssembleFault::NoMemory);
        }
        sum += length as u32;
    }
    Ok(lengths)
}
