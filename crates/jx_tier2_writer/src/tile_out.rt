//! A tile that is written piece by piece (ITU-T T.800, A.4.2).

ghost use Rattle.std.specs.Prelude.{◌≡◌, ◌≤◌, ◌<◌, ◌+◌, ◌-◌, ◌++◌, ◌^◌, [], length, map, slice_index_or, OnOk};
ghost use Rattle.std.specs.List.{concat};
ghost use Rattle.jx_tier2_writer.specs.Packed.{own_packets};
ghost use Rattle.jx_tier2_writer.specs.Pieces.{IsLayout, IsPartOut, part_pieces};

use crate::assemble::Layout;
use crate::packets::put_packet;
use crate::parts::Coded;
use crate::tile_part::PartOut;
use jx_base::NoMemory;
use jx_codeblock::Recoded;
use jx_codestream::Stream;
use jx_geom::TileGeom;
use jx_options::Marks;
use std::marker::Model;

/// A tile that is ready to be written: its tile-parts, with all but the coded bytes put together. Contracts see each tile-part as
/// its pieces: first SOT, the header and SOD, then one piece for each packet.
#[derive(Drop)]
pub struct TileOut<'a, 'b> {
    /// The headers that are written.
    pub(crate) stream: &'a Stream,
    pub(crate) geom: TileGeom,
    /// The tile's code-blocks by their numbers.
    pub(crate) blocks: Vec<&'a Recoded<'b>>,
    pub(crate) marks: Marks,
    pub(crate) layout: Layout,
}

impl<'a, 'b> Model for TileOut<'a, 'b> {
    ghost use Rattle.std.specs.Prelude.{List, ℕ};
    ghost use Rattle.jx_tier2_writer.specs.Packed.{own_packets};
    ghost use Rattle.jx_tier2_writer.specs.Pieces.{IsLayout, blocks_lent, bytes_lent, tile_pieces};

    ghost Value = { List (List (List ℕ)) };

    ghost view = { λ t. tile_pieces (own_packets t.marks t.stream.now t.geom (blocks_lent t.blocks.items)) t.layout };

    ghost invariant = { λ t. IsLayout t.marks t.stream.now t.geom (blocks_lent t.blocks.items) (bytes_lent t.blocks.items) t.layout };
}

/// How many pieces a tile-part has, of a tile of so many packets.
fn count_of(part: &PartOut, packets: usize) -> usize
    requires order { part.now.from ≤ part.now.end }
    requires within { part.now.end ≤ packets }
    requires few { packets < 2 ^ 63 }
    ensures { result ≡ 1 + (part.now.end - part.now.from) }
{
    1 + (part.end - part.from)
}

/// Appends a piece of a tile-part.
fn put_piece<B: Coded>(
    stream: &Stream,
    geom: &TileGeom,
    values: &[B],
    marks: Marks,
    layout: &Layout,
    part: &PartOut,
    piece: usize,
    out: &mut Vec<u8>,
) -> Result<(), NoMemory>
    requires layout { IsLayout marks stream.now geom.now (map B.block values.now) (map B.bytes values.now) layout.now }
    requires part { IsPartOut (own_packets marks stream.now geom.now (map B.block values.now)) layout.now.names.items part.now }
    requires piece { piece < length (part_pieces (own_packets marks stream.now geom.now (map B.block values.now)) layout.now.names.items part.now) }
    ensures { OnOk result (out.new.items ≡ out.old.items
        ++ slice_index_or (part_pieces (own_packets marks stream.now geom.now (map B.block values.now)) layout.now.names.items part.now) piece []) }
{
    if piece == 0 {
        out.extend_from_slice(&part.front)?;
        return Ok(());
    }
    let number = part.from + (piece - 1);
    let name = layout.names[number];
    put_packet(stream, geom, values, &layout.list, marks, name, number, out)
}

impl<'a, 'b> TileOut<'a, 'b> {
    /// How many tile-parts the tile has.
    pub fn parts(&self) -> usize
        ensures { result ≡ length self.now }
    {
        self.layout.parts.len()
    }

    /// How many pieces a tile-part has.
    pub fn pieces(&self, part: usize) -> usize
        requires { part < length self.now }
        ensures { result ≡ length (slice_index_or self.now part []) }
    {
        let own = &self.layout.parts[part];
        count_of(own, self.layout.names.len())
    }

    /// How many bytes a tile-part has, which its Psot tells.
    pub fn size(&self, part: usize) -> u32
        requires { part < length self.now }
        ensures { result ≡ length (concat (slice_index_or self.now part [])) }
    {
        let own = &self.layout.parts[part];
        own.size
    }

    /// Appends a piece of a tile-part. Each coded byte is copied once.
    ///
    /// # Errors
    ///
    /// `NoMemory` where memory is refused.
    pub fn put(&self, part: usize, piece: usize, out: &mut Vec<u8>) -> Result<(), NoMemory>
        requires part { part < length self.now }
        requires piece { piece < length (slice_index_or self.now part []) }
        ensures ok { OnOk result (out.new.items ≡ out.old.items ++ slice_index_or (slice_index_or self.now part []) piece []) }
    {
        let own = &self.layout.parts[part];
        let (stream, geom, layout) = (self.stream, &self.geom, &self.layout);
        put_piece(
            stream,
            geom,
            &self.blocks,
            self.marks,
            layout,
            own,
            piece,
            out,
        )
    }
}
