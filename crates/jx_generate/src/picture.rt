//! The packets of a made file (ITU-T T.800, B.9 to B.12).

ghost use Rattle.std.specs.Prelude.{◌≡◌, ◌+◌, ◌<◌, ◌≤◌, ◌++◌, ◌^◌, ◌==◌, if◌then◌else◌, ℕ, [], ◌∷◌, length, map, OnOk, IfOk};
ghost use Rattle.std.specs.List.{All};
ghost use Rattle.jx_geom.specs.Leaves.{AreLeaves};
ghost use Rattle.jx_geom.specs.Precincts.{cells_at, leaf_number, leaves};
ghost use Rattle.jx_geom.specs.Ranges.{HasBand};
ghost use Rattle.jx_tile.specs.Cells.{sizes_of};
ghost use Rattle.jx_tier2_reader.specs.Planned.{leaf_part_of};
ghost use Rattle.jx_packet_header.specs.Leafs.{leaf_of};
ghost use Rattle.jx_generate.specs.Drawn.{block_drawn};
ghost use Rattle.jx_generate.specs.Headers.{AreSizes, geometry_made};
ghost use Rattle.jx_generate.specs.Made.{bands_made, body_made, data_made, drawn_layer_bytes, layer_made, leaf_of_drawn, leaves_made, packet_made, resolution_made};
ghost use Rattle.jx_generate.specs.Making.{Making, count_drawn, plan_made, three_made, writers_made};
ghost use Rattle.jx_generate.specs.Values.{drawn_of, drawn_piece};
ghost use Rattle.jx_base.specs.Limits.{most_blocks};

use crate::drawing::{DrawnBlock, DrawnPiece, draw_blocks};
use crate::geometry::{count, geometry};
use jx_base::{Band, NoMemory, Style};
use jx_geom::{Leaves, TileGeom};
use jx_packet_header::{BandCells, HeaderPart, Leaf, LeafPart, PrecinctOut};
use jx_tile::sizes_of;
use std::alloc::Global;
use std::marker::Model;

/// The writers of the precincts of a resolution, one for each component.
type Three = (PrecinctOut, PrecinctOut, PrecinctOut);

/// A picture with random code-blocks, in the order of their numbers.
#[derive(Drop)]
pub(crate) struct Picture {
    seed: u64,
    width: u32,
    height: u32,
    geom: TileGeom,
    blocks: Vec<DrawnBlock>,
}

impl Model for Picture {
    ghost use Rattle.std.specs.Prelude.{map};
    ghost use Rattle.jx_generate.specs.Making.{Making, IsMaking};
    ghost use Rattle.jx_generate.specs.Values.{drawn_of};

    ghost Value = { Making };

    ghost view = { λ p. record { seed = p.seed; width = p.width; height = p.height } };

    ghost invariant = { λ p. IsMaking (record { seed = p.seed; width = p.width; height = p.height }) p.geom (map drawn_of p.blocks.items) };
}

/// The bytes of a piece, where it is the layer's.
fn put_piece(piece: &DrawnPiece, layer: u16, out: &mut Vec<u8>) -> Result<(), NoMemory>
    ensures { OnOk result (out.new.items ≡ out.old.items ++ (if piece.now.layer == layer then piece.now.bytes.items else [])) }
{
    if piece.layer != layer {
        return Ok(());
    }
    out.extend_from_slice(&piece.bytes)?;
    Ok(())
}

/// The bytes of a block in a layer.
fn put_layer(block: &DrawnBlock, layer: u16, out: &mut Vec<u8>) -> Result<(), NoMemory>
    ensures { OnOk result (out.new.items ≡ out.old.items ++ drawn_layer_bytes layer (drawn_of block.now)) }
{
    for piece in &block.pieces {
        put_piece(piece, layer, out)?;
    }
    Ok(())
}

/// A piece as a leaf has it.
fn part_of(piece: &DrawnPiece, leaf: u32) -> LeafPart
    requires { length piece.now.bytes.items < 2 ^ 32 }
    ensures { result ≡ leaf_part_of leaf (drawn_piece piece.now) }
{
    let told = HeaderPart {
        block: leaf,
        first: piece.first,
        passes: piece.passes,
        length: piece.bytes.len() as u32,
    };
    LeafPart {
        layer: piece.layer,
        told,
    }
}

/// A block as the leaf of a number.
fn leaf_from(alloc: Global, block: &DrawnBlock, leaf: u32) -> Result<Leaf, NoMemory>
    requires { All (λ p. length p.bytes.items < 2 ^ 32) block.now.pieces.items }
    ensures { IfOk result (λ made. leaf_of made ≡ leaf_of_drawn leaf (drawn_of block.now)) }
{
    let mut parts = Vec::new(alloc);
    for piece in &block.pieces {
        parts.push(part_of(piece, leaf))?;
    }
    Ok(Leaf {
        zero: block.zero,
        parts,
    })
}

impl Picture {
    /// The picture of a seed, a width and a height.
    pub(crate) fn new(
        alloc: Global,
        seed: u64,
        width: u32,
        height: u32,
    ) -> Result<Picture, NoMemory>
        requires { AreSizes width height }
        ensures { IfOk result (λ p. p ≡ record { seed = seed; width = width; height = height }) }
    {
        let geom = geometry(alloc, width, height)?;
        let blocks = draw_blocks(alloc, seed, count(width, height))?;
        Ok(Picture {
            seed,
            width,
            height,
            geom,
            blocks,
        })
    }

    /// The block of a number.
    fn block(&self, number: usize) -> &DrawnBlock
        requires { number < count_drawn self.now.width self.now.height }
        ensures block { drawn_of result.now ≡ block_drawn self.now.seed number }
        ensures short { All (λ p. length p.bytes.items < 2 ^ 32) result.now.pieces.items }
    {
        &self.blocks[number]
    }

    /// The numbers of the blocks of a resolution of a component.
    fn numbers(&self, comp: u16, res: u8) -> Leaves
        requires comp { comp < 3 }
        requires res { res ≤ 5 }
        ensures numbers { AreLeaves (geometry_made self.now.width self.now.height) comp res 0 result }
        ensures few { leaves (geometry_made self.now.width self.now.height) comp res 0 ≤ most_blocks }
        ensures each { (j : ℕ) → j < leaves (geometry_made self.now.width self.now.height) comp res 0
            → leaf_number (geometry_made self.now.width self.now.height) comp res 0 j < count_drawn self.now.width self.now.height }
    {
        self.geom.leaves(comp, res, 0)
    }

    /// Appends the coded bytes of a packet.
    #[tactic(auto, unfolding(crate::specs::Made::data_made))]
    fn put_data(&self, comp: u16, res: u8, layer: u16, out: &mut Vec<u8>) -> Result<(), NoMemory>
        requires comp { comp < 3 }
        requires res { res ≤ 5 }
        ensures { OnOk result (out.new.items ≡ out.old.items ++ data_made self.now.seed self.now.width self.now.height comp res layer) }
    {
        let numbers = self.numbers(comp, res);
        for leaf in 0..numbers.count() as u32 {
            put_layer(self.block(numbers.number(leaf)), layer, out)?;
        }
        Ok(())
    }

    /// The blocks of a resolution of a component as leaves.
    fn leaves(&self, alloc: Global, comp: u16, res: u8) -> Result<Vec<Leaf>, NoMemory>
        requires comp { comp < 3 }
        requires res { res ≤ 5 }
        ensures { IfOk result (λ made. map leaf_of made.items ≡ leaves_made self.now.seed self.now.width self.now.height comp res) }
    {
        let numbers = self.numbers(comp, res);
        let mut made = Vec::new(alloc);
        for leaf in 0..numbers.count() as u32 {
            let block = self.block(numbers.number(leaf));
            made.push(leaf_from(alloc, block, leaf)?)?;
        }
        Ok(made)
    }

    /// Appends how many blocks a band has.
    fn push_band(
        &self,
        comp: u16,
        res: u8,
        band: Band,
        bands: &mut Vec<BandCells>,
    ) -> Result<(), NoMemory>
        requires comp { comp < 3 }
        requires res { res ≤ 5 }
        requires band { HasBand res band }
        ensures { OnOk result (bands.new.items ≡ bands.old.items ++ sizes_of (cells_at (geometry_made self.now.width self.now.height) comp res 0 band) 13 ∷ []) }
    {
        bands.push(sizes_of(self.geom.blocks(comp, res, band, 0), 13))?;
        Ok(())
    }

    /// How many blocks each band of a resolution has.
    fn bands(&self, alloc: Global, comp: u16, res: u8) -> Result<Vec<BandCells>, NoMemory>
        requires comp { comp < 3 }
        requires res { res ≤ 5 }
        ensures { IfOk result (λ bands. bands.items ≡ bands_made self.now.width self.now.height comp res) }
    {
        let mut bands = Vec::new(alloc);
        let kinds = Band::of_resolution(res);
        for band in kinds {
            self.push_band(comp, res, *band, &mut bands)?;
        }
        Ok(bands)
    }

    /// The one precinct of a resolution of a component, before its first packet.
    fn precinct(&self, alloc: Global, comp: u16, res: u8) -> Result<PrecinctOut, NoMemory>
        requires comp { comp < 3 }
        requires res { res ≤ 5 }
        ensures { IfOk result (λ p. p ≡ plan_made self.now comp res 0) }
    {
        let _ = &self.geom;
        let bands = self.bands(alloc, comp, res)?;
        let leaves = self.leaves(alloc, comp, res)?;
        PrecinctOut::new(alloc, &bands, Style { bits: 0 }, 12, leaves)
    }

    /// The precincts of a resolution, before their first packets.
    fn three(&self, alloc: Global, res: u8) -> Result<Three, NoMemory>
        requires { res ≤ 5 }
        ensures { IfOk result (λ three. three ≡ three_made self.now res 0) }
    {
        Ok((
            self.precinct(alloc, 0, res)?,
            self.precinct(alloc, 1, res)?,
            self.precinct(alloc, 2, res)?,
        ))
    }

    /// The precincts of the tile, before their first packets.
    fn writers(&self, alloc: Global) -> Result<Vec<Three>, NoMemory>
        ensures { IfOk result (λ writers. writers.items ≡ writers_made self.now 0 0) }
    {
        let mut writers = Vec::new(alloc);
        for res in 0..6 {
            let three = self.three(alloc, res)?;
            writers.push(three)?;
        }
        Ok(writers)
    }

    /// Appends a packet.
    #[tactic(auto, unfolding(crate::specs::Made::packet_made, crate::specs::Made::header_made))]
    fn put_packet(
        &self,
        precinct: &mut PrecinctOut,
        comp: u16,
        res: u8,
        layer: u16,
        out: &mut Vec<u8>,
    ) -> Result<(), NoMemory>
        requires comp { comp < 3 }
        requires res { res ≤ 5 }
        requires layer { layer < 12 }
        requires precinct { precinct.old ≡ plan_made self.now comp res layer }
        ensures out { OnOk result (out.new.items ≡ out.old.items ++ packet_made self.now.seed self.now.width self.now.height layer res comp) }
        ensures precinct { OnOk result (precinct.new ≡ plan_made self.now comp res (layer + 1)) }
    {
        precinct.write_header(layer, out)?;
        self.put_data(comp, res, layer, out)?;
        Ok(())
    }

    /// Appends the packets of a resolution in a layer.
    fn put_resolution(
        &self,
        three: &mut Three,
        res: u8,
        layer: u16,
        out: &mut Vec<u8>,
    ) -> Result<(), NoMemory>
        requires res { res ≤ 5 }
        requires layer { layer < 12 }
        requires three { three.old ≡ three_made self.now res layer }
        ensures out { OnOk result (out.new.items ≡ out.old.items ++ resolution_made self.now.seed self.now.width self.now.height layer res) }
        ensures three { OnOk result (three.new ≡ three_made self.now res (layer + 1)) }
    {
        self.put_packet(&mut three.0, 0, res, layer, out)?;
        self.put_packet(&mut three.1, 1, res, layer, out)?;
        self.put_packet(&mut three.2, 2, res, layer, out)?;
        Ok(())
    }

    /// Appends the packets of a layer.
    fn put_layer(
        &self,
        writers: &mut Vec<Three>,
        layer: u16,
        out: &mut Vec<u8>,
    ) -> Result<(), NoMemory>
        requires layer { layer < 12 }
        requires writers { writers.old.items ≡ writers_made self.now layer 0 }
        ensures out { OnOk result (out.new.items ≡ out.old.items ++ layer_made self.now.seed self.now.width self.now.height layer) }
        ensures writers { OnOk result (writers.new.items ≡ writers_made self.now (layer + 1) 0) }
    {
        for res in 0..6 {
            self.put_resolution(&mut writers[usize::from(res)], res, layer, out)?;
        }
        Ok(())
    }

    /// The packets of the tile, in the order LRCP (B.12.1.1).
    #[tactic(auto, unfolding(crate::specs::Made::body_made))]
    pub(crate) fn body(&self, alloc: Global) -> Result<Vec<u8>, NoMemory>
        ensures { IfOk result (λ bytes. bytes.items ≡ body_made self.now.seed self.now.width self.now.height) }
    {
        let mut writers = self.writers(alloc)?;
        let mut bytes = Vec::new(alloc);
        for layer in 0..12 {
            self.put_layer(&mut writers, layer, &mut bytes)?;
        }
        Ok(bytes)
    }
}
