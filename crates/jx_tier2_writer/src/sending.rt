//! What is sent of a precinct, layer by layer (ITU-T T.800, B.9 and B.10).

ghost use Rattle.std.specs.Prelude.{◌≡◌, ◌<◌, [], ℕ, length, map, IfOk};
ghost use Rattle.std.specs.List.{range_with_len};
ghost use Rattle.jx_base.specs.Joined.{joined};
ghost use Rattle.jx_geom.specs.Precincts.{HasPrecinct, leaves};
ghost use Rattle.jx_packet_header.specs.LeavesFit.{header_at};
ghost use Rattle.jx_tile.specs.Frame.{AreOfTile};
ghost use Rattle.jx_tier2_writer.specs.Own.{AreOwnBlocks, HasLeaves, IsSending, leaf_bytes};
ghost use Rattle.jx_tier2_writer.specs.Sendings.{no_part};
ghost use Rattle.jx_tier2_writer.specs.Silent.{empty_header};
ghost use Rattle.jx_tier2_writer.specs.BlockParts.{AreBlockParts, row_at, row_bytes, rows_of};

use crate::block_parts::{BlockPart, put_block};
use crate::leaf::leaves_of;
use crate::parts::Coded;
use crate::rows::Rows;
use crate::silent::are_silent;
use jx_base::NoMemory;
use jx_codestream::{Stream, TileView};
use jx_geom::TileGeom;
use jx_packet_header::PrecinctOut;
use jx_tile::cells_of;
use std::alloc::Global;
use std::marker::Model;

/// The headers of a precinct's packets, and the parts of its blocks that each tells of.
#[derive(Drop)]
struct Packets {
    headers: Rows<u8>,
    sent: Rows<BlockPart>,
}

/// How that is kept. Most precincts of a large picture may have nothing to send, so these take no memory of their own.
#[derive(Drop)]
enum Form {
    /// An empty packet in each of so many layers.
    Silent(u16),
    Written(Box<Packets>),
}

/// What is sent of a precinct, layer by layer.
#[derive(Drop)]
pub(crate) struct Sending {
    form: Form,
}

impl Model for Sending {
    ghost use Rattle.jx_tier2_writer.specs.Sendings.{Sending, sending_in};

    ghost Value = { Sending };

    ghost view = { λ s. sending_in s.form };
}

impl Sending {
    /// Of a precinct of which no block has a part.
    fn silent(layers: u16) -> Sending
        ensures headers { result.headers ≡ map empty_header (range_with_len 0 layers) }
        ensures sent { result.sent ≡ map no_part (range_with_len 0 layers) }
    {
        Sending {
            form: Form::Silent(layers),
        }
    }

    /// Of these rows.
    fn written(alloc: Global, headers: Rows<u8>, sent: Rows<BlockPart>) -> Result<Sending, NoMemory>
        ensures { IfOk result (λ s. s ≡ record { headers = headers; sent = sent }) }
    {
        match Box::new(alloc, Packets { headers, sent }) {
            Ok(packets) => Ok(Sending {
                form: Form::Written(packets),
            }),
            Err(_) => Err(NoMemory),
        }
    }

    /// The header of the packet of a layer.
    #[tactic(auto, using(crate::proofs::SendingLemmas::silent_header))]
    pub(crate) fn header(&self, layer: usize) -> &[u8]
        requires { layer < length self.now.headers }
        ensures { result.now ≡ row_at self.now.headers layer }
    {
        match &self.form {
            Form::Silent(_) => &[0],
            Form::Written(packets) => packets.headers.row(layer),
        }
    }

    /// The parts that it tells of.
    #[tactic(auto, using(crate::proofs::SendingLemmas::silent_parts))]
    pub(crate) fn parts(&self, layer: usize) -> &[BlockPart]
        requires { layer < length self.now.sent }
        ensures { result.now ≡ row_at self.now.sent layer }
    {
        match &self.form {
            Form::Silent(_) => &[],
            Form::Written(packets) => packets.sent.row(layer),
        }
    }
}

/// No part, for each layer.
#[tactic(auto, using(crate::proofs::SendingLemmas::none_more))]
fn empty_rows(alloc: Global, layers: u16) -> Result<Vec<Vec<BlockPart>>, NoMemory>
    ensures long { IfOk result (λ rows. length rows.items ≡ layers) }
    ensures none { IfOk result (λ rows. (l : ℕ) → row_at (rows_of rows.items) l ≡ []) }
{
    let mut rows = Vec::with_capacity(alloc, usize::from(layers))?;
    for _ in 0..layers {
        rows.push(Vec::new(alloc))?;
    }
    Ok(rows)
}

/// The parts of a precinct's blocks, layer by layer. A block costs as much as it has parts.
fn parts_of<B: Coded>(
    alloc: Global,
    geom: &TileGeom,
    comp: u16,
    res: u8,
    precinct: u32,
    layers: u16,
    values: &[B],
) -> Result<Vec<Vec<BlockPart>>, NoMemory>
    requires { HasLeaves geom.now (map B.block values.now) layers comp res precinct }
    ensures long { IfOk result (λ rows. length rows.items ≡ layers) }
    ensures bytes { IfOk result (λ rows. (l : ℕ) → row_bytes (map B.bytes values.now) (row_at (rows_of rows.items) l)
        ≡ joined (leaf_bytes geom.now (map B.block values.now) comp res precinct l) 0 (leaves geom.now comp res precinct)) }
    ensures sent { IfOk result (λ rows. (l : ℕ) → AreBlockParts (map B.bytes values.now) (row_at (rows_of rows.items) l)) }
{
    let leaves = geom.leaves(comp, res, precinct);
    let mut rows = empty_rows(alloc, layers)?;
    for leaf in 0..leaves.count() as u32 {
        put_block(&mut rows, values, leaves.number(leaf) as u32)?;
    }
    Ok(rows)
}

/// The same rows in one buffer.
fn flat_rows(alloc: Global, rows: &[Vec<BlockPart>]) -> Result<Rows<BlockPart>, NoMemory>
    ensures { IfOk result (λ made. made ≡ rows_of rows.now) }
{
    let mut made = Rows::new(alloc);
    for row in rows {
        made.push(row.as_slice())?;
    }
    Ok(made)
}

/// The headers of a precinct of which none was written, layer by layer.
fn headers_of(alloc: Global, precinct: PrecinctOut, layers: u16) -> Result<Rows<u8>, NoMemory>
    requires next { precinct.next ≡ 0 }
    requires layers { precinct.layers ≡ layers }
    ensures { IfOk result (λ rows. rows ≡ map (header_at layers precinct.style precinct.bands precinct.leaves) (range_with_len 0 layers)) }
{
    let mut out = precinct;
    let mut rows = Rows::new(alloc);
    let mut header = Vec::new(alloc);
    for layer in 0..layers {
        header.clear();
        out.write_header(layer, &mut header)?;
        rows.push(&header)?;
    }
    Ok(rows)
}

/// What is sent of a precinct whose tag trees are written, from the blocks of its tile.
fn written_sending<B: Coded>(
    alloc: Global,
    stream: &Stream,
    view: &TileView<'_>,
    geom: &TileGeom,
    comp: u16,
    res: u8,
    precinct: u32,
    values: &[B],
) -> Result<Sending, NoMemory>
    requires tile { AreOfTile stream.now view.now geom.now }
    requires precinct { HasPrecinct geom.now comp res precinct }
    requires own { AreOwnBlocks stream.now geom.now (map B.block values.now) }
    ensures { IfOk result (λ p. IsSending stream.now geom.now (map B.block values.now) (map B.bytes values.now) comp res precinct p) }
{
    let layers = view.layers();
    let cells = cells_of(alloc, view, geom, comp, res, precinct)?;
    let leaves = leaves_of(alloc, geom, comp, res, precinct, values)?;
    let style = view.style(comp);
    let out = PrecinctOut::new(alloc, &cells, style, layers, leaves)?;
    let headers = headers_of(alloc, out, layers)?;
    let rows = parts_of(alloc, geom, comp, res, precinct, layers, values)?;
    let sent = flat_rows(alloc, &rows)?;
    let sending = Sending::written(alloc, headers, sent)?;
    Ok(sending)
}

/// What is sent of a precinct, from the blocks of its tile. Where no block has a part no tag tree is built.
pub(crate) fn sending_of<B: Coded>(
    alloc: Global,
    stream: &Stream,
    view: &TileView<'_>,
    geom: &TileGeom,
    comp: u16,
    res: u8,
    precinct: u32,
    values: &[B],
) -> Result<Sending, NoMemory>
    requires tile { AreOfTile stream.now view.now geom.now }
    requires precinct { HasPrecinct geom.now comp res precinct }
    requires own { AreOwnBlocks stream.now geom.now (map B.block values.now) }
    ensures { IfOk result (λ p. IsSending stream.now geom.now (map B.block values.now) (map B.bytes values.now) comp res precinct p) }
{
    if are_silent(geom, comp, res, precinct, values) {
        let layers = view.layers();
        let sending = Sending::silent(layers);
        return Ok(sending);
    }
    written_sending(alloc, stream, view, geom, comp, res, precinct, values)
}
