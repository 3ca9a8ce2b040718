//! The parts of the written file, from a plan and from the blocks as they are written.

ghost use Rattle.std.specs.Prelude.{◌≡◌, ◌<◌, [], List, None, length, map, Err, IfOk};
ghost use Rattle.std.specs.List.{concat};
ghost use Rattle.jx_base.specs.declared.pieces.Block.{Block};
ghost use Rattle.jx_codestream.specs.declared.headers.HeaderKind.TheVariants.{First};
ghost use Rattle.jx_codestream.specs.First.{tile_number};
ghost use Rattle.jx_codestream.specs.InRange.{StreamInRange};
ghost use Rattle.jx_codestream.specs.Params.{header_of};
ghost use Rattle.jx_codestream.specs.Shapes.{geometry};
ghost use Rattle.jx_codestream.specs.Spells.{AreSegments};
ghost use Rattle.jx_tile.specs.Covered.{IsWhole};
ghost use Rattle.jx_tile.specs.Totals.{totals_fault};
ghost use Rattle.jx_tile_parts.specs.Groups.{HasFewParts};
ghost use Rattle.jx_plan.specs.Plan.{IsPlan, headers_of};
ghost use Rattle.jx_tier2_writer.specs.Assembled.{AreOwn, AreTileBytes, HasMoreBytes};
ghost use Rattle.jx_tier2_writer.specs.Own.{AreOwnBlocks};
ghost use Rattle.jx_tier2_writer.specs.Pieces.{blocks_lent};
ghost use Rattle.jx_tier2_writer.specs.Ready.{AreReady};
ghost use Rattle.jx_tier2_writer.specs.Tile.{AreAtMost, AreMade, AreValuesOf, IsTile, IsTooLong, StandIn, block_written, made_in, main_bytes};

use crate::assemble::pack_values;
use crate::entries::blocks_of;
use crate::front::header_bytes;
use crate::laws::{ready_is_in_range, written_is_ready};
use crate::tile::AssembleFault;
use crate::tile_out::TileOut;
use jx_base::NoMemory;
use jx_codeblock::Recoded;
use jx_codestream::{MainView, Stream};
use jx_options::Marks;
use jx_plan::OutStream;
use jx_plan::laws::parameters_stay;
use jx_store::Entry;
use jx_tile::TileFrame;
use std::alloc::Global;

/// The headers that are written; a file may be written from them.
fn ready_headers<'a>(plan: &'a OutStream<'_>) -> &'a Stream
    ensures value { result.now ≡ headers_of plan.now }
    ensures ready { AreReady plan.now.wanted.marks result.now }
    ensures plan { IsPlan plan.now }
{
    written_is_ready();
    plan.headers()
}

/// The main header: SOC, SIZ and the segments after it (ITU-T T.800, A.2).
pub fn main_header(alloc: Global, plan: &OutStream<'_>) -> Result<Vec<u8>, NoMemory>
    ensures { IfOk result (λ bytes. bytes.items ≡ main_bytes (headers_of plan.now)) }
{
    header_bytes(alloc, ready_headers(plan))
}

/// The view of the main header that is written, for all tiles of a plan.
///
/// # Errors
///
/// `NoMemory` where memory is refused.
pub fn main_view<'a>(alloc: Global, plan: &'a OutStream<'_>) -> Result<MainView<'a>, NoMemory>
    ensures { IfOk result (λ view. view ≡ record { siz = (headers_of plan.entry.now).siz; main = (headers_of plan.entry.now).main }) }
{
    ready_is_in_range();
    ready_headers(plan).main_view(alloc)
}

/// A tile of a stream that is ready to be written, of which `blocks` are the blocks by their numbers in the tile. `TooLong` comes
/// exactly where one of its tile-parts has more than `most` bytes.
fn pack_stream<'a, 'b>(
    alloc: Global,
    stream: &'a Stream,
    main: &MainView<'_>,
    tile: u16,
    blocks: Vec<&'a Recoded<'b>>,
    marks: Marks,
    most: u32,
) -> Result<TileOut<'a, 'b>, AssembleFault>
    requires main { main.now ≡ record { siz = stream.now.siz; main = stream.now.main } }
    requires range { StreamInRange stream.now }
    requires totals { totals_fault stream.now ≡ None }
    requires tile { tile < tile_number stream.now.siz }
    requires whole { IsWhole stream.now tile }
    requires header { AreSegments First (length stream.now.siz.comps) [] (header_of stream.now tile) }
    requires own { AreOwnBlocks stream.now (geometry stream.now tile) (blocks_lent blocks.items) }
    requires few { HasFewParts marks.parts stream.now tile }
    ensures value { IfOk result (λ out. (all : List Block) → AreOwn stream.entry.now tile all (blocks_lent blocks.entry.items)
        → (is : AreTileBytes marks stream.entry.now all tile (map concat out)) × AreAtMost most is.parts) }
    ensures long { result ≡ Err AssembleFault.TooLong → (all : List Block) → AreOwn stream.entry.now tile all (blocks_lent blocks.entry.items)
        → HasMoreBytes marks stream.entry.now all tile most }
{
    let frame = TileFrame::new(alloc, stream, main, tile)?;
    let names = match frame.names(alloc) {
        Ok(names) => names,
        // No packet is uncovered, so memory was refused.
        Err(_) => return Err(AssembleFault::NoMemory),
    };
    let (own, view, geom) = frame.parts();
    let layout = match pack_values(alloc, own, view, geom, names, &blocks, marks, most) {
        Ok(layout) => layout,
        Err(fault) => return Err(fault),
    };
    Ok(TileOut {
        stream,
        geom: frame.into_geometry(),
        blocks,
        marks,
        layout,
    })
}

/// The headers that are written, to which a tile's blocks belong.
fn tile_headers<'a>(plan: &'a OutStream<'_>, tile: u16, values: &[Entry<Recoded<'_>>]) -> &'a Stream
    requires tile { tile < tile_number plan.now.stream.siz }
    requires values { AreValuesOf plan.now tile (made_in values.now) }
    ensures value { result.now ≡ headers_of plan.now }
    ensures ready { AreReady plan.now.wanted.marks result.now }
    ensures range { StreamInRange result.now }
    ensures tile { tile < tile_number result.now.siz }
    ensures whole { IsWhole result.now tile }
    ensures own { AreOwnBlocks result.now (geometry result.now tile) (map block_written (made_in values.now)) }
    ensures stand { (blocks : List Block) → StandIn blocks plan.now tile (made_in values.now) → AreOwn result.now tile blocks (map block_written (made_in values.now)) }
{
    ready_is_in_range();
    parameters_stay();
    ready_headers(plan)
}

/// A tile that is ready to be written, of which `values` are the entries of its code-blocks in the order of their numbers, all made, with
/// the view of the main header. A tile-part begins where the plan's options say, and with the tile; a tile without packets has one
/// (ITU-T T.800, A.4.2). No coded byte is copied. The time grows with the packets, with the blocks and their parts, with the segments of
/// the tile's header, and with the tile-parts.
///
/// # Errors
///
/// `TooLong` exactly where a tile-part would have more than `most` bytes; `NoMemory` where memory is refused.
pub fn pack_tile<'a, 'b>(
    alloc: Global,
    plan: &'a OutStream<'_>,
    main: &MainView<'_>,
    tile: u16,
    values: &'a [Entry<Recoded<'b>>],
    most: u32,
) -> Result<TileOut<'a, 'b>, AssembleFault>
    requires main { main.now ≡ record { siz = (headers_of plan.now).siz; main = (headers_of plan.now).main } }
    requires tile { tile < tile_number plan.now.stream.siz }
    requires made { AreMade values.now }
    requires values { AreValuesOf plan.now tile (made_in values.now) }
    ensures parts { IfOk result (λ out. (blocks : List Block) → StandIn blocks plan.now tile (made_in values.now) → IsTile plan.now blocks tile most (map concat out)) }
    ensures long { result ≡ Err AssembleFault.TooLong → (blocks : List Block) → StandIn blocks plan.now tile (made_in values.now) → IsTooLong plan.now blocks tile most }
{
    let blocks = blocks_of(alloc, values)?;
    let headers = tile_headers(plan, tile, values);
    pack_stream(alloc, headers, main, tile, blocks, plan.marks(), most)
}
