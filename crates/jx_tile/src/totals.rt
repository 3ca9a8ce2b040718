//! How many code-blocks and packets there are, and the limits 5 and 6.

ghost use Rattle.std.specs.Prelude.{◌≡◌, ◌≤◌, ◌<◌, ◌^◌, IfOk, length};
ghost use Rattle.jx_geom.specs.Counts.{tile_blocks, tile_precincts};
ghost use Rattle.jx_geom.specs.Geometry.{ShapesInRange};
ghost use Rattle.jx_geom.specs.Rects.{tile_rect};
ghost use Rattle.jx_codestream.specs.First.{canvas_of, tile_number};
ghost use Rattle.jx_tile.specs.Faults.{Answers};
ghost use Rattle.jx_codestream.specs.InRange.{StreamInRange};
ghost use Rattle.jx_codestream.specs.Shapes.{shapes_of};
ghost use Rattle.jx_tile.specs.Totals.{block_total, packet_total, tile_packets, totals_fault};

use jx_base::{NoMemory, Rect};
use jx_codestream::{MainView, Stream, StreamFault};
use jx_geom::{CompShape, count_known, has_no_place, is_empty_after, tile_of};
use std::alloc::Global;

/// The code-blocks and the precincts of a tile of these places (ITU-T T.800, B.6 and B.7).
#[tactic(auto, using(jx_geom::proofs::TableLemmas::precincts_more, jx_geom::proofs::TableLemmas::blocks_more))]
fn count_tile(places: Rect, shapes: &[CompShape]) -> (u128, u128)
    requires few { length shapes.now ≤ 2 ^ 14 }
    requires range { ShapesInRange shapes.now }
    ensures blocks { result.0 ≡ tile_blocks places shapes.now }
    ensures precincts { result.1 ≡ tile_precincts places shapes.now }
    ensures few_blocks { result.0 < 2 ^ 87 }
    ensures few_precincts { result.1 < 2 ^ 87 }
{
    if has_no_place(places, shapes) {
        return (0, 0);
    }
    let mut blocks = 0;
    let mut precincts = 0;
    let mut none = false;
    for comp in 0..shapes.len() {
        none = is_empty_after(places, shapes, comp, none);
        let counts = count_known(places, &shapes[comp], none);
        blocks += counts.0;
        precincts += counts.1;
    }
    (blocks, precincts)
}

/// The code-blocks and the packets of a tile of a stream, one packet for each precinct and layer (ITU-T T.800, B.9).
fn tile_totals(
    alloc: Global,
    stream: &Stream,
    main: &MainView<'_>,
    tile: u16,
) -> Result<(u128, u128), NoMemory>
    requires main { main.now ≡ record { siz = stream.now.siz; main = stream.now.main } }
    requires range { StreamInRange stream.now }
    requires tile { tile < tile_number stream.now.siz }
    ensures blocks { IfOk result (λ r. r.0 ≡ tile_blocks (tile_rect (canvas_of stream.now.siz) tile) (shapes_of stream.now tile)) }
    ensures packets { IfOk result (λ r. r.1 ≡ tile_packets stream.now tile) }
    ensures few_blocks { IfOk result (λ r. r.0 < 2 ^ 87) }
    ensures few_packets { IfOk result (λ r. r.1 < 2 ^ 103) }
{
    let view = stream.tile_view(alloc, main, tile)?;
    let counts = count_tile(tile_of(&view.canvas(), tile), view.shapes());
    let layers = u128::from(view.layers());
    drop(view);
    Ok((counts.0, counts.1 * layers))
}

/// The code-blocks and the packets of all tiles (ITU-T T.800, B.7 and B.9).
///
/// # Errors
///
/// `NoMemory` where memory is refused.
pub fn count_all(
    alloc: Global,
    stream: &Stream,
    main: &MainView<'_>,
) -> Result<(u128, u128), NoMemory>
    requires main { main.now ≡ record { siz = stream.now.siz; main = stream.now.main } }
    requires range { StreamInRange stream.now }
    ensures blocks { IfOk result (λ r. r.0 ≡ block_total stream.now) }
    ensures packets { IfOk result (λ r. r.1 ≡ packet_total stream.now) }
{
    let mut blocks = 0;
    let mut packets = 0;
    for tile in 0..stream.tile_count() {
        let totals = tile_totals(alloc, stream, main, tile)?;
        blocks += totals.0;
        packets += totals.1;
    }
    Ok((blocks, packets))
}

/// Whether the tiles of a stream are within limits 5 and 6.
///
/// # Errors
///
/// Limit 5, over 2^22 code-blocks, then limit 6, over 2^22 packets, in all tiles together, with what was counted; `NoMemory` where memory
/// is refused.
#[tactic(auto, unfolding(crate::specs::Totals::totals_fault))]
pub fn check_totals(alloc: Global, stream: &Stream, main: &MainView<'_>) -> Result<(), StreamFault>
    requires main { main.now ≡ record { siz = stream.now.siz; main = stream.now.main } }
    requires range { StreamInRange stream.now }
    ensures { Answers result (totals_fault stream.now) (λ _. Unit {0}) }
{
    let (blocks, packets) = match count_all(alloc, stream, main) {
        Ok(totals) => totals,
        Err(_) => return Err(StreamFault::NoMemory),
    };
    if blocks > 1 << 22 {
        return Err(StreamFault::Limit {
            number: 5,
            found: blocks,
        });
    }
    if packets > 1 << 22 {
        return Err(StreamFault::Limit {
            number: 6,
            found: packets,
        });
    }
    Ok(())
}
