//! What a planner is told of a codestream.

ghost use Rattle.std.specs.Prelude.{◌≡◌, ◌≤◌, length, IfOk};
ghost use Rattle.jx_codestream.specs.InRange.{StreamInRange};
ghost use Rattle.jx_plan.specs.Facts.{facts_of, most_layers, most_planes};
ghost use Rattle.jx_base.specs.Limits.{most_blocks};

use jx_base::{Block, NoMemory};
use jx_codestream::{MainView, Stream};
use jx_layers::StreamFacts;
use std::alloc::Global;

/// The greatest number of layers of any tile.
#[tactic(auto, unfolding(crate::specs::Facts::most_layers), using(jx_base::proofs::Lists::range_next))]
fn most_layers(stream: &Stream, main: &MainView<'_>) -> u16
    requires main { main.now ≡ record { siz = stream.now.siz; main = stream.now.main } }
    requires range { StreamInRange stream.now }
    ensures { result ≡ most_layers stream.now }
{
    let mut most = 0;
    for tile in 0..stream.tile_count() {
        let layers = stream.tile_layers(main, tile);
        if layers > most {
            most = layers;
        }
    }
    most
}

/// The greatest number of planes of any code-block.
fn most_planes(blocks: &[Block<'_>]) -> u8
    ensures { result ≡ most_planes blocks.now }
{
    let mut most = 0;
    for block in blocks {
        if block.planes > most {
            most = block.planes;
        }
    }
    most
}

/// What a planner is told of a stream with these code-blocks, at most 2^22.
pub fn facts_of(
    alloc: Global,
    stream: &Stream,
    blocks: &[Block<'_>],
) -> Result<StreamFacts, NoMemory>
    requires range { StreamInRange stream.now }
    requires few { length blocks.now ≤ most_blocks }
    ensures { IfOk result (λ facts. facts ≡ facts_of stream.now blocks.now) }
{
    let main = stream.main_view(alloc)?;
    Ok(StreamFacts {
        layers: most_layers(stream, &main),
        planes: most_planes(blocks),
        blocks: blocks.len() as u32,
    })
}
