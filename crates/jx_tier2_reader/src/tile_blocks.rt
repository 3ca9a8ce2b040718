//! The code-blocks of one tile.

ghost use Rattle.std.specs.Prelude.{◌≡◌, ◌≤◌, ◌<◌, None, length, IfOk, IfErr, OnOk};
ghost use Rattle.std.specs.List.{All};
ghost use Rattle.jx_base.specs.Sound.{IsSound};
ghost use Rattle.jx_codestream.specs.First.{tile_number};
ghost use Rattle.jx_codestream.specs.InRange.{StreamInRange};
ghost use Rattle.jx_codestream.specs.Read.{IsRead};
ghost use Rattle.jx_tile.specs.Covered.{IsWhole};
ghost use Rattle.jx_tile.specs.Faults.{HasCause};
ghost use Rattle.jx_tile.specs.Totals.{totals_fault};
ghost use Rattle.jx_tier2_reader.specs.Gathered.{AreTileBlocks};
ghost use Rattle.jx_tier2_reader.specs.Joined.{RefusesTile};
ghost use Rattle.jx_base.specs.Limits.{most_bytes};

use crate::StreamFault;
use crate::fresh::blocks_of;
use crate::tile::read_tile;
use jx_base::Block;
use jx_codestream::{MainView, Stream};
use jx_tile::TileFrame;
use std::alloc::Global;

/// Reads the blocks of a tile.
fn read_blocks<'a>(
    alloc: Global,
    bytes: &'a [u8],
    frame: &TileFrame<'_>,
) -> Result<Vec<Block<'a>>, StreamFault>
    requires read { IsRead bytes.now frame.now.stream }
    requires fits { length bytes.now ≤ most_bytes }
    ensures blocks { IfOk result (λ blocks. AreTileBlocks bytes.entry.now frame.now.stream frame.now.number blocks.items) }
    ensures whole { OnOk result (IsWhole frame.now.stream frame.now.number) }
    ensures sound { IfOk result (λ blocks. All IsSound blocks.items) }
    ensures broken { IfErr result (λ e. HasCause (RefusesTile bytes.entry.now frame.now.stream frame.now.number) e) }
{
    let list = match frame.names(alloc) {
        Ok(list) => list,
        Err(fault) => return Err(fault),
    };
    let (stream, view, geom) = frame.parts();
    let mut blocks = blocks_of(alloc, stream, view, geom)?;
    match read_tile(alloc, bytes, stream, view, geom, &list, &mut blocks) {
        Ok(()) => Ok(blocks),
        Err(fault) => Err(fault),
    }
}

/// The blocks of a tile; what is refused first in it, rule 25 before the rules of its data.
pub(crate) fn gather_tile<'a>(
    alloc: Global,
    bytes: &'a [u8],
    stream: &Stream,
    main: &MainView<'_>,
    tile: u16,
) -> Result<Vec<Block<'a>>, StreamFault>
    requires main { main.now ≡ record { siz = stream.now.siz; main = stream.now.main } }
    requires read { IsRead bytes.now stream.now }
    requires range { StreamInRange stream.now }
    requires fits { length bytes.now ≤ most_bytes }
    requires totals { totals_fault stream.now ≡ None }
    requires tile { tile < tile_number stream.now.siz }
    ensures blocks { IfOk result (λ blocks. AreTileBlocks bytes.entry.now stream.now tile blocks.items) }
    ensures whole { OnOk result (IsWhole stream.now tile) }
    ensures sound { IfOk result (λ blocks. All IsSound blocks.items) }
    ensures broken { IfErr result (λ e. HasCause (RefusesTile bytes.entry.now stream.now tile) e) }
{
    let frame = TileFrame::new(alloc, stream, main, tile)?;
    let result = read_blocks(alloc, bytes, &frame);
    drop(frame);
    result
}
