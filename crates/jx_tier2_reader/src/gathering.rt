//! The code-blocks of a whole codestream, tile by tile.

ghost use Rattle.std.specs.Prelude.{◌≡◌, ◌≤◌, ◌<◌, ◌++◌, ℕ, List, None, length, IfOk, IfErr, OnOk};
ghost use Rattle.std.specs.List.{All};
ghost use Rattle.jx_base.specs.declared.pieces.Block.{Block};
ghost use Rattle.jx_base.specs.Sound.{IsSound};
ghost use Rattle.jx_codestream.specs.First.{tile_number};
ghost use Rattle.jx_codestream.specs.InRange.{StreamInRange};
ghost use Rattle.jx_codestream.specs.Read.{IsRead};
ghost use Rattle.jx_codestream.specs.declared.faults.StreamFault.{StreamFault};
ghost use Rattle.jx_tile.specs.Covered.{IsWhole};
ghost use Rattle.jx_tile.specs.Faults.{HasCause, IsMemory, IsOnly};
ghost use Rattle.jx_tile.specs.Totals.{totals_fault};
ghost use Rattle.jx_tier2_reader.specs.BlockOf.{AreBlocksOf};
ghost use Rattle.jx_tier2_reader.specs.Gathered.{IsBroken, IsGathered};
ghost use Rattle.jx_tier2_reader.specs.Joined.{HasCuts, RefusesTile};
ghost use Rattle.jx_tier2_reader.specs.WellFormed.{IsWellFormed};
ghost use Rattle.jx_base.specs.Limits.{most_bytes};

use crate::StreamFault;
use crate::tile_blocks::gather_tile;
use jx_base::{Block, NoMemory};
use jx_codestream::{MainView, Stream};
use jx_tile::{check_covered, check_totals};
use std::alloc::Global;

/// Moves the blocks of a tile behind those of the tiles before it. Those of the first tile aren't copied.
fn append<'a>(blocks: &mut Vec<Block<'a>>, mut next: Vec<Block<'a>>) -> Result<(), NoMemory>
    ensures { OnOk result (blocks.new.items ≡ blocks.old.items ++ next.entry.items) }
{
    if blocks.is_empty() {
        *blocks = next;
        return Ok(());
    }
    Ok(blocks.append(&mut next)?)
}

/// What is refused first where a tile is refused and the tiles below it are read: rule 25 in the lowest tile that has a packet in
/// no entry, this one or a later one, comes before the rules of tile data.
fn first_refused(
    alloc: Global,
    bytes: &[u8],
    stream: &Stream,
    main: &MainView<'_>,
    tile: u16,
    fault: StreamFault,
) -> StreamFault
    requires main { main.now ≡ record { siz = stream.now.siz; main = stream.now.main } }
    requires range { StreamInRange stream.now }
    requires totals { totals_fault stream.now ≡ None }
    requires tile { tile < tile_number stream.now.siz }
    requires whole { (t : ℕ) → t < tile → IsWhole stream.now t }
    requires read { (t : ℕ) → t < tile → HasCuts bytes.now stream.now t }
    requires refused { HasCause (RefusesTile bytes.now stream.now tile) fault }
    ensures { HasCause (IsBroken bytes.now stream.now) result }
{
    match check_covered(alloc, stream, main, tile) {
        Ok(()) => fault,
        Err(uncovered) => uncovered,
    }
}

/// The blocks of all tiles. Each tile's headers and geometry are made once.
fn gather_tiles<'a>(
    alloc: Global,
    bytes: &'a [u8],
    stream: &Stream,
    main: &MainView<'_>,
) -> Result<Vec<Block<'a>>, StreamFault>
    requires main { main.now ≡ record { siz = stream.now.siz; main = stream.now.main } }
    requires read { IsRead bytes.now stream.now }
    requires range { StreamInRange stream.now }
    requires fits { length bytes.now ≤ most_bytes }
    requires totals { totals_fault stream.now ≡ None }
    ensures gathered { IfOk result (λ blocks. IsGathered bytes.entry.now stream.now blocks.items) }
    ensures sound { IfOk result (λ blocks. All IsSound blocks.items) }
    ensures broken { IfErr result (λ e. HasCause (IsBroken bytes.entry.now stream.now) e) }
{
    let mut blocks = Vec::new(alloc);
    for tile in 0..stream.tile_count() {
        match gather_tile(alloc, bytes, stream, main, tile) {
            Ok(next) => append(&mut blocks, next)?,
            Err(fault) => return Err(first_refused(alloc, bytes, stream, main, tile, fault)),
        }
    }
    Ok(blocks)
}

/// The same, with the limits tested first.
#[tactic(auto, using(crate::proofs::GatherLemmas::cause_of_totals))]
fn gather_first<'a>(
    alloc: Global,
    bytes: &'a [u8],
    stream: &Stream,
) -> Result<Vec<Block<'a>>, StreamFault>
    requires read { IsRead bytes.now stream.now }
    requires fits { length bytes.now ≤ most_bytes }
    ensures gathered { IfOk result (λ blocks. IsGathered bytes.entry.now stream.now blocks.items) }
    ensures totals { OnOk result (totals_fault stream.now ≡ None) }
    ensures sound { IfOk result (λ blocks. All IsSound blocks.items) }
    ensures broken { IfErr result (λ e. HasCause (IsBroken bytes.entry.now stream.now) e) }
{
    let main = match stream.main_view(alloc) {
        Ok(main) => main,
        Err(_) => return Err(StreamFault::NoMemory),
    };
    match check_totals(alloc, stream, &main) {
        Ok(()) => {}
        Err(fault) => return Err(fault),
    }
    gather_tiles(alloc, bytes, stream, &main)
}

/// The code-blocks of a codestream, in the order of their numbers, each with its pieces as slices of the file.
///
/// `stream` is what `read_stream` gives for `bytes`, of which there are at most 2^32 - 1. Limits 5 and 6 come first, then rule 25,
/// then, tile by tile and packet by packet, the rules 26 to 31. A block that no packet includes has no passes, and as many
/// zero planes as planes (T.800, B.7 and B.9 to B.12).
#[tactic(auto, using(crate::proofs::GatherLemmas::well_formed, crate::proofs::BlockOfLemmas::blocks_of_stream))]
pub fn gather<'a>(
    alloc: Global,
    bytes: &'a [u8],
    stream: &Stream,
) -> Result<Vec<Block<'a>>, StreamFault>
    requires read { IsRead bytes.now stream.now }
    requires fits { length bytes.now ≤ most_bytes }
    // What is given are the blocks of these bytes, and no others are;
    ensures gathered { IfOk result (λ blocks. IsGathered bytes.entry.now stream.now blocks.items) }
    ensures only { IfOk result (λ blocks. (others : List Block) → IsGathered bytes.entry.now stream.now others → blocks.items ≡ others) }
    // no rule is violated then, and no limit passed.
    ensures totals { OnOk result (totals_fault stream.now ≡ None) }
    ensures unbroken { OnOk result ((first : StreamFault) → IsBroken bytes.entry.now stream.now first → ⊥) }
    // A rule or limit that is named is the first one violated or passed, and the only one;
    ensures broken { IfErr result (λ e. HasCause (IsBroken bytes.entry.now stream.now) e) }
    ensures first { IfErr result (λ e. (first : StreamFault) → IsBroken bytes.entry.now stream.now first → IsOnly first e) }
    // where there are blocks, within the limits, only memory is wanting.
    ensures memory { IfErr result (λ e. (blocks : List Block) → totals_fault stream.now ≡ None → IsGathered bytes.entry.now stream.now blocks → IsMemory e) }
    ensures sound { IfOk result (λ blocks. All IsSound blocks.items) }
    // Each name of the stream has its block at its number, with the rect, planes and style that the headers say, and pieces in
    // layers of its tile, of at most 164 passes in one layer.
    ensures blocks { IfOk result (λ blocks. AreBlocksOf stream.now blocks.items) }
    ensures well_formed { OnOk result (IsWellFormed bytes.entry.now) }
{
    match gather_first(alloc, bytes, stream) {
        Ok(blocks) => Ok(blocks),
        Err(fault) => Err(fault),
    }
}
