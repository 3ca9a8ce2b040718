//! A tile that is ready to be written.

ghost use Rattle.std.specs.Prelude.{◌≡◌, ◌<◌, ◌+◌, Err, List, None, Some, length, map, IfErr, IfOk, IfSome, OnOk};
ghost use Rattle.std.specs.List.{concat};
ghost use Rattle.jx_codeblock.specs.Recoded.{WrittenBlock};
ghost use Rattle.jx_store.specs.declared.event.Taped.{Taped};
ghost use Rattle.jx_store.specs.declared.work.Named.{Named};
ghost use Rattle.jx_codestream.specs.First.{tile_number};
ghost use Rattle.jx_base.specs.declared.pieces.Block.{Block};
ghost use Rattle.jx_tier2_writer.specs.Tile.{AreMade, AreValuesOf, IsMade, IsTile, IsTooLong, StandIn, blocks_in, first_block, made_in};
ghost use Rattle.jx_rounds.specs.MadeRounds.{AreUpTo, IsFirstUnmade, IsUnmadeAs};
ghost use Rattle.jx_rounds.specs.Rounds.{IsUnmadeTile, LeadOn, most_of_part};
ghost use Rattle.jx_rounds.specs.Sent.{sent_of};

use crate::halt::Halt;
use crate::making::Making;
use crate::packed::Packed;
use jx_base::NoMemory;
use jx_codeblock::Recoded;
use jx_codeblock::laws::{written_is_sound, wrong_is_nothing};
use jx_store::{Entry, Named};
use jx_tier2_writer::{AssembleFault, TileOut, pack_tile, whole_parts};
use std::alloc::Global;

/// The number of a block of which nothing was made.
fn unmade(named: &Named<Recoded<'_>>) -> Option<u32>
    ensures made { result ≡ None → IsMade named.now }
    ensures unmade { IfSome result (λ number. IsUnmadeAs named.now number) }
{
    match named {
        Named::Made(_) => None,
        Named::Bad(number) | Named::Short(number) => Some(*number),
    }
}

/// The first block of which nothing was made.
fn first_unmade(entries: &[Entry<Recoded<'_>>]) -> Option<u32>
    ensures made { result ≡ None → AreMade entries.now }
    ensures unmade { IfSome result (λ number. IsFirstUnmade entries.now number) }
{
    for entry in entries {
        if let Some(number) = unmade(&entry.named) {
            return Some(number);
        }
    }
    None
}

/// A tile as it waits for its round: put together, where it is asked but for its coded bytes.
fn settled<'a, 'b>(
    alloc: Global,
    out: TileOut<'a, 'b>,
    laid: bool,
) -> Result<Packed<'a, 'b>, NoMemory>
    ensures { IfOk result (λ packed. map concat packed ≡ map concat out.entry) }
{
    if laid {
        return Ok(Packed::laid(out));
    }
    Ok(Packed::whole(whole_parts(alloc, &out)?))
}

/// A tile of which all code-blocks are made, put together; where it is asked but for its coded bytes.
fn pack_made<'a, 'b>(
    alloc: Global,
    making: &Making<'a, '_>,
    tile: u16,
    entries: &'a [Entry<Recoded<'b>>],
    laid: bool,
) -> Result<Packed<'a, 'b>, AssembleFault>
    requires tile { tile < tile_number making.now.stream.siz }
    requires made { AreMade entries.now }
    requires values { AreValuesOf making.now tile (made_in entries.now) }
    ensures parts { IfOk result (λ out. (blocks : List Block) → StandIn blocks making.now tile (made_in entries.now)
        → IsTile making.now blocks tile most_of_part (map concat out)) }
    ensures long { result ≡ Err AssembleFault.TooLong → (blocks : List Block)
        → StandIn blocks making.now tile (made_in entries.now) → IsTooLong making.now blocks tile most_of_part }
{
    match pack_tile(
        alloc,
        making.plan(),
        making.written(),
        tile,
        entries,
        u32::MAX,
    ) {
        Ok(out) => Ok(settled(alloc, out, laid)?),
        Err(fault) => Err(fault),
    }
}

/// A tile that is ready to be written, of which these are the entries of its code-blocks, or of the first of them, up to one of which
/// nothing was made: put together, where it is asked but for its
/// coded bytes.
pub fn packed_tile<'a, 'b>(
    alloc: Global,
    making: &Making<'a, '_>,
    tile: u16,
    entries: &'a [Entry<Recoded<'b>>],
    laid: bool,
) -> Result<Packed<'a, 'b>, Halt>
    requires tile { tile < tile_number making.now.stream.siz }
    requires entries { AreUpTo making.now (first_block making.now tile) (blocks_in making.now tile) entries.now }
    ensures parts { IfOk result (λ out. LeadOn making.now tile (tile + 1) (sent_of tile (map concat out))) }
    ensures whole { OnOk result ((length entries.now ≡ blocks_in making.now tile) × AreMade entries.now) }
    ensures unmade { IfErr result (λ h. IsUnmadeTile making.now tile h) }
{
    written_is_sound();
    wrong_is_nothing();
    // For what is known of a plan.
    let _plan = making.plan();
    if let Some(number) = first_unmade(entries) {
        return Err(Halt::Bad { tile, number });
    }
    match pack_made(alloc, making, tile, entries, laid) {
        Ok(out) => Ok(out),
        Err(AssembleFault::TooLong) => Err(Halt::TooLong { tile }),
        Err(AssembleFault::NoMemory) => Err(Halt::NoMemory),
    }
}
