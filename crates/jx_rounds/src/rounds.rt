//! Rounds of tiles: consecutive ones, up to the first at which a round has 4,096 code-blocks or tiles of more than 8 MiB as they were
//! read, or up to the last tile.

ghost use Rattle.std.specs.Prelude.{◌≡◌, ◌<◌, ◌≤◌, ◌+◌, ℕ, [], length, map, IfOk, IfErr, OnOk};
ghost use Rattle.jx_codestream.specs.First.{tile_number};
ghost use Rattle.jx_tier2_writer.specs.Tile.{AreMade, blocks_in, first_block};
ghost use Rattle.jx_options.specs.Work.{MayBeWork};
ghost use Rattle.jx_rounds.specs.MadeRounds.{AreUpTo, IsExtent, TapesOn, entry_of};
ghost use Rattle.jx_rounds.specs.Rounds.{BeginsRound, EndsRound, IsPlace, IsUnmade, IsUnmadeTile, LeadOn};
ghost use Rattle.jx_rounds.specs.Sent.{sent_from};
ghost use Rattle.jx_base.specs.Limits.{most_blocks};

use crate::crew::{Crew, made_blocks};
use crate::halt::Halt;
use crate::making::Making;
use crate::packed::Packed;
use crate::room::room_behind;
use crate::tile::packed_tile;
use jx_base::NoMemory;
use jx_codeblock::Recoded;
use jx_io::Gate;
use jx_store::Entry;
use jx_store::laws::numbers_count_up;
use std::alloc::Global;
use std::sync::Wait;
use std::thread::Threads;

const ROUND_BLOCKS: u32 = 4096;

/// The most bytes, as they were read, of the tiles of a round but for its last.
const ROUND_BYTES: usize = 8_388_608;

/// How many code-blocks each tile of a round has, and all of them; the tile after it, and the number of that tile's first code-block.
#[derive(Drop)]
pub struct Extent {
    pub counts: Vec<u32>,
    pub blocks: u32,
    pub tile: u16,
    pub block: u32,
}

/// A round as it is made: its tiles, and the entries of its code-blocks.
#[derive(Drop)]
pub struct Round<'a> {
    pub extent: Extent,
    pub entries: Vec<Entry<Recoded<'a>>>,
}

/// Puts into an empty list how many code-blocks each tile of the round has that begins at a tile: how many all of them have.
fn put_counts(making: &Making<'_, '_>, tile: u16, each: &mut Vec<u32>) -> Result<u32, NoMemory>
    requires tile { tile < tile_number making.now.stream.siz }
    requires begins { BeginsRound making.now tile }
    requires empty { each.old.items ≡ [] }
    ensures { IfOk result (λ all. IsExtent making.now tile each.new.items all) }
{
    let mut all = 0;
    let mut room = ROUND_BYTES;
    for at in tile..making.tile_count() {
        let count = making.blocks_in(at);
        each.push(count)?;
        all += count;
        if all >= ROUND_BLOCKS {
            return Ok(all);
        }
        match room_behind(room, making.tile(at)) {
            Some(rest) => room = rest,
            None => return Ok(all),
        }
    }
    Ok(all)
}

/// The round that begins at a tile, of which `block` is the number of the first code-block.
fn extent_of(
    alloc: Global,
    making: &Making<'_, '_>,
    tile: u16,
    block: u32,
) -> Result<Extent, NoMemory>
    requires tile { tile < tile_number making.now.stream.siz }
    requires block { block ≡ first_block making.now tile }
    requires begins { BeginsRound making.now tile }
    ensures extent { IfOk result (λ e. IsExtent making.now tile e.counts.items e.blocks) }
    ensures tile { IfOk result (λ e. e.tile ≡ tile + length e.counts.items) }
    ensures block { IfOk result (λ e. e.block ≡ block + e.blocks) }
    ensures within { IfOk result (λ e. e.block ≤ length making.now.jobs) }
    ensures few { IfOk result (λ e. e.block ≤ most_blocks) }
{
    let _ = making.jobs();
    let mut counts = Vec::new(alloc);
    let all = put_counts(making, tile, &mut counts)?;
    let next = tile + counts.len() as u16;
    Ok(Extent {
        counts,
        blocks: all,
        tile: next,
        block: block + all,
    })
}

/// What is made of so many code-blocks from one on, up to the first of which nothing can be made.
fn round_blocks<'a, R: Threads + Wait + Sync, G: Gate + Sync>(
    crew: &Crew<'_, R, G>,
    alloc: Global,
    making: &Making<'a, '_>,
    first: u32,
    count: u32,
) -> Result<Vec<Entry<Recoded<'a>>>, NoMemory>
    requires within { first + count ≤ length making.now.jobs }
    requires few { first + count ≤ most_blocks }
    requires work { MayBeWork crew.now.work }
    ensures tape { IfOk result (λ entries. TapesOn making.now crew.now.work first (first + length entries.items)
        (map entry_of entries.items)) }
    ensures of { IfOk result (λ entries. AreUpTo making.now first count entries.items) }
{
    numbers_count_up();
    let jobs = making.jobs_from(first, count);
    made_blocks(crew, alloc, jobs, first)
}

/// Puts a tile that is ready to be written behind others, of whose code-blocks these are the entries, or of the first of them.
fn push_packed<'a, 'b>(
    alloc: Global,
    making: &Making<'a, '_>,
    tile: u16,
    entries: &'a [Entry<Recoded<'b>>],
    laid: bool,
    tiles: &mut Vec<Packed<'a, 'b>>,
) -> Result<(), Halt>
    requires tile { tile < tile_number making.now.stream.siz }
    requires entries { AreUpTo making.now (first_block making.now tile) (blocks_in making.now tile) entries.now }
    ensures whole { OnOk result ((length entries.now ≡ blocks_in making.now tile) × AreMade entries.now) }
    ensures lead { OnOk result ((first : ℕ) → first + length tiles.old.items ≡ tile
        → LeadOn making.now first tile (sent_from first tiles.old.items)
        → LeadOn making.now first (tile + 1) (sent_from first tiles.new.items)) }
    ensures count { OnOk result (length tiles.new.items ≡ length tiles.old.items + 1) }
    ensures unmade { IfErr result (λ h. IsUnmadeTile making.now tile h) }
{
    let out = match packed_tile(alloc, making, tile, entries, laid) {
        Ok(out) => out,
        Err(halt) => return Err(halt),
    };
    if tiles.push(out).is_err() {
        return Err(Halt::NoMemory);
    }
    Ok(())
}

/// Puts the tiles of a round that begins at a tile into an empty list, of whose code-blocks these are the entries, or of the first of
/// them.
fn push_tiles<'a, 'b>(
    alloc: Global,
    making: &Making<'a, '_>,
    tile: u16,
    extent: &Extent,
    entries: &'a [Entry<Recoded<'b>>],
    tiles: &mut Vec<Packed<'a, 'b>>,
) -> Result<(), Halt>
    requires extent { IsExtent making.now tile extent.now.counts.items extent.now.blocks }
    requires tile { extent.now.tile ≡ tile + length extent.now.counts.items }
    requires few { extent.now.blocks ≤ most_blocks }
    requires entries { AreUpTo making.now (first_block making.now tile) extent.now.blocks entries.now }
    requires empty { tiles.old.items ≡ [] }
    ensures parts { OnOk result (LeadOn making.now tile extent.now.tile (sent_from tile tiles.new.items)) }
    ensures count { OnOk result (tile + length tiles.new.items ≡ extent.now.tile) }
    ensures whole { OnOk result (length entries.now ≡ extent.now.blocks) }
    ensures unmade { IfErr result (λ h. IsUnmade making.now tile h) }
{
    let mut from = 0;
    for at in tile..extent.tile {
        let count = extent.counts[(at - tile) as usize];
        let to = from + count as usize;
        let laid = at + 1 == extent.tile;
        let end = to.min(entries.len());
        match push_packed(alloc, making, at, &entries[from..end], laid, tiles) {
            Ok(()) => {}
            Err(halt) => return Err(halt),
        }
        from = to;
    }
    Ok(())
}

/// The tiles of a round that begins at a tile, of whose code-blocks these are the entries, or of the first of them: each is ready to be
/// written.
pub fn packed_tiles<'a, 'b>(
    alloc: Global,
    making: &Making<'a, '_>,
    tile: u16,
    extent: &Extent,
    entries: &'a [Entry<Recoded<'b>>],
) -> Result<Vec<Packed<'a, 'b>>, Halt>
    requires extent { IsExtent making.now tile extent.now.counts.items extent.now.blocks }
    requires tile { extent.now.tile ≡ tile + length extent.now.counts.items }
    requires few { extent.now.blocks ≤ most_blocks }
    requires entries { AreUpTo making.now (first_block making.now tile) extent.now.blocks entries.now }
    ensures parts { IfOk result (λ tiles. LeadOn making.now tile extent.now.tile (sent_from tile tiles.items)) }
    ensures count { IfOk result (λ tiles. tile + length tiles.items ≡ extent.now.tile) }
    ensures whole { OnOk result (length entries.now ≡ extent.now.blocks) }
    ensures unmade { IfErr result (λ h. IsUnmade making.now tile h) }
{
    let mut tiles = Vec::new(alloc);
    match push_tiles(alloc, making, tile, extent, entries, &mut tiles) {
        Ok(()) => Ok(tiles),
        Err(halt) => Err(halt),
    }
}

/// The round that begins at a tile, of which `block` is the number of the first code-block.
pub fn made_round<'a, R: Threads + Wait + Sync, G: Gate + Sync>(
    crew: &Crew<'_, R, G>,
    alloc: Global,
    making: &Making<'a, '_>,
    tile: u16,
    block: u32,
) -> Result<Round<'a>, NoMemory>
    requires tile { tile < tile_number making.now.stream.siz }
    requires block { block ≡ first_block making.now tile }
    requires begins { BeginsRound making.now tile }
    requires work { MayBeWork crew.now.work }
    ensures extent { IfOk result (λ r. IsExtent making.now tile r.extent.counts.items r.extent.blocks) }
    ensures tile { IfOk result (λ r. r.extent.tile ≡ tile + length r.extent.counts.items) }
    ensures few { IfOk result (λ r. r.extent.blocks ≤ most_blocks) }
    ensures entries { IfOk result (λ r. AreUpTo making.now block r.extent.blocks r.entries.items) }
    ensures later { IfOk result (λ r. tile < r.extent.tile) }
    ensures place { IfOk result (λ r. IsPlace making.now r.extent.tile r.extent.block) }
    ensures ends { IfOk result (λ r. EndsRound making.now r.extent.tile) }
    ensures tape { IfOk result (λ r. TapesOn making.now crew.now.work block (block + length r.entries.items)
        (map entry_of r.entries.items)) }
{
    let extent = extent_of(alloc, making, tile, block)?;
    match round_blocks(crew, alloc, making, block, extent.blocks) {
        Ok(entries) => Ok(Round { extent, entries }),
        Err(refused) => Err(refused),
    }
}
