//! The code-blocks of a band: runs of them, each of which a thread compares.

ghost use Rattle.std.specs.Prelude.{◌≡◌, ◌<◌, ◌≤◌, ◌+◌, ◌*◌, ◌^◌, find, IfOk};
ghost use Rattle.jx_base.specs.Joined.{joined};
ghost use Rattle.jx_base.specs.Places.{size_of};
ghost use Rattle.jx_geom.specs.Geometry.{blocks_in};
ghost use Rattle.jx_same.specs.Items.{block_items, differs};
ghost use Rattle.jx_same.specs.Runs.{IsWalk, cut_at, unit_count, unit_items};
ghost use Rattle.jx_same.specs.Sides.{AreAligned, HasBandOf, geometry_at, meaning_at};

use crate::Spot;
use crate::cells::{cell_end, compare_between, compare_rows};
use crate::cuts::{Cut, cut_at, cut_evenly, first_found};
use crate::shelf::Shelf;
use crate::side::{BandName, Side, Walk};
use jx_base::NoMemory;
use std::alloc::Global;
use std::thread;
use std::thread::Threads;

/// The most code-blocks that a thread takes at once, where there are several.
const SHARE_BLOCKS: u32 = 16;

/// From so many places times passes on, about a millisecond's work, threads are started for a band.
const HEAVY: u64 = 1 << 20;

/// The exponent of the number of places whose code-blocks all threads together have decoded at a time.
const AT_HAND: u32 = 22;

/// How many units a band has.
fn unit_count(walk: Walk) -> u32
    ensures { result ≡ unit_count walk.by_rows walk }
{
    if walk.by_rows {
        return walk.high;
    }
    walk.count
}

/// The first place of the units of a band from one on below another of which the coefficients differ. The code-blocks of the other
/// codestream that are at hand are its own.
fn compare_run(
    alloc: Global,
    a: &Side<'_>,
    b: &Side<'_>,
    name: BandName,
    walk: Walk,
    low: u32,
    high: u32,
) -> Result<Option<Spot>, NoMemory>
    requires aligned { AreAligned a.now b.now name.comp }
    requires band { HasBandOf a.now name }
    requires walk { IsWalk (blocks_in (geometry_at a.now) name.comp name.res name.band) walk }
    requires high { high ≤ unit_count walk.by_rows walk }
    ensures { IfOk result (λ found. found ≡ find (differs (meaning_at a.now) (meaning_at b.now))
        (joined (unit_items walk.by_rows (block_items
        (geometry_at a.now) name.comp name.res name.band) walk.wide) low high)) }
{
    if walk.by_rows {
        return compare_rows(alloc, a, b, name, walk, low, high);
    }
    let mut shelf = Shelf::new(alloc, b.in_cells(name, a));
    compare_between(alloc, a, b, &mut shelf, name, low, high)
}

/// The same of a part in runs, each in a thread of its own where one can be made.
fn compare_runs<R: Threads + Sync>(
    rt: &R,
    alloc: Global,
    a: &Side<'_>,
    b: &Side<'_>,
    name: BandName,
    walk: Walk,
    cut: Cut,
) -> Result<Option<Spot>, NoMemory>
    requires aligned { AreAligned a.now b.now name.comp }
    requires band { HasBandOf a.now name }
    requires walk { IsWalk (blocks_in (geometry_at a.now) name.comp name.res name.band) walk }
    requires low { cut.low ≤ cut.high }
    requires high { cut.high ≤ unit_count walk.by_rows walk }
    requires all { cut.high ≤ cut.low + cut.runs * cut.size }
    ensures { IfOk result (λ found. found ≡ find (differs (meaning_at a.now) (meaning_at b.now))
        (joined (unit_items walk.by_rows (block_items
        (geometry_at a.now) name.comp name.res name.band) walk.wide) cut.low cut.high)) }
{
    let answers = thread::map_indices(
        rt,
        alloc,
        cut.runs as usize,
        &|run: usize| -> Result<Option<Spot>, NoMemory>
            requires run { (run < cut.runs) × (cut.runs < 2 ^ 32) }
            requires aligned { AreAligned a.now b.now name.comp }
            requires band { HasBandOf a.now name }
            requires walk { IsWalk (blocks_in (geometry_at a.now) name.comp name.res name.band) walk }
            requires high { cut.high ≤ unit_count walk.by_rows walk }
            ensures { IfOk result (λ found. found ≡ find (differs (meaning_at a.entry.now) (meaning_at b.entry.now))
                (joined (unit_items walk.by_rows (block_items
                (geometry_at a.entry.now) name.comp name.res name.band) walk.wide)
                (cut_at cut.low cut.size cut.high run) (cut_at cut.low cut.size cut.high (run + 1)))) }
        {
            // It is asked for in the contract alone.
            let _ = &cut.runs;
            let number = run as u32;
            let from = cut_at(cut.low, cut.size, cut.high, number);
            let behind = cut_at(cut.low, cut.size, cut.high, number + 1);
            compare_run(alloc, a, b, name, walk, from, behind)
        },
    )?;
    first_found(&answers)
}

/// Whether the passes of a band take so long that threads are worth being started.
fn is_heavy(a: &Side<'_>, name: BandName, count: u32) -> bool
    requires band { HasBandOf a.now name }
    requires count { count ≤ size_of (blocks_in (geometry_at a.now) name.comp name.res name.band) }
{
    let mut work: u64 = 0;
    for index in 0..count {
        let block = a.block(name, index);
        let passes = u64::from(block.passes);
        work = work.saturating_add(block.rect.area().saturating_mul(passes));
        if work >= HEAVY {
            return true;
        }
    }
    false
}

/// How many threads take part: as many as are asked for, unless they had too much decoded at a time; one if there is little to do.
fn workers(a: &Side<'_>, name: BandName, walk: Walk, threads: u32) -> u32
    requires band { HasBandOf a.now name }
    requires walk { IsWalk (blocks_in (geometry_at a.now) name.comp name.res name.band) walk }
    requires threads { (1 ≤ threads) × (threads ≤ 64) }
    ensures { (1 ≤ result) × (result ≤ 64) }
{
    if threads == 1 {
        return 1;
    }
    if !is_heavy(a, name, walk.count) {
        return 1;
    }
    let most = 1 << AT_HAND.saturating_sub(walk.places).min(6);
    threads.min(most)
}

/// The part of a band that threads take next, from a unit on: of whole rows first the rest of a row of cells, then one for each thread.
fn next_cut(walk: Walk, low: u32, threads: u32) -> Cut
    requires threads { (1 ≤ threads) × (threads ≤ 64) }
    requires rows { 0 < walk.rows }
    requires low { low < unit_count walk.by_rows walk }
    ensures from { result.low ≡ low }
    ensures some { low < result.high }
    ensures high { result.high ≤ unit_count walk.by_rows walk }
    ensures all { result.high ≤ result.low + result.runs * result.size }
{
    if walk.by_rows {
        return cut_rows(walk, low, threads);
    }
    cut_evenly(low, walk.count, SHARE_BLOCKS, threads)
}

/// The same in whole rows.
fn cut_rows(walk: Walk, low: u32, threads: u32) -> Cut
    requires threads { (1 ≤ threads) × (threads ≤ 64) }
    requires rows { 0 < walk.rows }
    requires low { low < walk.high }
    ensures from { result.low ≡ low }
    ensures some { low < result.high }
    ensures high { result.high ≤ walk.high }
    ensures all { result.high ≤ result.low + result.runs * result.size }
{
    let next = cell_end(walk.top, low, walk.rows, walk.high);
    let mut taken = next - low;
    if taken >= walk.rows {
        taken = walk
            .rows
            .saturating_mul(threads)
            .max(taken)
            .min(walk.high - low);
    }
    Cut {
        low,
        high: low + taken,
        size: walk.rows,
        runs: taken.div_ceil(walk.rows),
    }
}

/// The first place of a band of which the coefficients differ, code-block by code-block. They are taken in rounds, in which each of
/// the threads takes a run of at most 16, or a row of cells; with one thread none is started.
pub(crate) fn compare_blocks<R: Threads + Sync>(
    rt: &R,
    alloc: Global,
    threads: u32,
    a: &Side<'_>,
    b: &Side<'_>,
    name: BandName,
) -> Result<Option<Spot>, NoMemory>
    requires threads { (1 ≤ threads) × (threads ≤ 64) }
    requires aligned { AreAligned a.now b.now name.comp }
    requires band { HasBandOf a.now name }
    ensures { IfOk result (λ found. found ≡ find (differs (meaning_at a.now) (meaning_at b.now))
        (joined (block_items (geometry_at a.now) name.comp name.res name.band) 0
        (size_of (blocks_in (geometry_at a.now) name.comp name.res name.band)))) }
{
    let walk = a.walk(name, b);
    let units = unit_count(walk);
    let hands = workers(a, name, walk, threads);
    if hands == 1 {
        return compare_run(alloc, a, b, name, walk, 0, units);
    }
    let mut low = 0;
    while low < units {
        let cut = next_cut(walk, low, hands);
        if let Some(spot) = compare_runs(rt, alloc, a, b, name, walk, cut)? {
            return Ok(Some(spot));
        }
        low = cut.high;
    }
    Ok(None)
}
