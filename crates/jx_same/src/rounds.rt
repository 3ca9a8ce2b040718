//! All tiles of two codestreams: small ones in rounds, in which each thread takes a run of tiles.

ghost use Rattle.std.specs.Prelude.{◌≡◌, ◌<◌, ◌≤◌, ◌+◌, ◌*◌, ◌^◌, find, IfOk, IsTrue, true};
ghost use Rattle.jx_base.specs.Joined.{joined};
ghost use Rattle.jx_codestream.specs.First.{tile_number};
ghost use Rattle.jx_same.specs.Items.{differs, tile_items};
ghost use Rattle.jx_same.specs.Runs.{cut_at};
ghost use Rattle.jx_same.specs.Sayings.{sayings};
ghost use Rattle.jx_same.specs.Sides.{IsInput, meaning_in};

use crate::Spot;
use crate::cuts::{Cut, cut_at, cut_evenly, first_found};
use crate::input::Input;
use crate::sayings::are_mains_alike;
use crate::tiles::{Tiles, compare_between};
use jx_base::NoMemory;
use jx_codestream::MainView;
use std::alloc::Global;
use std::thread;
use std::thread::Threads;

/// About how many code-blocks a thread takes at once.
const SHARE_BLOCKS: u64 = 1024;

/// The most places that all threads together have decoded at a time.
const AT_HAND: u64 = 1 << 22;

/// The most components that all threads together have the sizes of at a time.
const COMPS_AT_HAND: u64 = 1 << 18;

/// How many components there are.
fn comp_count(a: &Input<'_>) -> u64 {
    a.stream.siz.comps.as_slice().len() as u64
}

/// Whether tiles are so small that each thread may have one at hand.
fn are_small(a: &Input<'_>, threads: u32) -> bool {
    let siz = &a.stream.siz;
    let places = u64::from(siz.tw).saturating_mul(u64::from(siz.th));
    let many = u64::from(threads);
    if places.saturating_mul(many) > AT_HAND {
        return false;
    }
    comp_count(a).saturating_mul(many) <= COMPS_AT_HAND
}

/// How many tiles a thread takes at once: those that have some 1,024 code-blocks together, and as many as there are components at
/// least, since of a run's first tile each component may be looked at.
fn share_of(a: &Input<'_>, tiles: u32) -> u32
    ensures { 0 < result }
{
    let blocks = (a.blocks.len() as u64).max(1);
    let share = u64::from(tiles).saturating_mul(SHARE_BLOCKS) / blocks;
    let most = share.max(comp_count(a)).min(u64::from(tiles));
    (most as u32).max(1)
}

/// The first value of some tiles that differs, in runs, each in a thread of its own where one can be made.
fn compare_runs<'a, R: Threads + Sync>(
    rt: &R,
    alloc: Global,
    a: Input<'a>,
    main_a: &'a MainView<'a>,
    b: Input<'a>,
    main_b: &'a MainView<'a>,
    mains: bool,
    cut: Cut,
) -> Result<Option<Spot>, NoMemory>
    requires a { IsInput a }
    requires b { IsInput b }
    requires main_a { main_a.now ≡ record { siz = a.stream.now.siz; main = a.stream.now.main } }
    requires main_b { main_b.now ≡ record { siz = b.stream.now.siz; main = b.stream.now.main } }
    requires siz { (meaning_in a).siz ≡ (meaning_in b).siz }
    requires mains { IsTrue mains → sayings true a.stream.now.main ≡ sayings true b.stream.now.main }
    requires low { cut.low ≤ cut.high }
    requires high { cut.high ≤ tile_number a.stream.now.siz }
    requires few { cut.high < 2 ^ 16 }
    requires all { cut.high ≤ cut.low + cut.runs * cut.size }
    ensures { IfOk result (λ found. found ≡ find (differs (meaning_in a.entry) (meaning_in b.entry))
        (joined (tile_items a.entry.stream.now) cut.low cut.high)) }
{
    let answers = thread::map_indices(
        rt,
        alloc,
        cut.runs as usize,
        &|run: usize| -> Result<Option<Spot>, NoMemory>
            requires run { (run < cut.runs) × (cut.runs < 2 ^ 32) }
            requires a { IsInput a }
            requires b { IsInput b }
            requires main_a { main_a.now ≡ record { siz = a.stream.now.siz; main = a.stream.now.main } }
            requires main_b { main_b.now ≡ record { siz = b.stream.now.siz; main = b.stream.now.main } }
            requires siz { (meaning_in a).siz ≡ (meaning_in b).siz }
            requires mains { IsTrue mains → sayings true a.stream.now.main ≡ sayings true b.stream.now.main }
            requires high { cut.high ≤ tile_number a.stream.now.siz }
            requires few { cut.high < 2 ^ 16 }
            ensures { IfOk result (λ found. found ≡ find (differs (meaning_in a.entry) (meaning_in b.entry))
                (joined (tile_items a.entry.stream.now) (cut_at cut.low cut.size cut.high run)
                (cut_at cut.low cut.size cut.high (run + 1)))) }
        {
            // It is asked for in the contract alone.
            let _ = &cut.runs;
            let number = run as u32;
            let from = cut_at(cut.low, cut.size, cut.high, number);
            let behind = cut_at(cut.low, cut.size, cut.high, number + 1);
            let tiles = Tiles {
                low: from as u16,
                high: behind as u16,
                mains,
            };
            compare_between(rt, alloc, 1, a, main_a, b, main_b, tiles)
        },
    )?;
    first_found(&answers)
}

/// The first value of all tiles that differs, in rounds of runs.
fn compare_rounds<'a, R: Threads + Sync>(
    rt: &R,
    alloc: Global,
    threads: u32,
    a: Input<'a>,
    main_a: &'a MainView<'a>,
    b: Input<'a>,
    main_b: &'a MainView<'a>,
    mains: bool,
) -> Result<Option<Spot>, NoMemory>
    requires threads { (1 ≤ threads) × (threads ≤ 64) }
    requires a { IsInput a }
    requires b { IsInput b }
    requires main_a { main_a.now ≡ record { siz = a.stream.now.siz; main = a.stream.now.main } }
    requires main_b { main_b.now ≡ record { siz = b.stream.now.siz; main = b.stream.now.main } }
    requires siz { (meaning_in a).siz ≡ (meaning_in b).siz }
    requires mains { IsTrue mains → sayings true a.stream.now.main ≡ sayings true b.stream.now.main }
    ensures { IfOk result (λ found. found ≡ find (differs (meaning_in a.entry) (meaning_in b.entry))
        (joined (tile_items a.entry.stream.now) 0 (tile_number a.entry.stream.now.siz))) }
{
    let tiles = u32::from(a.stream.tile_count());
    let share = share_of(&a, tiles);
    let mut low = 0;
    while low < tiles {
        let cut = cut_evenly(low, tiles, share, threads);
        if let Some(spot) = compare_runs(rt, alloc, a, main_a, b, main_b, mains, cut)? {
            return Ok(Some(spot));
        }
        low = cut.high;
    }
    Ok(None)
}

/// The first value of all tiles that differs, with the views of both main headers.
fn compare_all<'a, R: Threads + Sync>(
    rt: &R,
    alloc: Global,
    threads: u32,
    a: Input<'a>,
    main_a: &'a MainView<'a>,
    b: Input<'a>,
    main_b: &'a MainView<'a>,
) -> Result<Option<Spot>, NoMemory>
    requires threads { (1 ≤ threads) × (threads ≤ 64) }
    requires a { IsInput a }
    requires b { IsInput b }
    requires main_a { main_a.now ≡ record { siz = a.stream.now.siz; main = a.stream.now.main } }
    requires main_b { main_b.now ≡ record { siz = b.stream.now.siz; main = b.stream.now.main } }
    requires siz { (meaning_in a).siz ≡ (meaning_in b).siz }
    ensures { IfOk result (λ found. found ≡ find (differs (meaning_in a.entry) (meaning_in b.entry))
        (joined (tile_items a.entry.stream.now) 0 (tile_number a.entry.stream.now.siz))) }
{
    let mains = are_mains_alike(&a, &b);
    let high = a.stream.tile_count();
    let one = threads == 1 || share_of(&a, u32::from(high)) >= u32::from(high);
    if one || !are_small(&a, threads) {
        let tiles = Tiles {
            low: 0,
            high,
            mains,
        };
        return compare_between(rt, alloc, threads, a, main_a, b, main_b, tiles);
    }
    compare_rounds(rt, alloc, threads, a, main_a, b, main_b, mains)
}

/// The first value of all tiles that differs.
///
/// # Errors
///
/// `NoMemory` where memory is refused.
pub(crate) fn compare_tiles<R: Threads + Sync>(
    rt: &R,
    alloc: Global,
    threads: u32,
    a: Input<'_>,
    b: Input<'_>,
) -> Result<Option<Spot>, NoMemory>
    requires threads { (1 ≤ threads) × (threads ≤ 64) }
    requires a { IsInput a }
    requires b { IsInput b }
    requires siz { (meaning_in a).siz ≡ (meaning_in b).siz }
    ensures { IfOk result (λ found. found ≡ find (differs (meaning_in a.entry) (meaning_in b.entry))
        (joined (tile_items a.entry.stream.now) 0 (tile_number a.entry.stream.now.siz))) }
{
    let main_a = a.stream.main_view(alloc)?;
    let main_b = b.stream.main_view(alloc)?;
    compare_all(rt, alloc, threads, a, &main_a, b, &main_b)
}
