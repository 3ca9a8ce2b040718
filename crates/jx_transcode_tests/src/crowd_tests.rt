//! Workers that a gate holds: as many are inside as there are threads, in the first round and in the second, and windows keep the next
//! block out until the first has left. Blocks that are kept are told to nobody.

use crate::bytes::{Edit, low_byte, put_all, spliced};
use crate::checks::{check, equal, equal_at};
use crate::run_tests::{GOOD, SMALL};
use crate::runs::{holding, run_gated, run_words};
use jx_io::Gate;
use jx_transcode::Status;
use std::alloc::{AllocError, Global};
use std::process::Abort;
use std::sync::Wait;
use std::sync::atomic::AtomicU64;
use std::sync::atomic::Ordering::SeqCst;
use std::test::Fail;
use std::thread;
use std::thread::Threads;

/// How often a block looks for what has to come: minutes, so a busy machine has started all threads by then.
const MANY: u64 = 1_000_000_000;

/// The bytes that a window has where none is asked.
const DEFAULT: &str = "268435456";

/// Notes each block and how many are told at the beginning, and holds so many from a first one on until all of them have entered.
#[derive(Drop)]
struct Crowd {
    first: u32,
    held: u32,
    /// Whether the block behind those may enter only once the first has left.
    narrow: bool,
    begun: AtomicU64,
    told: AtomicU64,
    ended: AtomicU64,
    inside: AtomicU64,
    entered: Vec<AtomicU64>,
    left: Vec<AtomicU64>,
    wrong: AtomicU64,
}

fn counters(alloc: Global, count: usize) -> Result<Vec<AtomicU64>, AllocError> {
    let mut list = Vec::new(alloc);
    for _ in 0..count {
        list.push(AtomicU64::new(0))?;
    }
    Ok(list)
}

// How often a block was noted.
fn count_of(list: &[AtomicU64], block: u32) -> u64 {
    match list.get(block as usize) {
        Some(count) => count.load(SeqCst),
        None => u64::MAX,
    }
}

// Notes a block.
fn note(list: &[AtomicU64], block: u32) {
    if let Some(count) = list.get(block as usize) {
        count.fetch_add(1, SeqCst);
    }
}

impl Crowd {
    fn new(alloc: Global, first: u32, held: u32, narrow: bool) -> Result<Crowd, AllocError> {
        Ok(Crowd {
            first,
            held,
            narrow,
            begun: AtomicU64::new(0),
            told: AtomicU64::new(0),
            ended: AtomicU64::new(0),
            inside: AtomicU64::new(0),
            entered: counters(alloc, 4_200)?,
            left: counters(alloc, 4_200)?,
            wrong: AtomicU64::new(0),
        })
    }

    fn expect(&self, holds: bool) {
        if !holds {
            self.wrong.fetch_add(1, SeqCst);
        }
    }

    fn hold(&self) {
        for _ in 0..MANY {
            if self.inside.load(SeqCst) >= u64::from(self.held) {
                return;
            }
            thread::yield_now();
        }
        self.expect(false);
    }
}

impl Gate for Crowd {
    fn begin(&self, blocks: u32) {
        self.begun.fetch_add(1, SeqCst);
        self.told.fetch_add(u64::from(blocks), SeqCst);
    }

    fn enter(&self, block: u32) {
        let place = block.wrapping_sub(self.first);
        self.expect(self.begun.load(SeqCst) == 1 && self.ended.load(SeqCst) == 0);
        self.expect(!self.narrow || place != self.held || count_of(&self.left, self.first) == 1);
        note(&self.entered, block);
        if place < self.held {
            self.inside.fetch_add(1, SeqCst);
            self.hold();
        }
    }

    fn leave(&self, block: u32) {
        self.expect(count_of(&self.entered, block) == 1);
        note(&self.left, block);
    }

    fn end(&self) {
        self.ended.fetch_add(1, SeqCst);
    }
}

// At the beginning, which came once, so many were told: those that are coded anew. So many blocks from the first held one on were
// entered and left once, all in their turn, and nothing else came.
fn is_whole(rt: &impl Abort, gate: &Crowd, told: u64, count: u32) {
    equal(rt, gate.wrong.load(SeqCst), 0);
    equal(rt, gate.begun.load(SeqCst), 1);
    equal(rt, gate.told.load(SeqCst), told);
    equal(rt, gate.ended.load(SeqCst), 1);
    for place in 0..count {
        let block = gate.first.wrapping_add(place);
        equal_at(rt, &block, count_of(&gate.entered, block), 1);
        equal_at(rt, &block, count_of(&gate.left, block), 1);
    }
}

// The words of a run by so many threads, in windows of so many blocks and bytes.
fn words_of<'a>(threads: &'a str, window: &'a str, most: &'a str) -> [&'a str; 12] {
    [
        "jx",
        "transcode",
        "in",
        "out",
        "--style",
        "segment",
        "--threads",
        threads,
        "--window",
        window,
        "--window-bytes",
        most,
    ]
}

// A run that a gate holds, of which so many blocks are coded anew, and so many are looked at from the first held one on, makes the
// file that one thread makes.
fn crowded<R: Abort + AllocGlobal + Threads + Wait + Sync>(
    rt: &R,
    bytes: &[u8],
    gate: &Crowd,
    told: u64,
    count: u32,
    words: &[&str],
) -> Result<(), Fail> {
    let left = run_gated(rt, words, &holding(bytes), gate)?;
    equal_at(rt, &words, left.report.status, Status::Done);
    is_whole(rt, gate, told, count);
    let alone = run_words(rt, &words_of("1", "64", DEFAULT), &holding(bytes))?;
    check(rt, left.made().is_some() && left.made() == alone.made());
    Ok(())
}

// Tiles of one block each, of one byte.
fn many_tiles(alloc: Global, count: usize) -> Result<Vec<u8>, AllocError> {
    let mut parts = Vec::new(alloc);
    for tile in 0..count {
        let part = [
            0xFF,
            0x90,
            0,
            10,
            0,
            low_byte(tile),
            0,
            0,
            0,
            17,
            0,
            1,
            0xFF,
            0x93,
            0xC0,
            0x21,
            3,
        ];
        put_all(&mut parts, &[&part])?;
    }
    put_all(&mut parts, &[&[0xFF, 0xD9]])?;
    let edits: [Edit<'_>; 3] = [(11, 1, &[low_byte(count)]), (57, 1, &[0]), (65, 17, &parts)];
    spliced(alloc, &SMALL, &edits)
}

// A row of 4,096 blocks without passes in a tile, and behind it a tile of four blocks of one byte each.
fn two_rounds(alloc: Global) -> Result<Vec<u8>, AllocError> {
    let second = [
        0xFF, 0x90, 0, 10, 0, 1, 0, 0, 0, 24, 0, 1, 0xFF, 0x93, 0xF0, 0x0E, 0x1C, 0x3E, 0x1C, 0x20,
        3, 3, 3, 3, 0xFF, 0xD9,
    ];
    let edits: [Edit<'_>; 5] = [
        (10, 2, &[0x40, 16]),
        (26, 2, &[0x40, 0]),
        (55, 2, &[0, 0]),
        (57, 1, &[0]),
        (80, 2, &second),
    ];
    spliced(alloc, &SMALL, &edits)
}

#[test]
fn as_many_inside_as_threads(rt: HostRuntime) -> Result<(), Fail> {
    let bytes = many_tiles(rt.alloc(), 66)?;
    for (held, threads) in [(4, "4"), (64, "64")] {
        let gate = Crowd::new(rt.alloc(), 0, held, false)?;
        crowded(
            &rt,
            &bytes,
            &gate,
            66,
            66,
            &words_of(threads, "64", DEFAULT),
        )?;
    }
    Ok(())
}

#[test]
fn in_the_second_round_too(rt: HostRuntime) -> Result<(), Fail> {
    let bytes = two_rounds(rt.alloc())?;
    let gate = Crowd::new(rt.alloc(), 4096, 4, false)?;
    crowded(&rt, &bytes, &gate, 4100, 4, &words_of("4", "64", DEFAULT))
}

#[test]
fn windows_keep_the_next_block_out(rt: HostRuntime) -> Result<(), Fail> {
    let bytes = many_tiles(rt.alloc(), 6)?;
    for (held, most) in [(1, "1"), (2, "2"), (3, "3")] {
        let gate = Crowd::new(rt.alloc(), 0, held, true)?;
        crowded(&rt, &bytes, &gate, 6, 6, &words_of("4", most, DEFAULT))?;
        let gate = Crowd::new(rt.alloc(), 0, held, true)?;
        crowded(&rt, &bytes, &gate, 6, 6, &words_of("4", "64", most))?;
    }
    Ok(())
}

// Two tiles of one block each, of which the second has segmentation symbols by its own COD.
fn kept_behind(alloc: Global) -> Result<Vec<u8>, AllocError> {
    let parts = [
        0xFF, 0x90, 0, 10, 0, 0, 0, 0, 0, 17, 0, 1, 0xFF, 0x93, 0xC0, 0x21, 3, //
        0xFF, 0x90, 0, 10, 0, 1, 0, 0, 0, 31, 0, 1, //
        0xFF, 0x52, 0, 12, 0, 0, 0, 1, 0, 0, 4, 4, 0x20, 1, 0xFF, 0x93, 0xC0, 0x21, 1, 0xFF, 0xD9,
    ];
    spliced(alloc, &SMALL, &[(11, 1, &[2]), (65, 17, &parts)])
}

// The block of the second tile has the asked style already; and where no style is asked all are kept.
#[test]
fn kept_blocks_are_told_to_nobody(rt: HostRuntime) -> Result<(), Fail> {
    let bytes = kept_behind(rt.alloc())?;
    let gate = Crowd::new(rt.alloc(), 0, 0, false)?;
    crowded(&rt, &bytes, &gate, 1, 1, &words_of("2", "64", DEFAULT))?;
    equal(&rt, count_of(&gate.entered, 1), 0);
    equal(&rt, count_of(&gate.left, 1), 0);
    let none = Crowd::new(rt.alloc(), 0, 0, false)?;
    let left = run_gated(&rt, &GOOD, &holding(&bytes), &none)?;
    equal(&rt, left.report.status, Status::Done);
    is_whole(&rt, &none, 0, 0);
    equal(&rt, count_of(&none.entered, 0), 0);
    Ok(())
}
