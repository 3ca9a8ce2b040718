//! Workers that a gate holds: two blocks at once, and a window that keeps one out.

use crate::checks::{check, equal};
use crate::runs::{Made, Want, ending, holding, is_left, run_gated};
use crate::style_tests::two_tiles;
use jx_io::Gate;
use jx_transcode::{Status, TapeEntry};
use std::process::Abort;
use std::sync::Wait;
use std::sync::atomic::AtomicU64;
use std::sync::atomic::Ordering::SeqCst;
use std::test::Fail;
use std::thread;
use std::thread::Threads;

/// How often a block looks for what never comes while the window keeps the other one out.
const TURNS: u64 = 10_000;

/// How often it looks for what has to come: minutes, so a busy machine has started both threads by then.
const MANY: u64 = 1_000_000_000;

/// Holds block 0 until block 1 has left, and block 1 until block 0 has entered; where it is narrow, holds
/// block 0 until block 1 has entered, and nothing else.
#[derive(Drop)]
struct Holding {
    /// How many blocks are told at the beginning: those that are coded anew.
    begun: AtomicU64,
    entered: [AtomicU64; 2],
    left: [AtomicU64; 2],
    reached: AtomicU64,
    narrow: bool,
}

impl Holding {
    fn new(narrow: bool) -> Holding {
        Holding {
            begun: AtomicU64::new(0),
            entered: [AtomicU64::new(0), AtomicU64::new(0)],
            left: [AtomicU64::new(0), AtomicU64::new(0)],
            reached: AtomicU64::new(0),
            narrow,
        }
    }

    fn hold(&self, until: &AtomicU64) {
        let turns = if self.narrow { TURNS } else { MANY };
        for _ in 0..turns {
            if until.load(SeqCst) != 0 {
                return;
            }
            thread::yield_now();
        }
        self.reached.store(1, SeqCst);
    }
}

impl Gate for Holding {
    fn begin(&self, blocks: u32) {
        self.begun.fetch_add(u64::from(blocks), SeqCst);
    }

    fn enter(&self, block: u32) {
        if block == 0 {
            self.entered[0].fetch_add(1, SeqCst);
            self.hold(if self.narrow {
                &self.entered[1]
            } else {
                &self.left[1]
            });
        } else {
            self.entered[1].fetch_add(1, SeqCst);
            if !self.narrow {
                self.hold(&self.entered[0]);
            }
        }
    }

    fn leave(&self, block: u32) {
        if block == 0 {
            self.left[0].fetch_add(1, SeqCst);
        } else {
            self.left[1].fetch_add(1, SeqCst);
        }
    }
}

// The tape of two blocks that two workers code anew, where the file is as it has to be.
fn held<R: Abort + AllocGlobal + Threads + Wait + Sync, G: Gate + Sync>(
    rt: &R,
    window: &str,
    gate: &G,
) -> Result<Vec<TapeEntry>, Fail> {
    let bytes = two_tiles(rt.alloc(), 0, [3, 3])?;
    let made = two_tiles(rt.alloc(), 0x20, [1, 1])?;
    let words = [
        "jx",
        "transcode",
        "in",
        "out",
        "--style",
        "segment",
        "--threads",
        "2",
        "--window",
        window,
    ];
    let want = Want {
        made: Made::Bytes(&made),
        ..ending(Status::Done, "done: 2 blocks, 101 bytes\n")
    };
    let left = run_gated(rt, &words, &holding(&bytes), gate)?;
    is_left(rt, &words, &left, &want);
    Ok(left.report.tape)
}

#[test]
fn two_workers_at_once(rt: HostRuntime) -> Result<(), Fail> {
    let gate = Holding::new(false);
    let tape = held(&rt, "2", &gate)?;
    equal(&rt, gate.begun.load(SeqCst), 2);
    equal(&rt, gate.reached.load(SeqCst), 0);
    check(
        &rt,
        tape.len() == 2 && tape[0].number == 0 && tape[1].number == 1,
    );
    check(&rt, tape[0].worker < 2 && tape[1].worker < 2);
    check(&rt, tape[0].worker != tape[1].worker);
    equal(&rt, tape[1].seen, 0);
    Ok(())
}

#[test]
fn a_narrow_window(rt: HostRuntime) -> Result<(), Fail> {
    let gate = Holding::new(true);
    let tape = held(&rt, "1", &gate)?;
    equal(&rt, gate.reached.load(SeqCst), 1);
    check(&rt, tape.len() == 2 && tape[1].seen == 1);
    Ok(())
}
