//! Workers on small blocks.

ghost use Rattle.std.specs.Prelude.{◌≡◌, ◌≤◌, ◌<◌, ◌+◌, ◌*◌, IfOk, OnOk, length, map, vec_len};
ghost use Rattle.std.specs.List.{sum};
ghost use Rattle.jx_base.specs.Markers.{HasNoMarker};
ghost use Rattle.jx_base.specs.Pieces.{bytes_in};
ghost use Rattle.jx_base.specs.Sound.{IsSound};
ghost use Rattle.jx_codeblock.specs.Jobs.{AreEnds, IsAsked};
ghost use Rattle.jx_workers.specs.Tapes.{AreAsked, size_of};
ghost use Rattle.jx_base.specs.Limits.{most_bytes};

use crate::blocks::{in_one, one_pass};
use crate::checks::{check, equal, given};
use jx_base::{Block, NoMemory, Style};
use jx_codeblock::Job;
use jx_io::Gate;
use jx_io_memory::NoGate;
use jx_store::Named;
use jx_workers::recode_all;
use std::alloc::Global;
use std::sync::Wait;
use std::sync::atomic::AtomicU64;
use std::sync::atomic::Ordering::SeqCst;
use std::test::Fail;
use std::thread;
use std::thread::Threads;

/// How often a block looks for what never comes while the window keeps the other one out.
const TURNS: u64 = 10_000;

/// How often it looks for what has to come: minutes, so a busy machine has started both threads by then.
pub(crate) const MANY: u64 = 1_000_000_000;

pub(crate) const MOST: u32 = u32::MAX;

/// A block that is kept, or coded anew without symbols.
#[tactic(auto, using(crate::proofs::Samples::asked_whole))]
fn job_of<'a>(
    alloc: Global,
    block: &'a Block<'a>,
    number: u32,
    anew: bool,
) -> Result<Job<'a>, NoMemory>
    requires sound { IsSound block.now }
    requires passes { block.now.passes ≡ 1 }
    ensures { IfOk result (λ j. (j.number ≡ number) × IsAsked j.block.now j.style j.ends × (size_of j ≡ bytes_in block.now.pieces)) }
{
    let ends = in_one(alloc, 1)?;
    if anew {
        return Ok(Job {
            number,
            block,
            style: Some(Style { bits: 0 }),
            ends,
        });
    }
    Ok(Job {
        number,
        block,
        style: None,
        ends,
    })
}

/// One of two blocks.
fn pick<'a>(right: &'a Block<'a>, wrong: &'a Block<'a>, is_wrong: bool) -> &'a Block<'a>
    requires right { IsSound right.now × (right.now.passes ≡ 1) × (bytes_in right.now.pieces ≤ 100) }
    requires wrong { IsSound wrong.now × (wrong.now.passes ≡ 1) × (bytes_in wrong.now.pieces ≤ 100) }
    ensures { IsSound result.now × (result.now.passes ≡ 1) × (bytes_in result.now.pieces ≤ 100) }
{
    if is_wrong {
        return wrong;
    }
    right
}

/// So many jobs, of which one has a wrong symbol, and those of odd numbers may be kept.
fn jobs_of<'a>(
    alloc: Global,
    right: &'a Block<'a>,
    wrong: &'a Block<'a>,
    count: u32,
    first: u32,
    wrong_at: u32,
    kept: bool,
) -> Result<Vec<Job<'a>>, NoMemory>
    requires right { IsSound right.now × (right.now.passes ≡ 1) × (bytes_in right.now.pieces ≤ 100) }
    requires wrong { IsSound wrong.now × (wrong.now.passes ≡ 1) × (bytes_in wrong.now.pieces ≤ 100) }
    requires count { (count ≤ 1000) × (first ≤ 1000) }
    ensures asked { IfOk result (λ jobs. AreAsked first jobs.items) }
    ensures count { IfOk result (λ jobs. length jobs.items ≡ count) }
    ensures sizes { IfOk result (λ jobs. sum (map size_of jobs.items) ≤ 100 * count) }
{
    let mut jobs = Vec::new(alloc);
    for place in 0..count {
        let block = pick(right, wrong, place == wrong_at);
        let anew = !kept || place % 2 == 0;
        jobs.push(job_of(alloc, block, first + place, anew)?)?;
    }
    Ok(jobs)
}

/// What an entry shows.
#[derive(Clone, Copy, PartialEq, Debug)]
pub(crate) struct Line {
    number: u32,
    worker: u32,
    seen: u32,
    made: bool,
}

/// The lines of a tape, and the bytes of its blocks one behind another.
fn lines<'a, R: Threads + Wait + Sync, G: Gate + Sync>(
    rt: &R,
    alloc: Global,
    jobs: &'a [Job<'a>],
    first: u32,
    limits: (u32, u32, u32),
    gate: &G,
) -> Result<(Vec<Line>, Vec<u8>), NoMemory>
    requires jobs { AreAsked first jobs.now × (first ≤ 1000) × (length jobs.now ≤ 1000) × (sum (map size_of jobs.now) ≤ 100 * length jobs.now) }
    requires limits { (0 < limits.0) × (limits.0 ≤ 64) × (0 < limits.1) × (limits.1 ≤ 1024) × (0 < limits.2) × (limits.2 ≤ most_bytes) }
{
    let (threads, window, most) = limits;
    let tape = recode_all(rt, alloc, jobs, first, threads, window, most, gate)?;
    let mut lines = Vec::new(alloc);
    let mut bytes = Vec::new(alloc);
    for entry in &tape.entries {
        let made = match &entry.named {
            Named::Made(recoded) => {
                for part in recoded.parts() {
                    recoded.append(part, &mut bytes)?;
                }
                true
            }
            Named::Bad(_) | Named::Short(_) => false,
        };
        lines.push(Line {
            number: entry.number,
            worker: entry.worker,
            seen: entry.seen,
            made,
        })?;
    }
    Ok((lines, bytes))
}

/// So many jobs over two blocks, by so many threads.
fn run_over<R: Threads + Wait + Sync, G: Gate + Sync>(
    rt: &R,
    alloc: Global,
    right: &Block<'_>,
    wrong: &Block<'_>,
    count: u32,
    first: u32,
    wrong_at: u32,
    kept: bool,
    limits: (u32, u32, u32),
    gate: &G,
) -> Result<(Vec<Line>, Vec<u8>), NoMemory>
    requires right { IsSound right.now × (right.now.passes ≡ 1) × (bytes_in right.now.pieces ≤ 100) }
    requires wrong { IsSound wrong.now × (wrong.now.passes ≡ 1) × (bytes_in wrong.now.pieces ≤ 100) }
    requires count { (count ≤ 1000) × (first ≤ 1000) }
    requires limits { (0 < limits.0) × (limits.0 ≤ 64) × (0 < limits.1) × (limits.1 ≤ 1024) × (0 < limits.2) × (limits.2 ≤ most_bytes) }
{
    let jobs = jobs_of(alloc, right, wrong, count, first, wrong_at, kept)?;
    lines(rt, alloc, jobs.as_slice(), first, limits, gate)
}

/// So many jobs by so many threads.
pub(crate) fn run<R: Threads + Wait + Sync, G: Gate + Sync>(
    rt: &R,
    alloc: Global,
    count: u32,
    first: u32,
    wrong_at: u32,
    kept: bool,
    limits: (u32, u32, u32),
    gate: &G,
) -> Result<(Vec<Line>, Vec<u8>), NoMemory>
    requires count { (count ≤ 1000) × (first ≤ 1000) }
    requires limits { (0 < limits.0) × (limits.0 ≤ 64) × (0 < limits.1) × (limits.1 ≤ 1024) × (0 < limits.2) × (limits.2 ≤ most_bytes) }
{
    let right = one_pass(alloc, Style { bits: 0x20 }, &[0x01])?;
    let wrong = one_pass(alloc, Style { bits: 0x20 }, &[0x03])?;
    run_over(
        rt, alloc, &right, &wrong, count, first, wrong_at, kept, limits, gate,
    )
}

/// Whether a count comes to so many while it is looked at so often.
pub(crate) fn comes_to(count: &AtomicU64, least: u64, turns: u64) -> bool {
    for _ in 0..turns {
        if count.load(SeqCst) >= least {
            return true;
        }
        thread::yield_now();
    }
    false
}

/// Holds block 0 until block 1 has left, and block 1 until block 0 has entered; where it is narrow, holds
/// block 0 until block 1 has entered, and nothing else.
#[derive(Drop)]
struct Holding {
    entered: [AtomicU64; 2],
    left: [AtomicU64; 2],
    reached: AtomicU64,
    narrow: bool,
}

impl Holding {
    fn new(narrow: bool) -> Holding {
        Holding {
            entered: [AtomicU64::new(0), AtomicU64::new(0)],
            left: [AtomicU64::new(0), AtomicU64::new(0)],
            reached: AtomicU64::new(0),
            narrow,
        }
    }

    fn hold(&self, until: &AtomicU64) {
        let turns = if self.narrow { TURNS } else { MANY };
        if !comes_to(until, 1, turns) {
            self.reached.store(1, SeqCst);
        }
    }
}

impl Gate for Holding {
    fn begin(&self, _blocks: u32) {}

    fn enter(&self, block: u32) {
        if block == 0 {
            self.entered[0].fetch_add(1, SeqCst);
            self.hold(if self.narrow {
                &self.entered[1]
            } else {
                &self.left[1]
            });
        } else {
            self.entered[1].fetch_add(1, SeqCst);
            if !self.narrow {
                self.hold(&self.entered[0]);
            }
        }
    }

    fn leave(&self, block: u32) {
        if block == 0 {
            self.left[0].fetch_add(1, SeqCst);
        } else {
            self.left[1].fetch_add(1, SeqCst);
        }
    }
}

// Two workers are inside at once, and each block is entered and left once.
#[test]
fn two_are_inside_at_once(rt: HostRuntime) -> Result<(), Fail> {
    let gate = Holding::new(false);
    let (lines, bytes) = given(run(&rt, rt.alloc(), 2, 0, 9, false, (2, 2, MOST), &gate))?;
    equal(&rt, gate.reached.load(SeqCst), 0);
    for block in 0..2_usize {
        equal(&rt, gate.entered[block].load(SeqCst), 1);
        equal(&rt, gate.left[block].load(SeqCst), 1);
    }
    check(
        &rt,
        lines.len() == 2 && lines[0].number == 0 && lines[1].number == 1,
    );
    check(&rt, lines[0].made && lines[1].made);
    check(&rt, lines[0].worker < 2 && lines[1].worker < 2);
    check(&rt, lines[0].worker != lines[1].worker);
    equal(&rt, lines[1].seen, 0);
    equal(&rt, bytes.as_slice(), [0x03, 0x03].as_slice());
    Ok(())
}

// A window of 1 keeps the second worker out.
#[test]
fn the_window_keeps_out(rt: HostRuntime) -> Result<(), Fail> {
    let gate = Holding::new(true);
    let (lines, bytes) = given(run(&rt, rt.alloc(), 2, 0, 9, false, (2, 1, MOST), &gate))?;
    equal(&rt, gate.reached.load(SeqCst), 1);
    check(&rt, lines.len() == 2 && lines[1].number == 1);
    equal(&rt, lines[1].seen, 1);
    let (_, alone) = given(run(&rt, rt.alloc(), 2, 0, 9, false, (1, 1, MOST), &NoGate))?;
    equal(&rt, bytes.as_slice(), alone.as_slice());
    Ok(())
}

// So does the number of bytes between claim and sequence.
#[test]
fn the_bytes_keep_out(rt: HostRuntime) -> Result<(), Fail> {
    let gate = Holding::new(true);
    let (lines, _) = given(run(&rt, rt.alloc(), 2, 0, 9, false, (2, 2, 1), &gate))?;
    equal(&rt, gate.reached.load(SeqCst), 1);
    check(&rt, lines.len() == 2 && lines[1].seen == 1);
    Ok(())
}

// A wrong symbol in the middle, by one worker and by four: the tape ends with it, and one worker makes nothing behind it.
#[test]
fn wrong_in_the_middle(rt: HostRuntime) -> Result<(), Fail> {
    for threads in [1, 4] {
        let gate = Noting([AtomicU64::new(0), AtomicU64::new(0)]);
        let (lines, bytes) = given(run(
            &rt,
            rt.alloc(),
            9,
            70,
            4,
            false,
            (threads, 3, MOST),
            &gate,
        ))?;
        equal(&rt, lines.len(), 5);
        let made = gate.0[0]
            .load(SeqCst)
            .saturating_add(gate.0[1].load(SeqCst));
        check(&rt, if threads == 1 { made == 5 } else { made >= 5 });
        for (place, line) in lines.iter().enumerate() {
            check(
                &rt,
                line.number as usize == 70 + place && line.worker < threads,
            );
            equal(&rt, line.made, place != 4);
        }
        equal(&rt, bytes.as_slice(), [0x03; 4].as_slice());
    }
    Ok(())
}

/// Notes how often blocks of even and of odd numbers were left.
#[derive(Drop)]
struct Noting([AtomicU64; 2]);

impl Gate for Noting {
    fn begin(&self, _blocks: u32) {}

    fn enter(&self, _block: u32) {}

    fn leave(&self, block: u32) {
        self.0[(block % 2) as usize].fetch_add(1, SeqCst);
    }
}

// Blocks of odd numbers are kept, and told to nobody.
#[test]
fn kept_blocks_are_not_told(rt: HostRuntime) -> Result<(), Fail> {
    for threads in [1, 4] {
        let gate = Noting([AtomicU64::new(0), AtomicU64::new(0)]);
        given(run(&rt, rt.alloc(), 9, 0, 9, true, (threads, 64, MOST), &gate))?;
        equal(&rt, gate.0[0].load(SeqCst), 5);
        equal(&rt, gate.0[1].load(SeqCst), 0);
    }
    Ok(())
}

// Blocks of odd places are kept, the wrong one among them.
#[test]
fn kept_and_coded_anew(rt: HostRuntime) -> Result<(), Fail> {
    for threads in [1, 4] {
        let (lines, bytes) = given(run(
            &rt,
            rt.alloc(),
            4,
            0,
            3,
            true,
            (threads, 64, MOST),
            &NoGate,
        ))?;
        equal(&rt, lines.len(), 4);
        for line in &lines {
            check(&rt, line.made);
        }
        equal(&rt, bytes.as_slice(), [0x03, 0x01, 0x03, 0x03].as_slice());
    }
    Ok(())
}

// No jobs, whatever else is asked; and more workers than blocks.
#[test]
fn none_and_few(rt: HostRuntime) -> Result<(), Fail> {
    let (lines, bytes) = given(run(&rt, rt.alloc(), 0, 5, 9, false, (64, 1024, 1), &NoGate))?;
    check(&rt, lines.is_empty() && bytes.is_empty());
    let (lines, bytes) = given(run(&rt, rt.alloc(), 2, 5, 9, false, (64, 1024, MOST), &NoGate))?;
    check(
        &rt,
        lines.len() == 2 && lines[0].worker < 64 && lines[1].worker < 64,
    );
    equal(&rt, bytes.as_slice(), [0x03, 0x03].as_slice());
    Ok(())
}
