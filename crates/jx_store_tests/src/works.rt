//! What the stores hold in the tests, what makes it, and the calls on passes of the store with a lock.

ghost use Rattle.std.specs.Prelude.{ℕ, List, ◌≡◌, ◌+◌, ◌*◌, ◌<◌, ◌≤◌, ◌%◌, ◌==◌, IfOk, None, Some, false, length};
ghost use Rattle.std.specs.List.{sum};
ghost use Rattle.jx_store.specs.Valid.{IsOf};
ghost use Rattle.jx_base.specs.Limits.{most_blocks, most_bytes};

use crate::checks::{check, check_at, equal, equal_at};
use jx_base::NoMemory;
use jx_store::{Bounds, Claim, ClaimAnswer, Entry, Named, Reply, Work};
use jx_store_plain::{Blanks, LockStore, Pass};
use std::alloc::Global;
use std::process::Abort;
use std::sync::Wait;
use std::sync::atomic::AtomicU64;
use std::sync::atomic::Ordering::SeqCst;
use std::sync::ledger::{Blank, Ledger};
use std::thread;

pub const ALL_CLAIMED: Reply = Reply::AllClaimed;

pub fn full(next: u32, drained: u32) -> Reply {
    Reply::Full { next, drained }
}

/// What a store is made with, beside the jobs and their sizes.
#[derive(Clone, Copy)]
pub struct Limits {
    pub first: u32,
    pub window: u32,
    pub most: u32,
    pub workers: u32,
}

/// A value that is its number. A job whose number ends with 13 is bad.
#[derive(Drop)]
pub struct Plain {
    number: u32,
}

impl Work for Plain {
    ghost use Rattle.std.specs.Prelude.{◌%◌, ◌==◌};

    type Job = u32;

    ghost job = { λ p. p.number };

    ghost bad = { λ j. j % 100 == 13 };

    ghost number = { λ p. p.number };

    fn number(&self) -> u32 {
        self.number
    }
}

#[derive(Drop)]
pub struct Text<'a> {
    pub number: u32,
    pub letters: &'a [u8],
}

pub fn make_text<'a>(number: u32) -> Text<'a> {
    Text {
        number,
        letters: b"ab",
    }
}

/// A value that refers to its job, which has a lifetime of its own.
#[derive(Drop)]
pub struct Counted<'a> {
    job: &'a Text<'a>,
    letters: usize,
}

impl<'a> Work for Counted<'a> {
    type Job = Text<'a>;

    ghost job = { λ c. c.job.now };

    ghost bad = { λ j. false };

    ghost number = { λ c. c.job.now.number };

    fn number(&self) -> u32 {
        self.job.number
    }
}

/// What makes what stands under a number.
pub trait Maker<V: Work> {
    ghost first: { Self → ℕ };

    ghost jobs: { Self → List V.Job };

    fn make(&self, number: u32) -> Named<V>
        ensures { IsOf V.number V.job V.bad (first self.now) (jobs self.now) number result };
}

#[derive(Drop)]
pub struct Plains<'j> {
    pub first: u32,
    pub jobs: &'j [u32],
}

impl<'j> Maker<Plain> for Plains<'j> {
    ghost first = { λ m. m.first };

    ghost jobs = { λ m. m.jobs.now };

    fn make(&self, number: u32) -> Named<Plain> {
        if number < self.first {
            return Named::Short(number);
        }
        match self.jobs.get((number - self.first) as usize) {
            Some(&job) if job == number && job % 100 == 13 => Named::Bad(number),
            Some(&job) if job == number => Named::Made(Plain { number }),
            _ => Named::Short(number),
        }
    }
}

#[derive(Drop)]
pub struct Counter<'a> {
    pub first: u32,
    pub jobs: &'a [Text<'a>],
}

impl<'a> Maker<Counted<'a>> for Counter<'a> {
    ghost first = { λ m. m.first };

    ghost jobs = { λ m. m.jobs.now };

    fn make(&self, number: u32) -> Named<Counted<'a>> {
        if number < self.first {
            return Named::Short(number);
        }
        match self.jobs.get((number - self.first) as usize) {
            Some(job) if job.number == number => Named::Made(Counted {
                job,
                letters: job.letters.len(),
            }),
            _ => Named::Short(number),
        }
    }
}

/// How many values are to be begun, and how many made, before a gate opens.
#[derive(Clone, Copy)]
pub struct Wanted {
    pub begun: u64,
    pub made: u64,
}

/// Makes plain values; those of the numbers below `held` only once so many were begun and made, or a limit is reached.
#[derive(Drop)]
pub struct Gated<'j> {
    pub plains: Plains<'j>,
    held: u32,
    wanted: Wanted,
    limit: u32,
    begun: AtomicU64,
    made: AtomicU64,
    reached: AtomicU64,
}

impl<'j> Gated<'j> {
    pub fn new(plains: Plains<'j>, held: u32, wanted: Wanted, limit: u32) -> Gated<'j>
        ensures jobs { result.plains.jobs.now ≡ plains.entry.jobs.now }
        ensures first { result.plains.first ≡ plains.entry.first }
    {
        Gated {
            plains,
            held,
            wanted,
            limit,
            begun: AtomicU64::new(0),
            made: AtomicU64::new(0),
            reached: AtomicU64::new(0),
        }
    }

    /// Whether the limit was reached.
    pub fn has_waited_in_vain(&self) -> bool {
        self.reached.load(SeqCst) != 0
    }

    fn may_go(&self) -> bool {
        self.begun.load(SeqCst) >= self.wanted.begun && self.made.load(SeqCst) >= self.wanted.made
    }

    fn wait(&self, number: u32) {
        self.begun.fetch_add(1, SeqCst);
        if number < self.held {
            for _ in 0..self.limit {
                if self.may_go() {
                    break;
                }
                thread::yield_now();
            }
            if !self.may_go() {
                self.reached.store(1, SeqCst);
            }
        }
        self.made.fetch_add(1, SeqCst);
    }
}

impl<'j> Maker<Plain> for Gated<'j> {
    ghost first = { λ m. m.plains.first };

    ghost jobs = { λ m. m.plains.jobs.now };

    fn make(&self, number: u32) -> Named<Plain> {
        self.wait(number);
        self.plains.make(number)
    }
}

/// The numbers from the first on, and a size below 8 of each: its place times `step`, modulo 8.
pub fn many(
    alloc: Global,
    first: u32,
    count: u32,
    step: u32,
) -> Result<(Vec<u32>, Vec<u32>), NoMemory>
    requires { first + count ≤ most_blocks }
    ensures { IfOk result (λ v. (length v.0.items ≡ count) × (length v.1.items ≡ count) × (sum v.1.items ≤ most_bytes)) }
{
    let mut numbers = Vec::with_capacity(alloc, count as usize)?;
    let mut sizes = Vec::with_capacity(alloc, count as usize)?;
    for place in 0..count {
        numbers.push_reserved(first + place);
        sizes.push_reserved(place.wrapping_mul(step) % 8);
    }
    Ok((numbers, sizes))
}

// What stands under a number of the tape: a value of this number, nothing where its job is bad or memory fell short, or a value
// of another number.
pub const MADE: u8 = 0;

pub const BAD: u8 = 1;

pub const SHORT: u8 = 2;

pub const OTHER: u8 = 3;

/// What an entry shows.
#[derive(Clone, Copy, PartialEq, Debug)]
pub struct Line {
    pub number: u32,
    pub worker: u32,
    pub seen: u32,
    pub kind: u8,
}

pub fn written(number: u32, worker: u32, seen: u32, kind: u8) -> Line {
    Line {
        number,
        worker,
        seen,
        kind,
    }
}

pub fn lines<V: Work>(alloc: Global, tape: Vec<Entry<V>>) -> Result<Vec<Line>, NoMemory> {
    let mut out = Vec::new(alloc);
    for entry in &tape {
        let kind = match &entry.named {
            Named::Made(value) if value.number() == entry.number => MADE,
            Named::Made(_) => OTHER,
            Named::Bad(_) => BAD,
            Named::Short(_) => SHORT,
        };
        out.push(written(entry.number, entry.worker, entry.seen, kind))?;
    }
    Ok(out)
}

/// Whether the tape is whole and in order, each number inside the window when it was claimed, and made unless its job is bad.
pub fn expect_whole(rt: &impl Abort, lines: &[Line], limits: Limits, count: usize) {
    equal(rt, lines.len(), count);
    for (place, line) in lines.iter().enumerate() {
        let number = line.number;
        check(
            rt,
            number >= limits.first && (number - limits.first) as usize == place,
        );
        check_at(rt, &number, line.worker < limits.workers);
        check_at(
            rt,
            &number,
            line.seen <= number && number - line.seen < limits.window,
        );
        equal_at(
            rt,
            &number,
            line.kind,
            if number % 100 == 13 { BAD } else { MADE },
        );
    }
}

/// Claims this number, told `seen`.
pub fn claims<
    V: Work,
    N: Bounds<V::Job>,
    A: Ledger,
    B: Ledger,
    C: Ledger,
    D: Ledger,
    E: Ledger,
    R: Wait + Abort,
>(
    rt: &R,
    store: &LockStore<V, N, A, B, C, D, E>,
    pass: &mut Pass<N, A, B, C, D, E>,
    want: u32,
    seen: u32,
) -> Claim
    requires { pass.old.holds ≡ None }
    ensures { (result.number ≡ want) × (pass.new.holds ≡ Some want) }
{
    match store.claim(rt, pass) {
        ClaimAnswer::Claim(claim) => {
            equal(rt, claim.number(), want);
            equal(rt, claim.seen(), seen);
            claim
        }
        ClaimAnswer::Full {
            next: _,
            drained: _,
        } => panic!(rt; "a window is full"),
        ClaimAnswer::AllClaimed => panic!(rt; "all are claimed"),
    }
}

/// Is refused a number, with the core's reply.
pub fn is_refused<
    V: Work,
    N: Bounds<V::Job>,
    A: Ledger,
    B: Ledger,
    C: Ledger,
    D: Ledger,
    E: Ledger,
    R: Wait + Abort,
>(rt: &R, store: &LockStore<V, N, A, B, C, D, E>, pass: &mut Pass<N, A, B, C, D, E>, reply: Reply)
    requires { pass.old.holds ≡ None }
    ensures { pass.new.holds ≡ None }
{
    match store.claim(rt, pass) {
        ClaimAnswer::Claim(claim) => {
            let (number, _) = claim.spend();
            panic!(rt; "{number} is claimed")
        }
        ClaimAnswer::Full { next, drained } => equal(rt, full(next, drained), reply),
        ClaimAnswer::AllClaimed => equal(rt, ALL_CLAIMED, reply),
    }
}

/// Commits this, and holds nothing more.
pub fn commits<
    V: Work,
    N: Bounds<V::Job>,
    A: Ledger,
    B: Ledger,
    C: Ledger,
    D: Ledger,
    E: Ledger,
    R: Wait,
>(
    rt: &R,
    store: &LockStore<V, N, A, B, C, D, E>,
    pass: &mut Pass<N, A, B, C, D, E>,
    claim: Claim,
    named: Named<V>,
)
    requires held { pass.old.holds ≡ Some claim.number }
    requires value { IsOf V.number V.job V.bad N.setup.first N.jobs claim.number named }
    ensures { pass.new.holds ≡ None }
{
    store.commit(rt, pass, claim, named);
}

/// One blank for each ledger.
pub fn blanks(workers: u32) -> Blanks
    requires { (0 < workers) × (workers ≤ 64) }
    ensures { (result.claimed.parts ≡ workers) × (result.full.parts ≡ workers) × (result.all_claimed.parts ≡ workers) × (result.committed.parts ≡ workers) × (result.made.parts ≡ workers) }
{
    Blanks {
        claimed: Blank::new(workers as u64),
        full: Blank::new(workers as u64),
        all_claimed: Blank::new(workers as u64),
        committed: Blank::new(workers as u64),
        made: Blank::new(workers as u64),
    }
}
