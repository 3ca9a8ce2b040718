//! Workers over any values: each claims a number, makes its value and commits it, until all are claimed, or
//! the job of a number below is bad.
ghost use Rattle.std.specs.Prelude.{◌≡◌, ◌⊎◌, ℕ, Bool, true, List, ◌<◌, ◌≤◌, ◌+◌, ◌-◌, All, IfOk, Some, length, map, slice_get, vec_len};
ghost use Rattle.std.specs.List.{sum};
ghost use Rattle.jx_store.specs.declared.event.Taped.{Taped};
ghost use Rattle.jx_store.specs.declared.work.Named.{Named};
ghost use Rattle.jx_store.specs.Order.{numbers};
ghost use Rattle.jx_store.specs.Setup.{Within};
ghost use Rattle.jx_store.specs.Valid.{IsOf};
ghost use Rattle.jx_workers.specs.Stops.{IsBadBelow};
ghost use Rattle.jx_workers.specs.Workers.{IsFree, IsDone};
ghost use Rattle.jx_base.specs.Limits.{most_blocks, most_bytes};

use jx_base::NoMemory;
use jx_io::Gate;
use jx_ring::{Pass, RingStore};
use jx_store::{Bounds, Claim, ClaimAnswer, Entry, Named, Work};
use std::alloc::Global;
use std::marker::PhantomData;
use std::sync::atomic::Ordering::SeqCst;
use std::sync::atomic::{AtomicIn, Rule};
use std::sync::{Mutex, Wait};
use std::thread;
use std::thread::Threads;

/// What makes the value of a number.
pub(crate) trait Maker<V: Work> {
    /// The first number.
    ghost first: { Self → ℕ };

    /// The job of each number from the first on.
    ghost jobs: { Self → List V.Job };

    /// Whether a gate is told of a job.
    ghost told: { V.Job → Bool };

    /// Whether a gate is told of the job under the number of a claim.
    fn is_told(&self, claim: &Claim) -> bool
        requires { (first self.now ≤ claim.now.number) × (claim.now.number < first self.now + length (jobs self.now)) }
        ensures { (j : V.Job) → slice_get (jobs self.now) (claim.now.number - first self.now) ≡ Some j → result ≡ told j };

    /// The value under the number of a claim.
    fn make(&self, claim: &Claim) -> Named<V>
        requires { (first self.now ≤ claim.now.number) × (claim.now.number < first self.now + length (jobs self.now)) }
        ensures { IsOf V.number V.job V.bad (first self.now) (jobs self.now) claim.now.number result };
}

/// What a store is made with, beside its jobs and their sizes.
#[derive(Clone, Copy)]
pub(crate) struct Limits {
    /// The first number.
    first: u32,
    /// How many numbers may stand between claim and sequence.
    window: u32,
    /// How much the sizes of several numbers between claim and sequence may be.
    most: u32,
    /// How many workers there are.
    threads: u32,
}

impl Limits {
    pub(crate) fn new(first: u32, window: u32, most: u32, threads: u32) -> Limits
        ensures { result ≡ record { first = first; window = window; most = most; threads = threads } }
    {
        Limits {
            first,
            window,
            most,
            threads,
        }
    }
}

/// The word by which workers stop: 0, or one more than the number of a job that is bad.
pub(crate) struct Stops<V: Work, N: Bounds<V::Job>> {
    of: PhantomData<(Mutex<V>, N)>,
}

impl<V: Work, N: Bounds<V::Job>> Rule for Stops<V, N> {
    ghost use Rattle.jx_workers.specs.Stops.{IsStop};

    ghost invariant = { IsStop N.setup.first N.jobs V.bad };
}

// Whether the job of a number below this one is bad, as far as workers told.
fn is_stopped<V: Work, N: Bounds<V::Job>>(stops: &AtomicIn<Stops<V, N>>, past: u64) -> bool
    ensures { result ≡ true → IsBadBelow N.setup.first N.jobs V.bad past }
{
    let stop = stops.load(SeqCst);
    0 < stop && stop <= past
}

// Tells the workers of a job that is bad.
fn tell<V: Work, N: Bounds<V::Job>>(stops: &AtomicIn<Stops<V, N>>, number: u32, named: &Named<V>)
    requires from { N.setup.first ≤ number }
    requires of { IsOf V.number V.job V.bad N.setup.first N.jobs number named.now }
{
    if let Named::Bad(_) = named {
        stops.store(u64::from(number) + 1, SeqCst);
    }
}

// The value under the number of a claim, of which the workers are told where its job is bad.
fn told<V: Work, N: Bounds<V::Job>, M: Maker<V>>(
    maker: &M,
    stops: &AtomicIn<Stops<V, N>>,
    claim: &Claim,
) -> Named<V>
    requires named { (M.first maker.now ≡ N.setup.first) × (M.jobs maker.now ≡ N.jobs) }
    requires range { (N.setup.first ≤ claim.now.number) × (claim.now.number < N.setup.first + length N.jobs) }
    ensures { IsOf V.number V.job V.bad N.setup.first N.jobs claim.now.number result }
{
    let named = maker.make(claim);
    tell(stops, claim.number(), &named);
    named
}

// The same; where the gate is told of its job, before and after it is made. Nothing is made where the job of a number below is bad:
// what stands behind it is cut off.
fn made<V: Work, N: Bounds<V::Job>, G: Gate, M: Maker<V>>(
    maker: &M,
    gate: &G,
    stops: &AtomicIn<Stops<V, N>>,
    claim: &Claim,
) -> Named<V>
    requires named { (M.first maker.now ≡ N.setup.first) × (M.jobs maker.now ≡ N.jobs) }
    requires range { (N.setup.first ≤ claim.now.number) × (claim.now.number < N.setup.first + length N.jobs) }
    ensures { IsOf V.number V.job V.bad N.setup.first N.jobs claim.now.number result }
{
    let number = claim.number();
    if is_stopped(stops, u64::from(number)) {
        return Named::Short(number);
    }
    if !maker.is_told(claim) {
        return told(maker, stops, claim);
    }
    gate.enter(number);
    let named = told(maker, stops, claim);
    gate.leave(number);
    named
}

// Claims and commits until all are claimed, or a job is bad of a number that isn't above the last one committed.
fn work<V: Work, N: Bounds<V::Job>, R: Wait, G: Gate, M: Maker<V>>(
    rt: &R,
    store: &RingStore<V, N>,
    pass: &mut Pass<V, N>,
    maker: &M,
    gate: &G,
    stops: &AtomicIn<Stops<V, N>>,
)
    requires named { (M.first maker.now ≡ N.setup.first) × (M.jobs maker.now ≡ N.jobs) × (length N.jobs ≡ length N.setup.sizes) }
    requires free { IsFree N.setup store.now.table.shared.table_id N.workers pass.old }
    ensures { IsDone N.setup N.jobs V.bad store.now.table.shared.table_id N.workers pass.new }
{
    let mut past = 0;
    for _ in rt.forever() {
        if is_stopped(stops, past) {
            return;
        }
        match store.claim(rt, pass) {
            ClaimAnswer::Claim(claim) => {
                past = u64::from(claim.number()) + 1;
                let named = made(maker, gate, stops, &claim);
                store.commit(rt, pass, claim, named);
            }
            ClaimAnswer::Full {
                next: _,
                drained: _,
            } => {}
            ClaimAnswer::AllClaimed => return,
        }
    }
    unreachable!()
}

// A worker for each pass.
fn all_work<
    V: Work + Send,
    N: Bounds<V::Job> + Send + Sync,
    R: Threads + Wait + Sync,
    G: Gate + Sync,
    M: Maker<V> + Sync,
>(
    rt: &R,
    store: &RingStore<V, N>,
    passes: &mut [Pass<V, N>],
    maker: &M,
    gate: &G,
    stops: &AtomicIn<Stops<V, N>>,
)
    requires some { 0 < length passes.old }
    requires named { (M.first maker.now ≡ N.setup.first) × (M.jobs maker.now ≡ N.jobs) × (length N.jobs ≡ length N.setup.sizes) }
    requires free { All (IsFree N.setup store.now.table.shared.table_id N.workers) passes.old }
    ensures { All (IsDone N.setup N.jobs V.bad store.now.table.shared.table_id N.workers) passes.new }
{
    let threads = passes.len();
    thread::for_each_mut(
        rt,
        passes,
        threads,
        &|_, pass: &mut Pass<V, N>|
            requires named { (M.first maker.now ≡ N.setup.first) × (M.jobs maker.now ≡ N.jobs) × (length N.jobs ≡ length N.setup.sizes) }
            requires free { IsFree N.setup store.now.table.shared.table_id N.workers pass.old }
            ensures { IsDone N.setup N.jobs V.bad pass.old.table N.workers pass.new }
        { work(rt, store, pass, maker, gate, stops) },
    );
}

// The tape, once all workers stopped: of all numbers, or of those below one that is above a bad job's.
fn collect<V: Work, N: Bounds<V::Job>>(
    store: RingStore<V, N>,
    passes: Vec<Pass<V, N>>,
) -> Vec<Entry<V>>
    requires count { vec_len passes ≡ N.workers }
    requires some { 0 < length passes.items }
    requires done { All (IsDone N.setup N.jobs V.bad store.table.shared.table_id N.workers) passes.items }
    ensures order { map (λ t. t.number) result.items ≡ numbers N.setup.first (length result.items) }
    ensures ended { (length result.items ≡ length N.setup.sizes) ⊎ IsBadBelow N.setup.first N.jobs V.bad (N.setup.first + length result.items) }
    ensures each { (i : ℕ) (t : Taped (Named V)) → slice_get result.items i ≡ Some t →
        (t.worker < N.workers) × (N.setup.first ≤ t.seen) × Within N.setup t.seen t.number × IsOf V.number V.job V.bad N.setup.first N.jobs t.number t.named }
{
    store.into_tape(passes)
}

/// The tape of these jobs, which several threads make: of all, or of the first of them, up to one at least that is bad. It takes all memory of the store at once, and is
/// refused for want of it alone.
pub(crate) fn tape_of<
    V: Work + Send,
    N: Bounds<V::Job> + Send + Sync,
    R: Threads + Wait + Sync,
    G: Gate + Sync,
    M: Maker<V> + Sync,
>(
    rt: &R,
    alloc: Global,
    jobs: &[V::Job],
    sizes: &[u32],
    limits: Limits,
    maker: &M,
    gate: &G,
) -> Result<Vec<Entry<V>>, NoMemory>
    requires bounds { (N.setup ≡ record { first = limits.first; sizes = sizes.now; window = limits.window; most = limits.most }) × (N.workers ≡ limits.threads) × (N.jobs ≡ jobs.now) }
    requires maker { (M.first maker.now ≡ limits.first) × (M.jobs maker.now ≡ jobs.now) }
    requires count { (0 < length sizes.now) × (limits.first + length sizes.now ≤ most_blocks) × (length jobs.now ≡ length sizes.now) }
    requires sizes { sum sizes.now ≤ most_bytes }
    requires window { (0 < limits.window) × (limits.window ≤ 1024) }
    requires most { (0 < limits.most) × (limits.most ≤ most_bytes) }
    requires threads { (0 < limits.threads) × (limits.threads ≤ 64) }
    ensures order { IfOk result (λ tape. map (λ t. t.number) tape.items ≡ numbers limits.first (length tape.items)) }
    ensures ended { IfOk result (λ tape. (length tape.items ≡ length jobs.now) ⊎ IsBadBelow limits.first jobs.now V.bad (limits.first + length tape.items)) }
    ensures each { IfOk result (λ tape. (i : ℕ) (t : Taped (Named V)) → slice_get tape.items i ≡ Some t →
        (t.worker < limits.threads) × (limits.first ≤ t.seen) × Within N.setup t.seen t.number × IsOf V.number V.job V.bad limits.first jobs.now t.number t.named) }
{
    let (store, mut passes) = RingStore::<V, N>::new(
        alloc,
        jobs,
        sizes,
        limits.first,
        limits.window,
        limits.most,
        limits.threads,
    )?;
    let stops = AtomicIn::<Stops<V, N>>::new(0);
    all_work(rt, &store, passes.as_mut_slice(), maker, gate, &stops);
    Ok(collect(store, passes))
}
