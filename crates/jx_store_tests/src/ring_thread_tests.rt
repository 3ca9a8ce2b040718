//! Threads on one ring.

ghost use Rattle.std.specs.Prelude.{◌≡◌, ◌+◌, ◌<◌, ◌≤◌, All, None, length};
ghost use Rattle.std.specs.List.{sum};
ghost use Rattle.jx_store.specs.Setup.{end_of};
ghost use Rattle.jx_base.specs.Limits.{most_blocks, most_bytes};

use crate::checks::{check, equal};
use crate::works::{Gated, Limits, Line, Maker, Plain, Plains, Wanted, expect_whole, lines, many};
use jx_base::NoMemory;
use jx_ring::{Pass, RingStore};
use jx_store::{Bounds, ClaimAnswer, Work};
use std::alloc::Global;
use std::marker::Brand;
use std::sync::Wait;
use std::test::Fail;
use std::thread;
use std::thread::Threads;

// Claims and commits until all are claimed.
fn work<V: Work, N: Bounds<V::Job>, R: Wait, M: Maker<V>>(
    rt: &R,
    store: &RingStore<V, N>,
    pass: &mut Pass<V, N>,
    maker: &M,
)
    requires named { (M.first maker.now ≡ N.setup.first) × (M.jobs maker.now ≡ N.jobs) }
    requires free { (pass.old.table ≡ store.now.table.shared.table_id) × (pass.old.holds ≡ None) }
    ensures { (pass.new.table ≡ pass.old.table) × (pass.new.holds ≡ None) × (pass.new.next ≡ end_of N.setup) }
{
    for _ in rt.forever() {
        match store.claim(rt, pass) {
            ClaimAnswer::Claim(claim) => {
                let named = maker.make(claim.number());
                store.commit(rt, pass, claim, named);
            }
            ClaimAnswer::Full {
                next: _,
                drained: _,
            } => {}
            ClaimAnswer::AllClaimed => return,
        }
    }
    unreachable!()
}

// A worker for each pass.
fn all_work<
    V: Work + Send,
    N: Bounds<V::Job> + Send + Sync,
    R: Threads + Wait + Sync,
    M: Maker<V> + Sync,
>(rt: &R, store: &RingStore<V, N>, passes: &mut [Pass<V, N>], maker: &M)
    requires some { 0 < length passes.old }
    requires named { (M.first maker.now ≡ N.setup.first) × (M.jobs maker.now ≡ N.jobs) }
    requires free { All (λ p. (p.table ≡ store.now.table.shared.table_id) × (p.holds ≡ None)) passes.old }
    ensures { All (λ p. (p.table ≡ store.now.table.shared.table_id) × (p.holds ≡ None)) passes.new }
{
    let threads = passes.len();
    thread::for_each_mut(
        rt,
        passes,
        threads,
        &|_, pass: &mut Pass<V, N>|
            requires { (pass.old.table ≡ store.now.table.shared.table_id) × (pass.old.holds ≡ None) × (M.first maker.now ≡ N.setup.first) × (M.jobs maker.now ≡ N.jobs) }
            ensures { (pass.new.table ≡ pass.old.table) × (pass.new.holds ≡ None) }
        { work(rt, store, pass, maker) },
    );
}

fn shared<
    V: Work + Send,
    N: Bounds<V::Job> + Send + Sync,
    R: Threads + Wait + Sync,
    M: Maker<V> + Sync,
>(
    rt: &R,
    alloc: Global,
    jobs: &[V::Job],
    sizes: &[u32],
    limits: Limits,
    maker: &M,
) -> Result<Vec<Line>, NoMemory>
    requires bounds { (N.setup ≡ record { first = limits.first; sizes = sizes.now; window = limits.window; most = limits.most }) × (N.workers ≡ limits.workers) × (N.jobs ≡ jobs.now) }
    requires jobs { (0 < length jobs.now) × (limits.first + length jobs.now ≤ most_blocks) × (length jobs.now ≡ length sizes.now) × (M.jobs maker.now ≡ jobs.now) × (M.first maker.now ≡ limits.first) }
    requires sizes { sum sizes.now ≤ most_bytes }
    requires limits { (0 < limits.window) × (limits.window ≤ 1024) × (0 < limits.most) × (limits.most ≤ most_bytes) × (0 < limits.workers) × (limits.workers ≤ 64) }
{
    let Limits {
        first,
        window,
        most,
        workers,
    } = limits;
    let (store, mut passes) = RingStore::<V, N>::new(
        alloc, jobs, sizes, first, window, most, workers,
    )?;
    all_work(rt, &store, passes.as_mut_slice(), maker);
    lines(alloc, store.into_tape(passes))
}

pub fn by_threads<R: Threads + Wait + Sync, M: Maker<Plain> + Sync>(
    rt: &R,
    alloc: Global,
    jobs: &[u32],
    sizes: &[u32],
    limits: Limits,
    maker: &M,
) -> Result<Vec<Line>, NoMemory>
    requires jobs { (0 < length jobs.now) × (limits.first + length jobs.now ≤ most_blocks) × (length jobs.now ≡ length sizes.now) × (M.jobs maker.now ≡ jobs.now) × (M.first maker.now ≡ limits.first) }
    requires sizes { sum sizes.now ≤ most_bytes }
    requires limits { (0 < limits.window) × (limits.window ≤ 1024) × (0 < limits.most) × (limits.most ≤ most_bytes) × (0 < limits.workers) × (limits.workers ≤ 64) }
{
    shared::<Plain, Brand, R, M>(rt, alloc, jobs, sizes, limits, maker)
}

#[test]
fn four_threads_fill_the_tape(rt: HostRuntime) -> Result<(), Fail> {
    let alloc = rt.alloc();
    let (jobs, sizes) = many(alloc, 0, 20_000, 7)?;
    let limits = Limits {
        first: 0,
        window: 3,
        most: 10,
        workers: 4,
    };
    // The first two wait until two were begun, so more than one worker has some.
    let maker = gated(&jobs, 2, (2, 0), 10_000_000);
    let lines = by_threads(
        &rt,
        alloc,
        jobs.as_slice(),
        sizes.as_slice(),
        limits,
        &maker,
    )?;
    expect_whole(&rt, &lines, limits, 20_000);
    let mut others = 0_u32;
    for line in &lines {
        if line.worker != 0 {
            others = 1;
        }
    }
    equal(&rt, others, 1);
    Ok(())
}

fn gated<'j>(jobs: &'j [u32], held: u32, wanted: (u64, u64), limit: u32) -> Gated<'j>
    ensures jobs { result.plains.jobs.now ≡ jobs.now }
    ensures first { result.plains.first ≡ 0 }
{
    let (begun, made) = wanted;
    Gated::new(
        Plains { first: 0, jobs },
        held,
        Wanted { begun, made },
        limit,
    )
}

fn narrowed(window: u32, most: u32, workers: u32) -> Limits
    ensures { result ≡ record { first = 0; window = window; most = most; workers = workers } }
{
    Limits {
        first: 0,
        window,
        most,
        workers,
    }
}

// The tape of eight jobs of size 1 under these limits, and whether a maker waited in vain that holds so many of them until others
// are begun and made, or until the limit.
fn eight(
    rt: &(impl AllocGlobal + Threads + Wait + Sync),
    limits: Limits,
    held: u32,
    wanted: (u64, u64),
    limit: u32,
) -> Result<(Vec<Line>, bool), NoMemory>
    requires first { limits.first ≡ 0 }
    requires limits { (0 < limits.window) × (limits.window ≤ 1024) × (0 < limits.most) × (limits.most ≤ most_bytes) × (0 < limits.workers) × (limits.workers ≤ 64) }
{
    let jobs = [0, 1, 2, 3, 4, 5, 6, 7];
    let sizes = [1, 1, 1, 1, 1, 1, 1, 1];
    let maker = gated(&jobs, held, wanted, limit);
    let lines = by_threads(rt, rt.alloc(), &jobs, &sizes, limits, &maker)?;
    Ok((lines, maker.has_waited_in_vain()))
}

// Two workers are really at work at once.
#[test]
fn two_at_once(rt: HostRuntime) -> Result<(), Fail> {
    let (lines, in_vain) = eight(&rt, narrowed(8, 8, 2), 2, (2, 0), 10_000_000)?;
    check(&rt, lines.len() == 8 && lines[0].worker != lines[1].worker);
    check(&rt, !in_vain);
    Ok(())
}

// One that is stalled holds back nobody inside the window.
#[test]
fn one_is_stalled(rt: HostRuntime) -> Result<(), Fail> {
    let (lines, in_vain) = eight(&rt, narrowed(8, 8, 2), 1, (0, 7), 10_000_000)?;
    check(&rt, lines.len() == 8);
    check(&rt, !in_vain);
    for line in lines.iter().skip(1) {
        check(&rt, line.seen == 0 && line.worker != lines[0].worker);
    }
    Ok(())
}

// As many workers, and a window as wide, as there may be.
#[test]
fn as_wide_as_may_be(rt: HostRuntime) -> Result<(), Fail> {
    let (lines, _) = eight(&rt, narrowed(1024, 8, 64), 0, (0, 0), 0)?;
    equal(&rt, lines.len(), 8);
    Ok(())
}

// A window of one, and `most` of 1, hold back.
#[test]
fn narrow_windows_hold_back(rt: HostRuntime) -> Result<(), Fail> {
    for limits in [narrowed(1, 8, 2), narrowed(2, 1, 2)] {
        let (lines, in_vain) = eight(&rt, limits, 1, (2, 0), 2_000)?;
        check(&rt, lines.len() == 8 && lines[1].seen == 1);
        check(&rt, in_vain);
    }
    Ok(())
}
