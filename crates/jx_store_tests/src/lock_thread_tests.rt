//! Four threads on one lock store.

ghost use Rattle.std.specs.Prelude.{◌≡◌, ◌+◌, ◌<◌, ◌≤◌, All, None, length};
ghost use Rattle.std.specs.List.{sum};
ghost use Rattle.jx_base.specs.Limits.{most_blocks, most_bytes};

use crate::works::{Limits, Line, Maker, Plain, Plains, blanks, expect_whole, lines, many};
use jx_base::NoMemory;
use jx_store::{Bounds, ClaimAnswer, Work};
use jx_store_plain::{Blanks, LockStore, Pass};
use std::alloc::Global;
use std::marker::Brand;
use std::sync::Wait;
use std::sync::ledger::Ledger;
use std::test::Fail;
use std::thread;
use std::thread::Threads;

// Claims and commits until all are claimed.
fn work<
    V: Work,
    N: Bounds<V::Job>,
    A: Ledger,
    B: Ledger,
    C: Ledger,
    D: Ledger,
    E: Ledger,
    R: Wait,
    M: Maker<V>,
>(rt: &R, store: &LockStore<V, N, A, B, C, D, E>, pass: &mut Pass<N, A, B, C, D, E>, maker: &M)
    requires named { (M.first maker.now ≡ N.setup.first) × (M.jobs maker.now ≡ N.jobs) }
    requires free { pass.old.holds ≡ None }
    ensures { pass.new.holds ≡ None }
{
    for _ in rt.forever() {
        match store.claim(rt, pass) {
            ClaimAnswer::Claim(claim) => {
                let named = maker.make(claim.number());
                store.commit(rt, pass, claim, named);
            }
            ClaimAnswer::Full {
                next: _,
                drained: _,
            } => thread::yield_now(),
            ClaimAnswer::AllClaimed => return,
        }
    }
    unreachable!()
}

// A worker for each pass.
fn all_work<
    V: Work + Send,
    N: Bounds<V::Job> + Send + Sync,
    A: Ledger + Send + Sync,
    B: Ledger + Send + Sync,
    C: Ledger + Send + Sync,
    D: Ledger + Send + Sync,
    E: Ledger + Send + Sync,
    R: Threads + Wait + Sync,
    M: Maker<V> + Sync,
>(rt: &R, store: &LockStore<V, N, A, B, C, D, E>, passes: &mut [Pass<N, A, B, C, D, E>], maker: &M)
    requires some { 0 < length passes.old }
    requires named { (M.first maker.now ≡ N.setup.first) × (M.jobs maker.now ≡ N.jobs) }
    requires free { All (λ p. p.holds ≡ None) passes.old }
    ensures { All (λ p. p.holds ≡ None) passes.new }
{
    let threads = passes.len();
    thread::for_each_mut(
        rt,
        passes,
        threads,
        &|_, pass: &mut Pass<N, A, B, C, D, E>|
            requires { (pass.old.holds ≡ None) × (M.first maker.now ≡ N.setup.first) × (M.jobs maker.now ≡ N.jobs) }
            ensures { pass.new.holds ≡ None }
        { work(rt, store, pass, maker) },
    );
}

fn shared<
    V: Work + Send,
    N: Bounds<V::Job> + Send + Sync,
    A: Ledger + Send + Sync,
    B: Ledger + Send + Sync,
    C: Ledger + Send + Sync,
    D: Ledger + Send + Sync,
    E: Ledger + Send + Sync,
    R: Threads + Wait + Sync,
    M: Maker<V> + Sync,
>(
    rt: &R,
    alloc: Global,
    jobs: &[V::Job],
    sizes: &[u32],
    limits: Limits,
    maker: &M,
    blanks: Blanks,
) -> Result<Vec<Line>, NoMemory>
    requires bounds { (N.setup ≡ record { first = limits.first; sizes = sizes.now; window = limits.window; most = limits.most }) × (N.workers ≡ limits.workers) × (N.jobs ≡ jobs.now) }
    requires jobs { (0 < length jobs.now) × (limits.first + length jobs.now ≤ most_blocks) × (length jobs.now ≡ length sizes.now) × (M.jobs maker.now ≡ jobs.now) × (M.first maker.now ≡ limits.first) }
    requires sizes { sum sizes.now ≤ most_bytes }
    requires limits { (0 < limits.window) × (limits.window ≤ 1024) × (0 < limits.most) × (limits.most ≤ most_bytes) × (0 < limits.workers) × (limits.workers ≤ 64) }
    requires names { (blanks.claimed.name ≡ A.name) × (blanks.full.name ≡ B.name) × (blanks.all_claimed.name ≡ C.name) × (blanks.committed.name ≡ D.name) × (blanks.made.name ≡ E.name) }
    requires parts { (blanks.claimed.parts ≡ A.parts) × (blanks.full.parts ≡ B.parts) × (blanks.all_claimed.parts ≡ C.parts) × (blanks.committed.parts ≡ D.parts) × (blanks.made.parts ≡ E.parts) }
    requires each { (A.parts ≡ limits.workers) × (B.parts ≡ limits.workers) × (C.parts ≡ limits.workers) × (D.parts ≡ limits.workers) × (E.parts ≡ limits.workers) }
{
    let (store, mut passes) = LockStore::<V, N, A, B, C, D, E>::new(
        alloc,
        jobs,
        sizes,
        limits.first,
        limits.window,
        limits.most,
        limits.workers,
        blanks,
    )?;
    all_work(rt, &store, passes.as_mut_slice(), maker);
    lines(alloc, store.into_tape(passes))
}

pub fn by_threads<R: Threads + Wait + Sync, M: Maker<Plain> + Sync>(
    rt: &R,
    alloc: Global,
    jobs: &[u32],
    sizes: &[u32],
    limits: Limits,
    maker: &M,
) -> Result<Vec<Line>, NoMemory>
    requires jobs { (0 < length jobs.now) × (limits.first + length jobs.now ≤ most_blocks) × (length jobs.now ≡ length sizes.now) × (M.jobs maker.now ≡ jobs.now) × (M.first maker.now ≡ limits.first) }
    requires sizes { sum sizes.now ≤ most_bytes }
    requires limits { (0 < limits.window) × (limits.window ≤ 1024) × (0 < limits.most) × (limits.most ≤ most_bytes) × (0 < limits.workers) × (limits.workers ≤ 64) }
{
    shared::<Plain, Brand, Brand, Brand, Brand, Brand, Brand, R, M>(
        rt,
        alloc,
        jobs,
        sizes,
        limits,
        maker,
        blanks(limits.workers),
    )
}

#[test]
fn four_threads_fill_the_tape(rt: HostRuntime) -> Result<(), Fail> {
    let alloc = rt.alloc();
    let (jobs, sizes) = many(alloc, 0, 1000, 0)?;
    let limits = Limits {
        first: 0,
        window: 3,
        most: 1,
        workers: 4,
    };
    let maker = Plains {
        first: 0,
        jobs: jobs.as_slice(),
    };
    let lines = by_threads(
        &rt,
        alloc,
        jobs.as_slice(),
        sizes.as_slice(),
        limits,
        &maker,
    )?;
    expect_whole(&rt, &lines, limits, 1000);
    Ok(())
}
