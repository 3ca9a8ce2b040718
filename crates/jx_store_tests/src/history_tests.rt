//! The history of a run through two passes of a lock store.

ghost use Rattle.std.specs.Prelude.{◌≡◌, None, [], ◌∷◌, length};

use crate::checks::{check, equal};
use crate::works::{
    ALL_CLAIMED, Line, MADE, Maker, Plain, Plains, blanks, claims, commits, full, is_refused,
    lines, written,
};
use jx_base::NoMemory;
use jx_store::{Bounds, Work};
use jx_store_plain::{Blanks, History, Kind, LockStore, Pass, Step, Told};
use std::alloc::Global;
use std::marker::Brand;
use std::process::Abort;
use std::sync::Wait;
use std::sync::ledger::Ledger;
use std::test::Fail;

type Run = (Vec<Line>, History);

// The tape and the history of a store with these two passes.
fn told<V: Work, N: Bounds<V::Job>, A: Ledger, B: Ledger, C: Ledger, D: Ledger, E: Ledger>(
    alloc: Global,
    store: LockStore<V, N, A, B, C, D, E>,
    first: Pass<N, A, B, C, D, E>,
    second: Pass<N, A, B, C, D, E>,
) -> Result<Run, NoMemory>
    requires each { (A.parts ≡ 2) × (D.parts ≡ 2) }
    requires none { (first.holds ≡ None) × (second.holds ≡ None) }
{
    let mut passes = Vec::with_capacity(alloc, 2)?;
    passes.push_reserved(first);
    passes.push_reserved(second);
    let Told { tape, history } = store.into_history(passes);
    Ok((lines(alloc, tape)?, history))
}

// Two workers on a window of two, of which the second commits before the first. A full window refuses
// one claim, and three come when all numbers are claimed, one of them before the last commit.
fn two<
    V: Work,
    N: Bounds<V::Job>,
    A: Ledger,
    B: Ledger,
    C: Ledger,
    D: Ledger,
    E: Ledger,
    R: Wait + Abort,
    M: Maker<V>,
>(rt: &R, alloc: Global, jobs: &[V::Job], maker: &M, blanks: Blanks) -> Result<Run, NoMemory>
    requires bounds { (N.setup ≡ record { first = 0; sizes = 0 ∷ 0 ∷ 0 ∷ []; window = 2; most = 1 }) × (N.workers ≡ 2) × (N.jobs ≡ jobs.now) }
    requires jobs { (length jobs.now ≡ 3) × (M.jobs maker.now ≡ jobs.now) × (M.first maker.now ≡ 0) }
    requires names { (blanks.claimed.name ≡ A.name) × (blanks.full.name ≡ B.name) × (blanks.all_claimed.name ≡ C.name) × (blanks.committed.name ≡ D.name) × (blanks.made.name ≡ E.name) }
    requires parts { (blanks.claimed.parts ≡ A.parts) × (blanks.full.parts ≡ B.parts) × (blanks.all_claimed.parts ≡ C.parts) × (blanks.committed.parts ≡ D.parts) × (blanks.made.parts ≡ E.parts) }
    requires each { (A.parts ≡ 2) × (B.parts ≡ 2) × (C.parts ≡ 2) × (D.parts ≡ 2) × (E.parts ≡ 2) }
{
    let (store, mut passes) = LockStore::<V, N, A, B, C, D, E>::new(
        alloc,
        jobs,
        &[0, 0, 0],
        0,
        2,
        1,
        2,
        blanks,
    )?;
    let Some(mut second) = passes.pop() else {
        unreachable!()
    };
    let Some(mut first) = passes.pop() else {
        unreachable!()
    };
    two_steps(rt, &store, &mut first, &mut second, maker);
    told(alloc, store, first, second)
}

// What its workers do.
fn two_steps<
    V: Work,
    N: Bounds<V::Job>,
    A: Ledger,
    B: Ledger,
    C: Ledger,
    D: Ledger,
    E: Ledger,
    R: Wait + Abort,
    M: Maker<V>,
>(
    rt: &R,
    store: &LockStore<V, N, A, B, C, D, E>,
    first: &mut Pass<N, A, B, C, D, E>,
    second: &mut Pass<N, A, B, C, D, E>,
    maker: &M,
)
    requires bounds { (N.setup ≡ record { first = 0; sizes = 0 ∷ 0 ∷ 0 ∷ []; window = 2; most = 1 }) }
    requires jobs { (length N.jobs ≡ 3) × (M.jobs maker.now ≡ N.jobs) × (M.first maker.now ≡ 0) }
    requires free { (first.old.holds ≡ None) × (second.old.holds ≡ None) }
    ensures { (first.new.holds ≡ None) × (second.new.holds ≡ None) }
{
    let zero = claims(rt, store, first, 0, 0);
    let one = claims(rt, store, second, 1, 0);
    commits(rt, store, second, one, maker.make(1));
    is_refused(rt, store, second, full(2, 0));
    commits(rt, store, first, zero, maker.make(0));
    let two = claims(rt, store, second, 2, 2);
    is_refused(rt, store, first, ALL_CLAIMED);
    commits(rt, store, second, two, maker.make(2));
    is_refused(rt, store, second, ALL_CLAIMED);
    is_refused(rt, store, first, ALL_CLAIMED);
}

fn plain_run<'j, R: Wait + Abort>(rt: &R, alloc: Global, jobs: &'j [u32]) -> Result<Run, NoMemory>
    requires { length jobs.now ≡ 3 }
{
    let maker = Plains { first: 0, jobs };
    two::<Plain, Brand, Brand, Brand, Brand, Brand, Brand, R, Plains<'j>>(
        rt,
        alloc,
        jobs,
        &maker,
        blanks(2),
    )
}

fn step(full: u64, all: u64, kind: Kind) -> Step {
    Step { full, all, kind }
}

fn claimed_by(worker: u32) -> Step {
    step(0, 0, Kind::Claims { worker })
}

#[test]
fn the_history_is_what_was_done(rt: HostRuntime) -> Result<(), Fail> {
    let (lines, history) = plain_run(&rt, rt.alloc(), &[0, 1, 2])?;
    let steps = [
        claimed_by(0),
        claimed_by(1),
        step(
            0,
            0,
            Kind::Commits {
                worker: 1,
                number: 1,
            },
        ),
        step(
            1,
            0,
            Kind::Commits {
                worker: 0,
                number: 0,
            },
        ),
        step(0, 0, Kind::Drains),
        step(0, 0, Kind::Drains),
        claimed_by(1),
        step(
            0,
            1,
            Kind::Commits {
                worker: 1,
                number: 2,
            },
        ),
        step(0, 0, Kind::Drains),
    ];
    check(&rt, history.steps() == steps.as_slice());
    equal(&rt, (history.full(), history.all()), (0, 2));
    let tape = [
        written(0, 0, 0, MADE),
        written(1, 1, 0, MADE),
        written(2, 1, 2, MADE),
    ];
    check(&rt, lines.as_slice() == tape.as_slice());
    Ok(())
}
