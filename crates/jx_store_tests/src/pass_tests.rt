//! Worked runs through three passes of a lock store.

ghost use Rattle.std.specs.Prelude.{◌≡◌, None, [], ◌∷◌, length};

use crate::checks::check;
use crate::works::{
    ALL_CLAIMED, Counted, Counter, Line, MADE, Maker, Plain, Plains, SHORT, Text, blanks, claims,
    commits, full, is_refused, lines, written,
};
use jx_base::NoMemory;
use jx_store::{Bounds, Named, Work};
use jx_store_plain::{Blanks, LockStore, Pass};
use std::alloc::Global;
use std::marker::Brand;
use std::process::Abort;
use std::sync::Wait;
use std::sync::ledger::Ledger;
use std::test::Fail;

// The tape of a store with these three passes.
fn tape<V: Work, N: Bounds<V::Job>, A: Ledger, B: Ledger, C: Ledger, D: Ledger, E: Ledger>(
    alloc: Global,
    store: LockStore<V, N, A, B, C, D, E>,
    first: Pass<N, A, B, C, D, E>,
    second: Pass<N, A, B, C, D, E>,
    third: Pass<N, A, B, C, D, E>,
) -> Result<Vec<Line>, NoMemory>
    requires each { (A.parts ≡ 3) × (D.parts ≡ 3) }
    requires none { (first.holds ≡ None) × (second.holds ≡ None) × (third.holds ≡ None) }
{
    let mut passes = Vec::with_capacity(alloc, 3)?;
    passes.push_reserved(first);
    passes.push_reserved(second);
    passes.push_reserved(third);
    lines(alloc, store.into_tape(passes))
}

// Three workers, of which the second commits before the first, on a window of two.
fn narrow<
    V: Work,
    N: Bounds<V::Job>,
    A: Ledger,
    B: Ledger,
    C: Ledger,
    D: Ledger,
    E: Ledger,
    R: Wait + Abort,
    M: Maker<V>,
>(rt: &R, alloc: Global, jobs: &[V::Job], maker: &M, blanks: Blanks) -> Result<Vec<Line>, NoMemory>
    requires bounds { (N.setup ≡ record { first = 0; sizes = 0 ∷ 0 ∷ 0 ∷ []; window = 2; most = 1 }) × (N.workers ≡ 3) × (N.jobs ≡ jobs.now) }
    requires jobs { (length jobs.now ≡ 3) × (M.jobs maker.now ≡ jobs.now) × (M.first maker.now ≡ 0) }
    requires names { (blanks.claimed.name ≡ A.name) × (blanks.full.name ≡ B.name) × (blanks.all_claimed.name ≡ C.name) × (blanks.committed.name ≡ D.name) × (blanks.made.name ≡ E.name) }
    requires parts { (blanks.claimed.parts ≡ A.parts) × (blanks.full.parts ≡ B.parts) × (blanks.all_claimed.parts ≡ C.parts) × (blanks.committed.parts ≡ D.parts) × (blanks.made.parts ≡ E.parts) }
    requires each { (A.parts ≡ 3) × (B.parts ≡ 3) × (C.parts ≡ 3) × (D.parts ≡ 3) × (E.parts ≡ 3) }
{
    let (store, mut passes) = LockStore::<V, N, A, B, C, D, E>::new(
        alloc,
        jobs,
        &[0, 0, 0],
        0,
        2,
        1,
        3,
        blanks,
    )?;
    let Some(mut third) = passes.pop() else {
        unreachable!()
    };
    let Some(mut second) = passes.pop() else {
        unreachable!()
    };
    let Some(mut first) = passes.pop() else {
        unreachable!()
    };
    narrow_steps(rt, &store, &mut first, &mut second, &mut third, maker);
    tape(alloc, store, first, second, third)
}

// What its workers do.
fn narrow_steps<
    V: Work,
    N: Bounds<V::Job>,
    A: Ledger,
    B: Ledger,
    C: Ledger,
    D: Ledger,
    E: Ledger,
    R: Wait + Abort,
    M: Maker<V>,
>(
    rt: &R,
    store: &LockStore<V, N, A, B, C, D, E>,
    first: &mut Pass<N, A, B, C, D, E>,
    second: &mut Pass<N, A, B, C, D, E>,
    third: &mut Pass<N, A, B, C, D, E>,
    maker: &M,
)
    requires bounds { (N.setup ≡ record { first = 0; sizes = 0 ∷ 0 ∷ 0 ∷ []; window = 2; most = 1 }) }
    requires jobs { (length N.jobs ≡ 3) × (M.jobs maker.now ≡ N.jobs) × (M.first maker.now ≡ 0) }
    requires free { (first.old.holds ≡ None) × (second.old.holds ≡ None) × (third.old.holds ≡ None) }
    ensures { (first.new.holds ≡ None) × (second.new.holds ≡ None) × (third.new.holds ≡ None) }
{
    let zero = claims(rt, store, first, 0, 0);
    let one = claims(rt, store, second, 1, 0);
    is_refused(rt, store, third, full(2, 0));
    commits(rt, store, second, one, maker.make(1));
    commits(rt, store, first, zero, maker.make(0));
    let two = claims(rt, store, first, 2, 2);
    is_refused(rt, store, third, ALL_CLAIMED);
    commits(rt, store, first, two, maker.make(2));
}

// Three workers, of which the last commits first and the second finds no memory.
fn short<
    V: Work,
    N: Bounds<V::Job>,
    A: Ledger,
    B: Ledger,
    C: Ledger,
    D: Ledger,
    E: Ledger,
    R: Wait + Abort,
    M: Maker<V>,
>(rt: &R, alloc: Global, jobs: &[V::Job], maker: &M, blanks: Blanks) -> Result<Vec<Line>, NoMemory>
    requires bounds { (N.setup ≡ record { first = 0; sizes = 0 ∷ 0 ∷ 0 ∷ []; window = 3; most = 1 }) × (N.workers ≡ 3) × (N.jobs ≡ jobs.now) }
    requires jobs { (length jobs.now ≡ 3) × (M.jobs maker.now ≡ jobs.now) × (M.first maker.now ≡ 0) }
    requires names { (blanks.claimed.name ≡ A.name) × (blanks.full.name ≡ B.name) × (blanks.all_claimed.name ≡ C.name) × (blanks.committed.name ≡ D.name) × (blanks.made.name ≡ E.name) }
    requires parts { (blanks.claimed.parts ≡ A.parts) × (blanks.full.parts ≡ B.parts) × (blanks.all_claimed.parts ≡ C.parts) × (blanks.committed.parts ≡ D.parts) × (blanks.made.parts ≡ E.parts) }
    requires each { (A.parts ≡ 3) × (B.parts ≡ 3) × (C.parts ≡ 3) × (D.parts ≡ 3) × (E.parts ≡ 3) }
{
    let (store, mut passes) = LockStore::<V, N, A, B, C, D, E>::new(
        alloc,
        jobs,
        &[0, 0, 0],
        0,
        3,
        1,
        3,
        blanks,
    )?;
    let Some(mut third) = passes.pop() else {
        unreachable!()
    };
    let Some(mut second) = passes.pop() else {
        unreachable!()
    };
    let Some(mut first) = passes.pop() else {
        unreachable!()
    };
    short_steps(rt, &store, &mut first, &mut second, &mut third, maker);
    tape(alloc, store, first, second, third)
}

// What its workers do.
fn short_steps<
    V: Work,
    N: Bounds<V::Job>,
    A: Ledger,
    B: Ledger,
    C: Ledger,
    D: Ledger,
    E: Ledger,
    R: Wait + Abort,
    M: Maker<V>,
>(
    rt: &R,
    store: &LockStore<V, N, A, B, C, D, E>,
    first: &mut Pass<N, A, B, C, D, E>,
    second: &mut Pass<N, A, B, C, D, E>,
    third: &mut Pass<N, A, B, C, D, E>,
    maker: &M,
)
    requires bounds { (N.setup ≡ record { first = 0; sizes = 0 ∷ 0 ∷ 0 ∷ []; window = 3; most = 1 }) }
    requires jobs { (length N.jobs ≡ 3) × (M.jobs maker.now ≡ N.jobs) × (M.first maker.now ≡ 0) }
    requires free { (first.old.holds ≡ None) × (second.old.holds ≡ None) × (third.old.holds ≡ None) }
    ensures { (first.new.holds ≡ None) × (second.new.holds ≡ None) × (third.new.holds ≡ None) }
{
    let zero = claims(rt, store, first, 0, 0);
    let one = claims(rt, store, second, 1, 0);
    let two = claims(rt, store, third, 2, 0);
    commits(rt, store, third, two, maker.make(2));
    commits(rt, store, first, zero, maker.make(0));
    commits(rt, store, second, one, Named::Short(1));
}

type Runs = (Vec<Line>, Vec<Line>);

fn plain_runs<'j, R: Wait + Abort>(rt: &R, alloc: Global, jobs: &'j [u32]) -> Result<Runs, NoMemory>
    requires { length jobs.now ≡ 3 }
{
    let maker = Plains { first: 0, jobs };
    let one = narrow::<Plain, Brand, Brand, Brand, Brand, Brand, Brand, R, Plains<'j>>(
        rt,
        alloc,
        jobs,
        &maker,
        blanks(3),
    )?;
    let other = short::<Plain, Brand, Brand, Brand, Brand, Brand, Brand, R, Plains<'j>>(
        rt,
        alloc,
        jobs,
        &maker,
        blanks(3),
    )?;
    Ok((one, other))
}

fn counted_runs<'a, R: Wait + Abort>(
    rt: &R,
    alloc: Global,
    jobs: &'a [Text<'a>],
) -> Result<Runs, NoMemory>
    requires { length jobs.now ≡ 3 }
{
    let maker = Counter { first: 0, jobs };
    let one = narrow::<Counted<'a>, Brand, Brand, Brand, Brand, Brand, Brand, R, Counter<'a>>(
        rt,
        alloc,
        jobs,
        &maker,
        blanks(3),
    )?;
    let other = short::<Counted<'a>, Brand, Brand, Brand, Brand, Brand, Brand, R, Counter<'a>>(
        rt,
        alloc,
        jobs,
        &maker,
        blanks(3),
    )?;
    Ok((one, other))
}

fn are_as_expected<R: Abort>(rt: &R, runs: &Runs) {
    let narrow = [
        written(0, 0, 0, MADE),
        written(1, 1, 0, MADE),
        written(2, 0, 2, MADE),
    ];
    let short = [
        written(0, 0, 0, MADE),
        written(1, 1, 0, SHORT),
        written(2, 2, 0, MADE),
    ];
    check(rt, runs.0.as_slice() == narrow.as_slice());
    check(rt, runs.1.as_slice() == short.as_slice());
}

#[test]
fn three_passes_share_a_store(rt: HostRuntime) -> Result<(), Fail> {
    let plain = plain_runs(&rt, rt.alloc(), &[0, 1, 2])?;
    are_as_expected(&rt, &plain);
    let texts = [
        Text {
            number: 0,
            letters: b"ab",
        },
        Text {
            number: 1,
            letters: b"",
        },
        Text {
            number: 2,
            letters: b"c",
        },
    ];
    let counted = counted_runs(&rt, rt.alloc(), &texts)?;
    are_as_expected(&rt, &counted);
    Ok(())
}
