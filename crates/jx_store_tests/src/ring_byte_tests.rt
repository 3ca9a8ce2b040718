//! A window in bytes.

ghost use Rattle.std.specs.Prelude.{◌≡◌, None, [], ◌∷◌, length};

use crate::checks::check;
use crate::ring_tests::{Runs, claims, commits, is_full, tape, three};
use crate::works::{Counted, Counter, Line, MADE, Maker, Text, make_text, written};
use jx_base::NoMemory;
use jx_ring::{Pass, RingStore};
use jx_store::{Bounds, Work};
use std::alloc::Global;
use std::marker::Brand;
use std::process::Abort;
use std::sync::Wait;
use std::test::Fail;

// Two sizes fill `most`, and three pass it.
fn even<V: Work, N: Bounds<V::Job>, R: Wait + Abort, M: Maker<V>>(
    rt: &R,
    alloc: Global,
    jobs: &[V::Job],
    maker: &M,
) -> Result<Vec<Line>, NoMemory>
    requires bounds { (N.setup ≡ record { first = 0; sizes = 5 ∷ 5 ∷ 5 ∷ []; window = 3; most = 10 }) × (N.workers ≡ 3) × (N.jobs ≡ jobs.now) }
    requires jobs { (length jobs.now ≡ 3) × (M.jobs maker.now ≡ jobs.now) × (M.first maker.now ≡ 0) }
{
    let (store, passes) = RingStore::<V, N>::new(alloc, jobs, &[5, 5, 5], 0, 3, 10, 3)?;
    let (mut first, mut second, mut third) = three(&store, passes);
    even_steps::<V, N, R, M>(rt, &store, &mut first, &mut second, &mut third, maker);
    tape(alloc, store, first, second, third)
}

// What its workers do.
fn even_steps<V: Work, N: Bounds<V::Job>, R: Wait + Abort, M: Maker<V>>(
    rt: &R,
    store: &RingStore<V, N>,
    first: &mut Pass<V, N>,
    second: &mut Pass<V, N>,
    third: &mut Pass<V, N>,
    maker: &M,
)
    requires bounds { (N.setup ≡ record { first = 0; sizes = 5 ∷ 5 ∷ 5 ∷ []; window = 3; most = 10 }) × (N.workers ≡ 3) }
    requires jobs { (length N.jobs ≡ 3) × (M.jobs maker.now ≡ N.jobs) × (M.first maker.now ≡ 0) }
    requires tables { (first.old.table ≡ store.now.table.shared.table_id) × (second.old.table ≡ store.now.table.shared.table_id) × (third.old.table ≡ store.now.table.shared.table_id) }
    requires free { (first.old.holds ≡ None) × (second.old.holds ≡ None) × (third.old.holds ≡ None) }
    ensures tables { (first.new.table ≡ store.now.table.shared.table_id) × (second.new.table ≡ store.now.table.shared.table_id) × (third.new.table ≡ store.now.table.shared.table_id) }
    ensures free { (first.new.holds ≡ None) × (second.new.holds ≡ None) × (third.new.holds ≡ None) }
{
    let zero = claims(rt, store, first, 0, 0);
    let one = claims(rt, store, second, 1, 0);
    is_full(rt, store, third, (2, 0));
    commits(rt, store, first, zero, maker.make(0));
    let two = claims(rt, store, first, 2, 1);
    commits(rt, store, second, one, maker.make(1));
    commits(rt, store, first, two, maker.make(2));
}

// A size alone over `most`.
fn large<V: Work, N: Bounds<V::Job>, R: Wait + Abort, M: Maker<V>>(
    rt: &R,
    alloc: Global,
    jobs: &[V::Job],
    maker: &M,
) -> Result<Vec<Line>, NoMemory>
    requires bounds { (N.setup ≡ record { first = 0; sizes = 20 ∷ 5 ∷ []; window = 2; most = 10 }) × (N.workers ≡ 3) × (N.jobs ≡ jobs.now) }
    requires jobs { (length jobs.now ≡ 2) × (M.jobs maker.now ≡ jobs.now) × (M.first maker.now ≡ 0) }
{
    let (store, passes) = RingStore::<V, N>::new(alloc, jobs, &[20, 5], 0, 2, 10, 3)?;
    let (mut first, mut second, mut third) = three(&store, passes);
    large_steps::<V, N, R, M>(rt, &store, &mut first, &mut second, &mut third, maker);
    tape(alloc, store, first, second, third)
}

// What its workers do.
fn large_steps<V: Work, N: Bounds<V::Job>, R: Wait + Abort, M: Maker<V>>(
    rt: &R,
    store: &RingStore<V, N>,
    first: &mut Pass<V, N>,
    second: &mut Pass<V, N>,
    third: &mut Pass<V, N>,
    maker: &M,
)
    requires bounds { (N.setup ≡ record { first = 0; sizes = 20 ∷ 5 ∷ []; window = 2; most = 10 }) × (N.workers ≡ 3) }
    requires jobs { (length N.jobs ≡ 2) × (M.jobs maker.now ≡ N.jobs) × (M.first maker.now ≡ 0) }
    requires tables { (first.old.table ≡ store.now.table.shared.table_id) × (second.old.table ≡ store.now.table.shared.table_id) × (third.old.table ≡ store.now.table.shared.table_id) }
    requires free { (first.old.holds ≡ None) × (second.old.holds ≡ None) × (third.old.holds ≡ None) }
    ensures tables { (first.new.table ≡ store.now.table.shared.table_id) × (second.new.table ≡ store.now.table.shared.table_id) × (third.new.table ≡ store.now.table.shared.table_id) }
    ensures free { (first.new.holds ≡ None) × (second.new.holds ≡ None) × (third.new.holds ≡ None) }
{
    let _third = third;
    let zero = claims(rt, store, first, 0, 0);
    is_full(rt, store, second, (1, 0));
    commits(rt, store, first, zero, maker.make(0));
    let one = claims(rt, store, second, 1, 1);
    commits(rt, store, second, one, maker.make(1));
}

// Three jobs for one ring, and two for another.
fn by_bytes<'a, R: Wait + Abort>(
    rt: &R,
    alloc: Global,
    jobs: &'a [Text<'a>],
    two: &'a [Text<'a>],
) -> Result<Runs, NoMemory>
    requires { (length jobs.now ≡ 3) × (length two.now ≡ 2) }
{
    let maker = Counter { first: 0, jobs };
    let one = even::<Counted<'a>, Brand, R, Counter<'a>>(rt, alloc, jobs, &maker)?;
    let maker = Counter {
        first: 0,
        jobs: two,
    };
    let other = large::<Counted<'a>, Brand, R, Counter<'a>>(rt, alloc, two, &maker)?;
    Ok((one, other))
}

#[test]
fn a_window_in_bytes(rt: HostRuntime) -> Result<(), Fail> {
    let jobs = [make_text(0), make_text(1), make_text(2)];
    let two = [make_text(0), make_text(1)];
    let runs = by_bytes(&rt, rt.alloc(), &jobs, &two)?;
    let even = [
        written(0, 0, 0, MADE),
        written(1, 1, 0, MADE),
        written(2, 0, 1, MADE),
    ];
    let large = [written(0, 0, 0, MADE), written(1, 1, 1, MADE)];
    check(&rt, runs.0.as_slice() == even.as_slice());
    check(&rt, runs.1.as_slice() == large.as_slice());
    Ok(())
}
