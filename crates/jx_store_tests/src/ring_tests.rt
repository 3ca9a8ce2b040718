//! Worked runs through the passes of a ring.

ghost use Rattle.std.specs.Prelude.{◌≡◌, All, None, Some, [], ◌∷◌, length, vec_len};
ghost use Rattle.jx_store.specs.Valid.{IsOf};
ghost use Rattle.jx_ring.specs.Passes.{claim_by};

use crate::checks::{check, equal};
use crate::works::{Counted, Counter, Line, MADE, Maker, SHORT, Text, lines, make_text, written};
use jx_base::NoMemory;
use jx_ring::{Pass, RingStore};
use jx_store::{Bounds, Claim, ClaimAnswer, Named, Work};
use std::alloc::Global;
use std::marker::Brand;
use std::process::Abort;
use std::sync::Wait;
use std::test::Fail;

// Claims this number, told `seen`.
pub fn claims<V: Work, N: Bounds<V::Job>, R: Wait + Abort>(
    rt: &R,
    store: &RingStore<V, N>,
    pass: &mut Pass<V, N>,
    want: u32,
    seen: u32,
) -> Claim
    requires { (pass.old.table ≡ store.now.table.shared.table_id) × (pass.old.holds ≡ None) }
    ensures { (result.number ≡ want) × (pass.new.table ≡ pass.old.table) × (pass.new.worker ≡ pass.old.worker) × (pass.new.holds ≡ Some (claim_by pass.old.worker result.number result.seen 0)) }
{
    match store.claim(rt, pass) {
        ClaimAnswer::Claim(claim) => {
            equal(rt, claim.number(), want);
            equal(rt, claim.seen(), seen);
            claim
        }
        ClaimAnswer::Full {
            next: _,
            drained: _,
        } => panic!(rt; "a window is full"),
        ClaimAnswer::AllClaimed => panic!(rt; "all are claimed"),
    }
}

// Is refused a number: a window is full.
pub fn is_full<V: Work, N: Bounds<V::Job>, R: Wait + Abort>(
    rt: &R,
    store: &RingStore<V, N>,
    pass: &mut Pass<V, N>,
    want: (u32, u32),
)
    requires { (pass.old.table ≡ store.now.table.shared.table_id) × (pass.old.holds ≡ None) }
    ensures { (pass.new.table ≡ pass.old.table) × (pass.new.worker ≡ pass.old.worker) × (pass.new.holds ≡ None) }
{
    match store.claim(rt, pass) {
        ClaimAnswer::Claim(claim) => {
            let (number, _) = claim.spend();
            panic!(rt; "{number} is claimed")
        }
        ClaimAnswer::Full { next, drained } => equal(rt, (next, drained), want),
        ClaimAnswer::AllClaimed => panic!(rt; "all are claimed"),
    }
}

// Is refused a number: all are claimed.
fn is_last<V: Work, N: Bounds<V::Job>, R: Wait + Abort>(
    rt: &R,
    store: &RingStore<V, N>,
    pass: &mut Pass<V, N>,
)
    requires { (pass.old.table ≡ store.now.table.shared.table_id) × (pass.old.holds ≡ None) }
    ensures { (pass.new.table ≡ pass.old.table) × (pass.new.worker ≡ pass.old.worker) × (pass.new.holds ≡ None) }
{
    match store.claim(rt, pass) {
        ClaimAnswer::Claim(claim) => {
            let (number, _) = claim.spend();
            panic!(rt; "{number} is claimed")
        }
        ClaimAnswer::Full {
            next: _,
            drained: _,
        } => panic!(rt; "a window is full"),
        ClaimAnswer::AllClaimed => {}
    }
}

// Commits this, and holds nothing more.
pub fn commits<V: Work, N: Bounds<V::Job>, R: Wait>(
    rt: &R,
    store: &RingStore<V, N>,
    pass: &mut Pass<V, N>,
    claim: Claim,
    named: Named<V>,
)
    requires held { (pass.old.table ≡ store.now.table.shared.table_id) × (pass.old.holds ≡ Some (claim_by pass.old.worker claim.number claim.seen 0)) }
    requires value { IsOf V.number V.job V.bad N.setup.first N.jobs claim.number named }
    ensures { (pass.new.table ≡ pass.old.table) × (pass.new.worker ≡ pass.old.worker) × (pass.new.holds ≡ None) }
{
    store.commit(rt, pass, claim, named);
}

// The tape of a store with these three passes.
pub fn tape<V: Work, N: Bounds<V::Job>>(
    alloc: Global,
    store: RingStore<V, N>,
    first: Pass<V, N>,
    second: Pass<V, N>,
    third: Pass<V, N>,
) -> Result<Vec<Line>, NoMemory>
    requires all { (N.workers ≡ 3) × (first.table ≡ store.table.shared.table_id) × (second.table ≡ store.table.shared.table_id) × (third.table ≡ store.table.shared.table_id) }
    requires none { (first.holds ≡ None) × (second.holds ≡ None) × (third.holds ≡ None) }
{
    let mut passes = Vec::with_capacity(alloc, 3)?;
    passes.push_reserved(first);
    passes.push_reserved(second);
    passes.push_reserved(third);
    lines(alloc, store.into_tape(passes))
}

// The passes of a new store of three workers.
pub fn three<V: Work, N: Bounds<V::Job>>(
    store: &RingStore<V, N>,
    passes: Vec<Pass<V, N>>,
) -> (Pass<V, N>, Pass<V, N>, Pass<V, N>)
    requires count { vec_len passes ≡ 3 }
    requires fresh { All (λ p. (p.table ≡ store.now.table.shared.table_id) × (p.holds ≡ None)) passes.items }
    ensures first { (result.0.table ≡ store.now.table.shared.table_id) × (result.0.holds ≡ None) }
    ensures second { (result.1.table ≡ store.now.table.shared.table_id) × (result.1.holds ≡ None) }
    ensures third { (result.2.table ≡ store.now.table.shared.table_id) × (result.2.holds ≡ None) }
{
    let _store = store;
    let mut passes = passes;
    let Some(third) = passes.pop() else {
        unreachable!()
    };
    let Some(second) = passes.pop() else {
        unreachable!()
    };
    let Some(first) = passes.pop() else {
        unreachable!()
    };
    (first, second, third)
}

// Three workers, of which the second commits before the first, on a window of two.
fn narrow<V: Work, N: Bounds<V::Job>, R: Wait + Abort, M: Maker<V>>(
    rt: &R,
    alloc: Global,
    jobs: &[V::Job],
    maker: &M,
) -> Result<Vec<Line>, NoMemory>
    requires bounds { (N.setup ≡ record { first = 0; sizes = 0 ∷ 0 ∷ 0 ∷ []; window = 2; most = 1 }) × (N.workers ≡ 3) × (N.jobs ≡ jobs.now) }
    requires jobs { (length jobs.now ≡ 3) × (M.jobs maker.now ≡ jobs.now) × (M.first maker.now ≡ 0) }
{
    let (store, passes) = RingStore::<V, N>::new(alloc, jobs, &[0, 0, 0], 0, 2, 1, 3)?;
    let (mut first, mut second, mut third) = three(&store, passes);
    narrow_steps::<V, N, R, M>(rt, &store, &mut first, &mut second, &mut third, maker);
    tape(alloc, store, first, second, third)
}

// What its workers do.
fn narrow_steps<V: Work, N: Bounds<V::Job>, R: Wait + Abort, M: Maker<V>>(
    rt: &R,
    store: &RingStore<V, N>,
    first: &mut Pass<V, N>,
    second: &mut Pass<V, N>,
    third: &mut Pass<V, N>,
    maker: &M,
)
    requires bounds { (N.setup ≡ record { first = 0; sizes = 0 ∷ 0 ∷ 0 ∷ []; window = 2; most = 1 }) × (N.workers ≡ 3) }
    requires jobs { (length N.jobs ≡ 3) × (M.jobs maker.now ≡ N.jobs) × (M.first maker.now ≡ 0) }
    requires tables { (first.old.table ≡ store.now.table.shared.table_id) × (second.old.table ≡ store.now.table.shared.table_id) × (third.old.table ≡ store.now.table.shared.table_id) }
    requires free { (first.old.holds ≡ None) × (second.old.holds ≡ None) × (third.old.holds ≡ None) }
    ensures tables { (first.new.table ≡ store.now.table.shared.table_id) × (second.new.table ≡ store.now.table.shared.table_id) × (third.new.table ≡ store.now.table.shared.table_id) }
    ensures free { (first.new.holds ≡ None) × (second.new.holds ≡ None) × (third.new.holds ≡ None) }
{
    let zero = claims(rt, store, first, 0, 0);
    let one = claims(rt, store, second, 1, 0);
    is_full(rt, store, third, (2, 0));
    commits(rt, store, second, one, maker.make(1));
    commits(rt, store, first, zero, maker.make(0));
    let two = claims(rt, store, first, 2, 1);
    is_last(rt, store, third);
    commits(rt, store, first, two, maker.make(2));
}

// Three workers, of which the last commits first and the second finds no memory.
fn short<V: Work, N: Bounds<V::Job>, R: Wait + Abort, M: Maker<V>>(
    rt: &R,
    alloc: Global,
    jobs: &[V::Job],
    maker: &M,
) -> Result<Vec<Line>, NoMemory>
    requires bounds { (N.setup ≡ record { first = 0; sizes = 0 ∷ 0 ∷ 0 ∷ []; window = 3; most = 1 }) × (N.workers ≡ 3) × (N.jobs ≡ jobs.now) }
    requires jobs { (length jobs.now ≡ 3) × (M.jobs maker.now ≡ jobs.now) × (M.first maker.now ≡ 0) }
{
    let (store, passes) = RingStore::<V, N>::new(alloc, jobs, &[0, 0, 0], 0, 3, 1, 3)?;
    let (mut first, mut second, mut third) = three(&store, passes);
    short_steps::<V, N, R, M>(rt, &store, &mut first, &mut second, &mut third, maker);
    tape(alloc, store, first, second, third)
}

// What its workers do.
fn short_steps<V: Work, N: Bounds<V::Job>, R: Wait + Abort, M: Maker<V>>(
    rt: &R,
    store: &RingStore<V, N>,
    first: &mut Pass<V, N>,
    second: &mut Pass<V, N>,
    third: &mut Pass<V, N>,
    maker: &M,
)
    requires bounds { (N.setup ≡ record { first = 0; sizes = 0 ∷ 0 ∷ 0 ∷ []; window = 3; most = 1 }) × (N.workers ≡ 3) }
    requires jobs { (length N.jobs ≡ 3) × (M.jobs maker.now ≡ N.jobs) × (M.first maker.now ≡ 0) }
    requires tables { (first.old.table ≡ store.now.table.shared.table_id) × (second.old.table ≡ store.now.table.shared.table_id) × (third.old.table ≡ store.now.table.shared.table_id) }
    requires free { (first.old.holds ≡ None) × (second.old.holds ≡ None) × (third.old.holds ≡ None) }
    ensures tables { (first.new.table ≡ store.now.table.shared.table_id) × (second.new.table ≡ store.now.table.shared.table_id) × (third.new.table ≡ store.now.table.shared.table_id) }
    ensures free { (first.new.holds ≡ None) × (second.new.holds ≡ None) × (third.new.holds ≡ None) }
{
    let zero = claims(rt, store, first, 0, 0);
    let one = claims(rt, store, second, 1, 0);
    let two = claims(rt, store, third, 2, 0);
    commits(rt, store, third, two, maker.make(2));
    commits(rt, store, first, zero, maker.make(0));
    commits(rt, store, second, one, Named::Short(1));
}

// Sizes below, at and above `most`, from a first number on.
fn heavy<V: Work, N: Bounds<V::Job>, R: Wait + Abort, M: Maker<V>>(
    rt: &R,
    alloc: Global,
    jobs: &[V::Job],
    maker: &M,
) -> Result<Vec<Line>, NoMemory>
    requires bounds { (N.setup ≡ record { first = 7; sizes = 5 ∷ 5 ∷ 6 ∷ []; window = 2; most = 10 }) × (N.workers ≡ 3) × (N.jobs ≡ jobs.now) }
    requires jobs { (length jobs.now ≡ 3) × (M.jobs maker.now ≡ jobs.now) × (M.first maker.now ≡ 7) }
{
    let (store, passes) = RingStore::<V, N>::new(alloc, jobs, &[5, 5, 6], 7, 2, 10, 3)?;
    let (mut first, mut second, mut third) = three(&store, passes);
    heavy_steps::<V, N, R, M>(rt, &store, &mut first, &mut second, &mut third, maker);
    tape(alloc, store, first, second, third)
}

// What its workers do.
fn heavy_steps<V: Work, N: Bounds<V::Job>, R: Wait + Abort, M: Maker<V>>(
    rt: &R,
    store: &RingStore<V, N>,
    first: &mut Pass<V, N>,
    second: &mut Pass<V, N>,
    third: &mut Pass<V, N>,
    maker: &M,
)
    requires bounds { (N.setup ≡ record { first = 7; sizes = 5 ∷ 5 ∷ 6 ∷ []; window = 2; most = 10 }) × (N.workers ≡ 3) }
    requires jobs { (length N.jobs ≡ 3) × (M.jobs maker.now ≡ N.jobs) × (M.first maker.now ≡ 7) }
    requires tables { (first.old.table ≡ store.now.table.shared.table_id) × (second.old.table ≡ store.now.table.shared.table_id) × (third.old.table ≡ store.now.table.shared.table_id) }
    requires free { (first.old.holds ≡ None) × (second.old.holds ≡ None) × (third.old.holds ≡ None) }
    ensures tables { (first.new.table ≡ store.now.table.shared.table_id) × (second.new.table ≡ store.now.table.shared.table_id) × (third.new.table ≡ store.now.table.shared.table_id) }
    ensures free { (first.new.holds ≡ None) × (second.new.holds ≡ None) × (third.new.holds ≡ None) }
{
    let zero = claims(rt, store, first, 7, 7);
    let one = claims(rt, store, second, 8, 7);
    commits(rt, store, first, zero, maker.make(7));
    is_full(rt, store, third, (9, 8));
    commits(rt, store, second, one, maker.make(8));
    let two = claims(rt, store, third, 9, 9);
    commits(rt, store, third, two, maker.make(9));
}

// A window of one.
fn single<V: Work, N: Bounds<V::Job>, R: Wait + Abort, M: Maker<V>>(
    rt: &R,
    alloc: Global,
    jobs: &[V::Job],
    maker: &M,
) -> Result<Vec<Line>, NoMemory>
    requires bounds { (N.setup ≡ record { first = 7; sizes = 9 ∷ 0 ∷ 9 ∷ []; window = 1; most = 1 }) × (N.workers ≡ 3) × (N.jobs ≡ jobs.now) }
    requires jobs { (length jobs.now ≡ 3) × (M.jobs maker.now ≡ jobs.now) × (M.first maker.now ≡ 7) }
{
    let (store, passes) = RingStore::<V, N>::new(alloc, jobs, &[9, 0, 9], 7, 1, 1, 3)?;
    let (mut first, mut second, mut third) = three(&store, passes);
    single_steps::<V, N, R, M>(rt, &store, &mut first, &mut second, &mut third, maker);
    tape(alloc, store, first, second, third)
}

// What its workers do.
fn single_steps<V: Work, N: Bounds<V::Job>, R: Wait + Abort, M: Maker<V>>(
    rt: &R,
    store: &RingStore<V, N>,
    first: &mut Pass<V, N>,
    second: &mut Pass<V, N>,
    third: &mut Pass<V, N>,
    maker: &M,
)
    requires bounds { (N.setup ≡ record { first = 7; sizes = 9 ∷ 0 ∷ 9 ∷ []; window = 1; most = 1 }) × (N.workers ≡ 3) }
    requires jobs { (length N.jobs ≡ 3) × (M.jobs maker.now ≡ N.jobs) × (M.first maker.now ≡ 7) }
    requires tables { (first.old.table ≡ store.now.table.shared.table_id) × (second.old.table ≡ store.now.table.shared.table_id) × (third.old.table ≡ store.now.table.shared.table_id) }
    requires free { (first.old.holds ≡ None) × (second.old.holds ≡ None) × (third.old.holds ≡ None) }
    ensures tables { (first.new.table ≡ store.now.table.shared.table_id) × (second.new.table ≡ store.now.table.shared.table_id) × (third.new.table ≡ store.now.table.shared.table_id) }
    ensures free { (first.new.holds ≡ None) × (second.new.holds ≡ None) × (third.new.holds ≡ None) }
{
    let _third = third;
    let zero = claims(rt, store, first, 7, 7);
    is_full(rt, store, second, (8, 7));
    commits(rt, store, first, zero, maker.make(7));
    let one = claims(rt, store, second, 8, 8);
    commits(rt, store, second, one, maker.make(8));
}

pub type Runs = (Vec<Line>, Vec<Line>);

fn from_nothing<'a, R: Wait + Abort>(
    rt: &R,
    alloc: Global,
    jobs: &'a [Text<'a>],
) -> Result<Runs, NoMemory>
    requires { length jobs.now ≡ 3 }
{
    let maker = Counter { first: 0, jobs };
    let one = narrow::<Counted<'a>, Brand, R, Counter<'a>>(rt, alloc, jobs, &maker)?;
    let other = short::<Counted<'a>, Brand, R, Counter<'a>>(rt, alloc, jobs, &maker)?;
    Ok((one, other))
}

fn from_seven<'a, R: Wait + Abort>(
    rt: &R,
    alloc: Global,
    jobs: &'a [Text<'a>],
) -> Result<Runs, NoMemory>
    requires { length jobs.now ≡ 3 }
{
    let maker = Counter { first: 7, jobs };
    let one = heavy::<Counted<'a>, Brand, R, Counter<'a>>(rt, alloc, jobs, &maker)?;
    let other = single::<Counted<'a>, Brand, R, Counter<'a>>(rt, alloc, jobs, &maker)?;
    Ok((one, other))
}

#[test]
fn three_passes_share_a_ring(rt: HostRuntime) -> Result<(), Fail> {
    let low = [make_text(0), make_text(1), make_text(2)];
    let runs = from_nothing(&rt, rt.alloc(), &low)?;
    let narrow = [
        written(0, 0, 0, MADE),
        written(1, 1, 0, MADE),
        written(2, 0, 1, MADE),
    ];
    let short = [
        written(0, 0, 0, MADE),
        written(1, 1, 0, SHORT),
        written(2, 2, 0, MADE),
    ];
    check(&rt, runs.0.as_slice() == narrow.as_slice());
    check(&rt, runs.1.as_slice() == short.as_slice());
    let high = [make_text(7), make_text(8), make_text(9)];
    let runs = from_seven(&rt, rt.alloc(), &high)?;
    let heavy = [
        written(7, 0, 7, MADE),
        written(8, 1, 7, MADE),
        written(9, 2, 9, MADE),
    ];
    let single = [written(7, 0, 7, MADE), written(8, 1, 8, MADE)];
    check(&rt, runs.0.as_slice() == heavy.as_slice());
    check(&rt, runs.1.as_slice() == single.as_slice());
    Ok(())
}
