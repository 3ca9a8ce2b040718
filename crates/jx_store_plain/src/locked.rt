//! What lies under the lock: the core, its history, and the sums of all passes' counts.
ghost use Rattle.std.specs.Prelude.{◌≡◌, ◌<◌, ◌≤◌, ◌+◌, ◌-◌, ◌*◌, ◌^◌, IfOk, None, Some, List, length, map, ℕ, slice_get, vec_len, vec_capacity};
ghost use Rattle.std.specs.List.{sum};
ghost use Rattle.jx_store.specs.declared.event.Taped.{Taped};
ghost use Rattle.jx_store.specs.declared.event.Event.{Event};
ghost use Rattle.jx_store.specs.declared.event.Event.TheVariants.{Claim as Asks, Commit as HandsIn};
ghost use Rattle.jx_store.specs.declared.work.Named.{Named};
ghost use Rattle.jx_store.specs.Setup.{Within};
ghost use Rattle.jx_store.specs.Machine.{start, does, runs};
ghost use Rattle.jx_store.specs.Order.{numbers};
ghost use Rattle.jx_store_plain.specs.Answers.{Tells, counted};
ghost use Rattle.jx_store_plain.specs.Replies.{replied};
ghost use Rattle.jx_store_plain.specs.Notes.{no_notes, note, count_full, count_all, count_claims, count_commits};
ghost use Rattle.jx_store_plain.specs.Recorded.{Settled};
ghost use Rattle.jx_store_plain.specs.Replays.{Remembers};
ghost use Rattle.jx_store_plain.specs.Shown.{state_of};
ghost use Rattle.jx_store_plain.specs.ShownNotes.{shown};
ghost use Rattle.jx_store.specs.Valid.{IsOf};
ghost use Rattle.jx_store_plain.specs.Below.{AllBelow};
ghost use Rattle.jx_store_plain.specs.Made.{made_in, made_on};
ghost use Rattle.jx_base.specs.Limits.{most_blocks, most_bytes};

use crate::history::{History, Kind, Told};
use crate::kernel::Core;
use crate::pass::{Books, Pass, Shares};
use crate::values::one_made;
use jx_base::NoMemory;
use jx_store::{Bounds, Claim, ClaimAnswer, Event, Named, Reply, Taped, Work};
use std::alloc::Global;
use std::marker::{Model, PhantomData};
use std::sync::Wait;
use std::sync::ledger::{Book, Ledger, Share};

/// The value under a store's lock. Whenever the lock is free, the history is one of legal events
/// that replays to the core's state, the next number in sequence isn't parked, each parked value is
/// of its number, and the four sums are the numbers of these replies in the history. As many values
/// are parked or on the tape as were committed, and each worker's number is below the number of passes.
#[derive(Drop)]
pub struct Locked<
    V: Work,
    N: Bounds<V::Job>,
    A: Ledger,
    B: Ledger,
    C: Ledger,
    D: Ledger,
    E: Ledger,
> {
    core: Core<Named<V>>,
    history: History,
    claims: u64,
    fulls: u64,
    alls: u64,
    commits: u64,
    values: u64,
    claimed: Book<A>,
    full: Book<B>,
    all_claimed: Book<C>,
    committed: Book<D>,
    made: Book<E>,
    of: PhantomData<N>,
}

impl<V: Work, N: Bounds<V::Job>, A: Ledger, B: Ledger, C: Ledger, D: Ledger, E: Ledger> Model
    for Locked<V, N, A, B, C, D, E> {
    ghost use Rattle.std.specs.Prelude.{◌≡◌, ◌<◌, ◌≤◌, ◌+◌, ◌-◌, ◌*◌, None, List, length, vec_capacity};
    ghost use Rattle.jx_store.specs.declared.work.Named.{Named};
    ghost use Rattle.jx_store_plain.specs.Shown.{state_of};
    ghost use Rattle.jx_store_plain.specs.LockView.{LockView};
    ghost use Rattle.jx_store_plain.specs.Kept.{Kept};
    ghost use Rattle.jx_store_plain.specs.Below.{AllBelow};
    ghost use Rattle.jx_store_plain.specs.Made.{made_in};
    ghost use Rattle.jx_store_plain.specs.Valid.{AllOf};
    ghost use Rattle.jx_store.specs.Valid.{IsOf};
    ghost use Rattle.jx_store_plain.specs.Recorded.{Recorded};
    ghost use Rattle.jx_store_plain.specs.Notes.{count_full, count_all, count_claims, count_commits};
    ghost use Rattle.jx_store_plain.specs.ShownNotes.{shown};

    ghost Value = { LockView (Named V) };

    ghost view = { λ h. record { core = h.core; notes = shown h.history } };

    ghost invariant = { λ h. record {
      some : 0 < N.setup.window;
      kept : Kept N.setup h.claims h.commits (state_of h.core);
      idle : (state_of h.core).parked h.core.drained ≡ None;
      valid : AllOf (IsOf V.number V.job V.bad N.setup.first N.jobs) (state_of h.core);
      claimed : h.claims ≡ h.claimed.total;
      full : h.fulls ≡ h.full.total;
      all_claimed : h.alls ≡ h.all_claimed.total;
      committed : h.commits ≡ h.committed.total;
      made : h.values ≡ h.made.total;
      below : AllBelow A.parts (state_of h.core);
      recorded : Recorded N.setup (shown h.history) (state_of h.core);
      long : length h.history.steps.items + h.core.setup.first ≡ h.claims + h.commits + h.core.drained;
      claims_are : count_claims (shown h.history) ≡ h.claims;
      fulls_are : count_full (shown h.history) ≡ h.fulls;
      alls_are : count_all (shown h.history) ≡ h.alls;
      commits_are : count_commits (shown h.history) ≡ h.commits;
      values_are : made_in (state_of h.core) ≡ h.values;
      few : h.values ≤ h.commits;
      room : 3 * length N.setup.sizes ≤ vec_capacity h.history.steps;
    } };
}

impl<V: Work, N: Bounds<V::Job>, A: Ledger, B: Ledger, C: Ledger, D: Ledger, E: Ledger> Locked<
    V,
    N,
    A,
    B,
    C,
    D,
    E,
> {
    /// The value of a new store: nothing happened yet.
    pub fn new(
        alloc: Global,
        first: u32,
        sizes: &[u32],
        window: u32,
        most: u32,
        books: (Book<A>, Book<B>, Book<C>, Book<D>),
        made: Book<E>,
    ) -> Result<Locked<V, N, A, B, C, D, E>, NoMemory>
        requires bounds { N.setup ≡ record { first = first; sizes = sizes.now; window = window; most = most } }
        requires count { (0 < length sizes.now) × (first + length sizes.now ≤ most_blocks) }
        requires sizes { sum sizes.now ≤ most_bytes }
        requires window { (0 < window) × (window ≤ 1024) }
        requires most { (0 < most) × (most ≤ most_bytes) }
        requires empty { (books.0.total ≡ 0) × (books.1.total ≡ 0) × (books.2.total ≡ 0) × (books.3.total ≡ 0) }
        requires none_made { made.total ≡ 0 }
        ensures { IfOk result (λ h. (state_of h.core ≡ start N.setup) × (h.notes ≡ no_notes)) }
    {
        let (claimed, full, all_claimed, committed) = books;
        let books = Books {
            claimed,
            full,
            all_claimed,
            committed,
            made,
        };
        Locked::with_books(alloc, first, sizes, window, most, books)
    }

    // The value of a new store, over these books.
    pub(crate) fn with_books(
        alloc: Global,
        first: u32,
        sizes: &[u32],
        window: u32,
        most: u32,
        books: Books<A, B, C, D, E>,
    ) -> Result<Locked<V, N, A, B, C, D, E>, NoMemory>
        requires bounds { N.setup ≡ record { first = first; sizes = sizes.now; window = window; most = most } }
        requires count { (0 < length sizes.now) × (first + length sizes.now ≤ most_blocks) }
        requires sizes { sum sizes.now ≤ most_bytes }
        requires window { (0 < window) × (window ≤ 1024) }
        requires most { (0 < most) × (most ≤ most_bytes) }
        requires empty { (books.claimed.total ≡ 0) × (books.full.total ≡ 0) × (books.all_claimed.total ≡ 0) × (books.committed.total ≡ 0) × (books.made.total ≡ 0) }
        ensures { IfOk result (λ h. (state_of h.core ≡ start N.setup) × (h.notes ≡ no_notes)) }
    {
        let core = Core::new(alloc, first, sizes, window, most)?;
        let history = History::new(alloc, 3 * sizes.len())?;
        let Books {
            claimed,
            full,
            all_claimed,
            committed,
            made,
        } = books;
        Ok(Locked {
            core,
            history,
            claims: 0,
            fulls: 0,
            alls: 0,
            commits: 0,
            values: 0,
            claimed,
            full,
            all_claimed,
            committed,
            made,
            of: PhantomData,
        })
    }

    /// The history so far. It is kept of a legal list of events with replies that leads to the state;
    /// by itself it leads to the state but for the values. It has at most three events for each
    /// number. The next number in sequence isn't parked.
    pub fn history(&self) -> &History
        ensures shown { shown result.now ≡ self.now.notes }
        ensures remembers { Remembers N.setup (shown result.now) (state_of self.now.core) }
        ensures short { length (shown result.now).steps ≤ 3 * length N.setup.sizes }
        ensures idle { (state_of self.now.core).parked self.now.core.drained ≡ None }
    {
        &self.history
    }

    /// The sums over all passes: claims that were given a number, found a window full, found every
    /// number claimed, and commits. Each is the number of these replies in the history.
    pub fn sums(&self) -> (u64, u64, u64, u64)
        ensures claimed { result.0 ≡ count_claims self.now.notes }
        ensures full { result.1 ≡ count_full self.now.notes }
        ensures all_claimed { result.2 ≡ count_all self.now.notes }
        ensures committed { result.3 ≡ count_commits self.now.notes }
    {
        (self.claims, self.fulls, self.alls, self.commits)
    }

    /// The commits of values, over all passes: so many of the numbers parked or on the tape have one.
    pub fn made(&self) -> u64
        ensures { result ≡ made_in (state_of self.now.core) }
    {
        self.values
    }

    /// What the shares of all passes say of the tape.
    pub(crate) fn audit(&mut self, claimed: &mut Share<A>, committed: &mut Share<D>)
        requires { (claimed.old.parts ≡ A.parts) × (committed.old.parts ≡ D.parts) }
        ensures whole { committed.old.amount ≡ claimed.old.amount → length self.new.core.tape ≡ claimed.old.amount }
        ensures same { self.new ≡ self.old }
    {
        self.claimed.audit(claimed);
        self.committed.audit(committed);
    }

    /// What the shares of all passes say of the history and of the values.
    pub(crate) fn audit_all(&mut self, shares: &mut Shares<A, B, C, D, E>)
        ensures claims { shares.old.claimed.parts ≡ A.parts → count_claims self.new.notes ≡ shares.old.claimed.amount }
        ensures fulls { shares.old.full.parts ≡ B.parts → count_full self.new.notes ≡ shares.old.full.amount }
        ensures alls { shares.old.all_claimed.parts ≡ C.parts → count_all self.new.notes ≡ shares.old.all_claimed.amount }
        ensures commits { shares.old.committed.parts ≡ D.parts → count_commits self.new.notes ≡ shares.old.committed.amount }
        ensures values { shares.old.made.parts ≡ E.parts → made_in (state_of self.new.core) ≡ shares.old.made.amount }
        ensures whole { shares.old.committed.parts ≡ D.parts → shares.old.claimed.parts ≡ A.parts → shares.old.committed.amount ≡ shares.old.claimed.amount → made_on self.new.core.tape ≡ made_in (state_of self.new.core) }
        ensures same { self.new ≡ self.old }
        ensures claimed { (shares.new.claimed.parts ≡ shares.old.claimed.parts) × (shares.new.claimed.amount ≡ shares.old.claimed.amount) }
        ensures committed { (shares.new.committed.parts ≡ shares.old.committed.parts) × (shares.new.committed.amount ≡ shares.old.committed.amount) }
    {
        self.claimed.audit(&mut shares.claimed);
        self.full.audit(&mut shares.full);
        self.all_claimed.audit(&mut shares.all_claimed);
        self.committed.audit(&mut shares.committed);
        self.made.audit(&mut shares.made);
    }

    /// The tape, in order of the numbers from the first on, and the history: what some legal list of
    /// events left. Each entry was claimed inside both windows, and what stands under its number is of
    /// that number.
    pub(crate) fn into_history(self) -> Told<V>
        ensures is { result.tape.items ≡ self.core.tape }
        ensures told { (events : List (Event (Named V))) × (result.tape.items ≡ (runs (start N.setup) events).tape) }
        ensures order { map (λ t. t.number) result.tape.items ≡ numbers N.setup.first (length result.tape.items) }
        ensures within { (i : ℕ) (t : Taped (Named V)) → slice_get result.tape.items i ≡ Some t → Within N.setup t.seen t.number }
        ensures valid { (i : ℕ) (t : Taped (Named V)) → slice_get result.tape.items i ≡ Some t → IsOf V.number V.job V.bad N.setup.first N.jobs t.number t.named }
        ensures below { AllBelow A.parts (state_of self.core) }
        ensures kept { shown result.history ≡ self.notes }
        ensures remembers { Remembers N.setup self.notes (state_of self.core) }
        ensures short { length (shown result.history).steps ≤ 3 * length N.setup.sizes }
    {
        let Locked {
            core,
            history,
            claims: _,
            fulls: _,
            alls: _,
            commits: _,
            values: _,
            claimed: _,
            full: _,
            all_claimed: _,
            committed: _,
            made: _,
            of: _,
        } = self;
        let tape = core.into_tape();
        Told { tape, history }
    }

    /// One claim, under the lock. A call that would pass the last value of a sum waits for ever.
    pub fn claim<R: Wait>(&mut self, rt: &R, pass: &mut Pass<N, A, B, C, D, E>) -> ClaimAnswer
        requires { pass.old.holds ≡ None }
        ensures told { Tells N.setup result pass.old pass.new }
        ensures reply { replied result ≡ (does (state_of self.old.core) (Asks pass.old.worker)).1 }
        ensures state { state_of self.new.core ≡ (does (state_of self.old.core) (Asks pass.old.worker)).0 }
        ensures noted { self.new.notes ≡ note {V = Named V} self.old.notes (Asks pass.old.worker) (replied result) }
    {
        let Pass {
            worker,
            holds,
            claimed,
            full,
            all_claimed,
            ..
        } = pass;
        let worker = *worker;
        match self.core.step(Event::Claim { worker }) {
            Reply::Claimed { number, seen } => {
                self.history.tell(Kind::Claims { worker });
                self.claimed.audit(claimed);
                self.claimed.add(claimed, 1);
                self.claims += 1;
                *holds = Some(number);
                ClaimAnswer::Claim(Claim::issue(number, seen))
            }
            Reply::Full { next, drained } => {
                stay_below(rt, self.fulls);
                self.history.refuse_full();
                self.full.add(full, 1);
                self.fulls += 1;
                ClaimAnswer::Full { next, drained }
            }
            _ => {
                stay_below(rt, self.alls);
                self.history.refuse_all();
                self.all_claimed.add(all_claimed, 1);
                self.alls += 1;
                ClaimAnswer::AllClaimed
            }
        }
    }

    /// One commit, under the lock, with all drains that are then possible. The value is dropped
    /// where the core replies `Foreign`.
    pub fn commit(&mut self, pass: &mut Pass<N, A, B, C, D, E>, number: u32, value: Named<V>)
        requires held { pass.old.holds ≡ Some number }
        requires value { IsOf V.number V.job V.bad N.setup.first N.jobs number value }
        ensures counted { pass.new ≡ counted (does (state_of self.old.core) (HandsIn pass.old.worker number value)).1 value pass.old }
        ensures settled { Settled (does (state_of self.old.core) (HandsIn pass.old.worker number value)).0 (note self.old.notes (HandsIn pass.old.worker number value) (does (state_of self.old.core) (HandsIn pass.old.worker number value)).1) (state_of self.new.core) self.new.notes }
    {
        let Pass {
            worker,
            holds,
            committed,
            made,
            ..
        } = pass;
        let worker = *worker;
        *holds = None;
        let one = one_made(&value);
        match self.core.step(Event::Commit {
            worker,
            number,
            value,
        }) {
            Reply::Committed => {
                self.history.tell(Kind::Commits { worker, number });
                self.committed.audit(committed);
                self.committed.add(committed, 1);
                self.commits += 1;
                self.made.add(made, one);
                self.values += one;
                settle(&mut self.core, &mut self.history);
            }
            _ => {}
        }
    }
}

// Waits for ever at the last number.
fn stay_below<R: Wait>(rt: &R, sum: u64)
    ensures { sum < 2 ^ 64 - 1 }
{
    if sum == u64::MAX {
        for _ in rt.forever() {}
        unreachable!()
    }
}

// All drains that are possible, with their notes.
pub(crate) fn settle<V: Drop>(core: &mut Core<V>, history: &mut History)
    requires { (core.old.drained ≤ core.old.next) × (vec_len history.old.steps + (core.old.next - core.old.drained) ≤ vec_capacity history.old.steps) }
    ensures settled { Settled (state_of core.old) (shown history.old) (state_of core.new) (shown history.new) }
    ensures room { vec_capacity history.new.steps ≡ vec_capacity history.old.steps }
{
    loop {
        match core.step(Event::Drain) {
            Reply::Drained { number: _ } => history.tell(Kind::Drains),
            _ => return,
        }
    }
}
