//! The store with a lock.
ghost use Rattle.std.specs.Prelude.{◌≡◌, ◌<◌, ◌≤◌, ◌+◌, ◌*◌, ◌⊎◌, All, IfOk, None, Some, List, length, map, vec_len, sum_by, ℕ, slice_get};
ghost use Rattle.std.specs.List.{sum};
ghost use Rattle.jx_store.specs.declared.event.Taped.{Taped};
ghost use Rattle.jx_store.specs.declared.event.Event.{Event};
ghost use Rattle.jx_store.specs.declared.work.Named.{Named};
ghost use Rattle.jx_store.specs.Setup.{Within};
ghost use Rattle.jx_store.specs.Machine.{State, start, runs};
ghost use Rattle.jx_store.specs.Order.{numbers};
ghost use Rattle.jx_store_plain.specs.Answers.{Tells};
ghost use Rattle.jx_store.specs.Valid.{IsOf};
ghost use Rattle.jx_store_plain.specs.Passes.{commits_one, gives_up};
ghost use Rattle.jx_store_plain.specs.Made.{made_on};
ghost use Rattle.jx_store_plain.specs.Notes.{count_full, count_all, count_claims, count_commits};
ghost use Rattle.jx_store_plain.specs.Replays.{Remembers, blank_taped, replayed};
ghost use Rattle.jx_store_plain.specs.ShownNotes.{shown};
ghost use Rattle.jx_store_plain.specs.Told.{IsToldBy, IsTold};
ghost use Rattle.jx_base.specs.Limits.{most_blocks, most_bytes};

use crate::history::Told;
use crate::locked::Locked;
use crate::pass::{Books, Pass, Shares};
use jx_base::NoMemory;
use jx_store::{Bounds, Claim, ClaimAnswer, Entry, Named, Work};
use std::alloc::Global;
use std::sync::ledger::{Blank, Ledger};
use std::sync::{Mutex, Wait};

/// A store that workers share: a core and its history under one lock. `N` names its bounds, the
/// others its ledgers, one for each count of a pass.
#[derive(Drop)]
pub struct LockStore<
    V: Work,
    N: Bounds<V::Job>,
    A: Ledger,
    B: Ledger,
    C: Ledger,
    D: Ledger,
    E: Ledger,
> {
    locked: Mutex<Locked<V, N, A, B, C, D, E>>,
}

/// What the five ledgers are opened from, one for each count of a pass.
pub struct Blanks {
    pub claimed: Blank,
    pub full: Blank,
    pub all_claimed: Blank,
    pub committed: Blank,
    pub made: Blank,
}

impl Blanks {
    // The books of the five counts, and of each a share with all its parts.
    fn open<A: Ledger, B: Ledger, C: Ledger, D: Ledger, E: Ledger>(
        self,
    ) -> (Books<A, B, C, D, E>, Shares<A, B, C, D, E>)
        requires names { (self.claimed.name ≡ A.name) × (self.full.name ≡ B.name) × (self.all_claimed.name ≡ C.name) × (self.committed.name ≡ D.name) × (self.made.name ≡ E.name) }
        requires parts { (self.claimed.parts ≡ A.parts) × (self.full.parts ≡ B.parts) × (self.all_claimed.parts ≡ C.parts) × (self.committed.parts ≡ D.parts) × (self.made.parts ≡ E.parts) }
        ensures empty { (result.0.claimed.total ≡ 0) × (result.0.full.total ≡ 0) × (result.0.all_claimed.total ≡ 0) × (result.0.committed.total ≡ 0) × (result.0.made.total ≡ 0) }
        ensures parts { (result.1.claimed.parts ≡ A.parts) × (result.1.full.parts ≡ B.parts) × (result.1.all_claimed.parts ≡ C.parts) × (result.1.committed.parts ≡ D.parts) × (result.1.made.parts ≡ E.parts) }
        ensures none { (result.1.claimed.amount ≡ 0) × (result.1.full.amount ≡ 0) × (result.1.all_claimed.amount ≡ 0) × (result.1.committed.amount ≡ 0) × (result.1.made.amount ≡ 0) }
    {
        let Blanks {
            claimed,
            full,
            all_claimed,
            committed,
            made,
        } = self;
        let (book_a, a) = claimed.open::<A>();
        let (book_b, b) = full.open::<B>();
        let (book_c, c) = all_claimed.open::<C>();
        let (book_d, d) = committed.open::<D>();
        let (book_e, e) = made.open::<E>();
        let books = Books {
            claimed: book_a,
            full: book_b,
            all_claimed: book_c,
            committed: book_d,
            made: book_e,
        };
        let shares = Shares {
            claimed: a,
            full: b,
            all_claimed: c,
            committed: d,
            made: e,
        };
        (books, shares)
    }
}

impl<V: Work, N: Bounds<V::Job>, A: Ledger, B: Ledger, C: Ledger, D: Ledger, E: Ledger> LockStore<
    V,
    N,
    A,
    B,
    C,
    D,
    E,
> {
    /// A store of the numbers from `first` on, one for each job and size, and a pass for each
    /// worker. There is at least one job, the numbers end at 2^22, the sizes sum to at most 2^32 - 1,
    /// `window` is 1 to 1,024, `most` 1 to 2^32 - 1 and `workers` 1 to 64. All room that the store will
    /// need is taken here.
    pub fn new(
        alloc: Global,
        jobs: &[V::Job],
        sizes: &[u32],
        first: u32,
        window: u32,
        most: u32,
        workers: u32,
        blanks: Blanks,
    ) -> Result<(LockStore<V, N, A, B, C, D, E>, Vec<Pass<N, A, B, C, D, E>>), NoMemory>
        requires bounds { (N.setup ≡ record { first = first; sizes = sizes.now; window = window; most = most }) × (N.workers ≡ workers) × (N.jobs ≡ jobs.now) }
        requires count { (0 < length sizes.now) × (first + length sizes.now ≤ most_blocks) × (length jobs.now ≡ length sizes.now) }
        requires sizes { sum sizes.now ≤ most_bytes }
        requires window { (0 < window) × (window ≤ 1024) }
        requires most { (0 < most) × (most ≤ most_bytes) }
        requires workers { (0 < workers) × (workers ≤ 64) }
        requires names { (blanks.claimed.name ≡ A.name) × (blanks.full.name ≡ B.name) × (blanks.all_claimed.name ≡ C.name) × (blanks.committed.name ≡ D.name) }
        requires parts { (blanks.claimed.parts ≡ A.parts) × (blanks.full.parts ≡ B.parts) × (blanks.all_claimed.parts ≡ C.parts) × (blanks.committed.parts ≡ D.parts) }
        requires each { (A.parts ≡ workers) × (B.parts ≡ workers) × (C.parts ≡ workers) × (D.parts ≡ workers) }
        requires made { (blanks.made.name ≡ E.name) × (blanks.made.parts ≡ E.parts) × (E.parts ≡ workers) }
        ensures workers { IfOk result (λ r. map (λ p. p.worker) r.1.items ≡ numbers 0 workers) }
        ensures fresh { IfOk result (λ r. All (λ p. (p.holds ≡ None) × (p.claimed ≡ 0) × (p.full ≡ 0) × (p.all_claimed ≡ 0) × (p.committed ≡ 0)) r.1.items) }
        ensures none_made { IfOk result (λ r. All (λ p. p.made ≡ 0) r.1.items) }
    {
        prove!(jobs.len() == sizes.len());
        let (books, shares) = blanks.open();
        let passes = deal(alloc, shares, workers)?;
        let locked = Locked::with_books(alloc, first, sizes, window, most, books)?;
        let store = LockStore {
            locked: Mutex::new(locked),
        };
        Ok((store, passes))
    }

    /// Asks for the next number. The pass's count of this kind of answer rises by one.
    pub fn claim<R: Wait>(&self, rt: &R, pass: &mut Pass<N, A, B, C, D, E>) -> ClaimAnswer
        requires { pass.old.holds ≡ None }
        ensures { Tells N.setup result pass.old pass.new }
    {
        self.locked.lock(rt).claim(rt, pass)
    }

    /// Hands in what stands under the number of this pass's claim, and drains what then can be. The
    /// pass's count of commits rises by one, and that of values where this is one, or the value is
    /// dropped, since a lock can't show a pass that its number is still held.
    pub fn commit<R: Wait>(
        &self,
        rt: &R,
        pass: &mut Pass<N, A, B, C, D, E>,
        claim: Claim,
        value: Named<V>,
    )
        requires held { pass.old.holds ≡ Some claim.number }
        requires value { IsOf V.number V.job V.bad N.setup.first N.jobs claim.number value }
        ensures { (pass.new ≡ commits_one pass.old value) ⊎ (pass.new ≡ gives_up pass.old) }
    {
        let (number, _) = claim.spend();
        self.locked.lock(rt).commit(pass, number, value);
    }

    /// The tape, as `into_tape` gives it, and the history that the store kept: it is kept of a legal
    /// list of events with replies that leads to this tape, and by itself it leads there but for the
    /// values. It has at most three events for each number, and as many replies of each kind as the
    /// passes counted.
    pub fn into_history(self, passes: Vec<Pass<N, A, B, C, D, E>>) -> Told<V>
        requires all { (A.parts ≡ vec_len passes) × (D.parts ≡ vec_len passes) × (0 < vec_len passes) }
        requires none { All (λ p. p.holds ≡ None) passes.items }
        ensures told { (events : List (Event (Named V))) × (result.tape.items ≡ (runs (start N.setup) events).tape) }
        ensures order { map (λ t. t.number) result.tape.items ≡ numbers N.setup.first (length result.tape.items) }
        ensures within { (i : ℕ) (t : Taped (Named V)) → slice_get result.tape.items i ≡ Some t → Within N.setup t.seen t.number }
        ensures valid { (i : ℕ) (t : Taped (Named V)) → slice_get result.tape.items i ≡ Some t → IsOf V.number V.job V.bad N.setup.first N.jobs t.number t.named }
        ensures whole { sum_by (λ p. p.committed) passes.items ≡ sum_by (λ p. p.claimed) passes.items → length result.tape.items ≡ sum_by (λ p. p.claimed) passes.items }
        ensures worker { (i : ℕ) (t : Taped (Named V)) → slice_get result.tape.items i ≡ Some t → t.worker < vec_len passes }
        ensures made { E.parts ≡ vec_len passes → sum_by (λ p. p.committed) passes.items ≡ sum_by (λ p. p.claimed) passes.items → made_on result.tape.items ≡ sum_by (λ p. p.made) passes.items }
        ensures remembers { (state : State (Named V)) × Remembers N.setup (shown result.history) state × (state.tape ≡ result.tape.items) }
        ensures replays { map blank_taped result.tape.items ≡ (replayed N.setup (shown result.history)).tape }
        ensures short { length (shown result.history).steps ≤ 3 * length N.setup.sizes }
        ensures claims { count_claims (shown result.history) ≡ sum_by (λ p. p.claimed) passes.items }
        ensures fulls { B.parts ≡ vec_len passes → count_full (shown result.history) ≡ sum_by (λ p. p.full) passes.items }
        ensures alls { C.parts ≡ vec_len passes → count_all (shown result.history) ≡ sum_by (λ p. p.all_claimed) passes.items }
        ensures commits { count_commits (shown result.history) ≡ sum_by (λ p. p.committed) passes.items }
        ensures history { E.parts ≡ vec_len passes → IsToldBy N.setup (vec_len passes) (shown result.history) result.tape.items (sum_by (λ p. p.made) passes.items) }
    {
        let mut locked = self.locked.into_inner();
        let mut shares = all_shares(passes);
        locked.audit_all(&mut shares);
        locked.audit(&mut shares.claimed, &mut shares.committed);
        locked.into_history()
    }

    /// The tape, once all passes that `new` gave are back and none holds a claim: the numbers from
    /// the first on, in order, as some legal history left them there. Where the passes counted as
    /// many commits as claims, it has as many entries, and as many values as they counted.
    pub fn into_tape(self, passes: Vec<Pass<N, A, B, C, D, E>>) -> Vec<Entry<V>>
        requires all { (A.parts ≡ vec_len passes) × (D.parts ≡ vec_len passes) × (0 < vec_len passes) }
        requires none { All (λ p. p.holds ≡ None) passes.items }
        ensures told { (events : List (Event (Named V))) × (result.items ≡ (runs (start N.setup) events).tape) }
        ensures order { map (λ t. t.number) result.items ≡ numbers N.setup.first (length result.items) }
        ensures within { (i : ℕ) (t : Taped (Named V)) → slice_get result.items i ≡ Some t → Within N.setup t.seen t.number }
        ensures valid { (i : ℕ) (t : Taped (Named V)) → slice_get result.items i ≡ Some t → IsOf V.number V.job V.bad N.setup.first N.jobs t.number t.named }
        ensures whole { sum_by (λ p. p.committed) passes.items ≡ sum_by (λ p. p.claimed) passes.items → length result.items ≡ sum_by (λ p. p.claimed) passes.items }
        ensures worker { (i : ℕ) (t : Taped (Named V)) → slice_get result.items i ≡ Some t → t.worker < vec_len passes }
        ensures history { (B.parts ≡ vec_len passes) × (C.parts ≡ vec_len passes) × (E.parts ≡ vec_len passes) → IsTold N.setup (vec_len passes) result.items (sum_by (λ p. p.claimed) passes.items) (sum_by (λ p. p.full) passes.items) (sum_by (λ p. p.all_claimed) passes.items) (sum_by (λ p. p.committed) passes.items) (sum_by (λ p. p.made) passes.items) }
        ensures made { E.parts ≡ vec_len passes → sum_by (λ p. p.committed) passes.items ≡ sum_by (λ p. p.claimed) passes.items → made_on result.items ≡ sum_by (λ p. p.made) passes.items }
    {
        let Told { tape, history: _ } = self.into_history(passes);
        tape
    }
}

// A pass for each worker, with a part of each share.
fn deal<N, A: Ledger, B: Ledger, C: Ledger, D: Ledger, E: Ledger>(
    alloc: Global,
    mut shares: Shares<A, B, C, D, E>,
    workers: u32,
) -> Result<Vec<Pass<N, A, B, C, D, E>>, NoMemory>
    requires workers { workers ≡ A.parts }
    requires parts { (shares.claimed.parts ≡ workers) × (shares.full.parts ≡ workers) × (shares.all_claimed.parts ≡ workers) × (shares.committed.parts ≡ workers) × (shares.made.parts ≡ workers) }
    requires none { (shares.claimed.amount ≡ 0) × (shares.full.amount ≡ 0) × (shares.all_claimed.amount ≡ 0) × (shares.committed.amount ≡ 0) × (shares.made.amount ≡ 0) }
    ensures workers { IfOk result (λ r. map (λ p. p.worker) r.items ≡ numbers 0 workers) }
    ensures fresh { IfOk result (λ r. All (λ p. (p.holds ≡ None) × (p.claimed ≡ 0) × (p.full ≡ 0) × (p.all_claimed ≡ 0) × (p.committed ≡ 0)) r.items) }
    ensures none_made { IfOk result (λ r. All (λ p. p.made ≡ 0) r.items) }
{
    let mut passes = Vec::with_capacity(alloc, workers as usize)?;
    for worker in 0..workers {
        passes.push_reserved(shares.pass(worker));
    }
    Ok(passes)
}

// The counts of all passes, of which there is at least one.
fn all_shares<N, A: Ledger, B: Ledger, C: Ledger, D: Ledger, E: Ledger>(
    passes: Vec<Pass<N, A, B, C, D, E>>,
) -> Shares<A, B, C, D, E>
    requires { 0 < vec_len passes }
    ensures parts { (result.claimed.parts ≡ vec_len passes) × (result.full.parts ≡ vec_len passes) × (result.all_claimed.parts ≡ vec_len passes) × (result.committed.parts ≡ vec_len passes) × (result.made.parts ≡ vec_len passes) }
    ensures claimed { result.claimed.amount ≡ sum_by (λ p. p.claimed) passes.items }
    ensures full { result.full.amount ≡ sum_by (λ p. p.full) passes.items }
    ensures all_claimed { result.all_claimed.amount ≡ sum_by (λ p. p.all_claimed) passes.items }
    ensures committed { result.committed.amount ≡ sum_by (λ p. p.committed) passes.items }
    ensures made { result.made.amount ≡ sum_by (λ p. p.made) passes.items }
{
    let mut passes = passes;
    let Some(first) = passes.pop() else {
        unreachable!()
    };
    let mut all = first.shares();
    while let Some(pass) = passes.pop() {
        let one = pass.shares();
        all.claimed.merge(one.claimed);
        all.full.merge(one.full);
        all.all_claimed.merge(one.all_claimed);
        all.committed.merge(one.committed);
        all.made.merge(one.made);
    }
    all
}
