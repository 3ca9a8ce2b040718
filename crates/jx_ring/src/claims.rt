//! Claims and drains: what a worker does until a number is its own.
ghost use Rattle.std.specs.Prelude.{◌≡◌, ◌≢◌, ℕ, ◌+◌, ◌%◌, ◌<◌, ◌≤◌, true, false, List, [], ◌∷◌, ◌++◌, None, Some, length, vec_capacity};
ghost use Rattle.std.specs.Global.{Vec};
ghost use Rattle.jx_store.specs.declared.event.Taped.{Taped};
ghost use Rattle.jx_store.specs.declared.work.Named.{Named};
ghost use Rattle.jx_store.specs.Setup.{Within, end_of};
ghost use Rattle.jx_ring.specs.declared.view.Place.TheVariants.{Empty, Full, Tape};
ghost use Rattle.jx_store.specs.Valid.{IsOf};
ghost use Rattle.jx_ring.specs.Claims.{kind_of};
ghost use Rattle.jx_ring.specs.Passes.{Fills, SeesMore, Answers, AnswersView, out_after, IsSameSeat, claim_by, commits_claim};

use crate::ring::RingStore;
use crate::steps::WORDS;
use crate::view::{Pass, Place, RingView};
use atomic_table::Seat;
use jx_store::{Bounds, Claim, ClaimAnswer, Entry, Named, Work};
use std::sync::Wait;
use std::thread;
use std::time::Duration;

impl<V: Work, N: Bounds<V::Job>> RingStore<V, N> {
    /// Asks for the next number. It is given where this call found it inside both windows by what it
    /// then knew of the numbers drained. Where a window is full, one drain is tried, and then the
    /// call rests once, so it may wait.
    pub fn claim<R: Wait>(&self, rt: &R, pass: &mut Pass<V, N>) -> ClaimAnswer
        requires table { pass.old.table ≡ self.now.table.shared.table_id }
        requires free { pass.old.holds ≡ None }
        ensures { Answers N.setup result pass.old pass.new }
    {
        self.claim_for(rt, &mut pass.seat)
    }

    /// Hands in what stands under the number of this pass's claim. It is parked until all numbers
    /// below are drained, and whoever waits for it is woken.
    pub fn commit<R: Wait>(&self, _rt: &R, pass: &mut Pass<V, N>, claim: Claim, value: Named<V>)
        requires table { pass.old.table ≡ self.now.table.shared.table_id }
        requires held { pass.old.holds ≡ Some (claim_by pass.old.worker claim.number claim.seen 0) }
        requires value { IsOf V.number V.job V.bad N.setup.first N.jobs claim.number value }
        ensures { pass.new ≡ commits_claim pass.old (claim_by pass.old.worker claim.number claim.seen (kind_of value)) }
    {
        let (number, seen) = claim.spend();
        let entry = Entry {
            number,
            worker: pass.worker,
            seen,
            named: value,
        };
        let place = self.place(number);
        let slots = &self.table.shared;
        let Place::Empty = slots.exchange(&mut pass.seat, place, Place::Full(entry)) else {
            unreachable!()
        };
        self.park(&mut pass.seat, number);
        slots.wake_all(place + WORDS);
    }

    // Whether one more claim would pass a window, as far as these two numbers tell.
    fn is_full(&self, drained: u32, next: u32) -> bool
        requires { (N.setup.first ≤ drained) × (drained ≤ next) × (next < end_of N.setup) }
        ensures full { result ≡ true → Fills N.setup drained next }
        ensures room { result ≡ false → Within N.setup drained next }
    {
        let sums = self.limits.sums();
        next - drained >= sums.window() || drained < next && sums.is_over(drained, next)
    }

    // The next number for this seat, or why there is none.
    pub(crate) fn claim_for<R: Wait>(
        &self,
        rt: &R,
        seat: &mut Seat<Place<V>, RingView>,
    ) -> ClaimAnswer
        requires table { seat.old.table_id ≡ self.now.table.shared.table_id }
        requires free { (seat.old.me.0.stands ≢ []) × (seat.old.me.0.holds ≡ None) × (seat.old.me.0.drains ≡ None) × (seat.old.me.1 ≡ []) }
        requires low { N.setup.first ≤ seat.old.me.0.drained }
        ensures seat { IsSameSeat seat.old seat.new × (seat.new.me.1 ≡ out_after N.setup.window result) }
        ensures told { AnswersView N.setup result seat.old.me.0 seat.new.me.0 }
    {
        let end = self.limits.sums().end();
        let mut rested = false;
        for _ in rt.forever() {
            let drained = (self.load_drain(seat) / 2) as u32;
            let next = self.load_next(seat) as u32;
            if next == end {
                return ClaimAnswer::AllClaimed;
            }
            if !self.is_full(drained, next) {
                if self.try_claim(seat, next) == next as u64 {
                    return ClaimAnswer::Claim(Claim::issue(next, drained));
                }
            } else if !self.drain_one(seat, drained) {
                if rested {
                    return ClaimAnswer::Full { next, drained };
                }
                self.rest(rt, drained);
                rested = true;
            }
        }
        unreachable!()
    }

    // Waits a little for the commit of the first number that wasn't drained, which alone makes room.
    fn rest<R: Wait>(&self, rt: &R, drained: u32) {
        let word = self.place(drained) + WORDS;
        let found = self.table.shared.peek(word);
        if found == drained as u64 + 1 {
            thread::yield_now();
        } else {
            let low = (found % (1 << 32)) as u32;
            self.table
                .shared
                .park_timeout(rt, word, low, Duration::from_millis(1));
        }
    }

    // Drains the first number that wasn't drained, where it is committed and no other seat drains.
    fn drain_one(&self, seat: &mut Seat<Place<V>, RingView>, drained: u32) -> bool
        requires table { (seat.old.table_id ≡ self.now.table.shared.table_id) × (drained ≡ seat.old.me.0.drained) }
        requires free { (seat.old.me.0.stands ≢ []) × (seat.old.me.0.drains ≡ None) × (seat.old.me.1 ≡ []) }
        ensures seat { IsSameSeat seat.old seat.new × (seat.new.me.1 ≡ []) }
        ensures more { SeesMore seat.old.me.0 seat.new.me.0 × (seat.new.me.0.holds ≡ seat.old.me.0.holds) × (seat.new.me.0.next ≡ seat.old.me.0.next) }
        ensures none { result ≡ false → seat.new.me.0.drained ≡ seat.old.me.0.drained }
    {
        if self.load_word(seat, drained) != drained as u64 + 1 {
            return false;
        }
        if self.begin(seat, drained) != 2 * drained as u64 {
            return false;
        }
        let window = self.window() as usize;
        let head = self.place(drained);
        self.carry(seat, head, window);
        self.end(seat, drained);
        true
    }

    // Moves the head's entry to the tape's end.
    fn carry(&self, seat: &mut Seat<Place<V>, RingView>, head: usize, window: usize)
        requires table { seat.old.table_id ≡ self.now.table.shared.table_id }
        requires out { (t : Vec (Taped (Named V))) × (e : Taped (Named V)) × (seat.old.me.1 ≡ (window, Tape t) ∷ (head, Full e) ∷ []) × (length t.items < vec_capacity t) }
        ensures seat { IsSameSeat seat.old seat.new × (seat.new.me.0 ≡ seat.old.me.0) }
        ensures moved { (t : Vec (Taped (Named V))) (e : Taped (Named V)) → seat.old.me.1 ≡ (window, Tape t) ∷ (head, Full e) ∷ [] → (u : Vec (Taped (Named V))) × (seat.new.me.1 ≡ (window, Tape u) ∷ (head, Empty) ∷ []) × (u.items ≡ t.items ++ e ∷ []) × (vec_capacity u ≡ vec_capacity t) }
    {
        let slots = &self.table.shared;
        let Place::Tape(mut tape) = slots.exchange(seat, window, Place::Empty) else {
            unreachable!()
        };
        seat.turn();
        let Place::Full(entry) = slots.exchange(seat, head, Place::Empty) else {
            unreachable!()
        };
        tape.push_reserved(entry);
        seat.turn();
        let Place::Empty = slots.exchange(seat, window, Place::Tape(tape)) else {
            unreachable!()
        };
    }
}
