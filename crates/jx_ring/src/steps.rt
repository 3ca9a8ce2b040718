//! The steps of the ring, each an atomic step on one word.
ghost use Rattle.std.specs.Prelude.{◌≡◌, ◌≢◌, ℕ, ◌+◌, ◌*◌, ◌%◌, ◌<◌, ◌≤◌, List, [], ◌∷◌, None, Some, Contains, length, map, vec_capacity};
ghost use Rattle.std.specs.Global.{Vec};
ghost use mathlib.Core.Option.{none};
ghost use Rattle.atomic_table.specs.Table.{step, rest};
ghost use Rattle.jx_store.specs.declared.event.Taped.{Taped};
ghost use Rattle.jx_store.specs.declared.work.Named.{Named};
ghost use Rattle.jx_store.specs.Setup.{Within, end_of};
ghost use Rattle.jx_store.specs.Valid.{IsOf};
ghost use Rattle.jx_ring.specs.declared.view.Taken.{Taken};
ghost use Rattle.jx_ring.specs.declared.view.Place.TheVariants.{Empty, Full, Tape};
ghost use Rattle.jx_ring.specs.Claims.{taken};
ghost use Rattle.jx_ring.specs.Rule.{TapeOk, deals, dealt, joined};
ghost use Rattle.jx_ring.specs.Told.{saw_drained, saw_next, saw_word, won, parks, began, ended, Fulfils};
ghost use Rattle.jx_ring.specs.Passes.{IsSameSeat};

use crate::ring::RingStore;
use crate::rule::{Begin, Deal, End, Pair, Park, SeeDrained, SeeNext, SeeWord, Win};
use crate::view::{Place, RingView};
use atomic_table::Seat;
use jx_store::{Bounds, Work};

pub(crate) const NEXT: usize = 0;

pub(crate) const DRAIN: usize = 1;

// Where the words of the slots begin.
pub(crate) const WORDS: usize = 2;

impl<V: Work, N: Bounds<V::Job>> RingStore<V, N> {
    // A load of DRAIN.
    pub(crate) fn load_drain(&self, seat: &mut Seat<Place<V>, RingView>) -> u64
        requires { seat.old.table_id ≡ self.now.table.shared.table_id }
        ensures { IsSameSeat seat.old seat.new × saw_drained N.setup (step self.now.table.shared.table_id.slots DRAIN 0 0 none) seat.old.me result seat.new.me }
    {
        self.table.shared.load::<SeeDrained<V, N>>(seat, DRAIN)
    }

    // A load of NEXT.
    pub(crate) fn load_next(&self, seat: &mut Seat<Place<V>, RingView>) -> u64
        requires { seat.old.table_id ≡ self.now.table.shared.table_id }
        ensures { IsSameSeat seat.old seat.new × saw_next N.setup (step self.now.table.shared.table_id.slots NEXT 0 0 none) seat.old.me result seat.new.me }
    {
        self.table.shared.load::<SeeNext<V, N>>(seat, NEXT)
    }

    // A compare-exchange of NEXT by one up, which takes the number and its slot.
    pub(crate) fn try_claim(&self, seat: &mut Seat<Place<V>, RingView>, number: u32) -> u64
        requires table { seat.old.table_id ≡ self.now.table.shared.table_id }
        requires free { (seat.old.me.0.stands ≢ []) × (seat.old.me.0.holds ≡ None) }
        requires room { (N.setup.first ≤ seat.old.me.0.drained) × Within N.setup seat.old.me.0.drained number × (number < end_of N.setup) }
        ensures { IsSameSeat seat.old seat.new × won N.setup (step self.now.table.shared.table_id.slots NEXT number (number + 1) none) seat.old.me result seat.new.me }
    {
        let number = number as u64;
        self.table
            .shared
            .compare_exchange::<Win<V, N>>(seat, NEXT, number, number + 1)
    }

    // A store into the number's word, which gives its slot home with the entry in it.
    pub(crate) fn park(&self, seat: &mut Seat<Place<V>, RingView>, number: u32)
        requires table { seat.old.table_id ≡ self.now.table.shared.table_id }
        requires held { (seat.old.me.0.stands ≢ []) × ((t : Taken) × (e : Taped (Named V)) × (seat.old.me.0.holds ≡ Some t) × (number ≡ t.number) × Fulfils t e × IsOf V.number V.job V.bad N.setup.first N.jobs t.number e.named × (seat.old.me.1 ≡ (t.number % N.setup.window, Full e) ∷ rest seat.old.me.1)) }
        ensures { IsSameSeat seat.old seat.new × parks N.setup (step self.now.table.shared.table_id.slots 0 0 0 none) seat.old.me 0 seat.new.me }
    {
        let word = self.place(number) + WORDS;
        self.table
            .shared
            .store::<Park<V, N>>(seat, word, number as u64 + 1);
    }

    // A load of the word of the first number that the seat saw not drained.
    pub(crate) fn load_word(&self, seat: &mut Seat<Place<V>, RingView>, drained: u32) -> u64
        requires { (seat.old.table_id ≡ self.now.table.shared.table_id) × (drained ≡ seat.old.me.0.drained) }
        ensures { IsSameSeat seat.old seat.new × saw_word N.setup (step self.now.table.shared.table_id.slots 0 0 0 none) seat.old.me result seat.new.me }
    {
        let word = self.place(drained) + WORDS;
        self.table.shared.load::<SeeWord<V, N>>(seat, word)
    }

    // A compare-exchange of DRAIN to the odd value, which takes the head's slot and the tape.
    pub(crate) fn begin(&self, seat: &mut Seat<Place<V>, RingView>, drained: u32) -> u64
        requires table { (seat.old.table_id ≡ self.now.table.shared.table_id) × (drained ≡ seat.old.me.0.drained) }
        requires sure { (seat.old.me.0.stands ≢ []) × (seat.old.me.0.drains ≡ None) × (seat.old.me.0.committed ≡ Some seat.old.me.0.drained) }
        ensures { IsSameSeat seat.old seat.new × began N.setup (IsOf V.number V.job V.bad N.setup.first N.jobs) (step self.now.table.shared.table_id.slots DRAIN (2 * drained) (2 * drained + 1) none) seat.old.me result seat.new.me }
    {
        let even = 2 * drained as u64;
        self.table
            .shared
            .compare_exchange::<Begin<V, N>>(seat, DRAIN, even, even + 1)
    }

    // A store of the next even value into DRAIN, which gives the tape and the head's slot home.
    pub(crate) fn end(&self, seat: &mut Seat<Place<V>, RingView>, drained: u32)
        requires table { (seat.old.table_id ≡ self.now.table.shared.table_id) × (drained ≡ seat.old.me.0.drained) }
        requires drains { (seat.old.me.0.stands ≢ []) × ((t : Vec (Taped (Named V))) × (seat.old.me.0.drains ≡ Some (map taken t.items)) × TapeOk N.setup (IsOf V.number V.job V.bad N.setup.first N.jobs) t.items × (length N.setup.sizes ≤ vec_capacity t) × (seat.old.me.1 ≡ (N.setup.window, Tape t) ∷ (drained % N.setup.window, Empty) ∷ [])) }
        ensures { IsSameSeat seat.old seat.new × ended N.setup (step self.now.table.shared.table_id.slots 0 0 0 none) seat.old.me 0 seat.new.me }
    {
        self.table
            .shared
            .store::<End<V, N>>(seat, DRAIN, 2 * drained as u64 + 2);
    }

    // A split of a seat: the new one has the first of the worker numbers that it stands for.
    pub(crate) fn deal(&self, seat: &mut Seat<Place<V>, RingView>) -> Seat<Place<V>, RingView>
        requires table { seat.old.table_id ≡ self.now.table.shared.table_id }
        requires other { (k : ℕ) × (more : List ℕ) × (seat.old.me.0.stands ≡ k ∷ more) × Contains more seat.old.me.0.worker }
        ensures old { IsSameSeat seat.old seat.new × (seat.new.me ≡ (deals seat.old.me.0, seat.old.me.1)) }
        ensures new { (result.table_id ≡ seat.old.table_id) × (result.me ≡ (dealt seat.old.me.0, [])) }
    {
        self.table.shared.split_seat::<Deal>(seat)
    }

    // A join of two seats.
    pub(crate) fn join(&self, seat: &mut Seat<Place<V>, RingView>, other: Seat<Place<V>, RingView>)
        requires table { (seat.old.table_id ≡ self.now.table.shared.table_id) × (other.table_id ≡ self.now.table.shared.table_id) }
        requires free { (seat.old.me.0.stands ≢ []) × (seat.old.me.0.holds ≡ None) × (other.me.0.holds ≡ None) × (seat.old.me.0.drains ≡ None) × (other.me.0.drains ≡ None) × (other.me.1 ≡ []) }
        ensures { IsSameSeat seat.old seat.new × (seat.new.me ≡ (joined seat.old.me.0 other.me.0, seat.old.me.1)) }
    {
        self.table.shared.join_seat::<Pair>(seat, other);
    }
}
