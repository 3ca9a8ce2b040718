//! The tape, once all passes are back.
ghost use Rattle.std.specs.Prelude.{◌≡◌, ℕ, ◌+◌, ◌<◌, ◌≤◌, All, Any, Contains, List, None, length, map, slice_get, Some, sum_by, vec_len};
ghost use Rattle.std.specs.Mem.Slots.{slots_items, slots_len, slots_filled, IsFull};
ghost use Rattle.jx_store.specs.declared.event.Taped.{Taped};
ghost use Rattle.jx_store.specs.declared.work.Named.{Named};
ghost use Rattle.jx_store.specs.Order.{numbers};
ghost use Rattle.jx_store.specs.Setup.{Within, end_of};
ghost use Rattle.jx_store.specs.Valid.{IsOf};
ghost use Rattle.jx_ring.specs.declared.view.Taken.{Taken};
ghost use Rattle.jx_ring.specs.Claims.{taken};
ghost use Rattle.jx_ring.specs.Closing.{IsLast, IsWhole, Shut};
ghost use Rattle.jx_ring.specs.Passes.{IsSameSeat};
ghost use Rattle.jx_base.specs.Limits.{most_blocks};

use crate::ring::RingStore;
use crate::view::{Pass, Place, RingView};
use atomic_table::{Closed, Seat};
use jx_store::{Bounds, Entry, Work};
use std::alloc::Global;

impl<V: Work, N: Bounds<V::Job>> RingStore<V, N> {
    /// The tape, once all passes that `new` gave are back and none holds a claim: the numbers from the
    /// first on, in order, one for each claim made. Each entry is a claim of the pass whose number it
    /// has, with its `seen` and with what this pass committed.
    pub fn into_tape(self, passes: Vec<Pass<V, N>>) -> Vec<Entry<V>>
        requires all { (vec_len passes ≡ N.workers) × (0 < vec_len passes) × All (λ p. p.table ≡ self.table.shared.table_id) passes.items }
        requires none { All (λ p. p.holds ≡ None) passes.items }
        ensures order { map (λ t. t.number) result.items ≡ numbers N.setup.first (length result.items) }
        ensures within { (i : ℕ) (t : Taped (Named V)) → slice_get result.items i ≡ Some t → Within N.setup t.seen t.number }
        ensures valid { (i : ℕ) (t : Taped (Named V)) → slice_get result.items i ≡ Some t → IsOf V.number V.job V.bad N.setup.first N.jobs t.number t.named }
        ensures same { (F : Taken → ℕ) → sum_by F (map taken result.items) ≡ sum_by (λ p. sum_by F p.claims) passes.items }
        ensures count { length result.items ≡ sum_by (λ p. length p.claims) passes.items }
        ensures who { (i : ℕ) (t : Taped (Named V)) → slice_get result.items i ≡ Some t → Any (λ p. (p.worker ≡ t.worker) × Contains p.claims (taken t)) passes.items }
        ensures whole { Any (λ p. p.next ≡ end_of N.setup) passes.items → length result.items ≡ length N.setup.sizes }
    {
        let window = self.window();
        let seat = self.join_all(passes);
        let RingStore { table, limits: _ } = self;
        let closed = table.close_with(seat);
        let drained = (closed.word(1) / 2) as u32;
        RingStore::<V, N>::collect(closed, drained, window)
    }

    // One seat that stands for all workers.
    fn join_all(&self, passes: Vec<Pass<V, N>>) -> Seat<Place<V>, RingView>
        requires all { (0 < vec_len passes) × All (λ p. p.table ≡ self.now.table.shared.table_id) passes.items }
        requires none { All (λ p. p.holds ≡ None) passes.items }
        ensures { (result.table_id ≡ self.now.table.shared.table_id) × IsLast passes.items result.me.0 }
    {
        let mut passes = passes;
        let Some(last) = passes.pop() else {
            unreachable!()
        };
        let Pass {
            mut seat,
            worker: _,
            of: _,
        } = last;
        while let Some(pass) = passes.pop() {
            let Pass {
                seat: other,
                worker: _,
                of: _,
            } = pass;
            self.join(&mut seat, other);
        }
        seat
    }

    // The tape with the entries that are parked behind it, out of a closed table.
    fn collect(closed: Closed<Place<V>, Global>, drained: u32, window: u32) -> Vec<Entry<V>>
        requires slots { (slots_len closed.slots ≡ window + 1) × IsFull closed.slots }
        requires sizes { (drained ≤ most_blocks) × (0 < window) × (window ≤ 1024) × (window ≡ N.setup.window) }
        requires shut { (claims : List Taken) × (seen : ℕ) × Shut N.setup (IsOf V.number V.job V.bad N.setup.first N.jobs) claims seen drained (slots_items closed.slots) }
        ensures { (claims : List Taken) (seen : ℕ) → Shut N.setup (IsOf V.number V.job V.bad N.setup.first N.jobs) claims seen drained (slots_items closed.slots) → IsWhole N.setup (IsOf V.number V.job V.bad N.setup.first N.jobs) claims seen result.items }
    {
        let mut closed = closed;
        let Place::Tape(mut tape) = closed.take(window as usize) else {
            unreachable!()
        };
        let mut i = 0;
        while i < window {
            let place = ((drained + i) % window) as usize;
            match closed.take(place) {
                Place::Full(entry) => tape.push_reserved(entry),
                Place::Empty => {}
                Place::Tape(_) => unreachable!(),
            }
            i += 1;
        }
        closed.free();
        tape
    }
}
