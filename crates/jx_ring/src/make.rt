//! How a store is made, with a pass for each worker.
ghost use Rattle.std.specs.Prelude.{◌≡◌, ◌≢◌, ℕ, ◌+◌, ◌*◌, ◌<◌, ◌≤◌, All, IfOk, None, Some, [], ◌∷◌, map, length, slice_get, slice_index_or, vec_len, vec_capacity};
ghost use Rattle.std.specs.Global.{Vec};
ghost use Rattle.std.specs.List.{sum};
ghost use Rattle.jx_store.specs.declared.event.Taped.{Taped};
ghost use Rattle.jx_store.specs.declared.work.Named.{Named};
ghost use Rattle.jx_store.specs.Order.{numbers};
ghost use Rattle.jx_ring.specs.declared.view.Place.TheVariants.{Empty, Tape};
ghost use Rattle.jx_ring.specs.Passes.{Blank, Row};
ghost use Rattle.jx_ring.specs.Rule.{first_view, counting_down};
ghost use Rattle.jx_base.specs.Limits.{most_blocks, most_bytes};

use crate::ring::{Limits, RingStore, RingTable};
use crate::view::{Pass, Place, RingView};
use atomic_table::{Refused, Seat, Table};
use jx_base::NoMemory;
use jx_store::{Bounds, Sums, Work};
use std::alloc::Global;
use std::marker::PhantomData;

impl<V: Work, N: Bounds<V::Job>> RingStore<V, N> {
    /// A store of the numbers from `first` on, one for each job and size, and a pass for each
    /// worker. There is at least one job, the numbers end at 2^22, the sizes sum to at most 2^32 - 1,
    /// `window` is 1 to 1,024, `most` 1 to 2^32 - 1 and `workers` 1 to 64. All room that the store will
    /// need is taken here.
    pub fn new(
        alloc: Global,
        jobs: &[V::Job],
        sizes: &[u32],
        first: u32,
        window: u32,
        most: u32,
        workers: u32,
    ) -> Result<(RingStore<V, N>, Vec<Pass<V, N>>), NoMemory>
        requires bounds { (N.setup ≡ record { first = first; sizes = sizes.now; window = window; most = most }) × (N.workers ≡ workers) × (N.jobs ≡ jobs.now) }
        requires count { (0 < length sizes.now) × (first + length sizes.now ≤ most_blocks) × (length jobs.now ≡ length sizes.now) }
        requires sizes { sum sizes.now ≤ most_bytes }
        requires window { (0 < window) × (window ≤ 1024) }
        requires most { (0 < most) × (most ≤ most_bytes) }
        requires workers { (0 < workers) × (workers ≤ 64) }
        ensures count { IfOk result (λ r. vec_len r.1 ≡ workers) }
        ensures workers { IfOk result (λ r. map (λ p. p.worker) r.1.items ≡ numbers 0 workers) }
        ensures fresh { IfOk result (λ r. All (λ p. (p.table ≡ r.0.table.shared.table_id) × (p.holds ≡ None) × (p.claims ≡ []) × (p.drained ≡ first) × (p.next ≡ first)) r.1.items) }
    {
        prove!(jobs.len() == sizes.len());
        let limits = Limits::new(Sums::new(alloc, first, sizes, window, most)?);
        let (table, seat, passes) = RingStore::<V, N>::first_table(
            alloc,
            first,
            window,
            sizes.len(),
            workers,
        )?;
        let store = RingStore { table, limits };
        let passes = store.deal_all(seat, passes, workers);
        Ok((store, passes))
    }

    // The table as it is at the start, with its seat, and room for the passes.
    fn first_table(
        alloc: Global,
        first: u32,
        window: u32,
        count: usize,
        workers: u32,
    ) -> Result<(RingTable<V, N>, Seat<Place<V>, RingView>, Vec<Pass<V, N>>), NoMemory>
        requires bounds { (first ≡ N.setup.first) × (window ≡ N.setup.window) × (count ≡ length N.setup.sizes) × (workers ≡ N.workers) }
        requires sizes { (first ≤ most_blocks) × (count ≤ most_blocks) × (0 < window) × (0 < workers) }
        ensures counts { IfOk result (λ r. (r.0.shared.table_id.words ≡ window + 2) × (r.0.shared.table_id.slots ≡ window + 1)) }
        ensures seat { IfOk result (λ r. (r.1.table_id ≡ r.0.shared.table_id) × (r.1.me ≡ (first_view N.setup workers, []))) }
        ensures room { IfOk result (λ r. (r.2.items ≡ []) × (workers ≤ vec_capacity r.2)) }
    {
        let words = first_words(alloc, first, window)?;
        RingStore::<V, N>::table_of(alloc, words.as_slice(), window, count, workers)
    }

    // The same, over the words that stand at the start.
    fn table_of(
        alloc: Global,
        words: &[u64],
        window: u32,
        count: usize,
        workers: u32,
    ) -> Result<(RingTable<V, N>, Seat<Place<V>, RingView>, Vec<Pass<V, N>>), NoMemory>
        requires words { Blank N.setup.first window words.now }
        requires bounds { (window ≡ N.setup.window) × (count ≡ length N.setup.sizes) × (workers ≡ N.workers) }
        requires sizes { (count ≤ most_blocks) × (0 < window) × (0 < workers) }
        ensures counts { IfOk result (λ r. (r.0.shared.table_id.words ≡ window + 2) × (r.0.shared.table_id.slots ≡ window + 1)) }
        ensures seat { IfOk result (λ r. (r.1.table_id ≡ r.0.shared.table_id) × (r.1.me ≡ (first_view N.setup workers, []))) }
        ensures room { IfOk result (λ r. (r.2.items ≡ []) × (workers ≤ vec_capacity r.2)) }
    {
        let slots = first_slots(alloc, window, count)?;
        let passes = Vec::with_capacity(alloc, workers as usize)?;
        match Table::new(alloc, words, slots, &()) {
            Ok((table, seat)) => Ok((table, seat, passes)),
            Err(Refused { slots: _ }) => Err(NoMemory),
        }
    }

    // A pass for each worker, by splits of the first seat.
    fn deal_all(
        &self,
        mut seat: Seat<Place<V>, RingView>,
        mut passes: Vec<Pass<V, N>>,
        workers: u32,
    ) -> Vec<Pass<V, N>>
        requires table { (seat.table_id ≡ self.now.table.shared.table_id) × (0 < workers) }
        requires seat { seat.me ≡ (first_view N.setup workers, []) }
        requires room { (passes.items ≡ []) × (workers ≤ vec_capacity passes) }
        ensures count { vec_len result ≡ workers }
        ensures workers { map (λ p. p.worker) result.items ≡ numbers 0 workers }
        ensures fresh { All (λ p. (p.table ≡ self.now.table.shared.table_id) × (p.holds ≡ None) × (p.claims ≡ []) × (p.drained ≡ N.setup.first) × (p.next ≡ N.setup.first)) result.items }
    {
        let mut left = workers;
        while left > 1 {
            left -= 1;
            let other = self.deal(&mut seat);
            passes.push_reserved(Pass {
                seat: other,
                worker: left,
                of: PhantomData,
            });
        }
        passes.push_reserved(Pass {
            seat,
            worker: 0,
            of: PhantomData,
        });
        passes.reverse();
        passes
    }
}

// NEXT, DRAIN and the words of the slots.
fn first_words(alloc: Global, first: u32, window: u32) -> Result<Vec<u64>, NoMemory>
    requires { first ≤ most_blocks }
    ensures { IfOk result (λ w. Blank first window w.items) }
{
    let mut words = Vec::with_capacity(alloc, window as usize + 2)?;
    words.push_reserved(first as u64);
    words.push_reserved(2 * first as u64);
    for _ in 0..window {
        words.push_reserved(0);
    }
    Ok(words)
}

// The empty slots, and the tape with room for all entries.
fn first_slots<V: Drop>(alloc: Global, window: u32, count: usize) -> Result<Vec<Place<V>>, NoMemory>
    requires { count ≤ most_blocks }
    ensures { IfOk result (λ s. Row window count s.items) }
{
    let mut slots = Vec::with_capacity(alloc, window as usize + 1)?;
    let tape = Vec::with_capacity(alloc, count)?;
    for _ in 0..window {
        slots.push_reserved(Place::Empty);
    }
    slots.push_reserved(Place::Tape(tape));
    Ok(slots)
}
