//! The core: a window of slots and a tape.
ghost use Rattle.std.specs.Prelude.{◌≡◌, ◌<◌, ◌≤◌, ◌+◌, IfOk, length};
ghost use Rattle.std.specs.List.{sum};
ghost use Rattle.jx_store.specs.Machine.{start, end, does, is_full};
ghost use Rattle.jx_store_plain.specs.Shown.{state_of};
ghost use Rattle.jx_store.specs.declared.event.Event.TheVariants.{Claim, Commit, Drain};
ghost use Rattle.jx_base.specs.Limits.{most_blocks, most_bytes};

use crate::slot::Slot;
use jx_base::NoMemory;
use jx_store::{Event, Reply, Sums, Taped};
use std::alloc::Global;
use std::marker::Model;
use std::mem;

/// A store that one caller owns. The numbers are `first` to `first + sizes.len() - 1`, each with a
/// size. Number k has its place at k modulo the window. A call of `step` takes no memory.
#[derive(Drop)]
pub struct Core<V> {
    sums: Sums,
    next: u32,
    drained: u32,
    slots: Vec<Slot<V>>,
    tape: Vec<Taped<V>>,
}

impl<V> Model for Core<V> {
    ghost use Rattle.std.specs.Prelude.{◌≡◌, ◌<◌, ◌≤◌, ◌+◌, length, vec_len, vec_capacity};
    ghost use Rattle.jx_store.specs.Setup.{end_of};
    ghost use Rattle.jx_store_plain.specs.Shown.{Shown};
    ghost use Rattle.jx_base.specs.Limits.{most_blocks};

    ghost Value = { Shown V };

    ghost view = { λ c. record { setup = c.sums; next = c.next; drained = c.drained; slots = c.slots.items; tape = c.tape.items } };

    ghost invariant = { λ c. record {
      window : 0 < c.sums.window;
      slots : vec_len c.slots ≡ c.sums.window;
      range : end_of c.sums ≤ most_blocks;
      low : c.sums.first ≤ c.drained;
      mid : c.drained ≤ c.next;
      high : c.next ≤ end_of c.sums;
      near : c.next ≤ c.drained + c.sums.window;
      tape : vec_len c.tape + c.sums.first ≡ c.drained;
      room : length c.sums.sizes ≤ vec_capacity c.tape;
    } };
}

impl<V: Drop> Core<V> {
    /// A store of the numbers from `first` on, none of them claimed. There is at least one size,
    /// the numbers end at 2^22 and the sizes sum to at most 2^32 - 1. `window` is 1 to 1,024, `most` 1
    /// to 2^32 - 1. All room that the store will need is taken here.
    pub fn new(
        alloc: Global,
        first: u32,
        sizes: &[u32],
        window: u32,
        most: u32,
    ) -> Result<Core<V>, NoMemory>
        requires count { (0 < length sizes.now) × (first + length sizes.now ≤ most_blocks) }
        requires sizes { sum sizes.now ≤ most_bytes }
        requires window { (0 < window) × (window ≤ 1024) }
        requires most { (0 < most) × (most ≤ most_bytes) }
        ensures { IfOk result (λ c. state_of c ≡ start (record { first = first; sizes = sizes.now; window = window; most = most })) }
    {
        let sums = Sums::new(alloc, first, sizes, window, most)?;
        let slots = empty_slots(alloc, window)?;
        let tape = Vec::with_capacity(alloc, sizes.len())?;
        Ok(Core {
            sums,
            next: first,
            drained: first,
            slots,
            tape,
        })
    }
}

fn empty_slots<V: Drop>(alloc: Global, window: u32) -> Result<Vec<Slot<V>>, NoMemory>
    ensures { IfOk result (λ v. length v.items ≡ window) }
{
    let mut slots = Vec::with_capacity(alloc, window as usize)?;
    for _ in 0..window {
        slots.push_reserved(Slot::Empty);
    }
    Ok(slots)
}

impl<V: Drop> Core<V> {
    fn claim(&mut self, worker: u32) -> Reply
        ensures state { state_of self.new ≡ (does (state_of self.old) (Claim worker)).0 }
        ensures reply { result ≡ (does (state_of self.old) (Claim worker)).1 }
    {
        if self.next == self.sums.end() {
            return Reply::AllClaimed;
        }
        if self.is_full() {
            return Reply::Full {
                next: self.next,
                drained: self.drained,
            };
        }
        let number = self.next;
        let seen = self.drained;
        let place = (number % self.sums.window()) as usize;
        self.slots[place] = Slot::Held { worker, seen };
        self.next += 1;
        Reply::Claimed { number, seen }
    }

    // Whether one more claim would pass a window.
    fn is_full(&self) -> bool
        requires { self.now.next < end (state_of self.now) }
        ensures { result ≡ is_full (state_of self.now) }
    {
        if self.next - self.drained == self.sums.window() {
            return true;
        }
        self.drained < self.next && self.sums.is_over(self.drained, self.next)
    }

    fn commit(&mut self, worker: u32, number: u32, value: V) -> Reply
        ensures state { state_of self.new ≡ (does (state_of self.old) (Commit worker number value)).0 }
        ensures reply { result ≡ (does (state_of self.old) (Commit worker number value)).1 }
    {
        if number < self.drained || number >= self.next {
            return Reply::Foreign;
        }
        let place = (number % self.sums.window()) as usize;
        let Slot::Held {
            worker: holder,
            seen,
        } = self.slots[place]
        else {
            return Reply::Foreign;
        };
        if holder != worker {
            return Reply::Foreign;
        }
        self.slots[place] = Slot::Parked {
            worker,
            seen,
            value,
        };
        Reply::Committed
    }

    fn drain(&mut self) -> Reply
        ensures state { state_of self.new ≡ (does (state_of self.old) Drain).0 }
        ensures reply { result ≡ (does (state_of self.old) Drain).1 }
    {
        if self.drained == self.next {
            return Reply::Nothing;
        }
        let number = self.drained;
        let head = (number % self.sums.window()) as usize;
        let Slot::Parked { .. } = self.slots[head] else {
            return Reply::Nothing;
        };
        let Slot::Parked {
            worker,
            seen,
            value,
        } = mem::replace(&mut self.slots[head], Slot::Empty)
        else {
            unreachable!()
        };
        self.tape.push_reserved(Taped {
            number,
            worker,
            seen,
            named: value,
        });
        self.drained += 1;
        Reply::Drained { number }
    }

    /// What the event does, and the reply to it: one step of the machine.
    pub fn step(&mut self, event: Event<V>) -> Reply
        ensures state { state_of self.new ≡ (does (state_of self.old) event).0 }
        ensures reply { result ≡ (does (state_of self.old) event).1 }
    {
        match event {
            Event::Claim { worker } => self.claim(worker),
            Event::Commit {
                worker,
                number,
                value,
            } => self.commit(worker, number, value),
            Event::Drain => self.drain(),
        }
    }

    /// The tape so far.
    pub fn tape(&self) -> &[Taped<V>]
        ensures { result.now ≡ self.now.tape }
    {
        &self.tape
    }

    /// The tape, taken out.
    pub fn into_tape(self) -> Vec<Taped<V>>
        ensures { result.items ≡ self.tape }
    {
        let Core {
            sums: _,
            next: _,
            drained: _,
            slots: _,
            tape,
        } = self;
        tape
    }
}
