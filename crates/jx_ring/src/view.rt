//! What lies in a slot of the ring, and what a pass knows.

use atomic_table::Seat;
use jx_store::{Bounds, Entry, Work};
use std::alloc::Global;
use std::collections::LinkedList;
use std::marker::{Model, PhantomData};

/// What lies in a slot at home: nothing, a committed entry, or the tape.
#[derive(Drop)]
pub enum Place<V> {
    Empty,
    Full(Entry<V>),
    Tape(Vec<Entry<V>>),
}

/// A claim: its number, its worker, the first number that wasn't drained as far as the worker had
/// seen, and what was committed: 0 nothing yet, 1 a value, 2 that its job is bad, 3 that memory fell
/// short. It exists in proofs alone.
pub struct Taken {
    pub number: u32,
    pub worker: u32,
    pub seen: u32,
    pub kind: u8,
}

/// What a pass knows. It exists in proofs alone.
pub struct RingView {
    /// The pass's own worker number.
    pub worker: u32,
    /// The worker numbers that it stands for.
    pub stands: LinkedList<u32>,
    /// The claims committed by it.
    pub done: LinkedList<Taken>,
    /// The claim that it holds.
    pub holds: Option<Taken>,
    /// The greatest drained number that it saw.
    pub drained: u32,
    /// The greatest next number that it saw.
    pub next: u32,
    /// The last number that it saw committed.
    pub committed: Option<u32>,
    /// Where it drains, the tape's entries and the head's as it took them.
    pub drains: Option<LinkedList<Taken>>,
}

/// A worker's pass to a `RingStore`: its number, and in contracts the table that it belongs to, the
/// claims that it committed, the one that it holds, and the greatest drained and next numbers that it
/// saw. `N` names the store's bounds.
#[derive(Drop)]
pub struct Pass<V: Work, N: Bounds<V::Job>> {
    pub(crate) seat: Seat<Place<V>, RingView>,
    pub(crate) worker: u32,
    pub(crate) of: PhantomData<N>,
}

impl<V: Work, N: Bounds<V::Job>> Model for Pass<V, N> {
    ghost use Rattle.std.specs.Prelude.{◌≡◌, ◌≤◌, ◌∷◌, [], None, All};
    ghost use Rattle.jx_ring.specs.Passes.{PassView, out};

    ghost Value = { PassView };

    ghost view = { λ q. record { table = q.seat.table_id; worker = q.worker; claims = q.seat.me.0.done; holds = q.seat.me.0.holds; drained = q.seat.me.0.drained; next = q.seat.me.0.next } };

    ghost invariant = { λ q. record {
      own : q.seat.me.0.worker ≡ q.worker;
      stands : q.seat.me.0.stands ≡ q.worker ∷ [];
      idle : q.seat.me.0.drains ≡ None;
      out : q.seat.me.1 ≡ out N.setup.window q.seat.me.0.holds;
      mine : All (λ t. t.worker ≡ q.worker) q.seat.me.0.done;
      low : N.setup.first ≤ q.seat.me.0.drained;
    } };
}
