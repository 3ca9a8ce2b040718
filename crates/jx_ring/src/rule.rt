//! The rule of the ring, and what each step tells. These types are for the proofs alone.
ghost use Rattle.jx_store.specs.Valid.{IsOf};
ghost use Rattle.jx_ring.specs.Rule.{Ring, first_view, deals, dealt, joined, spent_view};
ghost use Rattle.jx_ring.specs.Told.{saw_drained, saw_next, saw_word, won, parks, began, ended};

use crate::view::{Place, RingView};
use atomic_table::{Join, Play, Split, TableRule};
use jx_store::{Bounds, Work};
use std::marker::PhantomData;

/// The rule of a ring of these values and bounds.
pub struct Turns<V, N> {
    of: PhantomData<(V, N)>,
}

impl<V: Work, N: Bounds<V::Job>> TableRule<Place<V>, RingView, ()> for Turns<V, N> {
    ghost holds = { λ _. Ring N.setup N.workers (IsOf V.number V.job V.bad N.setup.first N.jobs) };

    ghost first = { λ _. first_view N.setup N.workers };
}

/// A load of DRAIN.
pub struct SeeDrained<V, N> {
    of: PhantomData<(V, N)>,
}

impl<V: Work, N: Bounds<V::Job>> Play<Place<V>, RingView> for SeeDrained<V, N> {
    ghost then = { saw_drained N.setup };
}

/// A load of NEXT.
pub struct SeeNext<V, N> {
    of: PhantomData<(V, N)>,
}

impl<V: Work, N: Bounds<V::Job>> Play<Place<V>, RingView> for SeeNext<V, N> {
    ghost then = { saw_next N.setup };
}

/// A load of the word of the first number that wasn't drained.
pub struct SeeWord<V, N> {
    of: PhantomData<(V, N)>,
}

impl<V: Work, N: Bounds<V::Job>> Play<Place<V>, RingView> for SeeWord<V, N> {
    ghost then = { saw_word N.setup };
}

/// A compare-exchange of NEXT by one up.
pub struct Win<V, N> {
    of: PhantomData<(V, N)>,
}

impl<V: Work, N: Bounds<V::Job>> Play<Place<V>, RingView> for Win<V, N> {
    ghost then = { won N.setup };
}

/// A store into the word of a number that is committed.
pub struct Park<V, N> {
    of: PhantomData<(V, N)>,
}

impl<V: Work, N: Bounds<V::Job>> Play<Place<V>, RingView> for Park<V, N> {
    ghost then = { parks N.setup };
}

/// A compare-exchange of DRAIN to the odd value.
pub struct Begin<V, N> {
    of: PhantomData<(V, N)>,
}

impl<V: Work, N: Bounds<V::Job>> Play<Place<V>, RingView> for Begin<V, N> {
    ghost then = { began N.setup (IsOf V.number V.job V.bad N.setup.first N.jobs) };
}

/// A store of the next even value into DRAIN.
pub struct End<V, N> {
    of: PhantomData<(V, N)>,
}

impl<V: Work, N: Bounds<V::Job>> Play<Place<V>, RingView> for End<V, N> {
    ghost then = { ended N.setup };
}

/// A split of a seat: the new one has the first of the worker numbers that it stands for.
pub struct Deal;

impl Split<RingView> for Deal {
    ghost left = { deals };

    ghost right = { dealt };
}

/// A join of two seats.
pub struct Pair;

impl Join<RingView> for Pair {
    ghost both = { joined };

    ghost spent = { spent_view };
}
