//! What a worker carries.
ghost use Rattle.std.specs.Prelude.{◌≡◌, ◌+◌, ◌<◌, None};

use std::marker::{Model, PhantomData};
use std::sync::ledger::{Book, Ledger, Share};

/// A worker's pass to a `LockStore`: its number, the number that it holds a claim on, and its shares
/// of the five counts: how often it was given a number, found a window full, found every number
/// claimed, committed, and committed a value. Its number is below the number of passes. `N` names the store's bounds, the others its ledgers.
#[derive(Drop)]
pub struct Pass<N, A: Ledger, B: Ledger, C: Ledger, D: Ledger, E: Ledger> {
    pub(crate) worker: u32,
    pub(crate) holds: Option<u32>,
    pub(crate) claimed: Share<A>,
    pub(crate) full: Share<B>,
    pub(crate) all_claimed: Share<C>,
    pub(crate) committed: Share<D>,
    pub(crate) made: Share<E>,
    pub(crate) of: PhantomData<N>,
}

// A share of each of the five counts.
#[derive(Drop)]
pub(crate) struct Shares<A: Ledger, B: Ledger, C: Ledger, D: Ledger, E: Ledger> {
    pub(crate) claimed: Share<A>,
    pub(crate) full: Share<B>,
    pub(crate) all_claimed: Share<C>,
    pub(crate) committed: Share<D>,
    pub(crate) made: Share<E>,
}

// The books of the five counts.
#[derive(Drop)]
pub(crate) struct Books<A: Ledger, B: Ledger, C: Ledger, D: Ledger, E: Ledger> {
    pub(crate) claimed: Book<A>,
    pub(crate) full: Book<B>,
    pub(crate) all_claimed: Book<C>,
    pub(crate) committed: Book<D>,
    pub(crate) made: Book<E>,
}

impl<A: Ledger, B: Ledger, C: Ledger, D: Ledger, E: Ledger> Shares<A, B, C, D, E> {
    // A worker's pass, with one part of each.
    pub(crate) fn pass<N>(&mut self, worker: u32) -> Pass<N, A, B, C, D, E>
        requires parts { (0 < self.old.claimed.parts) × (0 < self.old.full.parts) × (0 < self.old.all_claimed.parts) × (0 < self.old.committed.parts) × (0 < self.old.made.parts) }
        requires none { (self.old.claimed.amount ≡ 0) × (self.old.full.amount ≡ 0) × (self.old.all_claimed.amount ≡ 0) × (self.old.committed.amount ≡ 0) × (self.old.made.amount ≡ 0) }
        requires worker { worker < A.parts }
        ensures is { result ≡ record { worker = worker; holds = None; claimed = 0; full = 0; all_claimed = 0; committed = 0; made = 0 } }
        ensures parts { (self.new.claimed.parts + 1 ≡ self.old.claimed.parts) × (self.new.full.parts + 1 ≡ self.old.full.parts) × (self.new.all_claimed.parts + 1 ≡ self.old.all_claimed.parts) × (self.new.committed.parts + 1 ≡ self.old.committed.parts) × (self.new.made.parts + 1 ≡ self.old.made.parts) }
        ensures none { (self.new.claimed.amount ≡ 0) × (self.new.full.amount ≡ 0) × (self.new.all_claimed.amount ≡ 0) × (self.new.committed.amount ≡ 0) × (self.new.made.amount ≡ 0) }
    {
        Pass::new(
            worker,
            self.claimed.split_off(1, 0),
            self.full.split_off(1, 0),
            self.all_claimed.split_off(1, 0),
            self.committed.split_off(1, 0),
            self.made.split_off(1, 0),
        )
    }
}

impl<N, A: Ledger, B: Ledger, C: Ledger, D: Ledger, E: Ledger> Model for Pass<N, A, B, C, D, E> {
    ghost use Rattle.std.specs.Prelude.{◌≡◌, ◌<◌};
    ghost use Rattle.jx_store_plain.specs.Passes.{PassView};

    ghost Value = { PassView };

    ghost view = { λ p. record { worker = p.worker; holds = p.holds; claimed = p.claimed.amount; full = p.full.amount; all_claimed = p.all_claimed.amount; committed = p.committed.amount; made = p.made.amount } };

    ghost invariant = { λ p. record {
      parts : (p.claimed.parts ≡ 1) × (p.full.parts ≡ 1) × (p.all_claimed.parts ≡ 1) × (p.committed.parts ≡ 1) × (p.made.parts ≡ 1);
      worker : p.worker < A.parts;
    } };
}

impl<N, A: Ledger, B: Ledger, C: Ledger, D: Ledger, E: Ledger> Pass<N, A, B, C, D, E> {
    pub(crate) fn new(
        worker: u32,
        claimed: Share<A>,
        full: Share<B>,
        all_claimed: Share<C>,
        committed: Share<D>,
        made: Share<E>,
    ) -> Pass<N, A, B, C, D, E>
        requires parts { (claimed.parts ≡ 1) × (full.parts ≡ 1) × (all_claimed.parts ≡ 1) × (committed.parts ≡ 1) × (made.parts ≡ 1) }
        requires worker { worker < A.parts }
        ensures { result ≡ record { worker = worker; holds = None; claimed = claimed.amount; full = full.amount; all_claimed = all_claimed.amount; committed = committed.amount; made = made.amount } }
    {
        Pass {
            worker,
            holds: None,
            claimed,
            full,
            all_claimed,
            committed,
            made,
            of: PhantomData,
        }
    }

    // The shares of the five counts.
    pub(crate) fn shares(self) -> Shares<A, B, C, D, E>
        ensures parts { (result.claimed.parts ≡ 1) × (result.full.parts ≡ 1) × (result.all_claimed.parts ≡ 1) × (result.committed.parts ≡ 1) × (result.made.parts ≡ 1) }
        ensures counts { (result.claimed.amount ≡ self.claimed) × (result.full.amount ≡ self.full) × (result.all_claimed.amount ≡ self.all_claimed) × (result.committed.amount ≡ self.committed) × (result.made.amount ≡ self.made) }
    {
        let Pass {
            worker: _,
            holds: _,
            claimed,
            full,
            all_claimed,
            committed,
            made,
            of: _,
        } = self;
        Shares {
            claimed,
            full,
            all_claimed,
            committed,
            made,
        }
    }
}
