//! What a store holds: the results of jobs, under names.
ghost use Rattle.std.specs.Prelude.{◌≡◌, ℕ, Bool, List, []};
ghost use Rattle.jx_store.specs.Setup.{Setup};

use crate::event::Taped;
use std::marker::Brand;

/// The result of a job.
pub trait Work: Drop {
    /// What it is made of.
    type Job;

    /// The job that the value was made of.
    ghost job: { Self → Self.Job };

    /// Whether nothing can be made of a job.
    ghost bad: { Self.Job → Bool };

    /// The value's number.
    ghost number: { Self → ℕ };

    /// The value's number.
    fn number(&self) -> u32
        ensures { result ≡ number self.now };
}

/// What is committed under a number: the value made, or its number where its job is bad, or where
/// memory fell short.
#[derive(Drop)]
pub enum Named<V> {
    Made(V),
    Bad(u32),
    Short(u32),
}

/// An entry of a store's tape: its number, the worker that claimed it, the first number that wasn't
/// drained when it was claimed, and what this worker committed under it.
pub type Entry<V> = Taped<Named<V>>;

/// A name for the bounds that a store is made with: what its `new` is given, as far as the
/// contracts of the store's calls speak of it.
pub trait Bounds<J> {
    /// The first number, the sizes and the two windows.
    ghost setup: { Setup };

    /// How many passes there are.
    ghost workers: { ℕ };

    /// The job of each number.
    ghost jobs: { List J };
}

impl<J> Bounds<J> for Brand {
    ghost setup = { record { first = 0; sizes = []; window = 0; most = 0 } };

    ghost workers = { 0 };

    ghost jobs = { [] };
}
