//! The store and its bounds.
ghost use Rattle.std.specs.Prelude.{◌≡◌, ◌+◌, ◌%◌, ◌<◌, ◌≤◌};

use crate::rule::Turns;
use crate::view::{Place, RingView};
use atomic_table::Table;
use jx_store::{Bounds, Sums, Work};
use std::alloc::Global;
use std::marker::{Model, PhantomData};
use std::sync::Mutex;

// The bounds of a store, which are those that its name says.
#[derive(Drop)]
pub(crate) struct Limits<V: Work, N: Bounds<V::Job>> {
    sums: Sums,
    of: PhantomData<(Mutex<V>, N)>,
}

impl<V: Work, N: Bounds<V::Job>> Model for Limits<V, N> {
    ghost use Rattle.std.specs.Prelude.{◌≡◌};
    ghost use Rattle.jx_store.specs.Setup.{Setup};

    ghost Value = { Setup };

    ghost view = { λ x. x.sums };

    ghost invariant = { λ x. x.sums ≡ N.setup };
}

impl<V: Work, N: Bounds<V::Job>> Limits<V, N> {
    pub(crate) fn new(sums: Sums) -> Limits<V, N>
        requires { sums ≡ N.setup }
        ensures { result ≡ N.setup }
    {
        Limits {
            sums,
            of: PhantomData,
        }
    }

    pub(crate) fn sums(&self) -> &Sums
        ensures { (result.now ≡ self.now) × (self.now ≡ N.setup) }
    {
        &self.sums
    }
}

pub(crate) type RingTable<V, N> = Table<Place<V>, RingView, (), Turns<V, N>, Global>;

/// A store that workers share, without a lock: numbers from a first one on are claimed in turn, values
/// are committed under them in any order, and a tape takes them in sequence. `N` names its bounds.
#[derive(Drop)]
pub struct RingStore<V: Work, N: Bounds<V::Job>> {
    pub(crate) table: RingTable<V, N>,
    pub(crate) limits: Limits<V, N>,
    ghost counts: { (table.shared.table_id.words ≡ limits.window + 2) × (table.shared.table_id.slots ≡ limits.window + 1) },
}

impl<V: Work, N: Bounds<V::Job>> RingStore<V, N> {
    // How many slots there are beside the tape's.
    pub(crate) fn window(&self) -> u32
        ensures is { (result ≡ N.setup.window) × (0 < result) × (result ≤ 1024) }
        ensures counts { (self.now.table.shared.table_id.words ≡ N.setup.window + 2) × (self.now.table.shared.table_id.slots ≡ N.setup.window + 1) }
    {
        self.limits.sums().window()
    }

    // The slot of a number.
    pub(crate) fn place(&self, number: u32) -> usize
        ensures is { (result ≡ number % N.setup.window) × (result < N.setup.window) × (N.setup.window ≤ 1024) }
        ensures counts { (self.now.table.shared.table_id.words ≡ N.setup.window + 2) × (self.now.table.shared.table_id.slots ≡ N.setup.window + 1) }
    {
        (number % self.window()) as usize
    }
}
