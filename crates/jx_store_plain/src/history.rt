//! The events that changed the store, and how many claims were refused between them.
ghost use Rattle.std.specs.Prelude.{◌≡◌, ◌<◌, ◌≤◌, ◌+◌, ◌-◌, ◌^◌, IfOk, vec_len, vec_capacity};
ghost use Rattle.jx_store_plain.specs.Notes.{no_notes, tells, count_full, count_all, adds_full, adds_all};
ghost use Rattle.jx_store_plain.specs.ShownNotes.{shown};

use jx_base::NoMemory;
use jx_store::Entry;
use std::alloc::Global;

/// An event that changed the store, without its value.
#[derive(Clone, Copy, PartialEq, Eq, Debug)]
pub enum Kind {
    Claims { worker: u32 },
    Commits { worker: u32, number: u32 },
    Drains,
}

/// An event that changed the store, and how many claims were refused since the one before: by a full
/// window, and because every number was claimed.
#[derive(Clone, Copy, PartialEq, Eq, Debug)]
pub struct Step {
    pub full: u64,
    pub all: u64,
    pub kind: Kind,
}

/// The events that changed the store, and how many claims were refused since the last of them.
#[derive(Drop)]
pub struct History {
    pub(crate) steps: Vec<Step>,
    pub(crate) full: u64,
    pub(crate) all: u64,
}

/// A tape, and the history that led to it.
#[derive(Drop)]
pub struct Told<V> {
    pub tape: Vec<Entry<V>>,
    pub history: History,
}

impl History {
    /// The events that changed the store, the first one first.
    pub fn steps(&self) -> &[Step]
        ensures { result.now ≡ (shown self.now).steps }
    {
        &self.steps
    }

    /// How many claims a full window refused since the last of these events.
    pub fn full(&self) -> u64
        ensures { result ≡ (shown self.now).full }
    {
        self.full
    }

    /// How many claims were refused since the last of these events because every number was claimed.
    pub fn all(&self) -> u64
        ensures { result ≡ (shown self.now).all }
    {
        self.all
    }

    pub(crate) fn new(alloc: Global, room: usize) -> Result<History, NoMemory>
        ensures { IfOk result (λ h. (shown h ≡ no_notes) × (room ≤ vec_capacity h.steps)) }
    {
        Ok(History {
            steps: Vec::with_capacity(alloc, room)?,
            full: 0,
            all: 0,
        })
    }

    pub(crate) fn tell(&mut self, kind: Kind)
        requires { vec_len self.old.steps < vec_capacity self.old.steps }
        ensures shown { shown self.new ≡ tells (shown self.old) kind }
        ensures room { (vec_len self.new.steps ≡ vec_len self.old.steps + 1) × (vec_capacity self.new.steps ≡ vec_capacity self.old.steps) }
    {
        self.steps.push_reserved(Step {
            full: self.full,
            all: self.all,
            kind,
        });
        self.full = 0;
        self.all = 0;
    }

    pub(crate) fn refuse_full(&mut self)
        requires { count_full (shown self.old) < 2 ^ 64 - 1 }
        ensures shown { shown self.new ≡ adds_full (shown self.old) }
        ensures room { vec_capacity self.new.steps ≡ vec_capacity self.old.steps }
    {
        self.full += 1;
    }

    pub(crate) fn refuse_all(&mut self)
        requires { count_all (shown self.old) < 2 ^ 64 - 1 }
        ensures shown { shown self.new ≡ adds_all (shown self.old) }
        ensures room { vec_capacity self.new.steps ≡ vec_capacity self.old.steps }
    {
        self.all += 1;
    }
}
