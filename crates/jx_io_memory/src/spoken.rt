//! Sinks that keep their text.

ghost use Rattle.std.specs.Prelude.{Err, ◌≡◌, ◌++◌, [], ◌∷◌, List, ℕ, Some, OnOk, OnErr, string_bytes};
ghost use Rattle.jx_io.specs.Causes.{HasCause};

use jx_io::{Refused, Sink};
use std::alloc::Global;

/// A sink that keeps its text, of which the nth `say` can be made to fail.
#[derive(Drop)]
pub struct MemSink {
    text: String,
    faults: u64,
    calls: u32,
    plan: Vec<u32>,
}

impl MemSink {
    ghost use Rattle.jx_io_memory.specs.SinkPlan.{next_say, planned_says};

    /// Nothing said, and no call that is to fail.
    pub fn new(alloc: Global) -> MemSink
        ensures said { ⟦<MemSink as Sink>⟧.said result ≡ Some [] }
        ensures faults { ⟦<MemSink as Sink>⟧.faults result ≡ 0 }
        ensures plan { planned_says result ≡ [] }
        ensures first { next_say result ≡ 1 }
    {
        MemSink {
            text: String::new(alloc),
            faults: 0,
            calls: 0,
            plan: Vec::new(alloc),
        }
    }

    /// Makes the nth `say` fail, counted from 1 over all calls.
    pub fn fail(&mut self, nth: u32) -> Result<(), Refused>
        ensures ok { OnOk result (planned_says self.new ≡ planned_says self.old ++ nth ∷ []) }
        ensures err { OnErr result (planned_says self.new ≡ planned_says self.old) }
        ensures cause { OnErr result (result ≡ Err Refused.NoMemory) }
        ensures counts { next_say self.new ≡ next_say self.old }
        ensures said { ⟦<MemSink as Sink>⟧.said self.new ≡ ⟦<MemSink as Sink>⟧.said self.old }
        ensures faults { ⟦<MemSink as Sink>⟧.faults self.new ≡ ⟦<MemSink as Sink>⟧.faults self.old }
    {
        self.plan.push(nth)?;
        Ok(())
    }

    /// The text so far.
    pub fn said(&self) -> &str
        ensures { ⟦<MemSink as Sink>⟧.said self.now ≡ Some result.now }
    {
        self.text.as_str()
    }
}

impl Sink for MemSink {
    ghost use Rattle.jx_io_memory.specs.SinkPlan.{ShowsSay};

    ghost said = { λ s. Some (string_bytes s.text) };

    ghost faults = { λ s. s.faults };

    fn say(&mut self, text: &str) -> Result<(), Refused>
        ensures ok { OnOk result (string_bytes self.new.text ≡ string_bytes self.old.text ++ text.now) }
        ensures err { OnErr result (string_bytes self.new.text ≡ string_bytes self.old.text) }
        ensures cause { HasCause self.old.faults self.new.faults result }
        ensures plan { ShowsSay self.old self.new result }
    {
        self.calls = self.calls.saturating_add(1);
        if self.plan.contains(&self.calls) {
            self.faults = self.faults.saturating_add(1);
            return Err(Refused::Failed);
        }
        self.text.push_str(text)?;
        Ok(())
    }
}

/// A sink that keeps its text, and whose only refusal is want of memory.
#[derive(Drop)]
pub struct SureSink {
    text: String,
}

impl SureSink {
    /// Nothing said.
    pub fn new(alloc: Global) -> SureSink
        ensures { ⟦<SureSink as Sink>⟧.said result ≡ Some [] }
    {
        SureSink {
            text: String::new(alloc),
        }
    }

    /// The text so far.
    pub fn said(&self) -> &str
        ensures { ⟦<SureSink as Sink>⟧.said self.now ≡ Some result.now }
    {
        self.text.as_str()
    }
}

impl Sink for SureSink {
    ghost said = { λ s. Some (string_bytes s.text) };

    ghost faults = { λ _. 0 };

    fn say(&mut self, text: &str) -> Result<(), Refused> {
        self.text.push_str(text)?;
        Ok(())
    }
}
