//! Which calls are to fail, for devices in memory.

ghost use Rattle.std.specs.Prelude.{◌≡◌, ◌↔◌, IsTrue, OnOk, OnErr, [], ◌∷◌, ◌++◌, Contains};
ghost use Rattle.jx_io_memory.specs.Planned.{Counts, next_of};

use std::alloc::{AllocError, Global};

/// A kind of call of [`jx_io::Files`].
#[derive(Clone, Copy, Debug, PartialEq, Eq)]
pub enum Call {
    Open,
    Read,
    Create,
    Write,
    Finish,
}

/// A call that is to fail: its kind, and its number among the calls of that kind, from 1.
#[derive(Clone, Copy, Debug, PartialEq, Eq)]
pub struct PlannedFault {
    pub call: Call,
    pub nth: u32,
}

/// The calls that are to fail, and how many of each kind were made.
#[derive(Drop)]
pub struct Plan {
    pub faults: Vec<PlannedFault>,
    pub made: [u32; 5],
}

impl Plan {
    pub fn new(alloc: Global) -> Plan
        ensures faults { result.faults.items ≡ [] }
        ensures made { result.made ≡ 0 ∷ 0 ∷ 0 ∷ 0 ∷ 0 ∷ [] }
    {
        Plan {
            faults: Vec::new(alloc),
            made: [0; 5],
        }
    }

    pub fn add(&mut self, call: Call, nth: u32) -> Result<(), AllocError>
        ensures ok { OnOk result (self.new.faults.items ≡ self.old.faults.items ++ record { call = call; nth = nth } ∷ []) }
        ensures err { OnErr result (self.new.faults.items ≡ self.old.faults.items) }
        ensures made { self.new.made ≡ self.old.made }
    {
        self.faults.push(PlannedFault { call, nth })?;
        Ok(())
    }

    /// Counts this call, and tells whether it is to fail.
    pub fn fails(&mut self, call: Call) -> bool
        ensures fails { IsTrue result ↔ Contains self.old.faults.items (record { call = call; nth = next_of self.old call }) }
        ensures counts { Counts self.old self.new call }
    {
        let kind = call as usize;
        let nth = self.made[kind].saturating_add(1);
        self.made[kind] = nth;
        self.faults.contains(&PlannedFault { call, nth })
    }
}
