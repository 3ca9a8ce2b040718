//! Why a codestream isn't written as it is asked.

ghost use Rattle.std.specs.Prelude.{◌≡◌};
ghost use Rattle.jx_plan.specs.declared.faults.PlanFault.TheVariants.{NoMemory as out_of_memory};

use jx_base::NoMemory;
use std::alloc::{AllocError, AllocFailed};
use thiserror::Error;

/// Why a codestream isn't written as it is asked.
#[derive(Clone, Copy, Debug, PartialEq, Eq, Error)]
pub enum PlanFault {
    /// What is asked can't be had: the number of the choice, and a tile's or a block's number, or 0.
    #[error("choice {number} at {place}")]
    Choice { number: u8, place: u32 },
    /// A limit is passed: its number, and what was counted.
    #[error("limit {number}: {found}")]
    Limit { number: u8, found: u128 },
    /// Memory was refused.
    #[error("no memory")]
    NoMemory,
}

/// Where asked precincts would change the size of a tile's code-blocks first, and what the input has there (ITU-T T.800, Table A.21 and B.7).
#[derive(Clone, Copy, Debug, PartialEq, Eq)]
pub struct Misfit {
    /// The component, 0 to 16,383.
    pub comp: u16,
    /// The resolution, 0 to 32.
    pub res: u8,
    /// The exponent of its precincts' width (PPx), 0 to 15.
    pub across: u8,
    /// The exponent of their height (PPy), 0 to 15.
    pub down: u8,
}

impl From<NoMemory> for PlanFault {
    ghost from_gives = { λ _ e. e ≡ out_of_memory };

    fn from(_: NoMemory) -> Self {
        PlanFault::NoMemory
    }
}

impl From<AllocError> for PlanFault {
    ghost from_gives = { λ _ e. e ≡ out_of_memory };

    fn from(_: AllocError) -> Self {
        PlanFault::NoMemory
    }
}

impl<T: Drop> From<AllocFailed<T>> for PlanFault {
    ghost from_gives = { λ _ e. e ≡ out_of_memory };

    fn from(_: AllocFailed<T>) -> Self {
        PlanFault::NoMemory
    }
}
