//! Why a codestream isn't read: a rule at a place, a limit, or want of memory.

ghost use Rattle.std.specs.Prelude.{◌≡◌};
ghost use Rattle.jx_codestream.specs.declared.faults.StreamFault.TheVariants.{NoMemory as out_of_memory};

use jx_base::NoMemory;
use std::alloc::{AllocError, AllocFailed};
use thiserror::Error;

/// Why a codestream isn't read: its headers and tile-parts, or the packets in them.
#[derive(Clone, Copy, Debug, PartialEq, Eq, Error)]
pub enum StreamFault {
    /// A rule is violated: its number, 1 to 31 or 37, and the place in the file.
    #[error("rule {number} at {place}")]
    Rule { number: u8, place: u32 },
    /// A limit is passed: its number, 3 to 6, and what was counted.
    #[error("limit {number}: {found}")]
    Limit { number: u8, found: u128 },
    /// Memory was refused.
    #[error("no memory")]
    NoMemory,
}

impl From<NoMemory> for StreamFault {
    ghost from_gives = { λ _ e. e ≡ out_of_memory };

    fn from(_: NoMemory) -> Self {
        StreamFault::NoMemory
    }
}

impl From<AllocError> for StreamFault {
    ghost from_gives = { λ _ e. e ≡ out_of_memory };

    fn from(_: AllocError) -> Self {
        StreamFault::NoMemory
    }
}

impl<T: Drop> From<AllocFailed<T>> for StreamFault {
    ghost from_gives = { λ _ e. e ≡ out_of_memory };

    fn from(_: AllocFailed<T>) -> Self {
        StreamFault::NoMemory
    }
}
