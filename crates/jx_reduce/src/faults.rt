//! Why resolutions aren't left out of a codestream.

ghost use Rattle.std.specs.Prelude.{◌≡◌};
ghost use Rattle.jx_reduce.specs.declared.faults.ReduceFault.TheVariants.{NoMemory as out_of_memory};

use jx_base::NoMemory;
use std::alloc::{AllocError, AllocFailed};

/// Why resolutions aren't left out of a codestream.
#[derive(Clone, Copy, Debug, PartialEq, Eq)]
pub enum ReduceFault {
    /// So many can't be left out: the number of the choice, and a component's or a tile's number, or 0.
    Choice { number: u8, place: u32 },
    /// Memory was refused.
    NoMemory,
}

impl From<NoMemory> for ReduceFault {
    ghost from_gives = { λ _ e. e ≡ out_of_memory };

    fn from(_: NoMemory) -> Self {
        ReduceFault::NoMemory
    }
}

impl From<AllocError> for ReduceFault {
    ghost from_gives = { λ _ e. e ≡ out_of_memory };

    fn from(_: AllocError) -> Self {
        ReduceFault::NoMemory
    }
}

impl<T: Drop> From<AllocFailed<T>> for ReduceFault {
    ghost from_gives = { λ _ e. e ≡ out_of_memory };

    fn from(_: AllocFailed<T>) -> Self {
        ReduceFault::NoMemory
    }
}
