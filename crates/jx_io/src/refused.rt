//! Why a call of the outside did nothing.

ghost use Rattle.std.specs.Prelude.{◌≡◌};
ghost use Rattle.jx_io.specs.declared.refused.Refused.TheVariants.{NoMemory};

use std::alloc::{AllocError, AllocFailed};

/// Why a call of the outside did nothing.
#[derive(Clone, Copy, Debug, PartialEq, Eq)]
pub enum Refused {
    /// The device failed, and the count of its faults shows it.
    Failed,
    /// Memory was refused, for what the device keeps of bytes and names.
    NoMemory,
}

impl From<AllocError> for Refused {
    ghost from_gives = { λ _ e. e ≡ NoMemory };

    fn from(_: AllocError) -> Self {
        Refused::NoMemory
    }
}

impl<T: Drop> From<AllocFailed<T>> for Refused {
    ghost from_gives = { λ _ e. e ≡ NoMemory };

    fn from(_: AllocFailed<T>) -> Self {
        Refused::NoMemory
    }
}
