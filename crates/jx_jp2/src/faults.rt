//! Why the boxes of a file can't be told.

ghost use Rattle.std.specs.Prelude.{◌≡◌};
ghost use Rattle.jx_jp2.specs.declared.faults.BoxFault.TheVariants.{NoMemory as out_of_memory};

use std::alloc::AllocError;

/// Why boxes can't be told.
#[derive(Clone, Copy, Debug, PartialEq, Eq)]
pub enum BoxFault {
    /// The box that begins at the place breaks the rule, 32 to 34. Rule 35 is the file's, and its place is the file's length.
    Rule { number: u8, place: u32 },
    /// Memory was refused.
    NoMemory,
}

impl From<AllocError> for BoxFault {
    ghost from_gives = { λ _ wrong. wrong ≡ out_of_memory };

    fn from(_: AllocError) -> Self {
        BoxFault::NoMemory
    }
}
