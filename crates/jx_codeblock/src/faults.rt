//! Why nothing is made of a job.

ghost use Rattle.std.specs.Prelude.{◌≡◌};
ghost use Rattle.jx_codeblock.specs.declared.faults.BlockFault.TheVariants.{NoMemory as out_of_memory};

use jx_base::NoMemory;
use std::alloc::AllocError;
use thiserror::Error;

/// Why nothing is made of a job.
#[derive(Clone, Copy, Debug, PartialEq, Eq, Error)]
pub enum BlockFault {
    /// A segmentation symbol of a block that is to be coded anew isn't 1010 (T.800 D.5): the job's number.
    #[error("block {0}")]
    BadSegmentation(u32),
    /// Memory was refused.
    #[error("no memory")]
    NoMemory,
}

impl From<NoMemory> for BlockFault {
    ghost from_gives = { λ _ e. e ≡ out_of_memory };

    fn from(_: NoMemory) -> Self {
        BlockFault::NoMemory
    }
}

impl From<AllocError> for BlockFault {
    ghost from_gives = { λ _ e. e ≡ out_of_memory };

    fn from(_: AllocError) -> Self {
        BlockFault::NoMemory
    }
}
