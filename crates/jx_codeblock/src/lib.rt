//! What becomes of a code-block: the segments in which its passes are written, and the part of them that
//! each layer has (ITU-T T.800, B.10 and Annex D).
#![tactic(auto)]

mod anew;
mod copy;
mod decide;
mod ends;
mod faults;
mod held;
mod job;
pub mod laws;
mod lists;
mod looks;
mod made;
mod own;
mod parts;
mod recoded;
mod segments;
mod sent;
mod starts;
mod step;

pub use ends::Ends;
pub use faults::BlockFault;
pub use job::Job;
pub use recoded::{Recoded, recode};

/// A layer that has passes of a block.
#[derive(Clone, Copy, Debug, PartialEq, Eq)]
pub struct LayerEnd {
    /// The layer.
    pub layer: u16,
    /// How many of the block's passes are sent by its end.
    pub passes: u16,
}

/// What a layer has of a block within one segment.
#[derive(Clone, Copy, Debug, PartialEq, Eq)]
pub struct LayerPart {
    /// The layer.
    pub layer: u16,
    /// The block's first pass of this part.
    pub first: u16,
    /// How many passes the part has, at least 1.
    pub passes: u16,
    /// Where its bytes begin in the block's bytes.
    pub from: u32,
    /// Where they end.
    pub to: u32,
}
