//! Planners of quality layers: which coding pass is sent in which layer (ITU-T T.800, B.10).
//!
//! [`LayerPlanner`] states what a planner answers; [`KeepLayers`], [`OneLayer`], [`CutLayers`] and [`PlaneLayers`] are those that the
//! words of `--layers` choose.
#![tactic(auto)]

mod cutting;
mod keep;
pub mod laws;
mod planes;
mod planner;
mod texts;

pub use cutting::CutLayers;
pub use keep::{KeepLayers, OneLayer};
pub use planes::PlaneLayers;
pub use planner::LayerPlanner;

/// What a planner is told of a codestream before it is asked.
#[derive(Clone, Copy, Debug, PartialEq, Eq)]
pub struct StreamFacts {
    /// The greatest number of layers of any tile.
    pub layers: u16,
    /// The greatest number of planes of any band that has a code-block.
    pub planes: u8,
    /// How many code-blocks there are.
    pub blocks: u32,
}

/// What a planner is told of the coding pass that it is asked about (ITU-T T.800, D.3).
#[derive(Clone, Copy, Debug, PartialEq, Eq)]
pub struct PassFacts {
    /// The number of its code-block.
    pub block: u32,
    /// Its number in the block, from 0 on.
    pub pass: u16,
    /// Its plane among those that the block codes, from 0 on.
    pub plane: u8,
    /// The zero planes above these.
    pub zero: u8,
    /// The layer in which it was sent.
    pub layer: u16,
}
