//! Where the packets of a tile are cut into tile-parts (ITU-T T.800, A.4.2 and B.12).
#![tactic(auto)]

mod cutting;
pub mod laws;

pub use cutting::{count_parts, part_end};
