//! One tile of a codestream (ITU-T T.800, A.6, B.3 to B.9 and B.12): its headers and its geometry, made once; its packets in their
//! order, and whether each is in some progression entry; how many code-blocks and packets the tiles have; a precinct's code-blocks.
#![tactic(auto)]

mod cells;
mod covered;
mod frame;
mod totals;

pub use cells::{cells_of, sizes_of};
pub use covered::check_covered;
pub use frame::TileFrame;
pub use totals::{check_totals, count_all};
