//! What every crate of the transcoder shares: want of memory, numbers, names.
#![tactic(auto)]

mod limits;
mod memory;
mod names;
mod numbers;
mod pieces;
mod short_list;
mod style;

pub use limits::{MOST_BLOCKS, MOST_BYTES};
pub use memory::NoMemory;
pub use names::{Band, BlockName, Rect, Span};
pub use numbers::{ceil_div, ceil_shift};
pub use pieces::{Block, Piece, Pieces};
pub use short_list::ShortList;
pub use style::{Style, ends_segment, is_raw};
