//! The code-blocks of a codestream with their coded bytes (ITU-T T.800, B.6 to B.12): tile data are cut into packets, and the
//! pieces of each block are joined.
#![tactic(auto)]

mod data;
mod fresh;
mod gathering;
mod heads;
pub mod laws;
mod packet;
mod pieces;
mod rest;
mod tile;
mod tile_blocks;

pub use gathering::gather;
pub use jx_base::{Block, Piece, Pieces};
pub use jx_codestream::StreamFault;
