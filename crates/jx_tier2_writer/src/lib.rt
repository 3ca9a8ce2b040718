//! The written file (ITU-T T.800, A.2 to A.4): its main header, and each tile's packets in tile-parts, put together from the
//! headers as they are written and from code-blocks with their coded bytes.
#![tactic(auto)]

mod assemble;
mod block_parts;
mod entries;
mod front;
mod index;
pub mod laws;
mod leaf;
mod lengths;
mod packets;
mod parts;
mod planned;
mod precincts;
mod rows;
mod segments;
mod sending;
mod silent;
mod tile;
mod tile_out;
mod tile_part;
mod whole;

pub use index::{PartLength, index_bytes};
pub use planned::{main_header, main_view, pack_tile};
pub use tile::AssembleFault;
pub use tile_out::TileOut;
pub use whole::whole_parts;
