//! Tiles, resolutions, bands, precincts and code-blocks as sets of places (T.800, B.3 to B.7).
#![tactic(auto)]

mod counts;
mod empty;
mod exponents;
mod grid;
pub mod laws;
mod leaves;
mod numbering;
mod rects;
mod shape;
mod shapes;
mod spans;
mod table;
mod tile_geom;

pub use counts::{count_blocks, count_in, count_known, count_precincts};
pub use empty::{has_no_place, is_empty_after};
pub use grid::BlockGrid;
pub use leaves::Leaves;
pub use rects::{tile_of, tiles};
pub use shape::{Canvas, CompShape};
pub use shapes::Shapes;
pub use table::Resolution;
pub use tile_geom::TileGeom;
