//! Headers and tile-parts of a JPEG 2000 codestream (ITU-T T.800, Annex A), and the parameters that they give.
#![tactic(auto)]

mod checks;
mod component;
mod faults;
mod headers;
mod index;
pub mod laws;
mod lists;
mod packed;
mod parts;
mod precedence;
mod queries;
mod reading;
mod shapes;
mod shares;
mod slots;
mod steps;
mod tiles;
mod view;

pub use faults::StreamFault;
pub use headers::violated;
use jx_base::Style;
use jx_marker::Siz;
pub use lists::{Bodies, Entries, Heads, Segments, Tiles};
pub use packed::joined_bytes;
pub use reading::read_stream;
pub use shapes::comps_of;
pub use view::{MainView, TileView};

/// The data of one tile-part, or a piece of packet headers: where it stands in the file.
#[derive(Clone, Copy, Debug, PartialEq, Eq)]
pub struct Body {
    /// The place of the first byte, of a tile-part's data the one after SOD.
    pub at: u32,
    /// How many bytes there are, also none.
    pub length: u32,
}

/// One tile of a codestream.
#[derive(Drop)]
pub struct Tile {
    /// The first byte of the tile's first SOT.
    pub place: u32,
    /// The segments of its first tile-part's header, without SOT, SOD and PPT.
    pub header: Segments,
    /// The COM segments of its later tile-parts.
    pub notes: Segments,
    /// Whether a PLT stands in the header of one of its tile-parts.
    pub has_plt: bool,
    /// The entries by which its packets are ordered.
    pub progressions: Entries,
    /// Its packet headers, where they stand apart from its packets.
    pub heads: Heads,
    /// The data of its tile-parts in their order.
    pub bodies: Bodies,
}

/// What a codestream says before its packets are read.
#[derive(Drop)]
pub struct Stream {
    /// The picture, its components and its tiles.
    pub siz: Siz,
    /// The main header's segments after SIZ.
    pub main: Segments,
    /// The tiles by their numbers.
    pub tiles: Tiles,
}

/// The parameters of one component of one tile (ITU-T T.800, A.6).
#[derive(Clone, Copy, Debug, PartialEq, Eq)]
pub struct Params {
    /// Levels of decomposition, 0 to 32.
    pub levels: u8,
    /// The exponent of a code-block's width, 2 to 10.
    pub xcb: u8,
    /// The exponent of a code-block's height, 2 to 10.
    pub ycb: u8,
    /// The code-block style.
    pub style: Style,
    /// 0 is the 9-7 wavelet, 1 the 5-3 one.
    pub wavelet: u8,
    /// For each resolution from 0 up the exponents of a precinct's width (low four bits) and height (high four).
    pub precincts: [u8; 33],
    /// The progression order: 0 LRCP, 1 RLCP, 2 RPCL, 3 PCRL, 4 CPRL.
    pub order: u8,
    /// The number of layers.
    pub layers: u16,
    /// The component transform, 0 or 1.
    pub transform: u8,
    /// The guard bits.
    pub guard: u8,
    /// The quantization style: 0 none, 1 scalar derived, 2 scalar expounded.
    pub quant: u8,
    /// The shift of a region of interest, or 0.
    pub shift: u8,
}
