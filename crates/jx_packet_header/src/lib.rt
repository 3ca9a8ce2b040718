//! Packet headers, both ways (ITU-T T.800, B.10).
#![tactic(auto)]

mod band;
mod band_out;
mod known;
pub mod laws;
mod parts;
mod precinct;
mod precinct_out;
mod put;
mod query;
mod rows;
mod words;

pub use known::Known;
pub use precinct::Precinct;
pub use precinct_out::PrecinctOut;

/// The blocks of a precinct's band.
#[derive(Clone, Copy, Debug, PartialEq, Eq)]
pub struct BandCells {
    /// How many blocks stand side by side, 0 where there are none.
    pub wide: u32,
    /// How many stand one above another, 0 where there are none.
    pub high: u32,
    /// The band's planes, at most 255.
    pub planes: u32,
}

/// What a packet's header tells of a block within one segment (T.800 B.10.7).
#[derive(Clone, Copy, Debug, PartialEq, Eq)]
pub struct HeaderPart {
    /// The block's number in its precinct, over the bands in order and raster within a band.
    pub block: u32,
    /// The block's first pass of this part.
    pub first: u16,
    /// How many passes the part has, at least 1.
    pub passes: u16,
    /// How many bytes the part has.
    pub length: u32,
}

/// A part of a block that is written, with the layer in whose packet it is.
#[derive(Clone, Copy, Debug, PartialEq, Eq)]
pub struct LeafPart {
    /// The layer.
    pub layer: u16,
    /// What that packet's header tells of it.
    pub told: HeaderPart,
}

/// A block that is written: a leaf of its band's two tag trees.
#[derive(Drop)]
pub struct Leaf {
    /// Its zero planes. They aren't read where it has no parts, which is a block that is never included.
    pub zero: u8,
    /// Its parts.
    pub parts: Vec<LeafPart>,
}

/// Why a packet header is not read.
#[derive(Clone, Copy, Debug, PartialEq, Eq)]
pub enum HeadFault {
    /// A bit of the header lies past the bytes, a stuffed bit is 1, or a length is 2^32 or more (rule 26).
    Bits,
    /// A block's zero planes reach its band's planes, or it has more passes than its planes allow (rule 27).
    Planes,
    /// Memory was refused.
    NoMemory,
}
