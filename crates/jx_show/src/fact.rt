//! Facts of a codestream: what is told, of which part of it, and the value.

use jx_base::Style;
use jx_marker::Progression;

/// What a fact tells.
#[derive(Clone, Copy)]
pub enum Name {
    /// Rsiz, the capabilities that a decoder needs (T.800, A.5.1, Table A.10).
    Profile,
    /// The picture's columns and rows on the reference grid (B.2).
    Size,
    /// The picture's first column and row on the reference grid (B.2).
    Offset,
    /// A tile's columns and rows on the reference grid (B.3).
    TileSize,
    /// The first tile's first column and row on the reference grid (B.3).
    TileOffset,
    /// How many tiles there are (B.3).
    Tiles,
    /// How many components there are (A.5.1, Csiz).
    Components,
    /// The bits of a component's samples, the sign among them (A.5.1, Ssiz).
    Depth,
    /// Whether a component's samples have a sign (A.5.1, Ssiz).
    Sign,
    /// The columns and rows of the reference grid for one sample (A.5.1, XRsiz and YRsiz).
    Sampling,
    /// The progression order (A.6.1, Table A.16).
    Order,
    /// The number of layers (A.6.1).
    Layers,
    /// Whether the first three components are transformed together (A.6.1, Table A.17).
    Transform,
    /// Whether SOP segments may stand before packets (A.6.1, Table A.13).
    Sop,
    /// Whether EPH markers stand behind packet headers (A.6.1, Table A.13).
    Eph,
    /// The decomposition levels (A.6.1).
    Levels,
    /// The wavelet (A.6.1, Table A.20).
    Wavelet,
    /// The columns and rows of a code-block (A.6.1, Table A.18).
    BlockSize,
    /// The style of code-blocks (A.6.1, Table A.19).
    BlockStyle,
    /// The columns and rows of a resolution's precincts (A.6.1, Table A.21).
    Precincts,
    /// The style of quantization (A.6.4, Table A.28).
    Quantization,
    /// The guard bits (A.6.4, Table A.28).
    Guard,
    /// The shift of a region of interest (A.6.3).
    Region,
    /// An entry of POC segments (A.6.6).
    Progression,
    /// How many packets there are (B.9).
    Packets,
    /// How many code-blocks there are (B.7).
    Blocks,
    /// How many bytes the code-blocks have (B.10.7).
    Bytes,
    /// How many tile-parts a tile has (A.4.2).
    TileParts,
    /// Whether packet lengths stand in the header of some tile's first tile-part (A.7.3).
    Plt,
    /// Whether packet lengths stand in the main header (A.7.2).
    Plm,
    /// Whether packed packet headers stand in the main header (A.7.4).
    Ppm,
    /// Whether packed packet headers stand in tile-parts' headers (A.7.5).
    Ppt,
    /// Whether tile-part lengths stand in the main header (A.7.1).
    Tlm,
    /// How many comments there are (A.9.2).
    Comments,
}

/// A word that is a value.
#[derive(Clone, Copy)]
pub enum Word {
    /// Samples without a sign.
    Unsigned,
    /// Samples with a sign.
    Signed,
    /// The progression order of a number (T.800, A.6.1, Table A.16).
    Order(u8),
    /// The 9-7 wavelet.
    Irreversible,
    /// The 5-3 wavelet.
    Reversible,
    /// No quantization.
    Nothing,
    /// Scalar quantization, each step derived from that of the lowest band.
    Derived,
    /// Scalar quantization, each step told.
    Expounded,
}

/// What is told.
#[derive(Clone, Copy)]
pub enum Value {
    /// A number.
    Count(u128),
    /// Columns and rows.
    Size(u32, u32),
    /// A column and a row.
    Place(u32, u32),
    /// Whether it is so.
    Holds(bool),
    /// A word.
    Word(Word),
    /// A style of code-blocks, by its bits (T.800, Table A.19).
    Style(Style),
    /// An entry of a POC segment (A.6.6).
    Entry(Progression),
}

/// Of what it is told: of all of the codestream where nothing is named.
#[derive(Clone, Copy)]
pub struct About {
    /// The number of a resolution, or of an entry.
    pub number: Option<usize>,
    /// The component.
    pub comp: Option<u16>,
    /// The tile.
    pub tile: Option<u16>,
}

/// One fact.
#[derive(Clone, Copy)]
pub struct Fact {
    /// What it tells.
    pub name: Name,
    /// Of what.
    pub about: About,
    /// What is told.
    pub value: Value,
}
