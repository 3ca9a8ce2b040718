//! Marker segments of a JPEG 2000 codestream (ITU-T T.800, Annex A), read and written exactly.
#![tactic(auto)]

pub mod codes;
mod copies;
mod fields;
pub mod laws;
mod lists;
mod markers;
mod numbers;
mod packets;
mod put;
mod read;
pub mod rule_numbers;
mod rules;
mod siz_rules;

pub use lists::{Bytes, CompSizes, Numbers, Progressions};
pub use numbers::u32_at;
pub use packets::{eph, sop};
pub use put::put_segment;
pub use read::read_segment;

/// One component of the SIZ segment (T.800, A.5.1): its depth and its subsampling.
#[derive(Clone, Copy, Debug, PartialEq, Eq)]
pub struct CompSize {
    /// Ssiz: the sign in bit 7, the depth less 1 in the low seven bits.
    pub ssiz: u8,
    /// XRsiz: columns of the reference grid for one sample, at least 1.
    pub dx: u8,
    /// YRsiz: rows of the reference grid for one sample, at least 1.
    pub dy: u8,
}

/// The SIZ segment (T.800, A.5.1). Places and sizes are in points of the reference grid.
#[derive(Drop)]
pub struct Siz {
    /// Rsiz: the capabilities that the file asks for.
    pub rsiz: u16,
    /// Xsiz: the canvas's right end.
    pub x1: u32,
    /// Ysiz: the canvas's lower end.
    pub y1: u32,
    /// XOsiz: the canvas's left end.
    pub x0: u32,
    /// YOsiz: the canvas's upper end.
    pub y0: u32,
    /// XTsiz: a tile's width.
    pub tw: u32,
    /// YTsiz: a tile's height.
    pub th: u32,
    /// XTOsiz: the first tile's left end.
    pub tx: u32,
    /// YTOsiz: the first tile's upper end.
    pub ty: u32,
    /// The components in their order, 1 to 16,384 of them.
    pub comps: CompSizes,
}

/// The part that COD and COC share (T.800, A.6.1): levels, code-blocks, wavelet and precincts.
#[derive(Drop)]
pub struct Shape {
    /// Levels of decomposition, 0 to 32.
    pub levels: u8,
    /// The exponent of a code-block's width, 2 to 10.
    pub xcb: u8,
    /// The exponent of a code-block's height, 2 to 10; both together are at most 12.
    pub ycb: u8,
    /// The code-block style, six bits.
    pub style: u8,
    /// 0 is the 9-7 wavelet, 1 the 5-3 one.
    pub wavelet: u8,
    /// One byte for each resolution from 0 up, the width's exponent in the low four bits and the
    /// height's in the high four. None at all means that every exponent is 15.
    pub precincts: Bytes,
}

/// The COD segment (T.800, A.6.1).
#[derive(Drop)]
pub struct Cod {
    /// SOP segments may be used.
    pub sop: bool,
    /// EPH markers are used.
    pub eph: bool,
    /// The progression order: 0 LRCP, 1 RLCP, 2 RPCL, 3 PCRL, 4 CPRL.
    pub order: u8,
    /// The number of layers, at least 1.
    pub layers: u16,
    /// The component transform, 0 or 1.
    pub transform: u8,
    /// Levels, code-blocks, wavelet and precincts.
    pub shape: Shape,
}

/// What QCD and QCC say of quantization (T.800, A.6.4).
#[derive(Drop)]
pub struct Quant {
    /// The style in the low five bits, the guard bits in the top three.
    pub sqcd: u8,
    /// At least one entry: a byte each with style 0, else 16 bits each.
    pub entries: Numbers,
}

/// One entry of a POC segment (T.800, A.6.6). Ends are past the last; the layers begin at 0.
#[derive(Clone, Copy, Debug, PartialEq, Eq)]
pub struct Progression {
    /// The first resolution.
    pub rs: u8,
    /// The first component.
    pub cs: u16,
    /// The layers' end, at least 1.
    pub lye: u16,
    /// The resolutions' end.
    pub re: u8,
    /// The components' end, or 0 for all.
    pub ce: u16,
    /// The progression order, as in COD.
    pub order: u8,
}

/// The SOT segment (T.800, A.4.2).
#[derive(Clone, Copy, Debug, PartialEq, Eq)]
pub struct Sot {
    /// Isot: the tile's number.
    pub tile: u16,
    /// Psot: the tile-part's bytes from the SOT's first on, or 0 for all up to EOC.
    pub psot: u32,
    /// TPsot: the tile-part's number in its tile.
    pub part: u8,
    /// TNsot: the number of the tile's tile-parts, or 0 where it isn't told.
    pub parts: u8,
}

/// A marker segment (T.800, A.2).
#[derive(Drop)]
pub enum Segment {
    /// Start of codestream (A.4.1).
    Soc,
    /// Image and tile sizes (A.5.1).
    Siz(Siz),
    /// Coding style default (A.6.1).
    Cod(Cod),
    /// Coding style of one component (A.6.2).
    Coc { comp: u16, shape: Shape },
    /// Quantization default (A.6.4).
    Qcd(Quant),
    /// Quantization of one component (A.6.5).
    Qcc { comp: u16, quant: Quant },
    /// Region of interest of one component: the shift, 0 to 255 (A.6.3).
    Rgn { comp: u16, shift: u8 },
    /// Changes of the progression order (A.6.6).
    Poc(Progressions),
    /// Component registration: the bytes after the length (A.9.1).
    Crg(Bytes),
    /// A comment: the bytes after the length (A.9.2).
    Com(Bytes),
    /// Packet lengths of a tile-part: the bytes after the length (A.7.3).
    Plt(Bytes),
    /// Packet lengths in the main header: the bytes after the length (A.7.2).
    Plm(Bytes),
    /// Tile-part lengths: the bytes after the length (A.7.1).
    Tlm(Bytes),
    /// Packed packet headers in the main header: Zppm and the data, also none (A.7.4).
    Ppm { index: u8, bytes: Bytes },
    /// Packed packet headers in a tile-part's header: Zppt and the data, also none (A.7.5).
    Ppt { index: u8, bytes: Bytes },
    /// Start of tile-part (A.4.2).
    Sot(Sot),
    /// Start of data (A.4.3).
    Sod,
    /// End of codestream (A.4.4).
    Eoc,
    /// A marker without a length, FF30 to FF3F: its second byte (Table A.1).
    Skipped(u8),
}

/// Why no segment was read.
#[derive(Clone, Copy, Debug, PartialEq, Eq)]
pub enum Rule {
    /// The rule of this number, 1 to 13 (`rule_numbers`), is the first that the place violates.
    Broken(u8),
    /// Memory was refused.
    NoMemory,
}
