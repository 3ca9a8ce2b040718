//! What is told of two codestreams.

use jx_base::Band;

/// What a codestream says that two may differ in.
#[derive(Clone, Copy, Debug, PartialEq, Eq)]
pub enum Field {
    /// The picture and its tiles on the reference grid (T.800, B.2 and B.3).
    Canvas,
    /// The number of components (A.5.1, Csiz).
    Components,
    /// A component's depth in bits and whether its samples have a sign (A.5.1, Ssiz).
    Depth,
    /// A component's subsampling (A.5.1, XRsiz and YRsiz).
    Sampling,
    /// The decomposition levels of a tile-component (A.6.1).
    Levels,
    /// Its wavelet (Table A.20).
    Wavelet,
    /// The component transform of its tile (Table A.17).
    Transform,
    /// The style of quantization (Table A.28).
    Quant,
    /// The guard bits (Table A.28).
    Guard,
    /// The shift of a region of interest (H.1).
    Shift,
    /// The exponent of a band's step (E.1).
    Exponent,
    /// The mantissa of a band's step (E.1).
    Mantissa,
    /// A coefficient: its sign, its magnitude bits, or how many of its planes are decoded (Annex D).
    Coef,
}

/// Where a value stands; 0 and `LL` for what its field lacks.
#[derive(Clone, Copy, Debug, PartialEq, Eq)]
pub struct Spot {
    /// What differs.
    pub field: Field,
    /// The tile's number.
    pub tile: u16,
    /// The component's number.
    pub comp: u16,
    /// The resolution's number; 0 is the smallest.
    pub res: u8,
    /// The band of that resolution.
    pub band: Band,
    /// The column in the band.
    pub x: u32,
    /// The row in the band.
    pub y: u32,
}

/// What a codestream says where a value stands, by what it is.
#[derive(Clone, Copy, Debug, PartialEq, Eq)]
pub enum Value {
    /// Of `Canvas` (A.5.1): Xsiz, Ysiz, XOsiz, YOsiz, XTsiz, YTsiz, XTOsiz and YTOsiz.
    Canvas {
        x1: u32,
        y1: u32,
        x0: u32,
        y0: u32,
        tw: u32,
        th: u32,
        tx: u32,
        ty: u32,
    },
    /// Of `Sampling` (A.5.1): XRsiz and YRsiz.
    Factors {
        dx: u8,
        dy: u8,
    },
    /// Of `Coef`: the sign, the magnitude in whole coded planes, and how many planes are decoded, the zero planes among them where the
    /// code-block has a pass. A positive 0 without decoded planes where no code-block has the place.
    Coef {
        negative: bool,
        bits: u128,
        planes: u16,
    },
    /// Of all others the number that the headers have: Csiz, Ssiz, levels, wavelet (Table A.20), component transform (Table A.17), style of
    /// quantization and guard bits (Table A.28), the shift of a region of interest, an exponent, a mantissa.
    Number(u16),
}

/// A value in which two codestreams differ.
#[derive(Clone, Copy, Debug, PartialEq, Eq)]
pub struct Difference {
    /// Where it stands.
    pub spot: Spot,
    /// What the first codestream says there.
    pub first: Value,
    /// What the second says there.
    pub second: Value,
}

/// Whether two codestreams have the same coefficients, sign by sign and bit by bit, with the same steps and wavelets.
#[derive(Clone, Copy, Debug, PartialEq, Eq)]
pub enum Answer {
    /// They have.
    Same,
    /// They haven't: the first value in which they differ.
    Differs(Difference),
}
