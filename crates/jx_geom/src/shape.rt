//! What geometry is made from: the canvas of the picture and the shape of a component.

/// The picture and its tiles on the reference grid (T.800, B.2 and B.3).
#[derive(Clone, Copy, Debug, PartialEq, Eq)]
pub struct Canvas {
    /// One past the picture's last column (Xsiz).
    pub x1: u32,
    /// One past the picture's last row (Ysiz).
    pub y1: u32,
    /// The picture's first column (XOsiz).
    pub x0: u32,
    /// The picture's first row (YOsiz).
    pub y0: u32,
    /// The width of a tile (XTsiz).
    pub tw: u32,
    /// The height of a tile (YTsiz).
    pub th: u32,
    /// The first column of the first tile (XTOsiz).
    pub tx: u32,
    /// The first row of the first tile (YTOsiz).
    pub ty: u32,
}

/// How a component of a tile is divided (T.800, Tables A.9 and A.15).
#[derive(Clone, Copy, Debug, PartialEq, Eq)]
pub struct CompShape {
    /// The columns of the reference grid from one sample to the next, 1 to 255 (XRsiz).
    pub dx: u8,
    /// The rows from one sample to the next, 1 to 255 (YRsiz).
    pub dy: u8,
    /// The decomposition levels, 0 to 32 (NL).
    pub levels: u8,
    /// The exponent of a code-block's width, 2 to 10.
    pub xcb: u8,
    /// The exponent of a code-block's height, 2 to 10; both together at most 12.
    pub ycb: u8,
    /// For each resolution from 0 on the exponents of a precinct's width (low four bits) and height
    /// (high four bits), 1 to 15, or 0 to 15 at resolution 0 (Table A.21).
    pub precincts: [u8; 33],
}
