//! Names of bands and blocks, and sets of places with straight borders.

ghost use Rattle.std.specs.Prelude.{◌≡◌, ◌<◌};
ghost use Rattle.jx_base.specs.Bands.{bands_at};
ghost use Rattle.jx_base.specs.Places.{InRect, column_at, length_of, number_at, row_at, size_of};

/// The kind of a band: how it was filtered across and down (T.800, B.5).
#[derive(Clone, Copy, Debug, PartialEq, Eq)]
pub enum Band {
    /// Low both ways: the one band of resolution 0.
    LL,
    /// High across, low down.
    HL,
    /// Low across, high down.
    LH,
    /// High both ways.
    HH,
}

impl Band {
    /// The bands of a resolution in their order: LL; above resolution 0 HL, LH, HH.
    pub fn of_resolution(res: u8) -> &'static [Band]
        ensures { result.now ≡ bands_at res }
    {
        if res == 0 {
            return &[Band::LL];
        }
        &[Band::HL, Band::LH, Band::HH]
    }
}

/// The numbers from `low` on below `high`; none where `high` isn't above `low`.
#[derive(Clone, Copy, Debug, PartialEq, Eq)]
pub struct Span {
    /// The first number.
    pub low: u32,
    /// One past the last number.
    pub high: u32,
}

/// The places (x, y) with x in one span and y in another.
#[derive(Clone, Copy, Debug, PartialEq, Eq)]
pub struct Rect {
    /// The columns.
    pub x: Span,
    /// The rows.
    pub y: Span,
}

impl Span {
    /// How many numbers it has.
    pub fn len(self) -> u32
        ensures { result ≡ length_of self }
    {
        self.high.saturating_sub(self.low)
    }
}

impl Rect {
    /// How many places it has.
    pub fn area(self) -> u64
        ensures { result ≡ size_of self }
    {
        u64::from(self.x.len()) * u64::from(self.y.len())
    }

    /// The number of a place, row by row from above, each from the left.
    pub fn number(self, column: u32, row: u32) -> u64
        requires { InRect self column row }
        ensures value { result ≡ number_at self column row }
        ensures below { result < size_of self }
    {
        u64::from(row - self.y.low) * u64::from(self.x.len()) + u64::from(column - self.x.low)
    }

    /// The column and the row of the place of a number.
    pub fn place(self, number: u64) -> (u32, u32)
        requires { number < size_of self }
        ensures column { result.0 ≡ column_at self number }
        ensures row { result.1 ≡ row_at self number }
        ensures inside { InRect self result.0 result.1 }
    {
        let wide = u64::from(self.x.len());
        (
            self.x.low + (number % wide) as u32,
            self.y.low + (number / wide) as u32,
        )
    }
}

/// A code-block's name within the codestream (T.800, B.7).
#[derive(Clone, Copy, Debug, PartialEq, Eq)]
pub struct BlockName {
    /// The tile's number.
    pub tile: u16,
    /// The component's number.
    pub comp: u16,
    /// The resolution's number; 0 is the smallest.
    pub res: u8,
    /// The band of that resolution.
    pub band: Band,
    /// The raster place of the block's cell among the cells of its band, from 0 on.
    pub index: u32,
}
