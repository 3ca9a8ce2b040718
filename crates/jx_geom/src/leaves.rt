//! The code-blocks of a precinct by their numbers.

ghost use Rattle.std.specs.Prelude.{◌≡◌, ◌≤◌, ◌<◌, ◌+◌, ◌*◌, ◌/◌, ◌%◌, ◌^◌, ℕ, max};
ghost use Rattle.jx_base.specs.Places.{size_of};
ghost use Rattle.jx_geom.specs.Geometry.{GeometryInRange};
ghost use Rattle.jx_geom.specs.Leaves.{AreLeaves, count_of, leaf_at, band_leaf_at};
ghost use Rattle.jx_geom.specs.Precincts.{HasPrecinct, cells_at, leaf_index};
ghost use Rattle.jx_geom.specs.Ranges.{HasBand};

use crate::tile_geom::TileGeom;
use jx_base::Band;

/// The blocks of a precinct in a band, leaves of that band's tag trees: rows of `wide` blocks, each row `stride` numbers behind the one before.
#[derive(Clone, Copy, Debug)]
struct BandLeaves {
    count: u32,
    wide: u32,
    first: u32,
    stride: u32,
}

/// The code-blocks of a precinct, its leaves: over its bands in order, row by row within a band (T.800,
/// B.10). It holds a first number and a step for each band, and answers in constant time.
#[derive(Clone, Copy, Debug)]
pub struct Leaves {
    low: BandLeaves,
    middle: BandLeaves,
    high: BandLeaves,
}

/// No block.
const NONE: BandLeaves = BandLeaves {
    count: 0,
    wide: 0,
    first: 0,
    stride: 0,
};

/// A number behind a first one, in rows of `wide`, each `stride` behind the one before.
fn step(first: u32, wide: u32, stride: u32, place: u32) -> usize
    ensures { result ≡ first + place / max wide 1 * stride + place % max wide 1 }
{
    let wide = wide.max(1) as usize;
    let place = place as usize;
    first as usize + place / wide * stride as usize + place % wide
}

/// The number of a block among those of the tile.
fn number_of(band: BandLeaves, place: u32) -> usize
    ensures { result ≡ band_leaf_at band place }
{
    step(band.first, band.wide, band.stride, place)
}

impl Leaves {
    /// How many code-blocks the precinct has.
    pub fn count(&self) -> usize
        ensures { result ≡ count_of self.now }
    {
        self.low.count as usize + self.middle.count as usize + self.high.count as usize
    }

    /// The number among those of the tile of a leaf, counted from 0 on. Past the last one it has no meaning.
    pub fn number(&self, leaf: u32) -> usize
        ensures { result ≡ leaf_at self.now leaf }
    {
        if leaf < self.low.count {
            return number_of(self.low, leaf);
        }
        let left = leaf - self.low.count;
        if left < self.middle.count {
            return number_of(self.middle, left);
        }
        number_of(self.high, left - self.middle.count)
    }
}

/// The blocks of a precinct in a band of which so many blocks of the tile come before.
fn part_of(
    geom: &TileGeom,
    comp: u16,
    res: u8,
    band: Band,
    precinct: u32,
    before: u32,
) -> BandLeaves
    requires range { GeometryInRange geom.now }
    requires precinct { HasPrecinct geom.now comp res precinct }
    requires band { HasBand res band }
    requires before { before ≤ 2 ^ 24 }
    ensures count { result.count ≡ size_of (cells_at geom.now comp res precinct band) }
    ensures each { (j : ℕ) → j < size_of (cells_at geom.now comp res precinct band) → band_leaf_at result j ≡ before + leaf_index geom.now comp res precinct band j }
{
    let cells = geom.blocks(comp, res, band, precinct);
    if cells.area() == 0 {
        return NONE;
    }
    let all = geom.cells(comp, res, band);
    BandLeaves {
        count: geom.leaf_count(comp, res, band, precinct),
        wide: cells.x.len(),
        first: before + all.number(cells.x.low, cells.y.low) as u32,
        stride: all.x.len(),
    }
}

impl TileGeom {
    /// How many blocks a precinct has in a band.
    pub(crate) fn leaf_count(&self, comp: u16, res: u8, band: Band, precinct: u32) -> u32
        requires range { GeometryInRange self.now }
        requires precinct { HasPrecinct self.now comp res precinct }
        requires band { HasBand res band }
        ensures { result ≡ size_of (cells_at self.now comp res precinct band) }
    {
        self.blocks(comp, res, band, precinct).area() as u32
    }

    /// The code-blocks of a precinct by their numbers among those of the tile.
    pub fn leaves(&self, comp: u16, res: u8, precinct: u32) -> Leaves
        requires { HasPrecinct self.now comp res precinct }
        ensures { AreLeaves self.now comp res precinct result }
    {
        let before = self.resolution(comp, res).blocks_before;
        if res == 0 {
            return Leaves {
                low: part_of(self, comp, res, Band::LL, precinct, before),
                middle: NONE,
                high: NONE,
            };
        }
        let low = part_of(self, comp, res, Band::HL, precinct, before);
        let before = before + self.band_count(comp, res, Band::HL);
        let middle = part_of(self, comp, res, Band::LH, precinct, before);
        let before = before + self.band_count(comp, res, Band::LH);
        let high = part_of(self, comp, res, Band::HH, precinct, before);
        Leaves { low, middle, high }
    }
}
