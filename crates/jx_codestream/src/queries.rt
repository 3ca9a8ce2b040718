//! The tiles of a stream, and the parameters of a tile-component.

ghost use Rattle.std.specs.Prelude.{◌≡◌, ◌<◌, length};
ghost use Rattle.jx_geom.specs.Ranges.{HasBand};
ghost use Rattle.jx_codestream.specs.First.{tile_number};
ghost use Rattle.jx_codestream.specs.InRange.{StreamInRange};
ghost use Rattle.jx_codestream.specs.Params.{header_of, params_of, planes_at, step_of};
ghost use Rattle.jx_codestream.specs.Shapes.{tile_at};

use crate::component::{params_by, planes_by, step_by};
use crate::index::Index;
use crate::{Params, Stream, Tile};
use jx_base::Band;
use jx_marker::Segment;

impl Stream {
    /// How many tiles the picture has, at most 65,535 (T.800, B.3).
    pub fn tile_count(&self) -> u16
        requires { StreamInRange self.now }
        ensures { result ≡ tile_number self.now.siz }
    {
        self.tiles.as_slice().len() as u16
    }

    /// The tile of a number.
    pub fn tile(&self, tile: u16) -> &Tile
        requires { tile < length self.now.tiles }
        ensures { result.now ≡ tile_at self.now tile }
    {
        &self.tiles.as_slice()[usize::from(tile)]
    }

    /// The segments of the header of a tile's first tile-part (T.800, A.3); none where the tile isn't there.
    pub fn header(&self, tile: u16) -> &[Segment]
        ensures { result.now ≡ header_of self.now tile }
    {
        match self.tiles.as_slice().get(usize::from(tile)) {
            Some(tile) => tile.header.as_slice(),
            None => &[],
        }
    }

    /// The parameters of a component of a tile: each of the first segment that is there of the tile's own, the
    /// tile's default, the main header's own and the main default (T.800, A.6). Each call looks through both
    /// headers: a `TileView` doesn't.
    pub fn params(&self, tile: u16, comp: u16) -> Params
        ensures { result ≡ params_of self.now tile comp }
    {
        params_by(
            &Index::listed(self.header(tile)),
            &Index::listed(self.main.as_slice()),
            comp,
        )
    }

    /// The exponent and the mantissa of the step of a band (T.800, E.1). With style 1 they follow from those of
    /// the lowest band. The mantissa is 0 without quantization.
    pub fn step(&self, tile: u16, comp: u16, res: u8, band: Band) -> (u8, u16)
        requires there { HasBand res band }
        ensures { (result.0 ≡ (step_of self.now tile comp res band).0) × (result.1 ≡ (step_of self.now tile comp res band).1) }
    {
        step_by(
            &Index::listed(self.header(tile)),
            &Index::listed(self.main.as_slice()),
            comp,
            res,
            band,
        )
    }

    /// The planes of a band: its guard bits and exponent less 1, and the shift of a region of interest.
    pub fn planes(&self, tile: u16, comp: u16, res: u8, band: Band) -> u32
        requires { HasBand res band }
        ensures { result ≡ planes_at self.now tile comp res band }
    {
        planes_by(
            &Index::listed(self.header(tile)),
            &Index::listed(self.main.as_slice()),
            comp,
            res,
            band,
        )
    }
}
