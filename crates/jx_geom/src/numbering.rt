//! The numbers of a tile's precincts and code-blocks.

ghost use Rattle.std.specs.Prelude.{◌≡◌, ◌≤◌, ◌<◌, ◌^◌};
ghost use Rattle.jx_base.specs.Places.{size_of};
ghost use Rattle.jx_geom.specs.Counts.{blocks_before_band, tile_blocks, tile_precincts};
ghost use Rattle.jx_geom.specs.Geometry.{HasBlock, HasResolution, blocks_in, rect_of_tile, shape_of};
ghost use Rattle.jx_geom.specs.Numbering.{number_in_tile};
ghost use Rattle.jx_geom.specs.Precincts.{HasPrecinct, precinct_number};
ghost use Rattle.jx_geom.specs.Ranges.{HasBand};
ghost use Rattle.jx_base.specs.Limits.{most_blocks};

use crate::tile_geom::TileGeom;
use jx_base::{Band, BlockName};

impl TileGeom {
    /// The number of a precinct among those of the tile, by component, resolution and raster place, from 0 on.
    pub fn precinct_number(&self, comp: u16, res: u8, precinct: u32) -> u32
        requires { HasPrecinct self.now comp res precinct }
        ensures value { result ≡ precinct_number self.now comp res precinct }
        ensures below { result < tile_precincts (rect_of_tile self.now) self.now.shapes }
    {
        self.resolution(comp, res).precincts_before + precinct
    }

    /// How many code-blocks a band has.
    pub(crate) fn band_count(&self, comp: u16, res: u8, band: Band) -> u32
        requires res { HasResolution self.now comp res }
        requires band { HasBand res band }
        ensures value { result ≡ size_of (blocks_in self.now comp res band) }
        ensures bound { result ≤ most_blocks }
    {
        self.cells(comp, res, band).area() as u32
    }

    /// How many code-blocks stand in the bands of a resolution before one.
    pub(crate) fn before_band(&self, comp: u16, res: u8, band: Band) -> u32
        requires res { HasResolution self.now comp res }
        requires band { HasBand res band }
        ensures value { result ≡ blocks_before_band (rect_of_tile self.now) (shape_of self.now comp) res band }
        ensures bound { result ≤ 2 ^ 23 }
    {
        match band {
            Band::LL | Band::HL => 0,
            Band::LH => self.band_count(comp, res, Band::HL),
            Band::HH => {
                self.band_count(comp, res, Band::HL) + self.band_count(comp, res, Band::LH)
            }
        }
    }

    /// The number of a code-block among those of the tile, by component, resolution, band and raster place,
    /// from 0 on.
    pub fn block_number(&self, name: &BlockName) -> u32
        requires { HasBlock self.now name.now }
        ensures value { result ≡ number_in_tile self.now name.now }
        ensures below { result < tile_blocks (rect_of_tile self.now) self.now.shapes }
    {
        let before = self.resolution(name.comp, name.res).blocks_before;
        before + self.before_band(name.comp, name.res, name.band) + name.index
    }
}
