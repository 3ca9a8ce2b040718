//! The geometry of one tile.

ghost use Rattle.std.specs.Prelude.{◌≡◌, ◌≤◌, ◌<◌, ◌-◌, ◌*◌, ◌^◌, ℕ, ◌↔◌, ◌⊎◌, [], None, IfOk, IfSome, length};
ghost use Rattle.jx_base.specs.Places.{InRect, length_of, size_of};
ghost use Rattle.jx_geom.specs.Counts.{tile_count};
ghost use Rattle.jx_geom.specs.Geometry.{
  Geometry,
  GeometryInRange,
  HasResolution,
  ShapesInRange,
  WithinLimits,
  blocks_in,
  precincts_in,
  rect_of_tile,
  reference_across,
  reference_down,
  shape_of,
};
ghost use Rattle.jx_geom.specs.Grids.{grid_in};
ghost use Rattle.jx_geom.specs.Precincts.{HasPrecinct};
ghost use Rattle.jx_geom.specs.Ranges.{CanvasInRange, ShapeInRange, HasBand};
ghost use Rattle.jx_geom.specs.Rects.{component_rect, tile_rect, precinct_blocks, block_across, block_down};
ghost use Rattle.jx_geom.specs.Resolutions.{all_places, all_resolutions, resolution_at, resolutions_of};
ghost use Rattle.jx_geom.specs.Sets.{HasPlace, InBand, InCell, InPart, InTile};
ghost use Rattle.jx_base.specs.Limits.{most_blocks};

use crate::grid::{BlockGrid, grid_of};
use crate::rects::{blocks_of, point_of_precinct, precinct_blocks_of, precincts_of, tile_of};
use crate::shape::{Canvas, CompShape};
use crate::shapes::Shapes;
use crate::table::{Resolution, Table, table_of};
use jx_base::{Band, NoMemory, Rect};
use std::alloc::Global;
use std::marker::Model;

/// The geometry of one tile: its rect, and the shapes of its components.
#[derive(Debug, Drop)]
pub struct TileGeom {
    canvas: Canvas,
    tile: u16,
    places: Rect,
    shapes: Shapes,
    table: Table,
}

impl Model for TileGeom {
    ghost Value = { Geometry };

    ghost view = { λ t. record { canvas = t.canvas; tile = t.tile; shapes = t.shapes } };

    ghost invariant = { λ t. GeometryInRange (record { canvas = t.canvas; tile = t.tile; shapes = t.shapes }) × (t.places ≡ tile_rect t.canvas t.tile) × ((t.table.list.items ≡ []) ⊎ (t.table.places.items ≡ all_places t.places t.shapes)) × (t.table.list.items ≡ all_resolutions t.places t.shapes) };
}

impl TileGeom {
    /// The geometry of a tile with components of these shapes, at most 16,384.
    pub fn new(
        alloc: Global,
        canvas: &Canvas,
        tile: u16,
        comps: &[CompShape],
    ) -> Result<TileGeom, NoMemory>
        requires canvas { CanvasInRange canvas.now }
        requires tile { tile < tile_count canvas.now }
        requires few { length comps.now ≤ 2 ^ 14 }
        requires comps { ShapesInRange comps.now }
        requires limits { WithinLimits canvas.now tile comps.now }
        ensures { IfOk result (λ g. g ≡ record { canvas = canvas.now; tile = tile; shapes = comps.now }) }
    {
        let shapes = Shapes::new(Vec::from_slice(alloc, comps)?)?;
        TileGeom::sharing(alloc, canvas, tile, shapes)
    }

    /// The same with shapes that other tiles may share.
    pub fn sharing(
        alloc: Global,
        canvas: &Canvas,
        tile: u16,
        shapes: Shapes,
    ) -> Result<TileGeom, NoMemory>
        requires canvas { CanvasInRange canvas.now }
        requires tile { tile < tile_count canvas.now }
        requires few { length shapes ≤ 2 ^ 14 }
        requires comps { ShapesInRange shapes }
        requires limits { WithinLimits canvas.now tile shapes }
        ensures { IfOk result (λ g. g ≡ record { canvas = canvas.now; tile = tile; shapes = shapes }) }
    {
        let places = tile_of(canvas, tile);
        let table = table_of(alloc, places, shapes.as_slice())?;
        Ok(TileGeom {
            canvas: *canvas,
            tile,
            places,
            shapes,
            table,
        })
    }

    /// The tile's number.
    pub fn number(&self) -> u16
        ensures { result ≡ self.now.tile }
    {
        self.tile
    }

    /// How many components the tile has, at most 16,384.
    pub fn components(&self) -> usize
        ensures count { result ≡ length self.now.shapes }
        ensures bound { result ≤ 2 ^ 14 }
        ensures range { GeometryInRange self.now }
    {
        self.shapes.as_slice().len()
    }

    /// The tile's places on the reference grid (T.800, B.3).
    pub fn tile(&self) -> Rect
        ensures value { result ≡ rect_of_tile self.now }
        ensures places { (x y : ℕ) → InRect result x y ↔ InTile self.now.canvas self.now.tile x y }
    {
        self.places
    }

    fn shape(&self, comp: u16) -> &CompShape
        requires { comp < length self.now.shapes }
        ensures value { result.now ≡ shape_of self.now comp }
        ensures range { ShapeInRange result.now }
    {
        &self.shapes.as_slice()[usize::from(comp)]
    }

    /// The decomposition levels of a component, 0 to 32; its resolutions are 0 up to that number.
    pub fn levels(&self, comp: u16) -> u8
        requires { comp < length self.now.shapes }
        ensures value { result ≡ (shape_of self.now comp).levels }
        ensures bound { result ≤ 32 }
    {
        self.shape(comp).levels
    }

    /// The resolutions of the components that have a sample in the tile, by component, then by number.
    pub fn resolutions(&self) -> &[Resolution]
        ensures { result.now ≡ resolutions_of self.now }
    {
        &self.table.list
    }

    /// A resolution of a component that has a sample in the tile, with what stands before it.
    pub(crate) fn resolution(&self, comp: u16, res: u8) -> Resolution
        requires res { HasResolution self.now comp res }
        requires some { 0 < size_of (component_rect (rect_of_tile self.now) (shape_of self.now comp)) }
        ensures value { result ≡ resolution_at (rect_of_tile self.now) self.now.shapes comp res }
        ensures few { result.blocks_before ≤ most_blocks }
        ensures range { GeometryInRange self.now }
    {
        self.table.entry(comp, res)
    }

    /// How many columns and rows of precincts a resolution has (T.800, B.6); none where it is empty.
    pub fn precincts(&self, comp: u16, res: u8) -> (u32, u32)
        requires { HasResolution self.now comp res }
        ensures columns { result.0 ≡ length_of (precincts_in self.now comp res).x }
        ensures rows { result.1 ≡ length_of (precincts_in self.now comp res).y }
        ensures bound { result.0 * result.1 ≤ 2 ^ 22 }
    {
        let cells = precincts_of(self.places, self.shape(comp), res);
        (
            cells.x.high.saturating_sub(cells.x.low),
            cells.y.high.saturating_sub(cells.y.low),
        )
    }

    /// The code-blocks of a band, as columns and rows of cells (T.800, B.7): each of its cells that
    /// isn't empty. A block's index is the raster place of its cell in this rect.
    pub fn cells(&self, comp: u16, res: u8, band: Band) -> Rect
        requires res { HasResolution self.now comp res }
        requires band { HasBand res band }
        ensures value { result ≡ blocks_in self.now comp res band }
        ensures places { (u v : ℕ) → InRect result u v
            ↔ HasPlace (λ x y. InBand (rect_of_tile self.now) (shape_of self.now comp) res band x y
            × InCell (block_across (shape_of self.now comp) res) (block_down (shape_of self.now comp) res) u v x y) }
        ensures bound { size_of result ≤ most_blocks }
    {
        blocks_of(self.places, self.shape(comp), res, band)
    }

    /// The code-blocks of a band by their indices, for those who ask for many.
    pub fn block_grid(&self, comp: u16, res: u8, band: Band) -> BlockGrid
        requires res { HasResolution self.now comp res }
        requires band { HasBand res band }
        ensures { result ≡ grid_in self.now comp res band }
    {
        grid_of(self.places, self.shape(comp), res, band)
    }

    /// The code-blocks of a precinct in a band, as columns and rows of cells of that band; there may be
    /// none. Precincts are numbered row by row from 0 on.
    pub fn blocks(&self, comp: u16, res: u8, band: Band, precinct: u32) -> Rect
        requires res { HasResolution self.now comp res }
        requires band { HasBand res band }
        requires precinct { precinct < size_of (precincts_in self.now comp res) }
        ensures value { result ≡ precinct_blocks (rect_of_tile self.now) (shape_of self.now comp) res band precinct }
        ensures places { (u v : ℕ) → InRect result u v
            ↔ HasPlace (λ x y. InPart (rect_of_tile self.now) (shape_of self.now comp) res band precinct x y
            × InCell (block_across (shape_of self.now comp) res) (block_down (shape_of self.now comp) res) u v x y) }
    {
        precinct_blocks_of(self.places, self.shape(comp), res, band, precinct)
    }

    /// Where a precinct stands on the reference grid, x and y (T.800, B.12.1.3); none where it isn't there. The
    /// precinct's rect is computed once.
    pub fn point_of(&self, comp: u16, res: u8, precinct: u32) -> Option<(u64, u64)>
        ensures there { IfSome result (λ p. HasPrecinct self.now comp res precinct) }
        ensures across { IfSome result (λ p. p.0 ≡ reference_across self.now comp res precinct) }
        ensures down { IfSome result (λ p. p.1 ≡ reference_down self.now comp res precinct) }
        ensures fits { IfSome result (λ p. (p.0 < 2 ^ 32) × (p.1 < 2 ^ 32)) }
        ensures none { result ≡ None → HasPrecinct self.now comp res precinct → ⊥ }
    {
        if usize::from(comp) >= self.components() {
            return None;
        }
        if res > self.levels(comp) {
            return None;
        }
        point_of_precinct(self.places, self.shape(comp), res, precinct)
    }
}
