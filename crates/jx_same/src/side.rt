//! One of two codestreams at one tile: what its headers say there, and its code-blocks by their places.

ghost use Rattle.std.specs.Prelude.{◌≡◌, ◌≤◌, ◌<◌, ◌+◌, ◌-◌, ◌*◌, ◌/◌, ◌^◌, ◌↔◌, IfOk, IsTrue, length};
ghost use Rattle.jx_base.specs.Places.{InRect, number_at, size_of};
ghost use Rattle.jx_geom.specs.Counts.{tile_blocks};
ghost use Rattle.jx_geom.specs.Geometry.{HasResolution, ShapesInRange, band_in, blocks_in, rect_of_tile, shape_of};
ghost use Rattle.jx_geom.specs.Numbering.{blocks_below};
ghost use Rattle.jx_geom.specs.Ranges.{HasBand, ShapeInRange};
ghost use Rattle.jx_geom.specs.Rects.{block_across, block_down};
ghost use Rattle.jx_codestream.specs.First.{canvas_of, tile_number};
ghost use Rattle.jx_codestream.specs.Params.{params_of, step_of};
ghost use Rattle.jx_codestream.specs.Shapes.{shapes_of};
ghost use Rattle.jx_tile.specs.Frame.{AreOfTile};
ghost use Rattle.jx_same.specs.Items.{rect_in};
ghost use Rattle.jx_same.specs.Runs.{IsWalk};
ghost use Rattle.jx_same.specs.Sides.{Covers, HasBandOf, IsEmptyIn, IsInput, IsSide, geometry_at};

use crate::first::blocks_before;
use crate::input::Input;
use jx_base::{Band, Block, BlockName, NoMemory, Rect};
use jx_codestream::{MainView, Params, Stream, TileView};
use jx_geom::{CompShape, TileGeom, is_empty_after};
use jx_tile::TileFrame;
use std::alloc::Global;
use std::marker::Model;

/// A band of a tile.
#[derive(Clone, Copy, Debug)]
pub(crate) struct BandName {
    pub(crate) comp: u16,
    pub(crate) res: u8,
    pub(crate) band: Band,
}

/// Where the code-blocks of a band stand in a cell: the places of whole code-blocks of both codestreams, as few as there may be. A cell
/// has `columns` by `rows` of them, each of 2^`across` by 2^`down` places.
#[derive(Clone, Copy, Debug)]
pub(crate) struct InCells {
    pub(crate) across: u32,
    pub(crate) down: u32,
    pub(crate) columns: u32,
    pub(crate) rows: u32,
}

/// How the code-blocks of a band are gone through: `high` rows of `wide` of them, the first in column `left` and row `top` of the
/// code-blocks from place 0 on; `columns` by `rows` of them have the places of a cell.
#[derive(Clone, Copy, Debug)]
pub(crate) struct Walk {
    pub(crate) left: u32,
    pub(crate) top: u32,
    pub(crate) wide: u32,
    pub(crate) high: u32,
    pub(crate) count: u32,
    pub(crate) columns: u32,
    pub(crate) rows: u32,
    /// The other's code-blocks are higher, so whole rows are gone through together.
    pub(crate) by_rows: bool,
    /// The exponent of the number of places of a cell, at most 20.
    pub(crate) places: u32,
}

/// A codestream at one of its tiles.
#[derive(Drop)]
pub(crate) struct Side<'a> {
    frame: TileFrame<'a>,
    blocks: &'a [Block<'a>],
    first: usize,
}

impl<'a> Model for Side<'a> {
    ghost use Rattle.std.specs.Prelude.{◌≡◌};
    ghost use Rattle.jx_geom.specs.Numbering.{blocks_below};
    ghost use Rattle.jx_codestream.specs.First.{canvas_of};
    ghost use Rattle.jx_codestream.specs.Shapes.{shapes_of};
    ghost use Rattle.jx_same.specs.Sides.{IsSide, SideValue};

    ghost Value = { SideValue };

    ghost view = { λ s. record { stream = s.frame.stream; blocks = s.blocks.now; tile = s.frame.number } };

    ghost invariant = { λ s. IsSide (record { stream = s.frame.stream; blocks = s.blocks.now; tile = s.frame.number })
        × (s.first ≡ blocks_below (canvas_of s.frame.stream.siz) (shapes_of s.frame.stream) s.frame.number) };
}

/// The exponents of a code-block's width and height (T.800, B.7).
fn block_exponents(shape: &CompShape, res: u8) -> (u32, u32)
    requires shape { ShapeInRange shape.now }
    requires res { res ≤ shape.now.levels }
    ensures across { result.0 ≡ block_across shape.now res }
    ensures down { result.1 ≡ block_down shape.now res }
    ensures wide { result.0 < 16 }
    ensures high { result.1 < 16 }
{
    let byte = shape.precincts[usize::from(res)];
    let halvings = res.min(1);
    let across = (byte % 16).saturating_sub(halvings);
    let down = (byte / 16).saturating_sub(halvings);
    (
        u32::from(shape.xcb.min(across)),
        u32::from(shape.ycb.min(down)),
    )
}

/// How a component is divided.
fn shape_at<'a>(
    stream: &Stream,
    view: &'a TileView<'_>,
    geom: &TileGeom,
    comp: u16,
) -> &'a CompShape
    requires tile { AreOfTile stream.now view.now geom.now }
    requires comp { comp < length geom.now.shapes }
    ensures value { result.now ≡ shape_of geom.now comp }
    ensures range { ShapeInRange result.now }
{
    // They are asked for in the contract alone.
    let _ = stream;
    let _ = geom;
    &view.shapes()[usize::from(comp)]
}

/// The index of the code-block of a band that has a place.
fn index_over(
    stream: &Stream,
    view: &TileView<'_>,
    geom: &TileGeom,
    name: BandName,
    x: u32,
    y: u32,
) -> u32
    requires tile { AreOfTile stream.now view.now geom.now }
    requires res { HasResolution geom.now name.comp name.res }
    requires band { HasBand name.res name.band }
    requires place { InRect (band_in geom.now name.comp name.res name.band) x y }
    ensures below { result < size_of (blocks_in geom.now name.comp name.res name.band) }
    ensures has { InRect (rect_in geom.now name.comp name.res name.band result) x y }
{
    let cells = geom.cells(name.comp, name.res, name.band);
    let (across, down) = block_exponents(shape_at(stream, view, geom, name.comp), name.res);
    cells.number(x >> across, y >> down) as u32
}

impl<'a> Side<'a> {
    /// A codestream at a tile. Its first code-block is looked for by the tiles in the names of code-blocks, so the time grows with the
    /// binary digits of their number.
    ///
    /// # Errors
    ///
    /// `NoMemory` where memory is refused.
    pub(crate) fn new(
        alloc: Global,
        input: Input<'a>,
        main: &'a MainView<'a>,
        tile: u16,
    ) -> Result<Side<'a>, NoMemory>
        requires input { IsInput input }
        requires main { main.now ≡ record { siz = input.stream.now.siz; main = input.stream.now.main } }
        requires tile { tile < tile_number input.stream.now.siz }
        ensures { IfOk result
            (λ side. side
            ≡ record { stream = input.entry.stream.now; blocks = input.entry.blocks.now; tile = tile }) }
    {
        let frame = TileFrame::new(alloc, input.stream, main, tile)?;
        Ok(Side {
            frame,
            blocks: input.blocks,
            first: blocks_before(input.blocks, tile),
        })
    }

    /// The tile's number.
    pub(crate) fn tile(&self) -> u16
        ensures value { result ≡ self.now.tile }
        ensures side { IsSide self.now }
    {
        let (_, _, geom) = self.frame.parts();
        geom.number()
    }

    /// The codestream.
    pub(crate) fn stream(&self) -> &Stream
        ensures { result.now ≡ self.now.stream }
    {
        let (stream, _, _) = self.frame.parts();
        stream
    }

    /// How many components there are, 1 to 16,384.
    pub(crate) fn comps(&self) -> u16
        ensures { result ≡ length self.now.stream.siz.comps }
    {
        let (_, view, _) = self.frame.parts();
        view.comps()
    }

    /// Whether a component has no place in the tile, where `last` says it of the component before it.
    pub(crate) fn is_empty_after(&self, comp: u16, last: bool) -> bool
        requires comp { comp < length self.now.stream.siz.comps }
        requires last { 0 < comp → IsTrue last ↔ IsEmptyIn self.now (comp - 1) }
        ensures { IsTrue result ↔ IsEmptyIn self.now comp }
    {
        let (_, view, geom) = self.frame.parts();
        is_empty_after(geom.tile(), view.shapes(), usize::from(comp), last)
    }

    /// The decomposition levels of a component, 0 to 32.
    pub(crate) fn levels(&self, comp: u16) -> u8
        requires { comp < length self.now.stream.siz.comps }
        ensures value { result ≡ (shape_of (geometry_at self.now) comp).levels }
        ensures bound { result ≤ 32 }
    {
        let (_, _, geom) = self.frame.parts();
        geom.levels(comp)
    }

    /// How a component is transformed and quantized.
    pub(crate) fn params(&self, comp: u16) -> Params
        ensures { result ≡ params_of self.now.stream self.now.tile comp }
    {
        let (_, view, _) = self.frame.parts();
        view.params(comp)
    }

    /// The exponent and the mantissa of a band's step.
    pub(crate) fn step(&self, name: BandName) -> (u8, u16)
        requires { HasBand name.res name.band }
        ensures { result ≡ step_of self.now.stream self.now.tile name.comp name.res name.band }
    {
        let (_, view, _) = self.frame.parts();
        view.step(name.comp, name.res, name.band)
    }

    /// The exponents of the width and the height of a band's code-blocks.
    fn exponents(&self, name: BandName) -> (u32, u32)
        requires { HasBandOf self.now name }
        ensures across { result.0 < 16 }
        ensures down { result.1 < 16 }
    {
        let (stream, view, geom) = self.frame.parts();
        block_exponents(shape_at(stream, view, geom, name.comp), name.res)
    }

    /// Where the code-blocks of a band stand in the cells of both codestreams.
    pub(crate) fn in_cells(&self, name: BandName, other: &Side<'_>) -> InCells
        requires own { HasBandOf self.now name }
        requires other { HasBandOf other.now name }
        ensures across { result.across < 32 }
        ensures down { result.down < 32 }
        ensures columns { 0 < result.columns }
        ensures rows { 0 < result.rows }
    {
        let (across, down) = self.exponents(name);
        let (wider, higher) = other.exponents(name);
        InCells {
            across,
            down,
            columns: 1 << wider.saturating_sub(across),
            rows: 1 << higher.saturating_sub(down),
        }
    }

    /// How the code-blocks of a band are gone through beside those of another codestream.
    pub(crate) fn walk(&self, name: BandName, other: &Side<'_>) -> Walk
        requires own { HasBandOf self.now name }
        requires other { HasBandOf other.now name }
        ensures { IsWalk (blocks_in (geometry_at self.now) name.comp name.res name.band) result }
    {
        let (_, _, geom) = self.frame.parts();
        let blocks = geom.cells(name.comp, name.res, name.band);
        let wide = blocks.x.len();
        let high = blocks.y.len();
        let area = blocks.area();
        let own = self.in_cells(name, other);
        let (wider, higher) = other.exponents(name);
        Walk {
            left: blocks.x.low,
            top: blocks.y.low,
            wide,
            high,
            count: area as u32,
            columns: own.columns,
            rows: own.rows,
            by_rows: own.rows > 1,
            places: own.across.max(wider) + own.down.max(higher),
        }
    }

    /// A code-block of a band, by its index there.
    pub(crate) fn block(&self, name: BandName, index: u32) -> &'a Block<'a>
        requires band { HasBandOf self.now name }
        requires index { index < size_of (blocks_in (geometry_at self.now) name.comp name.res name.band) }
        ensures covers { Covers self.now name result.now }
        ensures rect { result.now.rect ≡ rect_in (geometry_at self.now) name.comp name.res name.band index }
    {
        let (_, _, geom) = self.frame.parts();
        let block = BlockName {
            tile: geom.number(),
            comp: name.comp,
            res: name.res,
            band: name.band,
            index,
        };
        let number = self.first + geom.block_number(&block) as usize;
        let blocks = self.blocks;
        &blocks[number]
    }

    /// The code-block that has a place of a band.
    pub(crate) fn block_over(&self, name: BandName, x: u32, y: u32) -> &'a Block<'a>
        requires band { HasBandOf self.now name }
        requires place { InRect (band_in (geometry_at self.now) name.comp name.res name.band) x y }
        ensures covers { Covers self.now name result.now }
        ensures has { InRect result.now.rect x y }
    {
        let (stream, view, geom) = self.frame.parts();
        let index = index_over(stream, view, geom, name, x, y);
        self.block(name, index)
    }
}
