//! The precincts and the code-blocks of a tile of which no packet was read.

ghost use Rattle.std.specs.Prelude.{◌≡◌, ◌++◌, [], IfOk, OnOk};
ghost use Rattle.jx_geom.specs.Geometry.{HasResolution};
ghost use Rattle.jx_geom.specs.Precincts.{HasPrecinct};
ghost use Rattle.jx_geom.specs.Ranges.{HasBand};
ghost use Rattle.jx_geom.specs.Resolutions.{resolutions_of};
ghost use Rattle.jx_tile.specs.Frame.{AreOfTile};
ghost use Rattle.jx_tier2_reader.specs.Blocks.{blocks_of_band, blocks_of_resolution, blocks_of_tile};
ghost use Rattle.jx_tier2_reader.specs.Fresh.{fresh_precinct, fresh_precincts, fresh_resolution};

use jx_base::{Band, Block, BlockName, NoMemory, Pieces, Rect, Style};
use jx_codestream::{Stream, TileView};
use jx_geom::{Resolution, TileGeom};
use jx_packet_header::Precinct;
use jx_tile::cells_of;
use std::alloc::Global;

/// A precinct of which no packet was read.
fn fresh_precinct(
    alloc: Global,
    stream: &Stream,
    view: &TileView<'_>,
    geom: &TileGeom,
    comp: u16,
    res: u8,
    precinct: u32,
) -> Result<Precinct, NoMemory>
    requires tile { AreOfTile stream.now view.now geom.now }
    requires precinct { HasPrecinct geom.now comp res precinct }
    ensures { IfOk result (λ p. p ≡ fresh_precinct stream.now geom.now comp res precinct) }
{
    let bands = cells_of(alloc, view, geom, comp, res, precinct)?;
    let style = view.style(comp);
    Precinct::new(alloc, &bands, style)
}

/// Appends the precincts of a resolution.
#[tactic(auto, using(jx_base::proofs::Joined::joined_none, jx_base::proofs::Joined::joined_next), unfolding(crate::specs::Fresh::fresh_resolution))]
fn push_resolution(
    alloc: Global,
    stream: &Stream,
    view: &TileView<'_>,
    geom: &TileGeom,
    comp: u16,
    res: u8,
    list: &mut Vec<Precinct>,
) -> Result<(), NoMemory>
    requires tile { AreOfTile stream.now view.now geom.now }
    requires res { HasResolution geom.now comp res }
    ensures { OnOk result (list.new.items ≡ list.old.items ++ fresh_resolution stream.now geom.now comp res) }
{
    let (columns, rows) = geom.precincts(comp, res);
    for precinct in 0..columns * rows {
        let fresh = fresh_precinct(alloc, stream, view, geom, comp, res, precinct)?;
        list.push(fresh)?;
    }
    Ok(())
}

/// The precincts of a tile by component, resolution and number. A component without a sample in the tile costs nothing.
pub(crate) fn precincts_of(
    alloc: Global,
    stream: &Stream,
    view: &TileView<'_>,
    geom: &TileGeom,
) -> Result<Vec<Precinct>, NoMemory>
    requires tile { AreOfTile stream.now view.now geom.now }
    ensures { IfOk result (λ list. list.items ≡ fresh_precincts stream.now geom.now) }
{
    let rows = geom.resolutions();
    let mut list = Vec::new(alloc);
    for row in rows {
        push_resolution(alloc, stream, view, geom, row.comp, row.res, &mut list)?;
    }
    Ok(list)
}

/// A code-block of these places that has no pass.
fn fresh_block<'a>(alloc: Global, block: BlockName, places: Rect, bits: Style, all: u8) -> Block<'a>
    ensures { result ≡ record {
      name = block;
      rect = places;
      planes = all;
      zero = all;
      passes = 0;
      style = bits;
      pieces = [];
    } }
{
    Block {
        name: block,
        rect: places,
        planes: all,
        zero: all,
        passes: 0,
        style: bits,
        pieces: Pieces::new(alloc),
    }
}

/// Appends the code-blocks of a band.
#[tactic(auto, using(jx_base::proofs::Joined::joined_none, jx_base::proofs::Joined::joined_next), unfolding(crate::specs::Blocks::blocks_of_band))]
fn push_band<'a>(
    alloc: Global,
    stream: &Stream,
    view: &TileView<'_>,
    geom: &TileGeom,
    comp: u16,
    res: u8,
    band: Band,
    list: &mut Vec<Block<'a>>,
) -> Result<(), NoMemory>
    requires tile { AreOfTile stream.now view.now geom.now }
    requires res { HasResolution geom.now comp res }
    requires band { HasBand res band }
    ensures { OnOk result (list.new.items ≡ list.old.items ++ blocks_of_band stream.now geom.now [] comp res band) }
{
    let tile = geom.number();
    let style = view.style(comp);
    let planes = view.planes(comp, res, band) as u8;
    let grid = geom.block_grid(comp, res, band);
    for index in 0..grid.count() {
        let name = BlockName {
            tile,
            comp,
            res,
            band,
            index,
        };
        let places = grid.block(index);
        list.push(fresh_block(alloc, name, places, style, planes))?;
    }
    Ok(())
}

/// Appends the code-blocks of a resolution.
fn push_bands<'a>(
    alloc: Global,
    stream: &Stream,
    view: &TileView<'_>,
    geom: &TileGeom,
    comp: u16,
    res: u8,
    list: &mut Vec<Block<'a>>,
) -> Result<(), NoMemory>
    requires tile { AreOfTile stream.now view.now geom.now }
    requires res { HasResolution geom.now comp res }
    ensures { OnOk result (list.new.items ≡ list.old.items ++ blocks_of_resolution stream.now geom.now [] comp res) }
{
    let bands = Band::of_resolution(res);
    for band in bands {
        push_band(alloc, stream, view, geom, comp, res, *band, list)?;
    }
    Ok(())
}

/// How many code-blocks a tile has up to the end of a resolution.
fn blocks_up_to(geom: &TileGeom, comp: u16, res: u8, before: u32) -> usize
    requires { HasResolution geom.now comp res }
{
    let mut count = before as usize;
    let bands = Band::of_resolution(res);
    for band in bands {
        let own = geom.block_grid(comp, res, *band).count();
        count = count.saturating_add(own as usize);
    }
    count
}

/// How many code-blocks a tile of these resolutions has, so that room for them is taken at once.
fn room_of(geom: &TileGeom, rows: &[Resolution]) -> usize
    requires { rows.now ≡ resolutions_of geom.now }
{
    if rows.is_empty() {
        return 0;
    }
    let last = rows[rows.len() - 1];
    blocks_up_to(geom, last.comp, last.res, last.blocks_before)
}

/// The code-blocks of a tile in the order of their numbers. A component without a sample in the tile costs nothing.
pub(crate) fn blocks_of<'a>(
    alloc: Global,
    stream: &Stream,
    view: &TileView<'_>,
    geom: &TileGeom,
) -> Result<Vec<Block<'a>>, NoMemory>
    requires tile { AreOfTile stream.now view.now geom.now }
    ensures { IfOk result (λ list. list.items ≡ blocks_of_tile stream.now geom.now []) }
{
    let rows = geom.resolutions();
    let mut list = Vec::with_capacity(alloc, room_of(geom, rows))?;
    for row in rows {
        push_bands(alloc, stream, view, geom, row.comp, row.res, &mut list)?;
    }
    Ok(list)
}
