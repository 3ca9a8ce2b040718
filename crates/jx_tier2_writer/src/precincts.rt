//! What is sent of the precincts of a tile, in the order of their numbers.

ghost use Rattle.std.specs.Prelude.{◌++◌, List, map, IfOk, OnOk};
ghost use Rattle.jx_geom.specs.Geometry.{HasResolution};
ghost use Rattle.jx_progression.specs.declared.names.PacketName.{PacketName};
ghost use Rattle.jx_tile.specs.Frame.{AreOfTile};
ghost use Rattle.jx_tier2_writer.specs.Names.{AreSendings, resolution_names, tile_names};
ghost use Rattle.jx_tier2_writer.specs.Own.{AreOwnBlocks};

use crate::parts::Coded;
use crate::sending::{Sending, sending_of};
use jx_base::NoMemory;
use jx_codestream::{Stream, TileView};
use jx_geom::TileGeom;
use std::alloc::Global;

/// Appends what is sent of the precincts of a resolution.
fn push_resolution<B: Coded>(
    alloc: Global,
    stream: &Stream,
    view: &TileView<'_>,
    geom: &TileGeom,
    comp: u16,
    res: u8,
    values: &[B],
    list: &mut Vec<Sending>,
) -> Result<(), NoMemory>
    requires tile { AreOfTile stream.now view.now geom.now }
    requires res { HasResolution geom.now comp res }
    requires own { AreOwnBlocks stream.now geom.now (map B.block values.now) }
    ensures { OnOk result ((names : List PacketName) → AreSendings stream.now geom.now (map B.block values.now) (map B.bytes values.now) names list.old.items
        → AreSendings stream.now geom.now (map B.block values.now) (map B.bytes values.now) (names ++ resolution_names geom.now comp res) list.new.items) }
{
    let (columns, rows) = geom.precincts(comp, res);
    for precinct in 0..columns * rows {
        let sending = sending_of(alloc, stream, view, geom, comp, res, precinct, values)?;
        list.push(sending)?;
    }
    Ok(())
}

/// What is sent of each precinct of a tile, in the order of their numbers. A component without a sample in the tile costs nothing.
pub(crate) fn sendings_of<B: Coded>(
    alloc: Global,
    stream: &Stream,
    view: &TileView<'_>,
    geom: &TileGeom,
    values: &[B],
) -> Result<Vec<Sending>, NoMemory>
    requires tile { AreOfTile stream.now view.now geom.now }
    requires own { AreOwnBlocks stream.now geom.now (map B.block values.now) }
    ensures { IfOk result (λ list. AreSendings stream.now geom.now (map B.block values.now) (map B.bytes values.now) (tile_names geom.now) list.items) }
{
    let rows = geom.resolutions();
    let mut list = Vec::new(alloc);
    for row in rows {
        push_resolution(
            alloc, stream, view, geom, row.comp, row.res, values, &mut list,
        )?;
    }
    Ok(list)
}
