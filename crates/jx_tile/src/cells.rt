//! How many code-blocks the bands of a precinct have (ITU-T T.800, B.6 and B.7).

ghost use Rattle.std.specs.Prelude.{◌≡◌, IfOk};
ghost use Rattle.jx_geom.specs.Precincts.{HasPrecinct};
ghost use Rattle.jx_tile.specs.Cells.{bands_in, sizes_of};

use jx_base::{Band, NoMemory, Rect};
use jx_codestream::TileView;
use jx_geom::TileGeom;
use jx_packet_header::BandCells;
use std::alloc::Global;

/// How many code-blocks some cells of a band of so many planes are, side by side and one above another; 0 and 0 where they are none.
pub fn sizes_of(cells: Rect, planes: u32) -> BandCells
    ensures { result ≡ sizes_of cells planes }
{
    if cells.area() == 0 {
        return BandCells {
            wide: 0,
            high: 0,
            planes,
        };
    }
    BandCells {
        wide: cells.x.len(),
        high: cells.y.len(),
        planes,
    }
}

/// How many code-blocks a precinct has in each of its bands, by the headers of its tile.
///
/// # Errors
///
/// `NoMemory` where memory is refused.
pub fn cells_of(
    alloc: Global,
    view: &TileView<'_>,
    geom: &TileGeom,
    comp: u16,
    res: u8,
    precinct: u32,
) -> Result<Vec<BandCells>, NoMemory>
    requires { HasPrecinct geom.now comp res precinct }
    ensures { IfOk result (λ bands. bands.items ≡ bands_in view.now geom.now comp res precinct) }
{
    let mut bands = Vec::new(alloc);
    let kinds = Band::of_resolution(res);
    for band in kinds {
        let planes = view.planes(comp, res, *band);
        let cells = geom.blocks(comp, res, *band, precinct);
        bands.push(sizes_of(cells, planes))?;
    }
    Ok(bands)
}
