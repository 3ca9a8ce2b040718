//! How far an entry goes in a resolution, and how many of its layers were sent.

ghost use Rattle.std.specs.Prelude.{◌≡◌, ℕ, IfOk, slice_index};
ghost use Rattle.jx_progression.specs.Steps.{HasPlaces, row_at, row_end};

use jx_base::NoMemory;
use jx_geom::{Resolution, TileGeom};
use jx_marker::Progression;
use std::alloc::Global;

/// The resolution at a place of the list, or one without precincts past its end.
pub(crate) fn row_at(rows: &[Resolution], place: usize) -> Resolution
    ensures { result ≡ row_at rows.now place }
{
    match rows.get(place) {
        Some(row) => *row,
        None => Resolution {
            comp: 0,
            res: 0,
            precincts: 0,
            precincts_before: 0,
            blocks_before: 0,
        },
    }
}

/// The end of the layers of a resolution that an entry covers, cut down to what is there (T.800, A.6.6); 0
/// where it covers none or the resolution has no precinct.
#[tactic(auto, unfolding(crate::specs::Steps::row_end))]
pub(crate) fn row_end(layers: u16, entry: Progression, row: Resolution) -> u16
    ensures { result ≡ row_end layers entry row }
{
    if row.precincts == 0 {
        return 0;
    }
    if row.comp < entry.cs {
        return 0;
    }
    if row.res < entry.rs {
        return 0;
    }
    if row.res < entry.re {
        if entry.ce == 0 {
            return entry.lye.min(layers);
        }
        if row.comp < entry.ce {
            return entry.lye.min(layers);
        }
    }
    0
}

/// A table that says that no layer was sent. Each entry begins at the first layer, so the layers of a
/// resolution that were sent are always those below a number, and all precincts of it have the same.
pub(crate) fn none_sent(alloc: Global, geom: &TileGeom) -> Result<Vec<u16>, NoMemory>
    ensures places { IfOk result (λ sent. HasPlaces geom.now sent.items) }
    ensures none { IfOk result (λ sent. (i : ℕ) → slice_index sent.items i ≡ 0) }
{
    Ok(vec![in alloc; 0u16; geom.resolutions().len()]?)
}

/// How many layers of the resolution at a place were sent.
pub(crate) fn sent_at(sent: &[u16], place: usize) -> u16
    ensures { result ≡ slice_index sent.now place }
{
    match sent.get(place) {
        Some(layers) => *layers,
        None => 0,
    }
}
