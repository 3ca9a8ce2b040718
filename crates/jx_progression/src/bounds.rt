//! What holds of each resolution of a group, so that an entry that sends nothing of them doesn't go over them.

ghost use Rattle.std.specs.Prelude.{◌≡◌, ◌≤◌, ℕ, true, slice_index};
ghost use Rattle.std.specs.List.{All};
ghost use Rattle.jx_geom.specs.declared.table.Resolution.{Resolution};
ghost use Rattle.jx_progression.specs.Groups.{IsWithin};
ghost use Rattle.jx_progression.specs.Steps.{row_at, row_end};

use crate::rows::{row_at, sent_at};
use jx_geom::Resolution;
use jx_marker::Progression;

/// The least number of layers that were sent of a resolution of a group, and the range of components and of resolutions' numbers.
#[derive(Clone, Copy, Debug, PartialEq, Eq)]
pub(crate) struct Bounds {
    /// Of each resolution that has a precinct so many layers were sent, or more.
    pub layers: u16,
    /// The lowest component.
    pub comp_low: u16,
    /// The highest component.
    pub comp_high: u16,
    /// The lowest number of a resolution.
    pub res_low: u8,
    /// The highest number of a resolution.
    pub res_high: u8,
}

/// The bounds of no resolution.
fn of_none() -> Bounds {
    Bounds {
        layers: u16::MAX,
        comp_low: u16::MAX,
        comp_high: 0,
        res_low: u8::MAX,
        res_high: 0,
    }
}

/// The bounds of one more resolution, of which so many layers were sent.
fn include(bounds: Bounds, row: Resolution, sent: u16) -> Bounds
    ensures own { IsWithin result row sent }
    ensures others { (q : Resolution) (n : ℕ) → IsWithin bounds q n → IsWithin result q n }
{
    let layers = if row.precincts == 0 {
        bounds.layers
    } else {
        bounds.layers.min(sent)
    };
    Bounds {
        layers,
        comp_low: bounds.comp_low.min(row.comp),
        comp_high: bounds.comp_high.max(row.comp),
        res_low: bounds.res_low.min(row.res),
        res_high: bounds.res_high.max(row.res),
    }
}

/// The bounds of the resolutions at some places.
pub(crate) fn bounds_of(rows: &[Resolution], places: &[usize], sent: &[u16]) -> Bounds
    ensures { All (λ i. IsWithin result (row_at rows.now i) (slice_index sent.now i)) places.now }
{
    let mut bounds = of_none();
    for place in places {
        bounds = include(bounds, row_at(rows, *place), sent_at(sent, *place));
    }
    bounds
}

/// Whether the bounds show that an entry sends nothing new of a resolution within them.
pub(crate) fn sends_nothing(bounds: Bounds, layers: u16, entry: Progression) -> bool
    ensures { result ≡ true → (q : Resolution) (n : ℕ) → IsWithin bounds q n → row_end layers entry q ≤ n }
{
    if entry.lye.min(layers) <= bounds.layers {
        return true;
    }
    if bounds.comp_high < entry.cs {
        return true;
    }
    if entry.ce != 0 {
        if entry.ce <= bounds.comp_low {
            return true;
        }
    }
    if bounds.res_high < entry.rs {
        return true;
    }
    if entry.re <= bounds.res_low {
        return true;
    }
    false
}
