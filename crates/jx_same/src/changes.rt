//! Of which components the headers of a tile say what those of the tile before say.

ghost use Rattle.std.specs.Prelude.{◌≡◌, ℕ, IfOk, IsTrue, Some, false, slice_get};
ghost use Rattle.jx_codestream.specs.Index.{comp_named, has_named, is_comp};
ghost use Rattle.jx_same.specs.Sayings.{IsUnchanged};

use crate::sayings::are_as_before;
use jx_base::NoMemory;
use jx_codestream::Stream;
use jx_marker::Segment;
use std::alloc::Global;

/// The component of which a segment gives parameters.
fn comp_named(segment: &Segment) -> Option<u16>
    ensures { result ≡ comp_named segment.now }
{
    match segment {
        Segment::Coc { comp, .. } => Some(*comp),
        Segment::Qcc { comp, .. } => Some(*comp),
        Segment::Rgn { comp, .. } => Some(*comp),
        _ => None,
    }
}

/// Marks the component that a segment names.
fn mark_named(segment: &Segment, marks: &mut [bool])
    ensures { (c : ℕ) → slice_get marks.new c ≡ Some false
        → (slice_get marks.old c ≡ Some false) × (is_comp c (comp_named segment.now) ≡ false) }
{
    let Some(comp) = comp_named(segment) else {
        return;
    };
    if usize::from(comp) < marks.len() {
        marks[usize::from(comp)] = true;
    }
}

/// Marks the components that the segments of a header name.
fn mark_header(header: &[Segment], marks: &mut [bool])
    ensures { (c : ℕ) → slice_get marks.new c ≡ Some false
        → (slice_get marks.old c ≡ Some false) × (has_named c header.now ≡ false) }
{
    for segment in header {
        mark_named(segment, marks);
    }
}

/// For each component whether the headers of a tile may say something else of it than those of the tile before, in one of two
/// codestreams; false if no header names it, and what they say of all components is the same. Empty if that isn't, or for tile 0.
///
/// # Errors
///
/// `NoMemory` where memory is refused.
pub(crate) fn changed_comps(
    alloc: Global,
    a: &Stream,
    b: &Stream,
    tile: u16,
) -> Result<Vec<bool>, NoMemory>
    ensures { IfOk result (λ changed. (c : ℕ) → slice_get changed.items c ≡ Some false
        → IsUnchanged a.now b.now tile c) }
{
    if !are_as_before(a, b, false, tile) {
        return Ok(Vec::new(alloc));
    }
    let mut changed = vec![in alloc; false; a.siz.comps.as_slice().len()]?;
    let before = tile.saturating_sub(1);
    mark_header(a.header(tile), &mut changed);
    mark_header(a.header(before), &mut changed);
    mark_header(b.header(tile), &mut changed);
    mark_header(b.header(before), &mut changed);
    Ok(changed)
}

/// Whether a component is marked as one that isn't changed.
pub(crate) fn is_unchanged(changed: &[bool], comp: u16) -> bool
    ensures { IsTrue result → slice_get changed.now comp ≡ Some false }
{
    match changed.get(usize::from(comp)) {
        Some(is) => !*is,
        None => false,
    }
}
