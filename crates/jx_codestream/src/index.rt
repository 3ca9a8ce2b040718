//! A header's segments by their slots.

ghost use Rattle.std.specs.Prelude.{◌≡◌, ◌≤◌, ◌<◌, ◌+◌, ◌*◌, ◌^◌, ◌==◌, ◌&&◌, nat_lt, slice_set, if◌then◌else◌, length, IfOk, MatchOption, Some, None, ℕ, slice_index, true, []};
ghost use Rattle.jx_codestream.specs.Headers.{slot_count};
ghost use Rattle.jx_codestream.specs.Index.{Indexes, IsBare, comp_named, gives, has_default, has_giving, has_shape, held_or};
ghost use Rattle.jx_codestream.specs.Tiles.{in_slot};

use crate::headers::slot_of;
use crate::slots;
use crate::tiles::in_slot;
use jx_marker::Segment;
use std::alloc::{AllocError, Global};

/// So many segments are looked through in less time than a table of all slots is made.
const FEW: usize = 4;

/// The first segment of each slot of a header that gives parameters: found by a table, or one after another where
/// there is none.
#[derive(Drop)]
pub struct Index<'a> {
    pub segments: &'a [Segment],
    /// No segment of the header gives a parameter.
    pub bare: bool,
    table: Option<Vec<usize>>,
    ghost nothing: { bare ≡ true → IsBare segments.now },
    ghost right: { Indexes segments.now (held_or table []) },
}

impl<'a> Index<'a> {
    /// A header's segments without a table.
    pub fn listed(segments: &'a [Segment]) -> Self
        ensures { result.segments.now ≡ segments.now }
    {
        Index {
            segments,
            bare: false,
            table: None,
        }
    }

    /// A header's segments with a table, where more than a few of them are there and one gives a parameter of a picture with so
    /// many components.
    #[tactic(auto, using(crate::proofs::BareLemmas::none_gives))]
    pub fn new(alloc: Global, segments: &'a [Segment], comps: u16) -> Result<Self, AllocError>
        requires { length segments.now < 2 ^ 63 }
        ensures { IfOk result (λ index. index.segments.now ≡ segments.now) }
    {
        if !has_giving(segments) {
            return Ok(Index {
                segments,
                bare: true,
                table: None,
            });
        }
        if segments.len() <= FEW {
            return Ok(Index {
                segments,
                bare: false,
                table: None,
            });
        }
        let table = table_of(alloc, segments, comps)?;
        Ok(Index {
            segments,
            bare: false,
            table: Some(table),
        })
    }

    /// The first segment of a slot.
    pub fn in_slot(&self, slot: usize) -> Option<&Segment>
        requires { gives slot ≡ true }
        ensures { MatchOption result (in_slot slot self.now.segments.now ≡ None) (λ segment. in_slot slot self.now.segments.now ≡ Some segment.now) }
    {
        if self.bare {
            return None;
        }
        match &self.table {
            Some(table) => found_by(table.as_slice(), self.segments, slot),
            None => in_slot(slot, self.segments),
        }
    }
}

/// The first segment of a slot, by a table where it has the slot.
fn found_by<'a>(table: &[usize], segments: &'a [Segment], slot: usize) -> Option<&'a Segment>
    requires { Indexes segments.now table.now }
    ensures { MatchOption result (in_slot slot segments.now ≡ None) (λ segment. in_slot slot segments.now ≡ Some segment.now) }
{
    if slot >= table.len() {
        return in_slot(slot, segments);
    }
    let n = table[slot];
    if n == 0 {
        return None;
    }
    segments.get(n - 1)
}

/// Whether a segment of the slot gives parameters.
fn gives(slot: usize) -> bool
    ensures { result ≡ gives slot }
{
    slot == slots::COD || slot == slots::QCD || slot > slots::LAST_PACKED
}

/// The component of which a segment gives parameters.
pub fn comp_named(segment: &Segment) -> Option<u16>
    ensures { result ≡ comp_named segment.now }
{
    match segment {
        Segment::Coc { comp, .. } => Some(*comp),
        Segment::Qcc { comp, .. } => Some(*comp),
        Segment::Rgn { comp, .. } => Some(*comp),
        _ => None,
    }
}

/// Whether a header has a COD or a QCD.
pub fn has_default(segments: &[Segment]) -> bool
    ensures { result ≡ has_default segments.now }
{
    for segment in segments {
        if matches!(segment, Segment::Cod(_) | Segment::Qcd(_)) {
            return true;
        }
    }
    false
}

/// Whether a header has a COD or a COC.
pub fn has_shape(segments: &[Segment]) -> bool
    ensures { result ≡ has_shape segments.now }
{
    for segment in segments {
        if matches!(segment, Segment::Cod(_) | Segment::Coc { .. }) {
            return true;
        }
    }
    false
}

/// Whether a segment of the header gives parameters.
fn has_giving(segments: &[Segment]) -> bool
    ensures { result ≡ has_giving segments.now }
{
    for segment in segments {
        if gives(slot_of(segment)) {
            return true;
        }
    }
    false
}

/// Enters a segment into the table, where it is the first of its slot.
fn enter(slot: usize, place: usize, table: &mut Vec<usize>)
    requires { place < 2 ^ 63 }
    ensures { table.new.items ≡ (if nat_lt slot (length table.old.items) && (slice_index table.old.items slot == 0) then slice_set table.old.items slot (place + 1) else table.old.items) }
{
    if slot < table.len() && table[slot] == 0 {
        table[slot] = place + 1;
    }
}

/// The table of a header's segments.
fn table_of(alloc: Global, segments: &[Segment], comps: u16) -> Result<Vec<usize>, AllocError>
    requires { length segments.now < 2 ^ 63 }
    ensures right { IfOk result (λ table. Indexes segments.now table.items) }
    ensures count { IfOk result (λ table. length table.items ≡ slot_count comps) }
{
    let mut table = zeros(alloc, slots::count(comps))?;
    for (place, segment) in segments.iter().enumerate() {
        enter(slot_of(segment), place, &mut table);
    }
    Ok(table)
}

fn zeros(alloc: Global, count: usize) -> Result<Vec<usize>, AllocError>
    ensures count { IfOk result (λ table. length table.items ≡ count) }
    ensures zeros { IfOk result (λ table. (slot : ℕ) → slice_index table.items slot ≡ 0) }
{
    vec![in alloc; 0; count]
}
