//! The main header and the headers of tile-parts (T.800, A.2, A.3): their segments, and the first rule that one of them violates.

ghost use Rattle.std.specs.Prelude.{◌≡◌, ◌≤◌, ◌<◌, ◌+◌, ◌*◌, ◌^◌, ◌==◌, ◌&&◌, length, drop, slice_index, slice_set, nat_lt, IfOk, OnOk, ℕ, if◌then◌else◌};
ghost use Rattle.std.specs.Option.{option_or};
ghost use Rattle.jx_marker.specs.Ranges.{InRange};
ghost use Rattle.jx_marker.specs.Segments.{segment_at, size_at, spelling};
ghost use Rattle.jx_codestream.specs.Faults.{Answers, fault_of};
ghost use Rattle.jx_codestream.specs.Headers.{stands_in, ends_header, is_packed_twice, is_ppt, slot_of, slot_count, early_fault, header_at, header_fault, MarksSlots};
ghost use Rattle.jx_codestream.specs.PackedHeaders.{PackedLieIn, packed_from};
ghost use Rattle.jx_base.specs.Limits.{most_bytes};

use crate::packed::{PackedSegment, push_packed};
use crate::{Segments, StreamFault, slots};
use jx_marker::{Rule, Segment, read_segment, rule_numbers};
use std::alloc::Global;

/// Which header it is.
#[derive(Clone, Copy, Debug, PartialEq, Eq)]
pub enum HeaderKind {
    /// The main header.
    Main,
    /// The header of a tile's first tile-part.
    First,
    /// The header of a later tile-part.
    Later,
    /// The header of a tile's first tile-part, where the main header has a PPM.
    PackedFirst,
    /// The header of a later tile-part, where the main header has a PPM.
    PackedLater,
}

/// The segments of a header, and the place of the marker that ends it.
#[derive(Drop)]
pub struct Header {
    pub segments: Segments,
    pub end: usize,
}

/// The refusal of a rule, 1 to 31 or 37, that is violated at a place.
pub fn violated(number: u8, place: usize) -> StreamFault
    requires { place < 2 ^ 32 }
    ensures { result ≡ StreamFault.Rule number place }
{
    StreamFault::Rule {
        number,
        place: place as u32,
    }
}

fn ends_header(segment: &Segment) -> bool
    ensures { result ≡ ends_header segment.now }
{
    matches!(segment, Segment::Sot(_) | Segment::Sod)
}

fn stands_in_main(segment: &Segment) -> bool
    ensures { result ≡ stands_in HeaderKind.Main segment.now }
{
    match segment {
        Segment::Soc | Segment::Siz(_) | Segment::Plt(_) | Segment::Ppt { .. } => false,
        Segment::Sod | Segment::Eoc => false,
        _ => true,
    }
}

fn stands_in_first(segment: &Segment) -> bool
    ensures { result ≡ stands_in HeaderKind.First segment.now }
{
    match segment {
        Segment::Cod(_) | Segment::Coc { .. } | Segment::Qcd(_) => true,
        Segment::Qcc { .. } | Segment::Rgn { .. } => true,
        _ => stands_in_later(segment),
    }
}

fn stands_in_later(segment: &Segment) -> bool
    ensures { result ≡ stands_in HeaderKind.Later segment.now }
{
    match segment {
        Segment::Poc(_) | Segment::Plt(_) | Segment::Com(_) => true,
        Segment::Ppt { .. } => true,
        Segment::Skipped(_) | Segment::Sod => true,
        _ => false,
    }
}

fn stands_in(kind: HeaderKind, segment: &Segment) -> bool
    ensures { result ≡ stands_in kind segment.now }
{
    match kind {
        HeaderKind::Main => stands_in_main(segment),
        HeaderKind::First | HeaderKind::PackedFirst => stands_in_first(segment),
        HeaderKind::Later | HeaderKind::PackedLater => stands_in_later(segment),
    }
}

pub fn is_ppt(segment: &Segment) -> bool
    ensures { result ≡ is_ppt segment.now }
{
    matches!(segment, Segment::Ppt { .. })
}

/// Rule 14: a PPT, where the main header has a PPM.
fn is_packed_twice(kind: HeaderKind, segment: &Segment) -> bool
    ensures { result ≡ is_packed_twice kind segment.now }
{
    matches!(kind, HeaderKind::PackedFirst | HeaderKind::PackedLater) && is_ppt(segment)
}

/// The number of a segment's kind, or of its kind and component, where a header has it once at most, else 0.
pub fn slot_of(segment: &Segment) -> usize
    ensures { result ≡ slot_of segment.now }
{
    match segment {
        Segment::Cod(_) => slots::COD,
        Segment::Qcd(_) => slots::QCD,
        Segment::Poc(_) => slots::POC,
        Segment::Crg(_) => slots::CRG,
        Segment::Ppm { index, .. } | Segment::Ppt { index, .. } => slots::packed(*index),
        Segment::Coc { comp, .. } => slots::coc(*comp),
        Segment::Qcc { comp, .. } => slots::qcc(*comp),
        Segment::Rgn { comp, .. } => slots::rgn(*comp),
        _ => slots::OTHER,
    }
}

/// Why no segment is read at a place.
pub fn fault_of(rule: Rule, at: usize) -> StreamFault
    requires { at ≤ most_bytes }
    ensures { result ≡ fault_of rule at }
{
    match rule {
        Rule::Broken(number) => violated(number, at),
        Rule::NoMemory => StreamFault::NoMemory,
    }
}

/// The segment at a place of a header and the place after it, where none of the rules 1 to 14 and 19 is violated.
pub fn segment_in(
    alloc: Global,
    bytes: &[u8],
    at: usize,
    kind: HeaderKind,
    comps: u16,
) -> Result<(Segment, usize), StreamFault>
    requires place { at ≤ length bytes.now }
    requires fits { length bytes.now ≤ most_bytes }
    ensures answer { Answers result (early_fault kind comps bytes.now at) (λ r. r.0 ≡ segment_at comps (drop at bytes.now)) }
    ensures after { IfOk result (λ r. (r.1 ≡ at + size_at (drop at bytes.now)) × (r.1 ≤ length bytes.now)) }
    ensures size { IfOk result (λ r. r.1 ≡ at + length (spelling comps r.0)) }
    ensures range { IfOk result (λ r. InRange comps r.0) }
{
    match read_segment(alloc, bytes, at, comps) {
        Ok((segment, next)) => {
            if is_packed_twice(kind, &segment) {
                drop(segment);
                return Err(violated(rule_numbers::PACKED_HEADERS, at));
            }
            if stands_in(kind, &segment) {
                return Ok((segment, next));
            }
            drop(segment);
            Err(violated(rule_numbers::MISPLACED, at))
        }
        Err(rule) => Err(fault_of(rule, at)),
    }
}

/// Whether a segment of this slot stands in the header already. From now on one does.
fn mark(slot: usize, start: u32, seen: &mut [u32]) -> bool
    requires { slot < length seen.old }
    ensures found { result ≡ (nat_lt 0 slot && (slice_index seen.old slot == start)) }
    ensures after { seen.new ≡ (if nat_lt 0 slot then slice_set seen.old slot start else seen.old) }
{
    if slot == slots::OTHER {
        return false;
    }
    let found = seen[slot] == start;
    seen[slot] = start;
    found
}

/// The header from a place on, and its PPM and PPT in their order. `seen` is a table by slots, for which no place of the file is too small.
pub fn read_header(
    alloc: Global,
    bytes: &[u8],
    at: usize,
    kind: HeaderKind,
    comps: u16,
    seen: &mut [u32],
) -> Result<(Header, Vec<PackedSegment>), StreamFault>
    requires place { at ≤ length bytes.now }
    requires fits { length bytes.now ≤ most_bytes }
    requires slots { length seen.old ≡ slot_count comps }
    requires fresh { (slot : ℕ) → slice_index seen.old slot < at }
    ensures answer { Answers result (header_fault kind comps bytes.now at) (λ r. r.0 ≡ header_at kind comps bytes.now at) }
    ensures within { IfOk result (λ r. (at ≤ r.0.end) × (r.0.end + 2 ≤ length bytes.now)) }
    ensures marks { IfOk result (λ r. MarksSlots at r.0.segments seen.new) }
    ensures packed { IfOk result (λ r. r.1.items ≡ packed_from comps at r.0.segments) }
    ensures inside { IfOk result (λ r. PackedLieIn bytes.now r.1.items) }
{
    let start = at as u32;
    let mut segments = Vec::new(alloc);
    let mut packed = Vec::new(alloc);
    let mut place = at;
    'segments: loop {
        let (segment, next) = segment_in(alloc, bytes, place, kind, comps)?;
        if ends_header(&segment) {
            drop(segment);
            let header = Header {
                segments: Segments::new(segments),
                end: place,
            };
            return Ok((header, packed));
        }
        if mark(slot_of(&segment), start, seen) {
            drop(segment);
            return Err(violated(rule_numbers::TWICE, place));
        }
        push_packed(place, &segment, comps, &mut packed)?;
        segments.push(segment)?;
        place = next;
    }
}
