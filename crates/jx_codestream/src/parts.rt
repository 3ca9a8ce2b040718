//! Tile-parts (T.800, A.4.2): SOT, header and data of each.

ghost use Rattle.std.specs.Prelude.{◌≡◌, ◌≢◌, ◌≤◌, ◌<◌, ◌+◌, ◌-◌, ◌^◌, ◌==◌, ◌&&◌, not, nat_lt, true, false, length, drop, slice_index, slice_set, IfOk, IfErr, MatchOption, Some, None, ℕ, [], if◌then◌else◌};
ghost use Rattle.jx_marker.specs.declared.Segment.{Segment};
ghost use Rattle.jx_marker.specs.declared.Sot.{Sot};
ghost use Rattle.jx_marker.specs.Codes.{EOC};
ghost use Rattle.jx_marker.specs.Segments.{segment_at};
ghost use Rattle.std.specs.List.{All};
ghost use Rattle.jx_codestream.specs.declared.parts.PlacedPart.{PlacedPart};
ghost use Rattle.jx_codestream.specs.Faults.{Answers};
ghost use Rattle.jx_codestream.specs.Headers.{slot_count, MarksSlots};
ghost use Rattle.jx_codestream.specs.PackedHeaders.{with_heads};
ghost use Rattle.jx_codestream.specs.Parts.{marker_at, sot_in, after_sot, kind_of, start_fault, sot_fault, sod_fault, is_out_of_turn, has_wrong_length, end_of, part_at, part_fault, tables_say, parts_fault, parts_from, end_of_part, Tracks};
ghost use Rattle.jx_base.specs.Limits.{most_bytes};

use crate::headers::{HeaderKind, fault_of, read_header, violated};
use crate::packed::{heads_by, without_ppt};
use crate::{Body, Heads, Segments, StreamFault};
use jx_marker::codes::{EOC, SOT};
use jx_marker::{Segment, Sot, read_segment, rule_numbers};
use std::alloc::Global;

/// One tile-part as it is read: its header taken apart, and where its data stand.
#[derive(Drop)]
pub struct PlacedPart {
    /// The first byte of its SOT.
    pub place: u32,
    /// Its SOT.
    pub sot: Sot,
    /// The segments of its header after SOT and before SOD, without PPT.
    pub header: Segments,
    /// Its packet headers, where they stand apart from its packets.
    pub heads: Heads,
    /// Its data.
    pub body: Body,
}

impl PlacedPart {
    /// From now on its packet headers stand in these pieces.
    pub fn set_heads(&mut self, pieces: Vec<Body>)
        ensures { self.new ≡ with_heads self.old pieces.items }
    {
        self.heads = Heads::new(pieces);
    }
}

/// Whether the marker of this second byte, which isn't 0, stands at a place.
pub fn has_marker(bytes: &[u8], at: usize, code: u8) -> bool
    requires place { at ≤ 2 ^ 32 }
    requires code { 0 < code }
    ensures { result ≡ marker_at bytes.now at code }
{
    at + 1 < bytes.len() && bytes[at] == 255 && bytes[at + 1] == code
}

/// The SOT that a segment is.
fn sot_of(segment: &Segment) -> Option<Sot>
    ensures { MatchOption result ((sot : Sot) → segment.now ≢ Segment.Sot sot) (λ sot. segment.now ≡ Segment.Sot sot) }
{
    match segment {
        Segment::Sot(sot) => Some(*sot),
        _ => None,
    }
}

/// The SOT at a place, and the place after it.
#[tactic(auto, unfolding(crate::specs::Parts::start_fault))]
fn read_sot(alloc: Global, bytes: &[u8], at: usize, comps: u16) -> Result<(Sot, usize), StreamFault>
    requires place { at ≤ length bytes.now }
    requires fits { length bytes.now ≤ most_bytes }
    requires goes_on { marker_at bytes.now at EOC ≡ false }
    ensures answer { Answers result (start_fault comps bytes.now at) (λ r. (r.0 ≡ sot_in bytes.now at) × (r.1 ≡ after_sot bytes.now at)) }
    ensures within { IfOk result (λ r. (at < r.1) × (r.1 ≤ length bytes.now)) }
{
    if !has_marker(bytes, at, SOT) {
        return Err(violated(rule_numbers::PART_END, at));
    }
    match read_segment(alloc, bytes, at, comps) {
        Ok((segment, next)) => {
            let sot = sot_of(&segment);
            drop(segment);
            match sot {
                Some(sot) => Ok((sot, next)),
                None => Err(violated(rule_numbers::PART_END, at)),
            }
        }
        Err(rule) => Err(fault_of(rule, at)),
    }
}

/// Whether a SOT's number isn't its tile's next one, or its number of tile-parts is too small or another
/// than one told before.
fn is_out_of_turn(sot: Sot, count: u16, told: u8) -> bool
    ensures { result ≡ is_out_of_turn sot count (nat_lt 0 told && not (told == sot.parts)) }
{
    let other = told > 0 && told != sot.parts;
    u16::from(sot.part) != count || (sot.parts > 0 && (sot.parts <= sot.part || other))
}

fn has_wrong_length(bytes: &[u8], at: usize, sot: Sot) -> bool
    requires { at ≤ 2 ^ 32 }
    ensures { result ≡ has_wrong_length bytes.now at sot }
{
    (sot.psot > 0 && sot.psot < 14) || at + sot.psot as usize > bytes.len()
}

/// Whether a SOT violates none of the rules 20 to 22. The tables have the number of tile-parts so far and a
/// told number of them for each tile.
#[tactic(auto, unfolding(crate::specs::Parts::sot_fault))]
fn check_sot(
    bytes: &[u8],
    at: usize,
    sot: Sot,
    counts: &[u16],
    told: &[u8],
) -> Result<(), StreamFault>
    requires place { at ≤ most_bytes }
    requires tables { length told.now ≡ length counts.now }
    ensures answer { Answers result (sot_fault (length counts.now) bytes.now at sot (tables_say counts.now told.now sot))
        (λ _. (sot.tile < length counts.now) × (at + sot.psot ≤ length bytes.now)) }
    ensures memory { IfErr result (λ e. e ≢ StreamFault.NoMemory) }
{
    let tile = usize::from(sot.tile);
    if tile >= counts.len() {
        return Err(violated(rule_numbers::NO_TILE, at));
    }
    if is_out_of_turn(sot, counts[tile], told[tile]) {
        return Err(violated(rule_numbers::PART_NUMBER, at));
    }
    if has_wrong_length(bytes, at, sot) {
        return Err(violated(rule_numbers::PART_LENGTH, at));
    }
    Ok(())
}

/// Where a tile-part with SOD at `sod` ends.
#[tactic(auto, unfolding(crate::specs::Parts::sod_fault))]
fn end_of(bytes: &[u8], at: usize, sot: Sot, sod: usize) -> Result<usize, StreamFault>
    requires place { at ≤ most_bytes }
    requires sod { sod + 2 ≤ length bytes.now }
    requires length { at + sot.psot ≤ length bytes.now }
    requires fits { length bytes.now ≤ most_bytes }
    ensures answer { Answers result (sod_fault bytes.now at sot sod) (λ end. (end ≡ end_of bytes.now at sot) × (sod + 2 ≤ end) × (end ≤ length bytes.now)) }
    ensures memory { IfErr result (λ e. e ≢ StreamFault.NoMemory) }
{
    if sot.psot == 0 {
        let end = bytes.len() - 2;
        if !has_marker(bytes, end, EOC) || end < sod + 2 {
            return Err(violated(rule_numbers::PART_END, end));
        }
        return Ok(end);
    }
    let end = at + sot.psot as usize;
    if end < sod + 2 {
        return Err(violated(rule_numbers::PART_LENGTH, at));
    }
    Ok(end)
}

fn kind_of(packed: bool, sot: Sot) -> HeaderKind
    ensures { result ≡ kind_of packed sot }
{
    match (packed, sot.part == 0) {
        (false, true) => HeaderKind::First,
        (false, false) => HeaderKind::Later,
        (true, true) => HeaderKind::PackedFirst,
        (true, false) => HeaderKind::PackedLater,
    }
}

/// The tile-part at a place where no EOC stands; `packed` is whether the main header has a PPM. `counts` and `told` are tables by tiles: how many tile-parts
/// each had, and a number of them that it told, or 0. `seen` is a table by slots.
fn read_part(
    alloc: Global,
    bytes: &[u8],
    at: usize,
    packed: bool,
    comps: u16,
    seen: &mut [u32],
    counts: &[u16],
    told: &[u8],
) -> Result<PlacedPart, StreamFault>
    requires place { at ≤ length bytes.now }
    requires fits { length bytes.now ≤ most_bytes }
    requires goes_on { marker_at bytes.now at EOC ≡ false }
    requires slots { length seen.old ≡ slot_count comps }
    requires fresh { (slot : ℕ) → slice_index seen.old slot ≤ at }
    requires tables { length told.now ≡ length counts.now }
    ensures answer { Answers result (part_fault packed comps (length counts.now) bytes.now (tables_say counts.now told.now (sot_in bytes.now at)) at)
        (λ part. part ≡ part_at packed comps bytes.now at) }
    ensures tile { IfOk result (λ part. part.sot.tile < length counts.now) }
    ensures within { IfOk result (λ part. (at < end_of_part part) × (end_of_part part ≤ length bytes.now)) }
    ensures fresh { IfOk result (λ part. (slot : ℕ) → slice_index seen.new slot ≤ end_of_part part) }
{
    let (sot, next) = read_sot(alloc, bytes, at, comps)?;
    check_sot(bytes, at, sot, counts, told)?;
    let kind = kind_of(packed, sot);
    let (header, packed) = read_header(alloc, bytes, next, kind, comps, seen)?;
    let end = end_of(bytes, at, sot, header.end)?;
    let heads = heads_by(alloc, &packed)?;
    let rest = without_ppt(alloc, header.segments, &packed)?;
    let data = header.end + 2;
    Ok(PlacedPart {
        place: at as u32,
        sot,
        header: rest,
        heads,
        body: Body {
            at: data as u32,
            length: (end - data) as u32,
        },
    })
}

/// Counts a tile-part in the tables.
fn count_part(sot: Sot, counts: &mut [u16], told: &mut [u8])
    requires tile { sot.tile < length counts.old }
    requires tables { length told.old ≡ length counts.old }
    ensures counts { counts.new ≡ slice_set counts.old sot.tile (sot.part + 1) }
    ensures told { told.new ≡ (if nat_lt 0 sot.parts then slice_set told.old sot.tile sot.parts else told.old) }
{
    let tile = usize::from(sot.tile);
    counts[tile] = u16::from(sot.part) + 1;
    if sot.parts > 0 {
        told[tile] = sot.parts;
    }
}

fn end_of_part(part: &PlacedPart) -> usize
    ensures { result ≡ end_of_part part.now }
{
    part.body.at as usize + part.body.length as usize
}

/// The tile-parts from a place on, in their order, and the place of the EOC after them. `packed` is whether the main header
/// has a PPM.
pub fn read_parts(
    alloc: Global,
    bytes: &[u8],
    at: usize,
    packed: bool,
    comps: u16,
    seen: &mut [u32],
    counts: &mut [u16],
    told: &mut [u8],
) -> Result<(Vec<PlacedPart>, usize), StreamFault>
    requires place { at ≤ length bytes.now }
    requires fits { length bytes.now ≤ most_bytes }
    requires slots { length seen.old ≡ slot_count comps }
    requires fresh { (slot : ℕ) → slice_index seen.old slot ≤ at }
    requires tables { length told.old ≡ length counts.old }
    requires tracks { Tracks [] counts.old told.old }
    ensures answer { Answers result (parts_fault packed comps (length counts.old) bytes.now at)
        (λ r. (r.0.items ≡ (parts_from packed comps (length counts.old) bytes.now at).parts) × (r.1 ≡ (parts_from packed comps (length counts.old) bytes.now at).end)) }
    ensures tracks { IfOk result (λ r. Tracks r.0.items counts.new told.new) }
    ensures tiles { IfOk result (λ r. All (λ (part : PlacedPart). part.sot.tile < length counts.old) r.0.items) }
    ensures end { IfOk result (λ r. r.1 ≤ length bytes.now) }
{
    let mut parts = Vec::new(alloc);
    let mut place = at;
    'parts: loop {
        if has_marker(bytes, place, EOC) {
            return Ok((parts, place));
        }
        let part = read_part(alloc, bytes, place, packed, comps, seen, counts, told)?;
        count_part(part.sot, counts, told);
        place = end_of_part(&part);
        parts.push(part)?;
    }
}
