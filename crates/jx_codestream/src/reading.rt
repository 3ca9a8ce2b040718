//! A codestream from its first byte to EOC: SIZ, the main header, all tile-parts.

ghost use Rattle.std.specs.Prelude.{◌≡◌, ◌≢◌, ◌⊎◌, ◌≤◌, ◌<◌, ◌+◌, ◌-◌, ◌*◌, ◌^◌, ◌==◌, ◌&&◌, not, nat_lt, length, drop, slice_index, IfOk, IfErr, Ok, Err, ℕ, [], true};
ghost use Rattle.std.specs.List.{All, list_any};
ghost use Rattle.std.specs.Option.{option_or};
ghost use Rattle.jx_marker.specs.Rules.{siz_fits};
ghost use Rattle.jx_geom.specs.Ranges.{CanvasInRange};
ghost use Rattle.jx_codestream.specs.declared.parts.PlacedPart.{PlacedPart};
ghost use Rattle.jx_codestream.specs.declared.Stream.{Stream};
ghost use Rattle.jx_codestream.specs.declared.faults.StreamFault.{StreamFault};
ghost use Rattle.jx_codestream.specs.Faults.{Answers};
ghost use Rattle.jx_codestream.specs.Spells.{Spells};
ghost use Rattle.jx_codestream.specs.Read.{IsRead};
ghost use Rattle.jx_codestream.specs.FirstViolated.{IsFirst};
ghost use Rattle.jx_codestream.specs.Headers.{cod_slot, qcd_slot, slot_count};
ghost use Rattle.jx_codestream.specs.PackedHeaders.{PackedLieIn, with_shares};
ghost use Rattle.jx_codestream.specs.Parts.{Tracks, end_of_part};
ghost use Rattle.jx_codestream.specs.Params.{entries_fault, planes_fault};
ghost use Rattle.jx_codestream.specs.First.{canvas_of, tile_number, siz_of, after_siz, front_fault, tiles_fault, lacks_default, main_header, main_fault, packed_after, parts_after, lacks_part, body_fault, stream_from, stream_in, parameters_fault, later_fault, first_fault};
ghost use Rattle.jx_base.specs.Limits.{most_bytes};

use crate::checks::{check_entries, check_planes};
use crate::headers::{Header, HeaderKind, fault_of, read_header, violated};
use crate::index::Index;
use crate::packed::{PackedSegment, with_shares};
use crate::parts::{PlacedPart, has_marker, read_parts};
use crate::shapes::comps_of;
use crate::tiles::tiles_of;
use crate::{Segments, Stream, StreamFault, Tile, Tiles, slots};
use jx_geom::{Canvas, tiles};
use jx_marker::codes::{SIZ, SOC};
use jx_marker::{Segment, Siz, read_segment, rule_numbers};
use std::alloc::{AllocError, Global};

/// The most tiles.
const TILES: u64 = 65_535;

/// The canvas and the tiles of a SIZ.
pub fn canvas_of(siz: &Siz) -> Canvas
    ensures { result ≡ canvas_of siz.now }
{
    Canvas {
        x1: siz.x1,
        y1: siz.y1,
        x0: siz.x0,
        y0: siz.y0,
        tw: siz.tw,
        th: siz.th,
        tx: siz.tx,
        ty: siz.ty,
    }
}

/// The SIZ that stands after SOC, and the place after it.
fn read_front(alloc: Global, bytes: &[u8]) -> Result<(Siz, usize), StreamFault>
    requires { length bytes.now ≤ most_bytes }
    ensures answer { Answers result (front_fault bytes.now) (λ r. (r.0 ≡ siz_of bytes.now) × (r.1 ≡ after_siz bytes.now)) }
    ensures within { IfOk result (λ r. (0 < r.1) × (r.1 ≤ length bytes.now)) }
    ensures range { IfOk result (λ r. siz_fits r.0 ≡ true) }
{
    if !has_marker(bytes, 0, SOC) {
        return Err(violated(rule_numbers::NO_SOC, 0));
    }
    if !has_marker(bytes, 2, SIZ) {
        return Err(violated(rule_numbers::NO_SIZ, 2));
    }
    match read_segment(alloc, bytes, 2, 1) {
        Ok((segment, next)) => {
            let Segment::Siz(siz) = segment else {
                drop(segment);
                return Err(violated(rule_numbers::NO_SIZ, 2));
            };
            Ok((siz, next))
        }
        Err(rule) => Err(fault_of(rule, 2)),
    }
}

/// The number of tiles, where there are at most 65,535.
#[tactic(auto, unfolding(crate::specs::First::tiles_fault))]
fn count_tiles(siz: &Siz) -> Result<usize, StreamFault>
    requires { CanvasInRange (canvas_of siz.now) }
    ensures answer { Answers result (tiles_fault siz.now) (λ count. (count ≡ tile_number siz.now) × (count ≤ 65535)) }
    ensures memory { IfErr result (λ e. e ≢ StreamFault.NoMemory) }
{
    let count = tiles(&canvas_of(siz));
    if count > TILES {
        return Err(StreamFault::Limit {
            number: 3,
            found: u128::from(count),
        });
    }
    Ok(count as usize)
}

/// Whether the header from `start` on has a COD and a QCD.
fn has_defaults(start: usize, seen: &[u32]) -> bool
    requires { qcd_slot < length seen.now }
    ensures { result ≡ ((slice_index seen.now cod_slot == start) && (slice_index seen.now qcd_slot == start)) }
{
    seen[slots::COD] as usize == start && seen[slots::QCD] as usize == start
}

/// The main header, after which the first SOT stands, and its PPM.
fn read_main(
    alloc: Global,
    bytes: &[u8],
    start: usize,
    comps: u16,
    seen: &mut [u32],
) -> Result<(Header, Vec<PackedSegment>), StreamFault>
    requires place { start ≤ length bytes.now }
    requires fits { length bytes.now ≤ most_bytes }
    requires slots { length seen.old ≡ slot_count comps }
    requires fresh { (slot : ℕ) → slice_index seen.old slot < start }
    ensures answer { Answers result (main_fault comps bytes.now start) (λ r. r.0 ≡ main_header comps bytes.now start) }
    ensures within { IfOk result (λ r. (start ≤ r.0.end) × (r.0.end ≤ length bytes.now)) }
    ensures packed { IfOk result (λ r. r.1.items ≡ packed_after comps bytes.now start) }
    ensures inside { IfOk result (λ r. PackedLieIn bytes.now r.1.items) }
    ensures marks { IfOk result (λ _. (slot : ℕ) → slice_index seen.new slot ≤ start) }
{
    let (main, packed) = read_header(alloc, bytes, start, HeaderKind::Main, comps, seen)?;
    if !has_defaults(start, seen) {
        return Err(violated(rule_numbers::NO_DEFAULTS, main.end));
    }
    Ok((main, packed))
}

/// Whether a tile had no tile-part.
fn lacks_part(counts: &[u16]) -> bool
    ensures { result ≡ list_any (λ count. count == 0) counts.now }
{
    counts.iter().any(|count| *count == 0)
}

/// The main header and the tile-parts with their packet headers. The tables have 0 everywhere.
fn read_body(
    alloc: Global,
    bytes: &[u8],
    start: usize,
    comps: u16,
    seen: &mut [u32],
    counts: &mut [u16],
    told: &mut [u8],
) -> Result<(Header, Vec<PlacedPart>), StreamFault>
    requires place { start ≤ length bytes.now }
    requires some { 0 < start }
    requires fits { length bytes.now ≤ most_bytes }
    requires slots { length seen.old ≡ slot_count comps }
    requires fresh { (slot : ℕ) → slice_index seen.old slot ≡ 0 }
    requires tables { length told.old ≡ length counts.old }
    requires counts { (tile : ℕ) → slice_index counts.old tile ≡ 0 }
    requires told { (tile : ℕ) → slice_index told.old tile ≡ 0 }
    ensures answer { Answers result (body_fault comps (length counts.old) bytes.now start)
        (λ r. (r.0 ≡ main_header comps bytes.now start) × (r.1.items ≡ with_shares bytes.now (packed_after comps bytes.now start) (parts_after comps (length counts.old) bytes.now start).parts)) }
    ensures tiles { IfOk result (λ r. All (λ (part : PlacedPart). part.sot.tile < length counts.old) r.1.items) }
{
    let (main, packed) = read_main(alloc, bytes, start, comps, seen)?;
    let some = !packed.is_empty();
    let (parts, eoc) = read_parts(alloc, bytes, main.end, some, comps, seen, counts, told)?;
    if lacks_part(counts) {
        return Err(violated(rule_numbers::NO_PART, eoc));
    }
    let shared = with_shares(alloc, bytes, &packed, parts)?;
    Ok((main, shared))
}

/// The main header and the tile-parts of a picture with so many components and tiles.
fn read_headers(
    alloc: Global,
    bytes: &[u8],
    start: usize,
    comps: u16,
    count: usize,
) -> Result<(Header, Vec<PlacedPart>), StreamFault>
    requires place { start ≤ length bytes.now }
    requires some { 0 < start }
    requires fits { length bytes.now ≤ most_bytes }
    ensures answer { Answers result (body_fault comps count bytes.now start)
        (λ r. (r.0 ≡ main_header comps bytes.now start) × (r.1.items ≡ with_shares bytes.now (packed_after comps bytes.now start) (parts_after comps count bytes.now start).parts)) }
    ensures tiles { IfOk result (λ r. All (λ (part : PlacedPart). part.sot.tile < count) r.1.items) }
{
    let mut seen = vec![in alloc; 0u32; slots::count(comps)]?;
    let mut counts = vec![in alloc; 0u16; count]?;
    let mut told = vec![in alloc; 0u8; count]?;
    read_body(
        alloc,
        bytes,
        start,
        comps,
        &mut seen,
        &mut counts,
        &mut told,
    )
}

/// Whether the tiles' quantization and planes violate nothing.
fn check_tiles(
    alloc: Global,
    main: &[Segment],
    comps: u16,
    tiles: &[Tile],
) -> Result<(), StreamFault>
    requires { length main.now < 2 ^ 63 }
    ensures { Answers result (option_or (entries_fault main.now comps tiles.now) (planes_fault main.now comps tiles.now)) (λ _. Unit {0}) }
{
    let index = Index::new(alloc, main, comps)?;
    check_entries(alloc, &index, comps, tiles)?;
    check_planes(alloc, &index, comps, tiles)
}

/// How many components there are.
fn count_comps(siz: &Siz) -> u16
    requires { siz_fits siz.now ≡ true }
    ensures { result ≡ length siz.now.comps }
{
    comps_of(siz)
}

/// The stream after its SIZ.
fn read_rest(alloc: Global, bytes: &[u8], siz: Siz, start: usize) -> Result<Stream, StreamFault>
    requires place { start ≤ length bytes.now }
    requires some { 0 < start }
    requires fits { length bytes.now ≤ most_bytes }
    requires range { siz_fits siz ≡ true }
    ensures { Answers result (later_fault siz bytes.now start) (λ stream. stream ≡ stream_from siz bytes.now start) }
{
    let count = count_tiles(&siz)?;
    let comps = count_comps(&siz);
    let (header, parts) = read_headers(alloc, bytes, start, comps, count)?;
    let main = header.segments;
    let tiles = tiles_of(alloc, main.as_slice(), parts, count)?;
    check_tiles(alloc, main.as_slice(), comps, &tiles)?;
    Ok(Stream {
        siz,
        main,
        tiles: Tiles::new(tiles),
    })
}

/// The stream that a file of at most 2^32 - 1 bytes spells.
///
/// `Rule` names the first of the rules 1 to 24 and 37 that the file violates, with its place; `Limit` the first of the
/// limits 3 (tiles) and 4 (planes of a band) that it passes, with what was counted. First is what `IsFirst` says, a
/// relation on the whole file: a front of it is spelled and violates nothing, and where this front ends the first test
/// of that place that is true is this one. `NoMemory` may stand in place of either. What follows EOC isn't read.
pub fn read_stream(alloc: Global, bytes: &[u8]) -> Result<Stream, StreamFault>
    requires { length bytes.now ≤ most_bytes }
    ensures exact { Answers result (first_fault bytes.now) (λ stream. stream ≡ stream_in bytes.now) }
    // What is read is spelled, within the limits, and nothing else is spelled.
    ensures read { IfOk result (λ stream. IsRead bytes.now stream) }
    ensures only { IfOk result (λ stream. (other : Stream) → Spells bytes.now other → other ≡ stream) }
    // Where a stream is spelled, within the limits, only memory is wanting.
    ensures memory { (stream : Stream) → IsRead bytes.now stream → (result ≡ Ok stream) ⊎ (result ≡ Err StreamFault.NoMemory) }
    // Where a rule is violated nothing is spelled.
    ensures unspelled { (number place : ℕ) (stream : Stream) → result ≡ Err (StreamFault.Rule number place) → Spells bytes.now stream → ⊥ }
    // The rule or limit of a refusal is the first one, and no other is.
    ensures first { (fault : StreamFault) → result ≡ Err fault → (fault ≡ StreamFault.NoMemory) ⊎ IsFirst bytes.now fault }
    ensures first_only { (fault : StreamFault) → IsFirst bytes.now fault → (result ≡ Err fault) ⊎ (result ≡ Err StreamFault.NoMemory) }
{
    let (siz, start) = read_front(alloc, bytes)?;
    let stream = read_rest(alloc, bytes, siz, start)?;
    Ok(stream)
}
