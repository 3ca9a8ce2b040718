//! Packet headers that stand apart from their packets, in PPM or PPT (ITU-T T.800, A.7.4 and A.7.5).

ghost use Rattle.std.specs.Prelude.{◌≡◌, ◌≤◌, ◌<◌, ◌+◌, ◌^◌, ◌++◌, ◌∷◌, [], nat_lt, length, IfOk, OnOk, true};
ghost use Rattle.std.specs.List.{All, flat_map, position_or_len};
ghost use Rattle.jx_base.specs.Limits.{most_bytes};
ghost use Rattle.jx_marker.specs.Ranges.{InRange};
ghost use Rattle.jx_codestream.specs.Faults.{Answers};
ghost use Rattle.jx_codestream.specs.Headers.{without_ppt};
ghost use Rattle.jx_codestream.specs.PackedHeaders.{LieIn, PackedLieIn, ascending, data_in_order, data_of, heads_by, joined_bytes, packed_at, shared_out, shares_fault, shares_fit, some_piece, with_packed, with_shares};

use crate::headers::{is_ppt, violated};
use crate::parts::PlacedPart;
use crate::shares::Cursor;
use crate::{Body, Heads, Segments, StreamFault};
use jx_marker::{Segment, rule_numbers};
use std::alloc::{AllocError, Global};

/// A PPM or a PPT as it stands in the file.
#[derive(Clone, Copy, Debug, PartialEq, Eq)]
pub struct PackedSegment {
    /// The first byte of its marker.
    pub place: u32,
    /// Its index, Zppm or Zppt.
    pub index: u8,
    /// How many bytes follow the index, also none.
    pub length: u16,
}

/// Appends a segment at a place, where it is a PPM or a PPT.
pub fn push_packed(
    at: usize,
    segment: &Segment,
    comps: u16,
    packed: &mut Vec<PackedSegment>,
) -> Result<(), AllocError>
    requires place { at ≤ most_bytes }
    requires range { InRange comps segment.now }
    ensures { OnOk result (packed.new.items ≡ packed.old.items ++ packed_at at segment.now) }
{
    let (index, bytes) = match segment {
        Segment::Ppm { index, bytes } => (*index, bytes),
        Segment::Ppt { index, bytes } => (*index, bytes),
        _ => return Ok(()),
    };
    packed.push(PackedSegment {
        place: at as u32,
        index,
        length: bytes.as_slice().len() as u16,
    })?;
    Ok(())
}

/// Puts one more among others in ascending index, none of which has a higher index than `most`.
fn insert(
    packed: PackedSegment,
    most: u8,
    sorted: &mut Vec<PackedSegment>,
) -> Result<(), AllocError>
    requires { All (λ (other : PackedSegment). other.index ≤ most) sorted.old.items }
    ensures { OnOk result (sorted.new.items ≡ with_packed sorted.old.items packed) }
{
    if packed.index >= most {
        sorted.push(packed)?;
        return Ok(());
    }
    let place = place_among(packed.index, sorted);
    sorted.insert(place, packed)?;
    Ok(())
}

/// Where an index stands among others that ascend: in front of the first higher one.
fn place_among(index: u8, sorted: &[PackedSegment]) -> usize
    ensures place { result ≡ position_or_len (λ (other : PackedSegment). nat_lt index other.index) sorted.now }
    ensures within { result ≤ length sorted.now }
{
    for (place, other) in sorted.iter().enumerate() {
        if index < other.index {
            return place;
        }
    }
    sorted.len()
}

/// The segments in ascending index.
fn ascending(alloc: Global, packed: &[PackedSegment]) -> Result<Vec<PackedSegment>, AllocError>
    ensures { IfOk result (λ sorted. sorted.items ≡ ascending [] packed.now) }
{
    let mut sorted = Vec::new(alloc);
    let mut most = 0u8;
    for next in packed {
        insert(*next, most, &mut sorted)?;
        most = most.max(next.index);
    }
    Ok(sorted)
}

/// The data of a PPM or PPT, after its marker, its length and its index.
fn data_of(packed: PackedSegment) -> Body
    requires { packed.place + 5 < 2 ^ 32 }
    ensures { result ≡ data_of packed }
{
    Body {
        at: packed.place + 5,
        length: u32::from(packed.length),
    }
}

/// Appends a piece that isn't empty.
pub fn push_some(piece: Body, pieces: &mut Vec<Body>) -> Result<(), AllocError>
    ensures { OnOk result (pieces.new.items ≡ pieces.old.items ++ some_piece piece) }
{
    if piece.length > 0 {
        pieces.push(piece)?;
    }
    Ok(())
}

/// Appends the data of segments, without empty pieces.
fn push_data(packed: &[PackedSegment], pieces: &mut Vec<Body>) -> Result<(), AllocError>
    requires { All (λ (one : PackedSegment). one.place + 5 < 2 ^ 32) packed.now }
    ensures { OnOk result (pieces.new.items ≡ pieces.old.items ++ flat_map (λ (p : PackedSegment). some_piece (data_of p)) packed.now) }
{
    for one in packed {
        push_some(data_of(*one), pieces)?;
    }
    Ok(())
}

/// The data of segments in ascending index, without empty pieces.
fn data_in_order(alloc: Global, packed: &[PackedSegment]) -> Result<Vec<Body>, AllocError>
    requires { All (λ (one : PackedSegment). one.place + 5 < 2 ^ 32) packed.now }
    ensures { IfOk result (λ pieces. pieces.items ≡ data_in_order packed.now) }
{
    let sorted = ascending(alloc, packed)?;
    let mut pieces = Vec::new(alloc);
    push_data(&sorted, &mut pieces)?;
    Ok(pieces)
}

/// The packet headers that the PPT of one header have, or none where it has no PPT.
pub fn heads_by(alloc: Global, packed: &[PackedSegment]) -> Result<Heads, AllocError>
    requires { All (λ (one : PackedSegment). one.place + 5 < 2 ^ 32) packed.now }
    ensures { IfOk result (λ heads. heads ≡ heads_by packed.now) }
{
    match packed {
        [] => Ok(Heads::none()),
        [only] => Ok(heads_by_one(alloc, *only)),
        _ => {
            let pieces = data_in_order(alloc, packed)?;
            Ok(Heads::new(pieces))
        }
    }
}

/// The packet headers that the only PPT of a header has.
#[tactic(auto, using(crate::proofs::PackedLemmas::one_in_order))]
fn heads_by_one(alloc: Global, only: PackedSegment) -> Heads
    requires { only.place + 5 < 2 ^ 32 }
    ensures { result ≡ heads_by (only ∷ []) }
{
    if only.length == 0 {
        return Heads::new(Vec::new(alloc));
    }
    Heads::one(data_of(only))
}

/// A header without PPT. `packed` are its PPM and PPT.
pub fn without_ppt(
    alloc: Global,
    header: Segments,
    packed: &[PackedSegment],
) -> Result<Segments, AllocError>
    requires { packed.now ≡ [] → without_ppt header ≡ header }
    ensures { IfOk result (λ rest. rest ≡ without_ppt header) }
{
    if packed.is_empty() {
        return Ok(header);
    }
    let mut rest = Vec::new(alloc);
    for segment in header.into_vec() {
        if is_ppt(&segment) {
            drop(segment);
        } else {
            rest.push(segment)?;
        }
    }
    Ok(Segments::new(rest))
}

/// The bytes of pieces of the file, joined.
pub fn joined_bytes(alloc: Global, bytes: &[u8], pieces: &[Body]) -> Result<Vec<u8>, AllocError>
    requires { LieIn bytes.now pieces.now }
    ensures { IfOk result (λ joined. joined.items ≡ joined_bytes bytes.now pieces.now) }
{
    let mut joined = Vec::new(alloc);
    for piece in pieces {
        let (_, from) = bytes.split_at(piece.at as usize);
        let (window, _) = from.split_at(piece.length as usize);
        joined.extend_from_slice(window)?;
    }
    Ok(joined)
}

/// Gives each tile-part its share of the data of PPM. False where rule 37 is violated.
fn share_out(
    alloc: Global,
    bytes: &[u8],
    pieces: &[Body],
    parts: &mut [PlacedPart],
) -> Result<bool, AllocError>
    requires inside { LieIn bytes.now pieces.now }
    requires fits { length bytes.now ≤ most_bytes }
    ensures fit { IfOk result (λ fit. fit ≡ shares_fit bytes.now pieces.now parts.old) }
    ensures shared { IfOk result (λ fit. fit ≡ true → parts.new ≡ shared_out bytes.now pieces.now parts.old) }
{
    let mut left = Cursor::new(pieces);
    for place in 0..parts.len() {
        let Some(share) = left.take_share(alloc, bytes)? else {
            return Ok(false);
        };
        parts[place].set_heads(share);
    }
    let fit = left.is_used_up(alloc)?;
    Ok(fit)
}

/// The tile-parts with their packet headers, where the main header has these PPM, in the order of the file.
pub fn with_shares(
    alloc: Global,
    bytes: &[u8],
    packed: &[PackedSegment],
    parts: Vec<PlacedPart>,
) -> Result<Vec<PlacedPart>, StreamFault>
    requires fits { length bytes.now ≤ most_bytes }
    requires inside { PackedLieIn bytes.now packed.now }
    ensures { Answers result (shares_fault bytes.now packed.now parts.items) (λ shared. shared.items ≡ with_shares bytes.now packed.now parts.items) }
{
    let Some(first) = packed.first() else {
        return Ok(parts);
    };
    let pieces = data_in_order(alloc, packed)?;
    let mut shared = parts;
    if !share_out(alloc, bytes, &pieces, &mut shared)? {
        return Err(violated(rule_numbers::PACKED_SHARES, first.place as usize));
    }
    Ok(shared)
}
