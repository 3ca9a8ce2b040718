//! SOP, EPH and the coded bytes of packets, and what their headers are read from (ITU-T T.800, A.7.4, A.7.5, A.8 and
//! B.10).

ghost use Rattle.std.specs.Prelude.{◌≡◌, ◌≢◌, ◌≤◌, ◌<◌, ◌+◌, ◌-◌, ◌^◌, length, IfErr, MatchOption};
ghost use Rattle.jx_tile.specs.Faults.{Answers};
ghost use Rattle.jx_tier2_reader.specs.Data.{begins_with, number_at, sop_fault, sop_length, eph_length, eph_fault, is_eph_cut, header_in, front_length, packed_behind, parts_length, is_marked, has_mark_below, first_mark, marks_fault, body_fault};
ghost use Rattle.jx_tier2_reader.specs.Reading.{HasBytes, seen};

use crate::StreamFault;
use jx_codestream::violated;
use jx_marker::codes::{EPH, SOP};
use jx_marker::rule_numbers;
use jx_packet_header::HeaderPart;

/// Whether the marker of this second byte, which isn't 0, stands in front.
fn begins_with(bytes: &[u8], code: u8) -> bool
    requires { 0 < code }
    ensures { result ≡ begins_with bytes.now code }
{
    bytes.len() > 1 && bytes[0] == 255 && bytes[1] == code
}

/// The number of the two bytes at a place.
fn number_at(bytes: &[u8], at: usize) -> usize
    requires { at + 1 < length bytes.now }
    ensures { result ≡ number_at bytes.now at }
{
    usize::from(bytes[at]) * 256 + usize::from(bytes[at + 1])
}

/// The length of a SOP in front of the packet of this number in its tile, 0 where none stands there. One
/// that is cut short violates rule 26, and one of another length or number rule 29.
#[tactic(auto, unfolding(crate::specs::Data::sop_fault))]
pub(crate) fn read_sop(bytes: &[u8], at: usize, number: usize) -> Result<usize, StreamFault>
    requires { at < 2 ^ 32 }
    ensures answer { Answers result (sop_fault bytes.now at number) (λ n. (n ≡ sop_length bytes.now) × (n ≤ length bytes.now)) }
    ensures memory { IfErr result (λ e. e ≢ StreamFault.NoMemory) }
{
    if !begins_with(bytes, SOP) {
        return Ok(0);
    }
    if bytes.len() < 6 {
        return Err(violated(rule_numbers::PACKET_HEADER, at));
    }
    if number_at(bytes, 2) != 4 || number_at(bytes, 4) != number % 65536 {
        return Err(violated(rule_numbers::SOP_SEGMENT, at));
    }
    Ok(6)
}

/// The length of an EPH in front, 0 where none stands there.
fn eph_length(bytes: &[u8]) -> usize
    ensures is { result ≡ eph_length bytes.now }
    ensures within { result ≤ length bytes.now }
{
    if begins_with(bytes, EPH) { 2 } else { 0 }
}

/// What a packet's header stands in front of: what is left of the packed headers, where the tile has such, or what
/// follows a SOP of so many bytes.
#[tactic(auto, unfolding(crate::specs::Data::header_in))]
pub(crate) fn header_in<'h>(packed: Option<&'h [u8]>, bytes: &'h [u8], sop: usize) -> &'h [u8]
    requires sop { sop ≡ sop_length bytes.now }
    requires within { sop ≤ length bytes.now }
    ensures { result.now ≡ header_in (seen packed.entry) bytes.now }
{
    match packed {
        Some(headers) => headers,
        None => bytes.split_at(sop).1,
    }
}

/// What is left of the packed headers, where the tile has such, behind a header of so many bytes and its EPH.
pub(crate) fn packed_behind(packed: Option<&[u8]>, used: usize) -> Option<&[u8]>
    requires { HasBytes (seen packed) used }
    ensures { seen result ≡ packed_behind (seen packed.entry) used }
{
    let headers = packed?;
    let eph = eph_length(headers.split_at(used).1);
    Some(headers.split_at(used + eph).1)
}

/// How many bytes of the tile data stand before the coded bytes of a packet: a SOP of so many, and its header of so many
/// and EPH where these stand there.
#[tactic(auto, unfolding(crate::specs::Data::front_length, crate::specs::Data::header_in))]
fn front_length(packed: Option<&[u8]>, bytes: &[u8], sop: usize, used: usize) -> usize
    requires sop { sop ≡ sop_length bytes.now }
    requires within { sop ≤ length bytes.now }
    requires used { used ≤ length (header_in (seen packed) bytes.now) }
    ensures is { result ≡ front_length (seen packed.entry) bytes.now used }
    ensures within { result ≤ length bytes.now }
{
    if packed.is_some() {
        return sop;
    }
    let header = bytes.split_at(sop).1;
    let behind = header.split_at(used).1;
    sop + used + eph_length(behind)
}

/// Finds rule 26 in an EPH that is cut short behind a packed header of so many bytes.
fn check_eph(packed: Option<&[u8]>, at: usize, used: usize) -> Result<(), StreamFault>
    requires used { HasBytes (seen packed) used }
    requires place { at < 2 ^ 32 }
    ensures answer { Answers result (eph_fault (seen packed.entry) at used) (λ _. Unit {0}) }
    ensures memory { IfErr result (λ e. e ≢ StreamFault.NoMemory) }
{
    let Some(headers) = packed else {
        return Ok(());
    };
    let behind = headers.split_at(used).1;
    if behind.len() == 1 && behind[0] == 255 {
        return Err(violated(rule_numbers::PACKET_HEADER, at));
    }
    Ok(())
}

/// How many coded bytes a packet has, None where they are more than there is room for.
fn parts_length(parts: &[HeaderPart], room: usize) -> Option<usize>
    ensures { MatchOption result (room < parts_length parts.now) (λ n. (n ≡ parts_length parts.now) × (n ≤ room)) }
{
    let mut length = 0;
    for part in parts {
        if part.length as usize > room - length {
            return None;
        }
        length += part.length as usize;
    }
    Some(length)
}

/// Whether FF stands at a place of a piece, last or before a byte above 8F.
fn is_marked(bytes: &[u8], at: usize) -> bool
    requires { at < length bytes.now }
    ensures { result ≡ is_marked bytes.now at }
{
    bytes[at] == 255 && (at + 1 == bytes.len() || bytes[at + 1] > 143)
}

/// Whether FF stands before a byte above 8F. Nothing ends the way through the bytes, so that the compiler takes many of them
/// at once.
fn has_pair(bytes: &[u8]) -> bool
    ensures { result ≡ has_mark_below bytes.now (length bytes.now - 1) }
{
    let mut found = false;
    for i in 1..bytes.len() {
        found |= (bytes[i - 1] == 255) & (bytes[i] > 143);
    }
    found
}

/// Whether there is a marked place.
fn has_mark(bytes: &[u8]) -> bool
    ensures { result ≡ has_mark_below bytes.now (length bytes.now) }
{
    has_pair(bytes) || (bytes.len() > 0 && bytes[bytes.len() - 1] == 255)
}

/// The first marked place.
#[tactic(auto, unfolding(crate::specs::Data::first_mark))]
fn first_mark(bytes: &[u8]) -> Option<usize>
    ensures is { result ≡ first_mark bytes.now }
    ensures within { MatchOption result (Unit {0}) (λ i. i < length bytes.now) }
{
    if !has_mark(bytes) {
        return None;
    }
    for i in 0..bytes.len() {
        if is_marked(bytes, i) {
            return Some(i);
        }
    }
    None
}

/// Finds rule 30 in pieces that stand one after another from a place on.
fn check_marks(bytes: &[u8], at: usize, parts: &[HeaderPart]) -> Result<(), StreamFault>
    requires within { parts_length parts.now ≤ length bytes.now }
    requires fits { at + length bytes.now < 2 ^ 32 }
    ensures answer { Answers result (marks_fault at bytes.now parts.now) (λ _. Unit {0}) }
    ensures memory { IfErr result (λ e. e ≢ StreamFault.NoMemory) }
{
    let mut rest = bytes;
    let mut place = at;
    for part in parts {
        let (piece, behind) = rest.split_at(part.length as usize);
        if let Some(i) = first_mark(piece) {
            return Err(violated(rule_numbers::BLOCK_BYTES, place + i));
        }
        rest = behind;
        place += piece.len();
    }
    Ok(())
}

/// How many bytes of the tile data stand before a packet's coded bytes, and how many coded bytes it has. Where its EPH
/// is cut short rule 26 is violated, where those pass the end rule 28, and where a piece has a marker rule 30.
#[tactic(auto, unfolding(crate::specs::Data::body_fault))]
pub(crate) fn check_body(
    packed: Option<&[u8]>,
    bytes: &[u8],
    at: usize,
    sop: usize,
    used: usize,
    parts: &[HeaderPart],
) -> Result<(usize, usize), StreamFault>
    requires sop { sop ≡ sop_length bytes.now }
    requires within { sop ≤ length bytes.now }
    requires used { used ≤ length (header_in (seen packed) bytes.now) }
    requires fits { at + length bytes.now < 2 ^ 32 }
    ensures answer { Answers result (body_fault (seen packed.entry) bytes.now at used parts.now)
        (λ r. (r.0 ≡ front_length (seen packed.entry) bytes.now used) × (r.1 ≡ parts_length parts.now) × (r.0 + r.1 ≤ length bytes.now)) }
    ensures memory { IfErr result (λ e. e ≢ StreamFault.NoMemory) }
{
    match check_eph(packed, at, used) {
        Ok(()) => {}
        Err(fault) => return Err(fault),
    }
    let front = front_length(packed, bytes, sop, used);
    let coded = bytes.split_at(front).1;
    let Some(length) = parts_length(parts, coded.len()) else {
        return Err(violated(rule_numbers::PACKET_LENGTH, at));
    };
    match check_marks(coded, at + front, parts) {
        Ok(()) => Ok((front, length)),
        Err(fault) => Err(fault),
    }
}
