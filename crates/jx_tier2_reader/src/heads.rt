//! Packet headers that stand apart from their packets, packed (ITU-T T.800, A.7.4 and A.7.5): which bytes a tile has of
//! them, and where one that is left stands.

ghost use Rattle.std.specs.Prelude.{◌≡◌, ◌≢◌, ◌≤◌, ◌<◌, ◌+◌, ◌^◌, length, IfOk};
ghost use Rattle.jx_codestream.specs.PackedHeaders.{LieIn, joined_bytes, together};
ghost use Rattle.jx_tile.specs.Faults.{Answers};
ghost use Rattle.jx_tier2_reader.specs.Data.{end_in, end_of_bytes, end_of_data, first_place, packed_in, packed_pieces, place_in, window};
ghost use Rattle.jx_tier2_reader.specs.Cuts.{packed_fault};
ghost use Rattle.jx_tier2_reader.specs.Reading.{AreShort, seen};

use crate::StreamFault;
use jx_codestream::{Body, joined_bytes, violated};
use jx_marker::rule_numbers;
use std::alloc::{AllocError, Global};

/// The bytes of a piece of the file.
pub(crate) fn window_of<'a>(bytes: &'a [u8], piece: Body) -> &'a [u8]
    requires { piece.at + piece.length ≤ length bytes.now }
    ensures { result.now ≡ window bytes.now piece }
{
    bytes
        .split_at(piece.at as usize)
        .1
        .split_at(piece.length as usize)
        .0
}

/// The pieces of the file that a tile's packed headers are, none where each header stands before its packet.
pub(crate) fn packed_pieces<'s>(heads: Option<&'s [Body]>) -> &'s [Body]
    ensures { result.now ≡ packed_pieces (seen heads.entry) }
{
    match heads {
        Some(pieces) => pieces,
        None => &[],
    }
}

/// The bytes of pieces, joined. A piece that is alone stands in the file as it is, and isn't copied.
pub(crate) fn join(alloc: Global, bytes: &[u8], pieces: &[Body]) -> Result<Vec<u8>, AllocError>
    requires { LieIn bytes.now pieces.now }
    ensures { IfOk result (λ joined. length pieces.now ≢ 1 → joined.items ≡ joined_bytes bytes.now pieces.now) }
{
    if pieces.len() == 1 {
        return Ok(Vec::new(alloc));
    }
    joined_bytes(alloc, bytes, pieces)
}

/// A tile's packed headers, where it has such. More than one piece are joined.
pub(crate) fn packed_in<'h>(
    bytes: &'h [u8],
    heads: Option<&[Body]>,
    joined: &'h [u8],
) -> Option<&'h [u8]>
    requires inside { LieIn bytes.now (packed_pieces (seen heads)) }
    requires joined { length (packed_pieces (seen heads)) ≢ 1 → joined.now ≡ joined_bytes bytes.now (packed_pieces (seen heads)) }
    ensures { seen result ≡ packed_in bytes.now (seen heads.entry) }
{
    let pieces = heads?;
    if pieces.len() == 1 {
        return Some(window_of(bytes, pieces[0]));
    }
    Some(joined)
}

/// Where a tile's last tile-part ends, 0 where it has none.
fn end_of_data(bodies: &[Body]) -> u32
    requires { AreShort bodies.now }
    ensures { result ≡ end_of_data bodies.now }
{
    match bodies.last() {
        Some(body) => body.at + body.length,
        None => 0,
    }
}

/// Where the last byte of a tile's data ends; without one, where the first tile-part's data would stand.
fn end_of_bytes(bodies: &[Body]) -> u32
    requires { AreShort bodies.now }
    ensures { result ≡ end_of_bytes (first_place bodies.now) bodies.now }
{
    let mut end = match bodies.first() {
        Some(body) => body.at,
        None => 0,
    };
    for body in bodies {
        if body.length > 0 {
            end = body.at + body.length;
        }
    }
    end
}

/// Where a packet begins behind all data of its tile, which has packed headers or hasn't.
pub(crate) fn end_in(heads: Option<&[Body]>, bodies: &[Body]) -> u32
    requires { AreShort bodies.now }
    ensures { result ≡ end_in (seen heads.entry) bodies.now }
{
    match heads {
        Some(_) => end_of_bytes(bodies),
        None => end_of_data(bodies),
    }
}

/// How many bytes pieces have together.
fn together(pieces: &[Body]) -> usize
    requires { together pieces.now < 2 ^ 64 }
    ensures { result ≡ together pieces.now }
{
    let mut sum = 0;
    for piece in pieces {
        sum += piece.length as usize;
    }
    sum
}

/// The place in the file of the byte of a number in joined pieces.
fn place_in(pieces: &[Body], number: usize) -> usize
    requires { AreShort pieces.now }
    ensures is { result ≡ place_in pieces.now number }
    ensures short { result < 2 ^ 32 }
{
    let mut left = number;
    for piece in pieces {
        if left < piece.length as usize {
            return piece.at as usize + left;
        }
        left -= piece.length as usize;
    }
    0
}

/// Finds rule 31 in what is left of a tile's packed headers, where it has such, which are these pieces of the file.
pub(crate) fn check_used_up(pieces: &[Body], packed: Option<&[u8]>) -> Result<(), StreamFault>
    requires short { AreShort pieces.now }
    requires few { together pieces.now < 2 ^ 64 }
    ensures { Answers result (packed_fault pieces.now (seen packed.entry)) (λ _. Unit {0}) }
{
    let Some(headers) = packed else {
        return Ok(());
    };
    if headers.is_empty() {
        return Ok(());
    }
    let place = place_in(pieces, together(pieces).saturating_sub(headers.len()));
    Err(violated(rule_numbers::LEFT_OVER, place))
}
