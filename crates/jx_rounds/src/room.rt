//! How many bytes a tile has as it was read, against the room that a round has for them.

ghost use Rattle.std.specs.Prelude.{◌≡◌, ◌<◌, ◌+◌, None, map, IfSome};
ghost use Rattle.std.specs.List.{sum};
ghost use Rattle.jx_rounds.specs.Tiles.{bytes_of_pieces, segment_size, size_of_tile};
ghost use Rattle.jx_tier2_reader.specs.Data.{packed_pieces};

use jx_codestream::{Body, Heads, Tile};
use jx_marker::Segment;

/// As many bytes as any segment of a tile's header that is written has at most, but a comment.
const OTHER_SEGMENT: usize = 256;

/// About how many bytes a segment of a tile's header takes.
fn segment_size(segment: &Segment) -> usize
    ensures { result ≡ segment_size segment.now }
{
    match segment {
        Segment::Com(bytes) => bytes.as_slice().len(),
        _ => OTHER_SEGMENT,
    }
}

/// The room behind pieces of the file; none where it is too small.
fn room_behind_data(room: usize, pieces: &[Body]) -> Option<usize>
    ensures some { IfSome result (λ rest. rest + bytes_of_pieces pieces.now ≡ room) }
    ensures none { result ≡ None → room < bytes_of_pieces pieces.now }
{
    let mut rest = room;
    for piece in pieces {
        rest = rest.checked_sub(piece.length as usize)?;
    }
    Some(rest)
}

/// The room behind packed packet headers, where a tile has such; none where it is too small.
fn room_behind_heads(room: usize, heads: &Heads) -> Option<usize>
    ensures some { IfSome result (λ rest. rest + bytes_of_pieces (packed_pieces heads.now) ≡ room) }
    ensures none { result ≡ None → room < bytes_of_pieces (packed_pieces heads.now) }
{
    let Some(pieces) = heads.pieces() else {
        return Some(room);
    };
    room_behind_data(room, pieces)
}

/// The room behind segments of a header; none where it is too small.
fn room_behind_segments(room: usize, segments: &[Segment]) -> Option<usize>
    ensures some { IfSome result (λ rest. rest + sum (map segment_size segments.now) ≡ room) }
    ensures none { result ≡ None → room < sum (map segment_size segments.now) }
{
    let mut rest = room;
    for segment in segments {
        rest = rest.checked_sub(segment_size(segment))?;
    }
    Some(rest)
}

/// The room that is left behind a tile as it was read; none where it is too small. The time grows with the tile-parts, the
/// segments of their headers and the pieces of packed packet headers.
pub fn room_behind(room: usize, tile: &Tile) -> Option<usize>
    ensures some { IfSome result (λ rest. rest + size_of_tile tile.now ≡ room) }
    ensures none { result ≡ None → room < size_of_tile tile.now }
{
    let behind_data = room_behind_data(room, tile.bodies.as_slice())?;
    let behind_heads = room_behind_heads(behind_data, &tile.heads)?;
    let behind_header = room_behind_segments(behind_heads, tile.header.as_slice())?;
    let rest = room_behind_segments(behind_header, tile.notes.as_slice())?;
    Some(rest)
}
