//! Copying of a part's bytes out of the pieces of its block.

ghost use Rattle.std.specs.Prelude.{◌≡◌, ◌≤◌, ◌<◌, ◌+◌, ◌-◌, ◌++◌, take, drop, length, map, vec_len, vec_capacity, IfOk, OnOk, OnErr};
ghost use Rattle.jx_base.specs.Pieces.{value_of};
ghost use Rattle.jx_codeblock.specs.Starts.{AreStarts};
ghost use Rattle.jx_codeblock.specs.Tables.{bytes_joined};

use crate::sent::number_at;
use crate::starts::piece_at;
use jx_base::{NoMemory, Piece};

/// Appends bytes, without the first `skip`, and no more than `left`. It gives how many are still to be
/// skipped, and how many may still come.
fn copy_some(
    bytes: &[u8],
    skip: usize,
    left: usize,
    out: &mut Vec<u8>,
) -> Result<(usize, usize), NoMemory>
    ensures ok { OnOk result (out.new.items ≡ out.old.items ++ take left (drop skip bytes.now)) }
    ensures skip { IfOk result (λ r. r.0 ≡ skip - length bytes.now) }
    ensures left { IfOk result (λ r. r.1 ≡ left - length (take left (drop skip bytes.now))) }
    ensures err { OnErr result (out.new.items ≡ out.old.items) }
    ensures capacity { vec_capacity out.old ≤ vec_capacity out.new }
    ensures room { OnErr result (vec_capacity out.old < vec_len out.old + length (take left (drop skip bytes.now))) }
{
    let rest = bytes.split_at(skip.min(bytes.len())).1;
    let taken = rest.split_at(left.min(rest.len())).0;
    out.extend_from_slice(taken)?;
    Ok((skip.saturating_sub(bytes.len()), left - taken.len()))
}

/// Appends the bytes of pieces, without the first `skip`, and no more than `left`: pieces behind these aren't
/// looked at. After an `Err` `out` may have some of them.
fn copy(pieces: &[Piece<'_>], skip: usize, left: usize, out: &mut Vec<u8>) -> Result<(), NoMemory>
    ensures ok { OnOk result (out.new.items ≡ out.old.items ++ take left (drop skip (bytes_joined (map value_of pieces.now)))) }
    ensures err { OnErr result (take (length out.old.items) out.new.items ≡ out.old.items) }
    ensures room { OnErr result (vec_capacity out.old < vec_len out.old + length (take left (drop skip (bytes_joined (map value_of pieces.now))))) }
{
    let mut now = (skip, left);
    for piece in pieces {
        if now.1 == 0 {
            return Ok(());
        }
        now = copy_some(piece.bytes, now.0, now.1, out)?;
    }
    Ok(())
}

/// Appends the bytes of pieces from a place up to another, by where they begin. After an `Err` `out` may have
/// some of them.
fn copy_between(
    pieces: &[Piece<'_>],
    starts: &[u32],
    from: u32,
    to: u32,
    out: &mut Vec<u8>,
) -> Result<(), NoMemory>
    requires { AreStarts (map value_of pieces.now) starts.now }
    ensures ok { OnOk result (out.new.items ≡ out.old.items ++ take (to - from) (drop from (bytes_joined (map value_of pieces.now)))) }
    ensures err { OnErr result (take (length out.old.items) out.new.items ≡ out.old.items) }
    ensures room { OnErr result (vec_capacity out.old < vec_len out.old + length (take (to - from) (drop from (bytes_joined (map value_of pieces.now))))) }
{
    if to <= from {
        return Ok(());
    }
    let first = piece_at(starts, from);
    let skip = from - number_at(starts, first);
    let rest = pieces.split_at(first).1;
    copy(rest, skip as usize, (to - from) as usize, out)
}

/// Appends the bytes of pieces from a place up to another, by where they begin. It takes no more time than the
/// pieces that are between these places and a search for the first. After an `Err` `out` has the bytes that it had.
pub(crate) fn append_bytes(
    pieces: &[Piece<'_>],
    starts: &[u32],
    from: u32,
    to: u32,
    out: &mut Vec<u8>,
) -> Result<(), NoMemory>
    requires { AreStarts (map value_of pieces.now) starts.now }
    ensures ok { OnOk result (out.new.items ≡ out.old.items ++ take (to - from) (drop from (bytes_joined (map value_of pieces.now)))) }
    ensures err { OnErr result (out.new.items ≡ out.old.items) }
    ensures room { OnErr result (vec_capacity out.old < vec_len out.old + length (take (to - from) (drop from (bytes_joined (map value_of pieces.now))))) }
{
    let before = out.len();
    let result = copy_between(pieces, starts, from, to, out);
    if result.is_err() {
        out.truncate(before);
    }
    result
}

/// Appends the bytes from a place up to another. After an `Err` `out` has the bytes that it had.
pub(crate) fn append_within(
    bytes: &[u8],
    from: u32,
    to: u32,
    out: &mut Vec<u8>,
) -> Result<(), NoMemory>
    ensures ok { OnOk result (out.new.items ≡ out.old.items ++ take (to - from) (drop from bytes.now)) }
    ensures err { OnErr result (out.new.items ≡ out.old.items) }
    ensures room { OnErr result (vec_capacity out.old < vec_len out.old + length (take (to - from) (drop from bytes.now))) }
{
    copy_some(bytes, from as usize, to.saturating_sub(from) as usize, out)?;
    Ok(())
}
