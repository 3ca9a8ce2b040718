//! Where the pieces of a block begin in its bytes, so that the piece of a place is found without a walk.

ghost use Rattle.std.specs.Prelude.{◌≡◌, ◌≤◌, ◌<◌, ◌-◌, ℕ, map, length, IfOk};
ghost use Rattle.std.specs.List.Sorted.{IsNonDecreasing};
ghost use Rattle.jx_base.specs.Pieces.{value_of, bytes_in};
ghost use Rattle.jx_codeblock.specs.Starts.{AreStarts};
ghost use Rattle.jx_codeblock.specs.Tables.{at_place};
ghost use Rattle.jx_base.specs.Limits.{most_bytes};

use jx_base::{NoMemory, Piece};
use std::alloc::Global;

/// So many pieces are walked about as fast as one of them is found.
const FEW: usize = 8;

/// Where each piece begins.
fn all_starts(alloc: Global, pieces: &[Piece<'_>]) -> Result<Vec<u32>, NoMemory>
    requires { bytes_in (map value_of pieces.now) ≤ most_bytes }
    ensures { IfOk result (λ starts. AreStarts (map value_of pieces.now) starts.items) }
{
    let mut starts = Vec::with_capacity(alloc, pieces.len())?;
    let mut start = 0u32;
    for piece in pieces {
        starts.push(start)?;
        start += piece.bytes.len() as u32;
    }
    Ok(starts)
}

/// Whether some piece has bytes.
fn has_bytes(pieces: &[Piece<'_>]) -> bool {
    for piece in pieces {
        if piece.bytes.len() > 0 {
            return true;
        }
    }
    false
}

/// Where pieces begin. Of a few, and of those that all have no bytes, it isn't told, and takes no memory.
pub(crate) fn starts_of(alloc: Global, pieces: &[Piece<'_>]) -> Result<Vec<u32>, NoMemory>
    requires { bytes_in (map value_of pieces.now) ≤ most_bytes }
    ensures { IfOk result (λ starts. AreStarts (map value_of pieces.now) starts.items) }
{
    if pieces.len() <= FEW || !has_bytes(pieces) {
        return Ok(Vec::new(alloc));
    }
    all_starts(alloc, pieces)
}

/// The number of the last piece that begins at a place or before it, by where pieces begin; 0 where that is told of none.
pub(crate) fn piece_at(starts: &[u32], place: u32) -> usize
    requires { IsNonDecreasing starts.now }
    ensures within { result ≤ length starts.now - 1 }
    ensures begins { at_place starts.now 0 ≤ place → at_place starts.now result ≤ place }
    ensures next { (next : ℕ) → result < next → next < length starts.now → place < at_place starts.now next }
{
    starts
        .partition_point(|start| *start <= place)
        .saturating_sub(1)
}
