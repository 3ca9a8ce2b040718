//! How many bytes the code-blocks have (ITU-T T.800, B.10.7).

ghost use Rattle.std.specs.Prelude.{◌≡◌, ◌≤◌, ◌<◌, ◌^◌, ◌+◌, ◌++◌, ◌&&◌, nat_lt, IfOk, OnOk, ℕ, length, map, sum_by, if◌then◌else◌, slice_index, slice_set, string_bytes};
ghost use Rattle.std.specs.List.{All};
ghost use Rattle.jx_base.specs.Joined.{joined};
ghost use Rattle.jx_base.specs.Pieces.{bytes_in, value_of};
ghost use Rattle.jx_base.specs.Sound.{IsSound};
ghost use Rattle.jx_show.specs.Facts.{block_bytes, byte_facts, bytes_in_comp};
ghost use Rattle.jx_base.specs.Limits.{most_bytes};
ghost use Rattle.jx_show.specs.Stated.{text_of};

use crate::fact::{Name, Value};
use crate::picture::{fact, of_comp};
use crate::stated::push_one;
use jx_base::{Block, NoMemory, Piece};
use std::alloc::Global;

/// The bytes of some pieces.
fn bytes_of(pieces: &[Piece<'_>]) -> u32
    requires { bytes_in (map value_of pieces.now) ≤ most_bytes }
    ensures { result ≡ bytes_in (map value_of pieces.now) }
{
    let mut bytes = 0;
    for piece in pieces {
        bytes += piece.bytes.len() as u32;
    }
    bytes
}

/// The bytes of a block.
fn block_bytes(block: &Block<'_>) -> u32
    requires { IsSound block.now }
    ensures { result ≡ block_bytes block.now }
{
    bytes_of(block.pieces.as_slice())
}

/// The bytes of all blocks.
pub(crate) fn all_bytes(blocks: &[Block<'_>]) -> u128
    requires { All IsSound blocks.now }
    ensures { result ≡ sum_by block_bytes blocks.now }
{
    let mut bytes = 0;
    for block in blocks {
        bytes += u128::from(block_bytes(block));
    }
    bytes
}

/// Adds bytes to those of a component that is there.
fn add(sums: &mut Vec<u128>, comp: usize, bytes: u32)
    requires { comp < length sums.now.items → slice_index sums.now.items comp < 2 ^ 127 }
    ensures { sums.new.items ≡ (if nat_lt comp (length sums.old.items) then slice_set sums.old.items comp
        (slice_index sums.old.items comp + bytes) else sums.old.items) }
{
    if comp < sums.len() {
        sums[comp] += u128::from(bytes);
    }
}

/// The bytes of the blocks of each component.
fn sums_of(alloc: Global, comps: u16, blocks: &[Block<'_>]) -> Result<Vec<u128>, NoMemory>
    requires { All IsSound blocks.now }
    ensures count { IfOk result (λ sums. length sums.items ≡ comps) }
    ensures each { IfOk result (λ sums. (c : ℕ) → c < comps
        → slice_index sums.items c ≡ sum_by (bytes_in_comp c) blocks.now) }
{
    let mut sums = vec![in alloc; 0u128; usize::from(comps)]?;
    for block in blocks {
        add(&mut sums, usize::from(block.name.comp), block_bytes(block));
    }
    Ok(sums)
}

/// Appends the bytes of each component's blocks.
pub(crate) fn push_bytes(
    alloc: Global,
    text: &mut String,
    json: bool,
    comps: u16,
    blocks: &[Block<'_>],
) -> Result<(), NoMemory>
    requires { All IsSound blocks.now }
    ensures { OnOk result (string_bytes text.new
        ≡ string_bytes text.old ++ text_of json (joined (byte_facts blocks.now) 0 comps)) }
{
    let sums = sums_of(alloc, comps, blocks)?;
    for comp in 0..comps {
        let count = Value::Count(sums[usize::from(comp)]);
        push_one(text, json, fact(Name::Bytes, of_comp(None, comp), count))?;
    }
    Ok(())
}
