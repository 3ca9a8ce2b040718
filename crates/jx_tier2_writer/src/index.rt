//! The index of the tile-parts in the main header (ITU-T T.800, A.7.1).

ghost use Rattle.std.specs.Prelude.{◌≡◌, ◌≤◌, ◌*◌, ◌∷◌, ◌++◌, ℕ, length, IfOk, OnOk};
ghost use Rattle.std.specs.List.{flat_map};
ghost use Rattle.jx_marker.specs.declared.Segment.TheVariants as segment;
ghost use Rattle.jx_marker.specs.Segments.{spelling};
ghost use Rattle.jx_codestream.specs.Spells.{all_bytes};
ghost use Rattle.jx_tier2_writer.specs.Index.{entry_bytes, index_segments, run_of};

use crate::lengths::are_bytes;
use jx_base::NoMemory;
use jx_marker::{Bytes, Segment, put_segment};
use std::alloc::Global;

/// How many entries a segment has room for.
const MOST: usize = 10_921;

/// Stlm: two bytes for the tile, four for the length.
const STLM: u8 = 0x60;

/// What the index tells of a tile-part.
#[derive(Clone, Copy, Debug, PartialEq, Eq)]
pub struct PartLength {
    /// The tile's number.
    pub tile: u16,
    /// The tile-part's bytes, as Psot tells them.
    pub length: u32,
}

/// Appends what is told of a tile-part.
fn put_entry(entry: PartLength, out: &mut Vec<u8>) -> Result<(), NoMemory>
    ensures { OnOk result (out.new.items ≡ out.old.items ++ entry_bytes entry) }
{
    out.extend_from_slice(&entry.tile.to_be_bytes())?;
    out.extend_from_slice(&entry.length.to_be_bytes())?;
    Ok(())
}

/// Appends what is told of tile-parts.
fn put_entries(entries: &[PartLength], out: &mut Vec<u8>) -> Result<(), NoMemory>
    ensures { OnOk result (out.new.items ≡ out.old.items ++ flat_map entry_bytes entries.now) }
{
    for entry in entries {
        put_entry(*entry, out)?;
    }
    Ok(())
}

/// What is told of tile-parts takes six bytes for each.
fn are_long(entries: &[PartLength])
    ensures { length (flat_map entry_bytes entries.now) ≡ 6 * length entries.now }
{}

/// Appends the segment of a number with these entries.
fn put_segment_of(
    alloc: Global,
    number: u8,
    entries: &[PartLength],
    out: &mut Vec<u8>,
) -> Result<(), NoMemory>
    requires { length entries.now ≤ 10921 }
    ensures { OnOk result (out.new.items ≡ out.old.items ++ spelling 1 (segment.Tlm (number ∷ 96 ∷ flat_map entry_bytes entries.now))) }
{
    let mut bytes = Vec::with_capacity(alloc, 2 + 6 * entries.len())?;
    bytes.push(number)?;
    bytes.push(STLM)?;
    put_entries(entries, &mut bytes)?;
    are_bytes(&bytes);
    are_long(entries);
    put_segment(&Segment::Tlm(Bytes::new(bytes)), 1, out)
}

/// The entries of the segment of a number.
fn run_in(lengths: &[PartLength], number: usize) -> &[PartLength]
    requires { 10921 * number ≤ length lengths.now }
    ensures value { result.now ≡ run_of lengths.now number }
    ensures few { length result.now ≤ 10921 }
{
    let rest = &lengths[MOST * number..];
    &rest[..rest.len().min(MOST)]
}

/// The TLM segments that name tile-parts with these lengths, in their order: none where there is no tile-part, and at most 256, since
/// there are at most 2,795,776. They stand behind all other segments of the main header (ITU-T T.800, A.7.1).
///
/// # Errors
///
/// `NoMemory` where memory is refused.
pub fn index_bytes(alloc: Global, lengths: &[PartLength]) -> Result<Vec<u8>, NoMemory>
    requires { length lengths.now ≤ 2795776 }
    ensures { IfOk result (λ bytes. (comps : ℕ) → bytes.items ≡ all_bytes comps (index_segments lengths.now)) }
{
    let mut out = Vec::new(alloc);
    let count = (lengths.len() + (MOST - 1)) / MOST;
    for number in 0..count {
        put_segment_of(alloc, number as u8, run_in(lengths, number), &mut out)?;
    }
    Ok(out)
}
