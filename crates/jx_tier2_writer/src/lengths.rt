//! The lengths of packets in a tile-part's header (ITU-T T.800, A.7.3).

ghost use Rattle.std.specs.Prelude.{◌≡◌, ◌<◌, ◌≤◌, ◌+◌, ◌*◌, ◌^◌, ◌/◌, ◌%◌, ◌++◌, ◌∷◌, ℕ, List, length, sum_by, IfOk, OnOk};
ghost use Rattle.jx_packet_header.specs.Words.{size};
ghost use Rattle.jx_marker.specs.declared.Segment.TheVariants as segment;
ghost use Rattle.jx_marker.specs.Ranges.{AreBytes};
ghost use Rattle.jx_marker.specs.Segments.{spelling};
ghost use Rattle.jx_codestream.specs.Spells.{all_bytes};
ghost use Rattle.jx_tier2_writer.specs.Lengths.{filled, length_segments, length_size, numbered, septets};

use jx_base::NoMemory;
use jx_marker::{Bytes, Segment, put_segment};
use std::alloc::Global;

/// The most bytes of lengths that a segment has room for: 65,535 less the two bytes of its own length and its number.
const MOST: usize = 65_532;

/// How many binary digits a number has.
#[tactic(auto, unfolding(jx_packet_header::specs::Words::size))]
fn digits(number: u32) -> u32
    ensures value { result ≡ size number }
    ensures few { result ≤ 32 }
{
    let mut digits = 0;
    for place in 0..32u32 {
        if number >= 1 << place {
            digits += 1;
        }
    }
    digits
}

/// How many bytes a length takes, seven binary digits in each.
fn length_size(length: u32) -> usize
    ensures value { result ≡ length_size length }
    ensures range { (1 ≤ result) × (result ≤ 5) }
{
    let size = (digits(length) as usize + 6) / 7;
    size.max(1)
}

/// Seven binary digits of a length, with others behind them.
fn septet(length: u32, unit: u32) -> u8
    requires { 0 < unit }
    ensures { result ≡ 128 + length / unit % 128 }
{
    128 + (length / unit % 128) as u8
}

/// The last seven.
fn last_septet(length: u32) -> u8
    ensures { result ≡ length % 128 }
{
    (length % 128) as u8
}

/// Appends a length of so many bytes.
fn put_septets(length: u32, size: usize, out: &mut Vec<u8>) -> Result<(), NoMemory>
    requires { (1 ≤ size) × (size ≤ 5) }
    ensures { OnOk result (out.new.items ≡ out.old.items ++ septets size length) }
{
    let groups = [
        septet(length, 268_435_456),
        septet(length, 2_097_152),
        septet(length, 16_384),
        septet(length, 128),
        last_septet(length),
    ];
    out.extend_from_slice(&groups[5 - size..])?;
    Ok(())
}

/// A byte is below 256, as its type says.
fn is_byte(byte: u8)
    ensures { byte < 256 }
{}

/// Says so of all.
pub(crate) fn are_bytes(bytes: &[u8])
    ensures { AreBytes bytes.now }
{
    for byte in bytes {
        is_byte(*byte);
    }
}

/// Appends the segment of this number with these bytes of lengths.
fn put_lengths_segment(
    alloc: Global,
    number: u8,
    held: &[u8],
    comps: u16,
    out: &mut Vec<u8>,
) -> Result<(), NoMemory>
    requires { length held.now ≤ 65532 }
    ensures { OnOk result (out.new.items ≡ out.old.items ++ spelling comps (segment.Plt (number ∷ held.now))) }
{
    let mut bytes = Vec::with_capacity(alloc, 1 + held.len())?;
    bytes.push(number)?;
    bytes.extend_from_slice(held)?;
    are_bytes(&bytes);
    put_segment(&Segment::Plt(Bytes::new(bytes)), comps, out)
}

/// Puts one length behind those that are held for the segment of this number. Where it has no room for it, that segment
/// is appended first, and the next one begins. Gives the number of the segment that is held then.
#[tactic(auto, using(crate::proofs::LengthLemmas::long, crate::proofs::LengthLemmas::filled_on, crate::proofs::LengthLemmas::filled_over))]
fn put_next(
    alloc: Global,
    number: u32,
    long: u32,
    held: &mut Vec<u8>,
    comps: u16,
    out: &mut Vec<u8>,
) -> Result<u32, NoMemory>
    requires number { number < 256 }
    requires room { length held.old.items ≤ 65532 }
    ensures walk { IfOk result (λ next. (rest : List ℕ) → out.new.items ++ all_bytes comps (numbered next (filled held.new.items rest))
        ≡ out.old.items ++ all_bytes comps (numbered number (filled held.old.items (long ∷ rest)))) }
    ensures room { OnOk result (length held.new.items ≤ 65532) }
    ensures few { IfOk result (λ next. next * 65528 + length held.new.items ≤ number * 65528 + length held.old.items + length_size long) }
{
    let size = length_size(long);
    if held.len() + size <= MOST {
        put_septets(long, size, held)?;
        return Ok(number);
    }
    put_lengths_segment(alloc, number as u8, held, comps, out)?;
    held.clear();
    put_septets(long, size, held)?;
    Ok(number + 1)
}

/// Appends the segments that have the lengths of a tile-part's packets, in their order. There is none where there is no
/// packet, and there are at most 256. After `NoMemory` a front of them may have been appended.
pub(crate) fn put_lengths(
    alloc: Global,
    lengths: &[u32],
    comps: u16,
    out: &mut Vec<u8>,
) -> Result<(), NoMemory>
    requires few { length lengths.now ≤ 2 ^ 22 }
    requires together { sum_by (λ (n : ℕ). n) lengths.now < 2 ^ 32 }
    ensures { OnOk result (out.new.items ≡ out.old.items ++ all_bytes comps (length_segments lengths.now)) }
{
    if lengths.is_empty() {
        return Ok(());
    }
    let mut number = 0;
    let mut held = Vec::new(alloc);
    for length in lengths {
        number = put_next(alloc, number, *length, &mut held, comps, out)?;
    }
    put_lengths_segment(alloc, number as u8, &held, comps, out)
}
