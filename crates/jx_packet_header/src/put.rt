//! Code words of a packet header, written: numbers, ones, the number of passes, the raise of Lblock (T.800, B.10.6, B.10.7).

ghost use Rattle.std.specs.Prelude.{◌≡◌, ◌<◌, ◌≤◌, ◌+◌, ◌-◌, ◌*◌, ◌/◌, ◌%◌, ◌^◌, ◌==◌, ◌++◌, OnOk, replicate, true};
ghost use Rattle.jx_tagtree.specs.Header.{low_bits};
ghost use Rattle.jx_packet_header.specs.Words.{pass_word, raise_word, size};
ghost use Rattle.jx_packet_header.specs.Parts.{length_bits, width};
ghost use Rattle.jx_packet_header.specs.Written.{parts_in, passes_of, raise_of};

use crate::parts::{digits, length_width};
use crate::{HeaderPart, LeafPart};
use jx_base::NoMemory;
use jx_tagtree::BitWriter;

/// The bit of a number that has `place` bits below it.
fn bit_of(value: u64, place: u32) -> bool
    requires { place < 64 }
    ensures { result ≡ (value / 2 ^ place % 2 == 1) }
{
    value >> place & 1 == 1
}

/// Writes the low bits of a number, the highest first.
pub(crate) fn put_number(width: u32, value: u32, bits: &mut BitWriter) -> Result<(), NoMemory>
    requires { width ≤ 64 }
    ensures { OnOk result (bits.new ≡ bits.old ++ low_bits width value) }
{
    let mut place = width;
    while place > 0 {
        place -= 1;
        bits.bit(bit_of(u64::from(value), place))?;
    }
    Ok(())
}

/// Writes a one, so many times.
fn put_ones(count: u32, bits: &mut BitWriter) -> Result<(), NoMemory>
    ensures { OnOk result (bits.new ≡ bits.old ++ replicate count true) }
{
    for _ in 0..count {
        bits.bit(true)?;
    }
    Ok(())
}

/// Writes the code word of a number of passes (T.800 table B.4).
pub(crate) fn put_passes(passes: u32, bits: &mut BitWriter) -> Result<(), NoMemory>
    requires { 1 ≤ passes }
    ensures { OnOk result (bits.new ≡ bits.old ++ pass_word passes) }
{
    if passes == 1 {
        return put_number(1, 0, bits);
    }
    if passes == 2 {
        return put_number(2, 2, bits);
    }
    if passes <= 5 {
        put_ones(2, bits)?;
        return put_number(2, passes - 3, bits);
    }
    if passes <= 36 {
        put_ones(4, bits)?;
        return put_number(5, passes - 6, bits);
    }
    put_ones(9, bits)?;
    put_number(7, passes - 37, bits)
}

/// Writes by how much Lblock is raised.
pub(crate) fn put_raise(raise: u32, bits: &mut BitWriter) -> Result<(), NoMemory>
    ensures { OnOk result (bits.new ≡ bits.old ++ raise_word raise) }
{
    put_ones(raise, bits)?;
    bits.bit(false)
}

/// How many passes a layer has of a block.
pub(crate) fn passes_in(parts: &[LeafPart], layer: u16) -> u32
    requires { passes_of (parts_in layer parts.now) < 2 ^ 16 }
    ensures { result ≡ passes_of (parts_in layer parts.now) }
{
    let mut passes = 0;
    for part in parts {
        if part.layer == layer {
            passes += u32::from(part.told.passes);
        }
    }
    passes
}

/// The least raise of Lblock with which the lengths of a layer's parts fit.
pub(crate) fn raise_in(lblock: u128, parts: &[LeafPart], layer: u16) -> u32
    requires { lblock ≤ 32 }
    ensures least { result ≡ raise_of lblock (parts_in layer parts.now) }
    ensures few { result + lblock ≤ 32 }
{
    let mut raise = 0;
    for part in parts {
        if part.layer == layer {
            raise = raise.max(lack(lblock, part.told));
        }
    }
    raise
}

/// How many bits the length of a part lacks.
fn lack(lblock: u128, part: HeaderPart) -> u32
    requires { lblock ≤ 32 }
    ensures lack { result ≡ size part.length - width lblock part.passes }
    ensures few { result + lblock ≤ 32 }
{
    let width = length_width(lblock, part.passes) as u32;
    digits(part.length).saturating_sub(width)
}

/// Writes the lengths of a layer's parts.
pub(crate) fn put_lengths(
    lblock: u128,
    parts: &[LeafPart],
    layer: u16,
    bits: &mut BitWriter,
) -> Result<(), NoMemory>
    requires { lblock ≤ 32 }
    ensures { OnOk result (bits.new ≡ bits.old ++ length_bits lblock (parts_in layer parts.now)) }
{
    for part in parts {
        if part.layer == layer {
            let told = part.told;
            put_number(length_width(lblock, told.passes) as u32, told.length, bits)?;
        }
    }
    Ok(())
}
