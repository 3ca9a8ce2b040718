//! The plain form, decoding.

ghost use Rattle.std.specs.Prelude.{◌≡◌, ◌-◌, ◌*◌, ◌^◌, ◌<◌, ◌≤◌, ℕ, length, IfOk};

use crate::checks::{check, equal, equal_at, given};
use crate::samples::one;
use jx_base::{Band, NoMemory, Style};
use jx_tier1_plain::{Decoded, decode_passes, sound};
use jx_tier1_specs::{Coded, Coef};
use std::alloc::Global;
use std::test::Fail;

/// Decodes the passes of a block of one segment in the band LL.
fn decode(
    alloc: Global,
    width: u16,
    height: u16,
    style: u8,
    planes: u8,
    passes: u16,
    bytes: &[u8],
) -> Result<Decoded, NoMemory>
    requires wide { width ≤ 1024 }
    requires high { height ≤ 1024 }
    requires some { 1 ≤ planes }
    requires most { planes ≤ 74 }
    requires passes { passes ≤ 3 * planes - 2 }
    requires short { length bytes.now < 2 ^ 32 }
{
    let coded = Coded {
        band: Band::LL,
        style: Style { bits: style },
        planes,
        passes,
        segments: one(alloc, bytes)?,
    };
    decode_passes(alloc, width, height, &coded)
}

/// The coefficient in a column and row, zero where there is none.
fn coef(decoded: &Decoded, x: u16, y: u16) -> Coef {
    decoded.grid.get(x, u32::from(y))
}

// One coefficient: +1 and -1 by one pass, +3 by four passes of two planes.
#[test]
fn one_coefficient(rt: HostRuntime) -> Result<(), Fail> {
    for (planes, passes, byte, negative, bits) in [
        (1u8, 1u16, 0x03u8, false, 1u128),
        (1, 1, 0x07, true, 1),
        (2, 4, 0x01, false, 3),
    ] {
        check(
            &rt,
            planes == 1 && passes == 1 || planes == 2 && passes == 4,
        );
        let decoded = given(decode(rt.alloc(), 1, 1, 0, planes, passes, &[byte]))?;
        let found = coef(&decoded, 0, 0);
        let want = Coef {
            negative,
            bits,
            planes,
        };
        equal(&rt, found, want);
        equal(&rt, decoded.looked.len(), usize::from(passes));
        check(&rt, sound(&decoded).is_ok());
    }
    Ok(())
}

// With segmentation symbols 01 has the right one and 03 doesn't.
#[test]
fn right_and_wrong_symbol(rt: HostRuntime) -> Result<(), Fail> {
    let right = given(decode(rt.alloc(), 1, 1, 0x20, 1, 1, &[0x01]))?;
    equal(&rt, coef(&right, 0, 0).bits, 1);
    check(&rt, sound(&right).is_ok());
    let wrong = given(decode(rt.alloc(), 1, 1, 0x20, 1, 1, &[0x03]))?;
    equal(&rt, wrong.wrong, Some(0));
    check(&rt, sound(&wrong).is_err());
    Ok(())
}

// Bytes that no encoder writes, over which the decoder's register C passes 32 bits: 35 coefficients
// aren't 0.
#[test]
fn register_of_32_bits(rt: HostRuntime) -> Result<(), Fail> {
    let decoded = given(decode(rt.alloc(), 16, 4, 0, 9, 16, &[0xFF, 0x8F]))?;
    let mut count = 0u32;
    for y in 0..4 {
        for x in 0..16 {
            if coef(&decoded, x, y).is_significant() {
                count = count.saturating_add(1);
            }
        }
    }
    equal(&rt, count, 35);
    Ok(())
}

// No bytes and FF bytes give the same coefficients, in arithmetically coded and in raw passes.
#[test]
fn endless_tail(rt: HostRuntime) -> Result<(), Fail> {
    for style in [0x00, 0x09, 0x2B] {
        let none = given(decode(rt.alloc(), 5, 6, style, 7, 19, &[]))?;
        let tail = given(decode(rt.alloc(), 5, 6, style, 7, 19, &[0xFF, 0xFF, 0xFF]))?;
        for y in 0..6 {
            for x in 0..5 {
                equal_at(&rt, &(x, y, style), coef(&none, x, y), coef(&tail, x, y));
            }
        }
        equal(&rt, none.wrong, tail.wrong);
    }
    Ok(())
}
