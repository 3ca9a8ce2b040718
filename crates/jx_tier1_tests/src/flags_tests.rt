//! The fast form of the coding passes.

ghost use Rattle.std.specs.Prelude.{◌≡◌, ◌-◌, ◌*◌, ◌^◌, ◌<◌, ◌≤◌, ℕ, length, IfOk};
ghost use Rattle.jx_tier1_specs.specs.Cells.{Cells, HasSize};

use crate::checks::{check, equal, given};
use crate::samples::{gathered, nth, one, plain};
use jx_base::{Band, NoMemory, Style};
use jx_tier1::{Coded, Coef, FlagDecoded, FlagGrid, decode_flags, encode_flags, sound_flags};
use jx_tier1_plain::{Decoded, Grid, decode_passes, encode_passes, place};
use std::alloc::Global;
use std::test::Fail;

/// Decodes the passes of a block of one segment in the band LL.
fn decode(
    alloc: Global,
    width: u16,
    height: u16,
    style: u8,
    planes: u8,
    passes: u16,
    bytes: &[u8],
) -> Result<FlagDecoded, NoMemory>
    requires wide { width ≤ 1024 }
    requires high { height ≤ 1024 }
    requires some { 1 ≤ planes }
    requires most { planes ≤ 74 }
    requires passes { passes ≤ 3 * planes - 2 }
    requires short { length bytes.now < 2 ^ 32 }
{
    let coded = Coded {
        band: Band::LL,
        style: Style { bits: style },
        planes,
        passes,
        segments: one(alloc, bytes)?,
    };
    decode_flags(alloc, width, height, &coded)
}

/// The coefficient in a column and row, zero where there is none.
fn coef(decoded: &FlagDecoded, x: u16, y: u16) -> Coef {
    decoded.grid.get(x, u32::from(y))
}

/// The grid of `plain` in the fast form.
fn fast(alloc: Global, width: u16, height: u16) -> Result<FlagGrid, NoMemory>
    requires wide { width ≤ 1024 }
    requires high { height ≤ 1024 }
    ensures { IfOk result (λ g. HasSize g) }
{
    let mut grid = FlagGrid::new(alloc, width, height)?;
    for n in 0..u32::from(width) * u32::from(height) {
        let (x, y) = place(width, height, n);
        grid.set(x, y, nth(n));
    }
    Ok(grid)
}

/// A grid of one coefficient.
fn single(alloc: Global, coef: Coef) -> Result<FlagGrid, NoMemory>
    ensures { IfOk result (λ g. HasSize g) }
{
    let mut grid = FlagGrid::new(alloc, 1, 1)?;
    grid.set(0, 0, coef);
    Ok(grid)
}

/// Whether both forms have the same coefficients, each with its sign where it is significant.
fn is_same(a: &Grid, b: &FlagGrid) -> bool {
    for y in 0..a.height() {
        for x in 0..a.width() {
            if a.get(x, u32::from(y)) != b.get(x, u32::from(y)) {
                return false;
            }
        }
    }
    a.width() == b.width() && a.height() == b.height()
}

/// Whether lists of bytes are the same.
pub(crate) fn are_same(a: &[Vec<u8>], b: &[Vec<u8>]) -> bool {
    if a.len() != b.len() {
        return false;
    }
    for i in 0..a.len() {
        if i >= b.len() || a[i].as_slice() != b[i].as_slice() {
            return false;
        }
    }
    true
}

/// What both forms decode from lists of bytes in the style.
fn both(
    alloc: Global,
    width: u16,
    height: u16,
    style: Style,
    lists: &[Vec<u8>],
) -> Result<(Decoded, FlagDecoded), NoMemory>
    requires wide { width ≤ 1024 }
    requires high { height ≤ 1024 }
{
    let coded = Coded {
        band: Band::HL,
        style,
        planes: 5,
        passes: 13,
        segments: gathered(alloc, lists)?,
    };
    let a = decode_passes(alloc, width, height, &coded)?;
    let b = decode_flags(alloc, width, height, &coded)?;
    Ok((a, b))
}

/// The segments that the plain form writes of the stated grid, where the fast form writes the same.
fn written_alike(
    alloc: Global,
    a: &Grid,
    b: &FlagGrid,
    style: Style,
) -> Result<Option<Vec<Vec<u8>>>, NoMemory>
    requires first { HasSize a.now }
    requires second { HasSize b.now }
{
    let first = encode_passes(alloc, a, Band::HL, style, 5, 13)?;
    let second = encode_flags(alloc, b, Band::HL, style, 5, 13)?;
    Ok(if are_same(&first, &second) {
        Some(first)
    } else {
        None
    })
}

/// Whether both forms decoded a grid, and looked at as many bytes in each pass.
fn are_decoded(a: &Grid, c: &Decoded, d: &FlagDecoded) -> bool {
    is_same(&c.grid, &d.grid)
        && is_same(a, &d.grid)
        && c.looked.as_slice() == d.looked.as_slice()
        && sound_flags(d).is_ok()
}

/// The segments that both forms write of the stated grid, which is `a` in the plain form, where they are the same.
fn lists_of(
    alloc: Global,
    a: &Grid,
    width: u16,
    height: u16,
    style: Style,
) -> Result<Option<Vec<Vec<u8>>>, NoMemory>
    requires wide { width ≤ 1024 }
    requires high { height ≤ 1024 }
    requires size { HasSize a.now }
{
    let b = fast(alloc, width, height)?;
    written_alike(alloc, a, &b, style)
}

/// Whether both forms decode a grid from lists of bytes.
fn read_alike(alloc: Global, a: &Grid, style: Style, lists: &[Vec<u8>]) -> Result<bool, NoMemory>
    requires { HasSize a.now }
{
    let (c, d) = both(alloc, a.width(), a.height(), style, lists)?;
    Ok(are_decoded(a, &c, &d))
}

/// Whether both forms write the same segments of the stated grid, decode it from them, and look at as
/// many bytes in each pass.
fn agree(alloc: Global, width: u16, height: u16, bits: u8) -> Result<bool, NoMemory>
    requires wide { width ≤ 1024 }
    requires high { height ≤ 1024 }
{
    let style = Style { bits };
    let a = plain(alloc, width, height)?;
    match lists_of(alloc, &a, width, height, style)? {
        Some(lists) => read_alike(alloc, &a, style, &lists),
        None => Ok(false),
    }
}

/// The same in three styles: none, bypass with causal contexts, and all but predictable termination.
fn agree_in_three(alloc: Global, width: u16, height: u16) -> Result<bool, NoMemory>
    requires wide { width ≤ 1024 }
    requires high { height ≤ 1024 }
{
    if !agree(alloc, width, height, 0x00)? || !agree(alloc, width, height, 0x09)? {
        return Ok(false);
    }
    agree(alloc, width, height, 0x2F)
}

// A last stripe that isn't whole.
#[test]
fn small_block(rt: HostRuntime) -> Result<(), Fail> {
    let same = agree_in_three(rt.alloc(), 5, 6);
    check(&rt, given(same)?);
    Ok(())
}

#[test]
fn one_place(rt: HostRuntime) -> Result<(), Fail> {
    let same = agree_in_three(rt.alloc(), 1, 1);
    check(&rt, given(same)?);
    Ok(())
}

#[test]
fn one_column(rt: HostRuntime) -> Result<(), Fail> {
    let same = agree_in_three(rt.alloc(), 1, 9);
    check(&rt, given(same)?);
    Ok(())
}

// The greatest blocks, each in a style of its own.
#[test]
fn highest_block(rt: HostRuntime) -> Result<(), Fail> {
    let same = agree(rt.alloc(), 4, 1024, 0x09);
    check(&rt, given(same)?);
    Ok(())
}

#[test]
fn widest_block(rt: HostRuntime) -> Result<(), Fail> {
    let same = agree(rt.alloc(), 1024, 4, 0x2F);
    check(&rt, given(same)?);
    Ok(())
}

#[test]
fn square_block(rt: HostRuntime) -> Result<(), Fail> {
    let same = agree(rt.alloc(), 64, 64, 0x00);
    check(&rt, given(same)?);
    Ok(())
}

/// The coefficient of a block of one place from its one byte.
fn read_one(alloc: Global, planes: u8, passes: u16, byte: u8) -> Result<Coef, NoMemory>
    requires some { 1 ≤ planes }
    requires most { planes ≤ 74 }
    requires passes { passes ≤ 3 * planes - 2 }
{
    let decoded = decode(alloc, 1, 1, 0, planes, passes, &[byte])?;
    Ok(coef(&decoded, 0, 0))
}

/// The segments of a block of one place.
fn written_one(alloc: Global, coef: Coef, planes: u8, passes: u16) -> Result<Vec<Vec<u8>>, NoMemory>
    requires some { 1 ≤ planes }
    requires most { planes ≤ 74 }
    requires passes { passes ≤ 3 * planes - 2 }
{
    let grid = single(alloc, coef)?;
    encode_flags(alloc, &grid, Band::LL, Style { bits: 0 }, planes, passes)
}

/// Whether these are one list of one byte.
fn is_byte(lists: &[Vec<u8>], byte: u8) -> bool {
    lists.len() == 1 && lists[0].as_slice() == [byte].as_slice()
}

// One coefficient: +1 and -1 by one pass, +3 by four passes of two planes.
#[test]
fn one_coefficient(rt: HostRuntime) -> Result<(), Fail> {
    for (planes, passes, byte, negative, bits) in [
        (1u8, 1u16, 0x03u8, false, 1u128),
        (1, 1, 0x07, true, 1),
        (2, 4, 0x01, false, 3),
    ] {
        check(
            &rt,
            planes == 1 && passes == 1 || planes == 2 && passes == 4,
        );
        let found = read_one(rt.alloc(), planes, passes, byte)?;
        let want = Coef {
            negative,
            bits,
            planes,
        };
        equal(&rt, found, want);
        let lists = written_one(rt.alloc(), found, planes, passes)?;
        check(&rt, is_byte(&lists, byte));
    }
    Ok(())
}

// With segmentation symbols 01 has the right one and 03 doesn't.
#[test]
fn right_and_wrong_symbol(rt: HostRuntime) -> Result<(), Fail> {
    let right = given(decode(rt.alloc(), 1, 1, 0x20, 1, 1, &[0x01]))?;
    check(&rt, sound_flags(&right).is_ok());
    let wrong = given(decode(rt.alloc(), 1, 1, 0x20, 1, 1, &[0x03]))?;
    equal(&rt, wrong.wrong, Some(0));
    check(&rt, sound_flags(&wrong).is_err());
    Ok(())
}

// Bytes that no encoder writes: 35 coefficients aren't 0.
#[test]
fn hostile_bytes(rt: HostRuntime) -> Result<(), Fail> {
    let decoded = given(decode(rt.alloc(), 16, 4, 0, 9, 16, &[0xFF, 0x8F]))?;
    let mut count = 0u32;
    for y in 0..4 {
        for x in 0..16 {
            if coef(&decoded, x, y).is_significant() {
                count = count.saturating_add(1);
            }
        }
    }
    equal(&rt, count, 35);
    Ok(())
}
