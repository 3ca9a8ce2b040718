//! Two codings of a block that are compared in one walk, against both decoded.

ghost use Rattle.std.specs.Prelude.{◌≡◌, ◌≤◌, ◌<◌, IfOk};
ghost use Rattle.jx_base.specs.declared.names.Band.TheVariants.{HL};
ghost use Rattle.jx_tier1_specs.specs.Cells.{HasSize};
ghost use Rattle.jx_tier1_specs.specs.Short.{AreShort};

use crate::checks::{check_at, equal_at, given};
use crate::recode_tests::drawn;
use crate::samples::{gathered, next, one};
use jx_base::{Band, NoMemory, Style};
use jx_tier1::{Coded, Coef, FlagGrid, Segments, decode_flags, encode_flags, same_flags};
use jx_tier1_plain::place;
use std::alloc::Global;
use std::test::Fail;

/// Whether two grids of so many columns and rows have the same coefficients.
fn are_equal(a: &FlagGrid, b: &FlagGrid, width: u16, height: u16) -> bool
    requires wide { width ≤ 1024 }
    requires high { height ≤ 1024 }
{
    for n in 0..u32::from(width) * u32::from(height) {
        let (x, y) = place(width, height, n);
        let row = u32::from(y);
        if a.get(x, row) != b.get(x, row) {
            return false;
        }
    }
    true
}

/// The coded passes of nine planes of a block.
fn coded<'a>(style: Style, passes: u16, segments: Segments<'a>) -> Coded<'a>
    ensures band { result.band ≡ HL }
    ensures style { result.style.bits ≡ style.bits }
    ensures planes { result.planes ≡ 9 }
    ensures passes { result.passes ≡ passes }
    ensures segments { result.segments ≡ segments.entry }
{
    Coded {
        band: Band::HL,
        style,
        planes: 9,
        passes,
        segments,
    }
}

/// Whether the walk tells two codings of so many passes apart just where they decode to other
/// coefficients, and whether it takes them for the same. Their styles are to agree on causal contexts.
fn compared(
    alloc: Global,
    width: u16,
    height: u16,
    passes: u16,
    styles: (Style, Style),
    first: Segments<'_>,
    second: Segments<'_>,
) -> Result<(bool, bool), NoMemory>
    requires wide { width ≤ 1024 }
    requires high { height ≤ 1024 }
    requires passes { passes ≤ 25 }
    requires first { AreShort first }
    requires second { AreShort second }
{
    if styles.0.causal() != styles.1.causal() {
        return Err(NoMemory);
    }
    let a = coded(styles.0, passes, first);
    let b = coded(styles.1, passes, second);
    let said = same_flags(alloc, width, height, &a, &b)?;
    let one = decode_flags(alloc, width, height, &a)?;
    let two = decode_flags(alloc, width, height, &b)?;
    let same = are_equal(&one.grid, &two.grid, width, height);
    Ok((said == same, said))
}

/// The same of two grids, each coded in a style.
fn grids_compared(
    alloc: Global,
    passes: u16,
    styles: (Style, Style),
    a: &FlagGrid,
    b: &FlagGrid,
) -> Result<(bool, bool), NoMemory>
    requires passes { passes ≤ 25 }
    requires one { HasSize a.now }
    requires two { HasSize b.now }
{
    let first = encode_flags(alloc, a, Band::HL, styles.0, 9, passes)?;
    let second = encode_flags(alloc, b, Band::HL, styles.1, 9, passes)?;
    let one = gathered(alloc, &first)?;
    let two = gathered(alloc, &second)?;
    compared(alloc, a.width(), a.height(), passes, styles, one, two)
}

/// Two grids of four by four zeros, the second with a coefficient at a place.
fn zeros_and(alloc: Global, x: u16, y: u16, bits: u128) -> Result<(FlagGrid, FlagGrid), NoMemory>
    requires column { x < 4 }
    requires row { y < 4 }
    ensures one { IfOk result (λ r. HasSize r.0) }
    ensures two { IfOk result (λ r. HasSize r.1) }
{
    let one = FlagGrid::new(alloc, 4, 4)?;
    let mut two = FlagGrid::new(alloc, 4, 4)?;
    let coef = Coef {
        negative: false,
        bits,
        planes: 9,
    };
    two.set(x, y, coef);
    Ok((one, two))
}

/// Two drawn grids, coded in two styles, of which the second has another last bit at a place.
fn one_apart(alloc: Global, x: u16, y: u16, old: u8, new: u8) -> Result<(bool, bool), NoMemory> {
    let one = drawn(alloc, 9, 10, 7)?;
    let mut two = drawn(alloc, 9, 10, 7)?;
    if x >= two.width() || y >= two.height() {
        return Err(NoMemory);
    }
    let coef = two.get(x, u32::from(y));
    let other = Coef {
        negative: coef.negative,
        bits: coef.bits ^ 1,
        planes: 9,
    };
    two.set(x, y, other);
    grids_compared(
        alloc,
        25,
        (Style { bits: old }, Style { bits: new }),
        &one,
        &two,
    )
}

/// The same drawn grid, coded in two styles.
fn one_grid(
    alloc: Global,
    seed: u64,
    passes: u16,
    old: u8,
    new: u8,
) -> Result<(bool, bool), NoMemory>
    requires passes { passes ≤ 25 }
{
    let grid = drawn(alloc, 9, 10, seed)?;
    grids_compared(
        alloc,
        passes,
        (Style { bits: old }, Style { bits: new }),
        &grid,
        &grid,
    )
}

/// Drawn bytes, which no encoder writes, as the one segment of all passes in either style.
fn bytes_compared(
    alloc: Global,
    seed: u64,
    count: u16,
    old: u8,
    new: u8,
) -> Result<(bool, bool), NoMemory> {
    let mut bytes = Vec::new(alloc);
    let mut number = seed;
    for _ in 0..count {
        number = next(number);
        bytes.push(((number >> 40) % 256) as u8)?;
    }
    let list = bytes.as_slice();
    if list.len() > 0xFFFF {
        return Err(NoMemory);
    }
    let first = one(alloc, list)?;
    let second = one(alloc, list)?;
    compared(
        alloc,
        13,
        11,
        25,
        (Style { bits: old }, Style { bits: new }),
        first,
        second,
    )
}

// One grid in each of these styles beside each: none, bypass, reset, termination, predictable, symbols, all; and causal ones.
#[test]
fn one_grid_in_two_styles(rt: HostRuntime) -> Result<(), Fail> {
    for causal in [0x00u8, 0x08] {
        for (old, new) in [
            (0x00u8, 0x04u8),
            (0x01, 0x22),
            (0x27, 0x10),
            (0x37, 0x00),
            (0x02, 0x25),
        ] {
            let found = one_grid(rt.alloc(), 3, 25, old | causal, new | causal);
            equal_at(&rt, &(old, new), given(found)?, (true, true));
        }
    }
    Ok(())
}

// The first passes alone, so that the last one is of each kind.
#[test]
fn first_passes_of_one_grid(rt: HostRuntime) -> Result<(), Fail> {
    for passes in 0..26u16 {
        let found = one_grid(rt.alloc(), 4, passes, 0x21, 0x06);
        equal_at(&rt, &passes, given(found)?, (true, true));
    }
    Ok(())
}

// One bit apart, in the first place, in the last one, and between.
#[test]
fn one_bit_apart(rt: HostRuntime) -> Result<(), Fail> {
    for (x, y) in [(0u16, 0u16), (8, 9), (4, 5)] {
        for (old, new) in [(0x00u8, 0x00u8), (0x00, 0x25), (0x27, 0x02)] {
            let found = one_apart(rt.alloc(), x, y, old, new);
            equal_at(&rt, &(x, y, old, new), given(found)?, (true, false));
        }
    }
    Ok(())
}

// The first decision of all, and the run in which the last one is.
#[test]
fn first_and_last_decision(rt: HostRuntime) -> Result<(), Fail> {
    for (x, y, bits) in [(0u16, 0u16, 256u128), (3, 3, 1)] {
        check_at(&rt, &(x, y), x < 4 && y < 4);
        let (one, two) = given(zeros_and(rt.alloc(), x, y, bits))?;
        let styles = (Style { bits: 0 }, Style { bits: 4 });
        let found = grids_compared(rt.alloc(), 25, styles, &one, &two);
        equal_at(&rt, &(x, y), given(found)?, (true, false));
    }
    Ok(())
}

// Bytes that no encoder writes, with segmentation symbols that are wrong: in one style they are the same, and in another one
// what the walk says is what both decode to.
#[test]
fn drawn_bytes_in_two_styles(rt: HostRuntime) -> Result<(), Fail> {
    for count in [0u16, 1, 7, 60] {
        let same = bytes_compared(rt.alloc(), 5, count, 0x20, 0x20);
        equal_at(&rt, &count, given(same)?, (true, true));
        for (old, new) in [(0x20u8, 0x00u8), (0x00, 0x25), (0x07, 0x21), (0x29, 0x0C)] {
            let found = bytes_compared(rt.alloc(), 5, count, old, new);
            check_at(&rt, &(count, old, new), given(found)?.0);
        }
    }
    Ok(())
}
