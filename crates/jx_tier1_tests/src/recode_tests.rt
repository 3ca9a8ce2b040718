//! Blocks that are decoded and coded in step, against both one after the other.

ghost use Rattle.std.specs.Prelude.{◌≡◌, ◌≤◌, ◌<◌, ◌^◌, length, IfOk};
ghost use Rattle.jx_base.specs.Passes.{is_causal};
ghost use Rattle.jx_tier1_specs.specs.Cells.{HasSize};
ghost use Rattle.jx_tier1_specs.specs.Short.{AreShort};

use crate::checks::{check, equal, given};
use crate::flags_tests::are_same;
use crate::samples::{gathered, next, one};
use jx_base::{Band, NoMemory, Style};
use jx_tier1::{Coded, Coef, FlagGrid, FlagRecoded, decode_flags, encode_flags, recode_flags};
use jx_tier1_plain::place;
use std::alloc::Global;
use std::test::Fail;

/// A grid of drawn numbers in nine planes, of which small ones are the most.
pub(crate) fn drawn(alloc: Global, width: u16, height: u16, seed: u64) -> Result<FlagGrid, NoMemory>
    requires wide { width ≤ 1024 }
    requires high { height ≤ 1024 }
    ensures { IfOk result (λ g. HasSize g) }
{
    let mut grid = FlagGrid::new(alloc, width, height)?;
    let mut number = seed;
    for n in 0..u32::from(width) * u32::from(height) {
        let (x, y) = place(width, height, n);
        number = next(number);
        let bits = (number >> 33) % 512 >> (number >> 45) % 12;
        let coef = Coef {
            negative: (number >> 60) % 2 == 1,
            bits: u128::from(bits),
            planes: 9,
        };
        grid.set(x, y, coef);
    }
    Ok(grid)
}

/// Whether passes become the same segments in step as by decoding and coding, with the same wrong
/// symbol, and a decoder of them looks as far as was told. Both styles are to agree on causal contexts.
fn is_same_in_step(
    alloc: Global,
    width: u16,
    height: u16,
    coded: &Coded,
    style: Style,
) -> Result<bool, NoMemory>
    requires wide { width ≤ 1024 }
    requires high { height ≤ 1024 }
    requires planes { coded.now.planes ≡ 9 }
    requires passes { coded.now.passes ≤ 25 }
    requires segments { AreShort coded.now.segments }
{
    if style.causal() != coded.style.causal() {
        return Ok(false);
    }
    let decoded = decode_flags(alloc, width, height, coded)?;
    if decoded.grid.width() > 1024 || decoded.grid.height() > 1024 {
        return Ok(false);
    }
    let apart = encode_flags(alloc, &decoded.grid, coded.band, style, 9, coded.passes)?;
    let recoded = recode_flags(alloc, width, height, coded, style)?;
    let again = Coded {
        band: coded.band,
        style,
        planes: 9,
        passes: coded.passes,
        segments: gathered(alloc, &recoded.segments)?,
    };
    let read = decode_flags(alloc, width, height, &again)?;
    Ok(
        are_same(&apart, &recoded.segments)
            && recoded.wrong == decoded.wrong
            && recoded.looked.as_slice() == read.looked.as_slice(),
    )
}

/// The same of the first passes of a drawn block.
fn agrees(
    alloc: Global,
    width: u16,
    height: u16,
    seed: u64,
    passes: u16,
    old: u8,
    new: u8,
) -> Result<bool, NoMemory>
    requires wide { width ≤ 1024 }
    requires high { height ≤ 1024 }
    requires passes { passes ≤ 25 }
{
    let style = Style { bits: old };
    let grid = drawn(alloc, width, height, seed)?;
    let lists = encode_flags(alloc, &grid, Band::HL, style, 9, passes)?;
    let coded = Coded {
        band: Band::HL,
        style,
        planes: 9,
        passes,
        segments: gathered(alloc, &lists)?,
    };
    is_same_in_step(alloc, width, height, &coded, Style { bits: new })
}

/// The same of all passes, from each style of a list into each.
fn all_agree(
    alloc: Global,
    width: u16,
    height: u16,
    seed: u64,
    styles: &[u8],
) -> Result<bool, NoMemory>
    requires wide { width ≤ 1024 }
    requires high { height ≤ 1024 }
{
    let mut number = seed;
    for &old in styles {
        for &new in styles {
            number = next(number);
            if !agrees(alloc, width, height, number, 25, old, new)? {
                return Ok(false);
            }
        }
    }
    Ok(true)
}

/// The same of drawn bytes, which no encoder writes, as the one segment of all passes.
fn agrees_on_bytes(
    alloc: Global,
    seed: u64,
    count: u16,
    old: u8,
    new: u8,
) -> Result<bool, NoMemory> {
    let mut bytes = Vec::new(alloc);
    let mut number = seed;
    for _ in 0..count {
        number = next(number);
        bytes.push(((number >> 40) % 256) as u8)?;
    }
    let list = bytes.as_slice();
    if list.len() > 0xFFFF {
        return Err(NoMemory);
    }
    let coded = Coded {
        band: Band::HH,
        style: Style { bits: old },
        planes: 9,
        passes: 25,
        segments: one(alloc, list)?,
    };
    is_same_in_step(alloc, 13, 11, &coded, Style { bits: new })
}

// Each of these styles into each: none, bypass, reset, termination, both with bypass, symbols, all.
#[test]
fn each_style_into_each(rt: HostRuntime) -> Result<(), Fail> {
    let same = all_agree(
        rt.alloc(),
        9,
        10,
        1,
        &[0x00, 0x01, 0x02, 0x04, 0x07, 0x20, 0x37],
    );
    check(&rt, given(same)?);
    Ok(())
}

#[test]
fn each_causal_style_into_each(rt: HostRuntime) -> Result<(), Fail> {
    let same = all_agree(rt.alloc(), 7, 13, 2, &[0x08, 0x09, 0x2A, 0x3F]);
    check(&rt, given(same)?);
    Ok(())
}

// Narrow, low and square blocks.
#[test]
fn other_sizes(rt: HostRuntime) -> Result<(), Fail> {
    for (width, height) in [(1u16, 1u16), (1, 9), (64, 3), (3, 64), (33, 32)] {
        check(&rt, width <= 64 && height <= 64);
        let same = all_agree(rt.alloc(), width, height, 3, &[0x00, 0x25]);
        check(&rt, given(same)?);
    }
    Ok(())
}

// The first passes alone, so that the last one is of each kind.
#[test]
fn first_passes(rt: HostRuntime) -> Result<(), Fail> {
    for passes in 0..26u16 {
        for (old, new) in [(0x00u8, 0x21u8), (0x21, 0x06), (0x05, 0x20)] {
            let same = agrees(rt.alloc(), 6, 9, 4, passes, old, new);
            check(&rt, given(same)?);
        }
    }
    Ok(())
}

// Bytes that no encoder writes, with segmentation symbols that are wrong.
#[test]
fn drawn_bytes(rt: HostRuntime) -> Result<(), Fail> {
    for count in [0u16, 1, 7, 60] {
        for (old, new) in [(0x20u8, 0x00u8), (0x00, 0x25), (0x07, 0x21), (0x29, 0x0C)] {
            let same = agrees_on_bytes(rt.alloc(), 5, count, old, new);
            check(&rt, given(same)?);
        }
    }
    Ok(())
}

/// Recodes one coefficient of one plane.
fn recoded(alloc: Global, bytes: &[u8], old: u8, new: u8) -> Result<FlagRecoded, NoMemory>
    requires short { length bytes.now < 2 ^ 32 }
    requires causal { is_causal new ≡ is_causal old }
{
    let coded = Coded {
        band: Band::LL,
        style: Style { bits: old },
        planes: 1,
        passes: 1,
        segments: one(alloc, bytes)?,
    };
    recode_flags(alloc, 1, 1, &coded, Style { bits: new })
}

// +1 gets a segmentation symbol and loses it again; a wrong one is told.
#[test]
fn symbols_of_either_style(rt: HostRuntime) -> Result<(), Fail> {
    let with = given(recoded(rt.alloc(), &[0x03], 0, 0x20))?;
    equal(&rt, with.wrong, None);
    equal(&rt, with.segments.len(), 1);
    for list in with.segments.iter() {
        equal(&rt, list.as_slice(), [0x01].as_slice());
    }
    let without = given(recoded(rt.alloc(), &[0x01], 0x20, 0))?;
    equal(&rt, without.wrong, None);
    for list in without.segments.iter() {
        equal(&rt, list.as_slice(), [0x03].as_slice());
    }
    let wrong = given(recoded(rt.alloc(), &[0x03], 0x20, 0))?;
    equal(&rt, wrong.wrong, Some(0));
    Ok(())
}
