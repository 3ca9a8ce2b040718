//! The plain form, coding.

ghost use Rattle.std.specs.Prelude.{◌≡◌, ◌-◌, ◌*◌, ◌^◌, ◌<◌, ◌≤◌, ℕ, length, IfOk};
ghost use Rattle.jx_tier1_specs.specs.Cells.{Cells, HasSize};

use crate::checks::{check, check_at, equal, equal_at, given};
use crate::samples::{gathered, plain};
use jx_base::{Band, NoMemory, Style, is_raw};
use jx_tier1_plain::{Decoded, Grid, decode_passes, encode_passes, sound};
use jx_tier1_specs::{Coded, Coef};
use std::alloc::Global;
use std::test::Fail;

/// Codes a grid, and decodes it again.
fn again(
    alloc: Global,
    grid: &Grid,
    style: u8,
    planes: u8,
    passes: u16,
) -> Result<Decoded, NoMemory>
    requires size { HasSize grid.now }
    requires some { 1 ≤ planes }
    requires most { planes ≤ 74 }
    requires passes { passes ≤ 3 * planes - 2 }
{
    let style = Style { bits: style };
    let lists = encode_passes(alloc, grid, Band::HL, style, planes, passes)?;
    let coded = Coded {
        band: Band::HL,
        style,
        planes,
        passes,
        segments: gathered(alloc, &lists)?,
    };
    decode_passes(alloc, grid.width(), grid.height(), &coded)
}

/// Whether two grids are the same.
fn is_same(a: &Grid, b: &Grid) -> bool {
    for y in 0..a.height() {
        for x in 0..a.width() {
            if a.get(x, u32::from(y)) != b.get(x, u32::from(y)) {
                return false;
            }
        }
    }
    a.width() == b.width() && a.height() == b.height()
}

/// A grid of one place.
fn single(alloc: Global, negative: bool, bits: u128, planes: u8) -> Result<Grid, NoMemory>
    ensures { IfOk result (λ g. HasSize g) }
{
    let mut grid = Grid::new(alloc, 1, 1)?;
    grid.set(
        0,
        0,
        Coef {
            negative,
            bits,
            planes,
        },
    );
    Ok(grid)
}

/// The segments of a block of one place.
fn written_one(
    alloc: Global,
    negative: bool,
    bits: u128,
    style: u8,
    planes: u8,
    passes: u16,
) -> Result<Vec<Vec<u8>>, NoMemory>
    requires some { 1 ≤ planes }
    requires most { planes ≤ 74 }
    requires passes { passes ≤ 3 * planes - 2 }
{
    let grid = single(alloc, negative, bits, planes)?;
    encode_passes(
        alloc,
        &grid,
        Band::LL,
        Style { bits: style },
        planes,
        passes,
    )
}

/// Whether the first of these segments is one byte, and each other one that of no decision.
fn begin_with(lists: &[Vec<u8>], first: u8) -> bool {
    for (i, list) in lists.iter().enumerate() {
        let is_wanted = if i == 0 {
            list.as_slice() == [first].as_slice()
        } else {
            list.as_slice() == [0xFF, 0x7F].as_slice()
        };
        if !is_wanted {
            return false;
        }
    }
    true
}

// One coefficient: the segments of +1, of -1, of +1 with a symbol, of +3, and of +3 with each pass
// terminated.
#[test]
fn one_coefficient(rt: HostRuntime) -> Result<(), Fail> {
    for (negative, bits, style, planes, passes, first, count) in [
        (false, 1u128, 0u8, 1u8, 1u16, 0x03u8, 1usize),
        (true, 1, 0, 1, 1, 0x07, 1),
        (false, 1, 0x20, 1, 1, 0x01, 1),
        (false, 3, 0, 2, 4, 0x01, 1),
        (false, 3, 4, 2, 4, 0x03, 4),
    ] {
        check(
            &rt,
            planes == 1 && passes == 1 || planes == 2 && passes == 4,
        );
        let lists = written_one(rt.alloc(), negative, bits, style, planes, passes)?;
        equal(&rt, lists.len(), count);
        check(&rt, begin_with(&lists, first));
    }
    Ok(())
}

// Selective bypass: of 13 passes 0 to 9 are one coded segment, 10 and 11 a raw one, and 12 a coded one; of
// 12 the last segment is the raw one.
#[test]
fn bypass_segments(rt: HostRuntime) -> Result<(), Fail> {
    let style = Style { bits: 0x01 };
    let grid = given(plain(rt.alloc(), 5, 6))?;
    for (passes, count) in [(10u16, 1usize), (11, 2), (12, 2), (13, 3)] {
        check(&rt, 10 <= passes && passes <= 13);
        let lists = given(encode_passes(rt.alloc(), &grid, Band::HL, style, 5, passes))?;
        equal(&rt, lists.len(), count);
        let last = passes - 1;
        equal_at(&rt, &last, is_raw(style, last), count == 2);
    }
    Ok(())
}

// 74 planes in 220 passes.
#[test]
fn many_planes(rt: HostRuntime) -> Result<(), Fail> {
    let grid = given(single(rt.alloc(), false, (1 << 73) + 1, 74))?;
    let decoded = given(again(rt.alloc(), &grid, 0, 74, 220))?;
    check(&rt, is_same(&grid, &decoded.grid));
    Ok(())
}

// Blocks of many sizes in all mixes of five style bits come back.
#[test]
fn all_styles(rt: HostRuntime) -> Result<(), Fail> {
    for (width, height) in [(1, 1), (1, 1024), (1024, 4), (5, 6), (64, 64)] {
        let grid = given(plain(rt.alloc(), width, height))?;
        for mix in 0..32u8 {
            let style = mix % 16 + mix / 16 * 32;
            let decoded = given(again(rt.alloc(), &grid, style, 5, 13))?;
            check_at(&rt, &(width, height, style), is_same(&grid, &decoded.grid));
            check(&rt, sound(&decoded).is_ok());
        }
    }
    Ok(())
}
