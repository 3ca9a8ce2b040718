//! Blocks as large as they may be through the three walks (decoding, coding, coding in step), and wrong segmentation symbols.

ghost use Rattle.std.specs.Prelude.{◌≡◌, ◌≤◌, ◌<◌, ◌*◌, ◌-◌, ◌^◌, length, IfOk};
ghost use Rattle.jx_base.specs.Passes.{is_causal};
ghost use Rattle.jx_tier1_specs.specs.Cells.{HasSize};
ghost use Rattle.jx_tier1_specs.specs.Short.{AreShort};

use crate::checks::{check, equal_at, given};
use crate::flags_tests::are_same;
use crate::samples::next;
use jx_base::{Band, NoMemory, Style};
use jx_tier1::{Coded, Coef, FlagGrid, decode_flags, encode_flags, recode_flags, sound_flags};
use jx_tier1_plain::place;
use jx_tier1_specs::Segments;
use std::alloc::Global;
use std::test::Fail;

/// The most planes of a block, and the most passes.
const PLANES: u8 = 74;

const PASSES: u16 = 220;

/// A coefficient of 74 drawn bits, of which the lowest is 1.
fn deep(number: u64) -> Coef {
    Coef {
        negative: (number >> 60) % 2 == 1,
        bits: u128::from(next(number)) * 1024 + u128::from((number >> 33) % 512) * 2 + 1,
        planes: PLANES,
    }
}

/// A grid of drawn numbers in 74 planes.
fn drawn(alloc: Global, width: u16, height: u16) -> Result<FlagGrid, NoMemory>
    requires wide { width ≤ 1024 }
    requires high { height ≤ 1024 }
    ensures { IfOk result (λ g. HasSize g) }
{
    let mut grid = FlagGrid::new(alloc, width, height)?;
    let mut number = 6;
    for n in 0..u32::from(width) * u32::from(height) {
        let (x, y) = place(width, height, n);
        number = next(number);
        grid.set(x, y, deep(number));
    }
    Ok(grid)
}

/// Segments as they were written; none where one has a million of bytes.
#[tactic(auto, using(crate::proofs::ShortLemmas::short_more, crate::proofs::ShortLemmas::short_none))]
fn gathered<'a>(alloc: Global, lists: &'a [Vec<u8>]) -> Result<Segments<'a>, NoMemory>
    ensures { IfOk result (λ s. AreShort s) }
{
    let mut segments = Segments::new(alloc);
    for list in lists {
        let bytes = list.as_slice();
        if bytes.len() > 1_000_000 {
            return Err(NoMemory);
        }
        segments.push(bytes)?;
    }
    Ok(segments)
}

/// All passes of a block in the band HL that were written as these segments.
fn coded_in<'a>(alloc: Global, style: Style, lists: &'a [Vec<u8>]) -> Result<Coded<'a>, NoMemory>
    ensures { IfOk result (λ c. (c.style ≡ style) × (c.planes ≡ 74) × (c.passes ≡ 220) × AreShort c.segments) }
{
    Ok(Coded {
        band: Band::HL,
        style,
        planes: PLANES,
        passes: PASSES,
        segments: gathered(alloc, lists)?,
    })
}

/// Whether two grids have the same coefficients.
fn is_back(grid: &FlagGrid, again: &FlagGrid) -> bool {
    for y in 0..grid.height() {
        for x in 0..grid.width() {
            if grid.get(x, u32::from(y)) != again.get(x, u32::from(y)) {
                return false;
            }
        }
    }
    again.width() == grid.width() && again.height() == grid.height()
}

/// Whether the segments of a grid in a style give it back, and become in step those that it has in another style, which agrees on
/// causal contexts.
fn go_round(
    alloc: Global,
    grid: &FlagGrid,
    old: Style,
    lists: &[Vec<u8>],
    new: Style,
    others: &[Vec<u8>],
) -> Result<bool, NoMemory>
    requires size { HasSize grid.now }
    requires causal { is_causal new.bits ≡ is_causal old.bits }
{
    let coded = coded_in(alloc, old, lists)?;
    let decoded = decode_flags(alloc, grid.width(), grid.height(), &coded)?;
    let recoded = recode_flags(alloc, grid.width(), grid.height(), &coded, new)?;
    Ok(
        is_back(grid, &decoded.grid)
            && recoded.wrong.is_none()
            && are_same(&recoded.segments, others),
    )
}

/// The segments of a grid's 220 passes.
fn written(alloc: Global, grid: &FlagGrid, style: Style) -> Result<Vec<Vec<u8>>, NoMemory>
    requires size { HasSize grid.now }
{
    encode_flags(alloc, grid, Band::HL, style, PLANES, PASSES)
}

/// How many bytes the one segment of a block has whose drawn coefficients in 74 planes go through all three walks; none where they don't.
fn length_of(alloc: Global, width: u16, height: u16) -> Result<Option<usize>, NoMemory>
    requires wide { width ≤ 1024 }
    requires high { height ≤ 1024 }
{
    let style = Style { bits: 0 };
    let grid = drawn(alloc, width, height)?;
    let lists = written(alloc, &grid, style)?;
    if lists.len() != 1 || !go_round(alloc, &grid, style, &lists, style, &lists)? {
        return Ok(None);
    }
    Ok(Some(lists[0].len()))
}

/// Whether a block of drawn coefficients in 74 planes goes through all three walks in one segment and in 220, from each into the other.
fn go_both_ways(alloc: Global, width: u16, height: u16) -> Result<bool, NoMemory>
    requires wide { width ≤ 1024 }
    requires high { height ≤ 1024 }
{
    let whole = Style { bits: 0 };
    let cut = Style { bits: 4 };
    let grid = drawn(alloc, width, height)?;
    let lists = written(alloc, &grid, whole)?;
    let others = written(alloc, &grid, cut)?;
    Ok(
        lists.len() == 1
            && others.len() == usize::from(PASSES)
            && go_round(alloc, &grid, whole, &lists, cut, &others)?
            && go_round(alloc, &grid, cut, &others, whole, &lists)?,
    )
}

// The greatest square block, in 74 planes of 220 passes.
#[test]
fn a_square_of_74_planes(rt: HostRuntime) -> Result<(), Fail> {
    let length = given(length_of(rt.alloc(), 64, 64))?;
    check(&rt, length.is_some_and(|bytes| bytes > 0x8000));
    Ok(())
}

// Twice as wide, so that its one segment has over 64 KiB.
#[test]
fn a_segment_of_over_64_kib(rt: HostRuntime) -> Result<(), Fail> {
    let length = given(length_of(rt.alloc(), 128, 64))?;
    check(&rt, length.is_some_and(|bytes| bytes > 0x1_0000));
    Ok(())
}

#[test]
fn as_many_segments_as_passes(rt: HostRuntime) -> Result<(), Fail> {
    let same = go_both_ways(rt.alloc(), 32, 32);
    check(&rt, given(same)?);
    Ok(())
}

/// The segments of +3 in two planes, each pass in one of its own, with segmentation symbols or without.
fn of_three(alloc: Global, bits: u8) -> Result<Vec<Vec<u8>>, NoMemory> {
    let mut grid = FlagGrid::new(alloc, 1, 1)?;
    let three = Coef {
        negative: false,
        bits: 3,
        planes: 2,
    };
    grid.set(0, 0, three);
    encode_flags(alloc, &grid, Band::LL, Style { bits }, 2, 4)
}

/// The segment of a pass, by one list or the other.
fn pick<'a>(right: &'a [Vec<u8>], wrong: &'a [Vec<u8>], pass: usize, is_wrong: bool) -> &'a [u8] {
    let lists = if is_wrong { wrong } else { right };
    match lists.get(pass) {
        Some(list) => list.as_slice(),
        None => &[],
    }
}

/// The segments of four passes, of which each comes from one list or the other.
#[tactic(auto, using(crate::proofs::ShortLemmas::short_more, crate::proofs::ShortLemmas::short_none))]
fn mixed<'a>(
    alloc: Global,
    right: &'a [Vec<u8>],
    wrong: &'a [Vec<u8>],
    are_wrong: [bool; 4],
) -> Result<Segments<'a>, NoMemory>
    ensures { IfOk result (λ s. AreShort s) }
{
    let mut segments = Segments::new(alloc);
    for pass in 0..4_usize {
        let bytes = pick(right, wrong, pass, are_wrong[pass]);
        if bytes.len() > 0xFFFF {
            return Err(NoMemory);
        }
        segments.push(bytes)?;
    }
    Ok(segments)
}

/// The first wrong symbol of a block of one place in two planes, by both walks that read; refused where they don't agree.
fn first_wrong(alloc: Global, segments: Segments<'_>) -> Result<Option<u16>, NoMemory>
    requires { AreShort segments }
{
    let style = Style { bits: 0x24 };
    let coded = Coded {
        band: Band::LL,
        style,
        planes: 2,
        passes: 4,
        segments,
    };
    let decoded = decode_flags(alloc, 1, 1, &coded)?;
    let recoded = recode_flags(alloc, 1, 1, &coded, style)?;
    if recoded.wrong != decoded.wrong {
        return Err(NoMemory);
    }
    match sound_flags(&decoded) {
        Ok(()) => Ok(None),
        Err(bad) => Ok(Some(bad.pass)),
    }
}

// Cleanup passes, which a symbol follows, are 0 and 3: a segment that was written without one has a wrong one.
#[test]
fn the_first_wrong_symbol(rt: HostRuntime) -> Result<(), Fail> {
    let right = given(of_three(rt.alloc(), 0x24))?;
    let wrong = given(of_three(rt.alloc(), 0x04))?;
    for (first, last, want) in [
        (false, false, None),
        (true, false, Some(0)),
        (false, true, Some(3)),
        (true, true, Some(0)),
    ] {
        let segments = given(mixed(rt.alloc(), &right, &wrong, [first, false, false, last]))?;
        let found = given(first_wrong(rt.alloc(), segments))?;
        equal_at(&rt, &(first, last), found, want);
    }
    Ok(())
}
