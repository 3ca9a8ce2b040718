//! Values of the standard's example and of small trees, both ways.
ghost use Rattle.std.specs.Prelude.{◌≡◌, ◌*◌, ◌<◌, IsTrue, length};
ghost use Rattle.jx_tagtree.specs.Shape.{IsShape};

use crate::checks::{check, equal};
use jx_base::{MOST_BLOCKS, NoMemory};
use jx_tagtree::{BitFault, BitReader, BitWriter, TagReader, TagWriter};
use std::alloc::Global;
use std::process::Abort;
use std::test::Fail;

/// How many bits 1 come first, and what the reader answers then.
fn ones(bytes: &[u8]) -> (u32, Option<BitFault>, Option<BitFault>) {
    let mut reader = BitReader::new(bytes);
    for count in 0..64 {
        match reader.bit() {
            Ok(true) => {}
            Ok(false) => return (count, None, None),
            Err(fault) => return (count, Some(fault), reader.bit().err()),
        }
    }
    (64, None, None)
}

/// What `finish` answers after some bits.
fn end_after(bytes: &[u8], bits: u32) -> Result<usize, BitFault> {
    let mut reader = BitReader::new(bytes);
    for _ in 0..bits {
        let _ = reader.bit();
    }
    reader.finish()
}

/// What is found first of bytes: how many bits 1, and twice what stands behind them.
const BITS: [(&[u8], (u32, Option<BitFault>, Option<BitFault>)); 3] = [
    (
        &[0xff, 0x80],
        (8, Some(BitFault::Stuffed), Some(BitFault::Stuffed)),
    ),
    (&[0xff], (8, Some(BitFault::Ended), Some(BitFault::Ended))),
    (&[0xff, 0x7f, 0xe0], (18, None, None)),
];

/// What is answered at the end after so many bits of bytes.
const ENDS: [(&[u8], u32, Result<usize, BitFault>); 7] = [
    (&[0xff, 0x00], 8, Ok(2)),
    (&[0xff], 8, Err(BitFault::Ended)),
    (&[0xff, 0x80], 3, Err(BitFault::Stuffed)),
    (&[0x12, 0x34], 0, Ok(0)),
    (&[0x12, 0x34], 8, Ok(1)),
    (&[0x12, 0x34], 9, Ok(2)),
    (&[0x12, 0x34], 17, Err(BitFault::Ended)),
];

#[test]
fn bits_are_read(rt: HostRuntime) {
    for (bytes, want) in &BITS {
        equal(&rt, ones(bytes), *want);
    }
    for (bytes, bits, want) in &ENDS {
        equal(&rt, end_after(bytes, *bits), *want);
    }
}

/// The bytes of so many bits 1 and then so many bits 0.
fn bits_of(alloc: Global, ones: u32, zeros: u32) -> Result<Vec<u8>, NoMemory> {
    let mut writer = BitWriter::new(alloc);
    for _ in 0..ones {
        writer.bit(true)?;
    }
    for _ in 0..zeros {
        writer.bit(false)?;
    }
    writer.finish()
}

#[test]
fn bits_are_written(rt: HostRuntime) -> Result<(), Fail> {
    let cases: [(u32, u32, &[u8]); 5] = [
        (0, 0, &[]),
        (1, 0, &[0x80]),
        (8, 0, &[0xff, 0x00]),
        (9, 1, &[0xff, 0x40]),
        (15, 0, &[0xff, 0x7f]),
    ];
    for (ones, zeros, bytes) in cases {
        let written = bits_of(rt.alloc(), ones, zeros)?;
        equal(&rt, written.as_slice(), bytes);
    }
    Ok(())
}

/// The bytes of some queries.
fn written(
    rt: &impl Abort,
    alloc: Global,
    wide: u32,
    high: u32,
    leaves: &[u32],
    queries: &[(u32, u32)],
) -> Result<Vec<u8>, NoMemory>
    requires shape { IsShape wide high }
    requires leaves { length leaves.now ≡ wide * high }
{
    let mut tree = TagWriter::new(alloc, wide, high, leaves)?;
    let mut writer = BitWriter::new(alloc);
    for (leaf, threshold) in queries {
        check(rt, *leaf < wide * high);
        tree.reach(*leaf, *threshold, &mut writer)?;
    }
    writer.finish()
}

/// Whether a tree can have these leaves.
fn is_shape(wide: u32, high: u32, leaves: &[u32]) -> bool
    ensures { IsTrue result → IsShape wide high × length leaves.now ≡ wide * high }
{
    let count = u64::from(wide) * u64::from(high);
    count > 0 && count <= MOST_BLOCKS && leaves.len() as u64 == count
}

/// Writes queries of some leaves, and reads them back.
fn both_ways(
    rt: &impl Abort,
    alloc: Global,
    wide: u32,
    high: u32,
    leaves: &[u32],
    queries: &[(u32, u32)],
    bytes: &[u8],
) -> Result<(), NoMemory> {
    check(rt, is_shape(wide, high, leaves));
    let found = written(rt, alloc, wide, high, leaves, queries)?;
    equal(rt, found.as_slice(), bytes);
    read_back(rt, alloc, wide, high, leaves, queries, bytes)
}

/// Reads what queries of some leaves gave.
fn read_back(
    rt: &impl Abort,
    alloc: Global,
    wide: u32,
    high: u32,
    leaves: &[u32],
    queries: &[(u32, u32)],
    bytes: &[u8],
) -> Result<(), NoMemory>
    requires shape { IsShape wide high }
    requires leaves { length leaves.now ≡ wide * high }
{
    let mut tree = TagReader::new(alloc, wide, high)?;
    let mut reader = BitReader::new(bytes);
    for (leaf, threshold) in queries {
        check(rt, *leaf < wide * high);
        let below = tree.reach(*leaf, *threshold, &mut reader);
        equal(rt, below, Ok(leaves[*leaf as usize] < *threshold));
    }
    equal(rt, reader.finish(), Ok(bytes.len()));
    Ok(())
}

/// The leaves of the example of T.800 B.10.2, figure B.12: its first code words are 01111, 001 and 101.
const EXAMPLE: [u32; 18] = [1, 3, 2, 3, 2, 3, 2, 2, 1, 4, 3, 2, 2, 2, 2, 2, 1, 2];

/// Trees: columns, rows, leaves, queries of a leaf and a threshold, and the bytes that these give.
const TREES: [(u32, u32, &[u32], &[(u32, u32)], &[u8]); 6] = [
    (6, 3, &EXAMPLE, &[(0, 2)], &[0b0111_1000]),
    (
        6,
        3,
        &EXAMPLE,
        &[(0, 2), (1, 4), (2, 3)],
        &[0b0111_1001, 0b1010_0000],
    ),
    (
        6,
        3,
        &EXAMPLE,
        &[(0, 1), (0, 1), (0, 2), (1, 3), (1, 4)],
        &[0b0111_1001],
    ),
    (1, 1, &[3], &[(0, 5)], &[0b0001_0000]),
    (
        1,
        7,
        &[0, 1, 2, 3, 4, 5, 6],
        &[(6, 7)],
        &[0b1000_0100, 0b1100_0000],
    ),
    (
        5,
        1,
        &[2, 0, 1, 3, 5],
        &[(4, 6)],
        &[0b1000_0011, 0b1000_0000],
    ),
];

#[test]
fn small_trees(rt: HostRuntime) -> Result<(), Fail> {
    for (wide, high, leaves, queries, bytes) in &TREES {
        both_ways(&rt, rt.alloc(), *wide, *high, leaves, queries, bytes)?;
    }
    Ok(())
}

/// A tree of leaves 1 is asked of its last one.
fn last_of(
    rt: &(impl Abort + AllocGlobal),
    wide: u32,
    high: u32,
    bytes: &[u8],
) -> Result<(), Fail> {
    let count = wide.saturating_mul(high);
    let leaves = vec![in rt.alloc(); 1; count as usize]?;
    let queries = [(count.saturating_sub(1), 2)];
    Ok(both_ways(rt, rt.alloc(), wide, high, &leaves, &queries, bytes)?)
}

#[test]
fn a_large_tree(rt: HostRuntime) -> Result<(), Fail> {
    last_of(&rt, 1024, 1024, &[0b0111_1111, 0b1111_0000])
}

#[test]
fn a_high_tree(rt: HostRuntime) -> Result<(), Fail> {
    last_of(&rt, 1, 2048, &[0b0111_1111, 0b1111_1000])
}
