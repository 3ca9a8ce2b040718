//! Code-blocks that are refused by workers, and what was written before them.

use crate::bytes::{Edit, joined, low_byte, spliced};
use crate::checks::{check, equal};
use crate::run_tests::{SMALL, is_under};
use crate::runs::{Made, Want, ending, ends, holding, is_left, run_words};
use jx_io::Files;
use jx_transcode::Status;
use std::alloc::{AllocError, Global};
use std::test::Fail;

const NONE: [&str; 6] = ["jx", "transcode", "in", "out", "--style", "none"];

// The packet header of eight blocks with one pass and one byte each.
const EIGHT: [u8; 10] = [0xF8, 7, 0x87, 0x0F, 0x87, 0x0F, 0xE1, 0xC3, 0xE1, 0xC2];

// The small file with this style and this packet.
pub fn body(alloc: Global, style: u8, packet: &[u8]) -> Result<Vec<u8>, AllocError> {
    let length = low_byte(packet.len()).wrapping_add(14);
    let edits: [Edit<'_>; 3] = [(57, 1, &[style]), (74, 1, &[length]), (79, 1, packet)];
    spliced(alloc, &SMALL, &edits)
}

// What is written before the block's tile stands, and nothing can be read there.
#[test]
fn a_wrong_symbol(rt: HostRuntime) -> Result<(), Fail> {
    let wrong = body(rt.alloc(), 0x20, &[0xC0, 0x21, 3])?;
    let mut left = run_words(&rt, &NONE, &holding(&wrong))?;
    let status = Status::Block { number: 0 };
    equal(&rt, status.number(), 6);
    let want = Want {
        blocks: Some(1),
        taped: Some(0),
        made: Made::Front(&SMALL, 65),
        ..ending(status, "block 0\n")
    };
    is_left(&rt, &NONE, &left, &want);
    check(&rt, is_under(&left, "out", &SMALL[..65]));
    check(&rt, left.files.open("out").is_err());
    Ok(())
}

// One band of eight blocks of 4 by 4 places, without a coefficient: 60 has the right symbol, 30 a wrong one.
fn eight(alloc: Global, blocks: &[u8]) -> Result<Vec<u8>, AllocError> {
    let packet = joined(alloc, &[&EIGHT, blocks])?;
    let length = low_byte(packet.len()).wrapping_add(14);
    let side = [0, 0, 0, 32, 0, 0, 0, 4];
    let edits: [Edit<'_>; 6] = [
        (8, 8, &side),
        (24, 8, &side),
        (55, 2, &[0, 0]),
        (57, 1, &[0x20]),
        (74, 1, &[length]),
        (79, 1, &packet),
    ];
    spliced(alloc, &SMALL, &edits)
}

// So many threads, and symbols that are left out.
fn by(threads: &str) -> [&str; 8] {
    [
        "jx",
        "transcode",
        "in",
        "out",
        "--style",
        "none",
        "--threads",
        threads,
    ]
}

#[test]
fn the_lowest_wrong_block(rt: HostRuntime) -> Result<(), Fail> {
    let blocks = [0x60, 0x60, 0x60, 0x30, 0x60, 0x60, 0x60, 0x30];
    let wrong = eight(rt.alloc(), &blocks)?;
    let want = Want {
        blocks: Some(8),
        taped: Some(0),
        made: Made::Length(65),
        ..ending(Status::Block { number: 3 }, "block 3\n")
    };
    for threads in ["1", "4"] {
        ends(&rt, &by(threads), &holding(&wrong), &want)?;
    }
    Ok(())
}

// From SOT on: two tiles of one block each.
const PLAIN: [u8; 36] = [
    0xFF, 0x90, 0, 10, 0, 0, 0, 0, 0, 17, 0, 1, 0xFF, 0x93, 0xC0, 0x21, 0, //
    0xFF, 0x90, 0, 10, 0, 1, 0, 0, 0, 17, 0, 1, 0xFF, 0x93, 0xC0, 0x21, 0, //
    0xFF, 0xD9,
];

// Two tiles of one block each, with this style and these bytes.
pub fn two_tiles(alloc: Global, style: u8, data: [u8; 2]) -> Result<Vec<u8>, AllocError> {
    let [first, second] = data;
    let parts = spliced(alloc, &PLAIN, &[(16, 1, &[first]), (33, 1, &[second])])?;
    let edits: [Edit<'_>; 3] = [(11, 1, &[2]), (57, 1, &[style]), (65, 17, &parts)];
    spliced(alloc, &SMALL, &edits)
}

// A row of 4,096 blocks without passes in a tile.
fn wide_tile(alloc: Global) -> Result<Vec<u8>, AllocError> {
    let wide: [Edit<'_>; 3] = [(10, 1, &[0x40]), (26, 2, &[0x40, 0]), (55, 2, &[0, 0])];
    spliced(alloc, &SMALL[..80], &wide)
}

// The same with symbols, and behind it a tile of a block with a wrong symbol.
fn wrong_behind(alloc: Global, first: &[u8]) -> Result<Vec<u8>, AllocError> {
    let second = [
        0xFF, 0x90, 0, 10, 0, 1, 0, 0, 0, 17, 0, 1, 0xFF, 0x93, 0xC0, 0x21, 3, 0xFF, 0xD9,
    ];
    spliced(alloc, first, &[(57, 1, &[0x20]), (80, 0, &second)])
}

#[test]
fn the_rounds_before_stand(rt: HostRuntime) -> Result<(), Fail> {
    let first = wide_tile(rt.alloc())?;
    let bytes = wrong_behind(rt.alloc(), &first)?;
    let want = Want {
        blocks: Some(4097),
        taped: Some(4096),
        made: Made::Bytes(&first),
        ..ending(Status::Block { number: 4096 }, "block 4096\n")
    };
    ends(&rt, &NONE, &holding(&bytes), &want)
}

// The second tile has a wrong block, and is of the first one's round.
#[test]
fn nothing_of_its_round_stands(rt: HostRuntime) -> Result<(), Fail> {
    let bytes = two_tiles(rt.alloc(), 0x20, [1, 3])?;
    let want = Want {
        blocks: Some(2),
        taped: Some(0),
        made: Made::Length(65),
        ..ending(Status::Block { number: 1 }, "block 1\n")
    };
    ends(&rt, &NONE, &holding(&bytes), &want)
}
