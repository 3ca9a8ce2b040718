//! Code-blocks of worked tile data, and one row of each kind of refusal. What the program shows of a file stands in tables
//! (tests/tables/tile_data.rows and others).

use crate::checks::equal_at;
use crate::files::{EOC, MAIN, MOST_TILES, PART, Parts, SIZ, TWO, file_of};
use jx_base::{Block, MOST_BYTES};
use jx_codestream::{StreamFault, read_stream};
use jx_tier2_reader::gather;
use std::alloc::{AllocError, Global};
use std::test::Fail;

/// A block's planes, zero planes, passes, pieces and bytes.
type Facts = [usize; 5];

fn facts_of(alloc: Global, blocks: &[Block<'_>]) -> Result<Vec<Facts>, AllocError> {
    let mut facts = Vec::new(alloc);
    for block in blocks {
        let mut count = 0usize;
        for piece in block.pieces.as_slice() {
            count = count.wrapping_add(piece.bytes.len());
        }
        facts.push([
            usize::from(block.planes),
            usize::from(block.zero),
            usize::from(block.passes),
            block.pieces.len(),
            count,
        ])?;
    }
    Ok(facts)
}

/// The blocks of a file.
pub(crate) fn facts_in(alloc: Global, bytes: &[u8]) -> Result<Vec<Facts>, StreamFault> {
    if bytes.len() > MOST_BYTES {
        return Err(StreamFault::NoMemory);
    }
    let stream = read_stream(alloc, bytes)?;
    let blocks = gather(alloc, bytes, &stream)?;
    Ok(facts_of(alloc, &blocks)?)
}

// Three layers, up to a tile-part's length; a row of three tiles.
const LAYERS: &str =
    "0001 07 01 01 FF52 000C 00 00 0003 00 00 04 04 00 01 FF5C 0004 40 40 FF90 000A 0000";

const THREE: &str =
    "FF4F FF51 0029 0000 00000003 00000001 00000000 00000000 00000001 00000001 00000000 00000000";
// A picture of 74 planes.
const DEEP: &str =
    "0001 07 01 01 FF52 000C 00 00 0001 00 00 04 04 00 01 FF5C 0004 E0 F8 FF5E 0005 00 00 25";

// A file, and its blocks in the order of their numbers: the tiles may stand in another one. The fifth file has four tile-parts, of
// which the third is empty.
static BLOCKS: [(Parts, &[Facts]); 11] = [
    (
        &[
            (SIZ, 1),
            (MAIN, 1),
            ("FF90 000A 0000 00000011 00 01 FF93 C0 21 03", 1),
            (EOC, 1),
        ],
        &[[9, 8, 1, 1, 1]],
    ),
    (
        &[
            (SIZ, 1),
            (MAIN, 1),
            ("FF90 000A 0000 00000012 00 01 FF93 C0 74 10 01", 1),
            (EOC, 1),
        ],
        &[[9, 7, 4, 1, 1]],
    ),
    (
        &[
            (SIZ, 1),
            (MAIN, 1),
            ("FF90 000A 0000 0000000F 00 01 FF93 80", 1),
            (EOC, 1),
        ],
        &[[9, 9, 0, 0, 0]],
    ),
    (
        &[
            (SIZ, 1),
            (DEEP, 1),
            (
                "FF90 000A 0000 0000001A 00 01 FF93 C0 0000000000000000 10 80 03",
                1,
            ),
            (EOC, 1),
        ],
        &[[74, 73, 1, 1, 1]],
    ),
    (
        &[
            (SIZ, 1),
            (LAYERS, 1),
            (
                "0000000F 00 00 FF93 00 FF90 000A 0000 00000011 01 00 FF93 A0 21 03 FF90 000A 0000 0000000E 02 00 FF93 FF90 000A 0000 00000011 03 04 FF93 F0 20 05",
                1,
            ),
            (EOC, 1),
        ],
        &[[9, 7, 4, 2, 2]],
    ),
    (
        &[
            (TWO, 1),
            (MAIN, 1),
            ("FF90 000A 0001 00000012 00 01 FF93 C0 74 10 01", 1),
            ("FF90 000A 0000 00000011 00 01 FF93 C0 21 03", 1),
            (EOC, 1),
        ],
        &[[9, 8, 1, 1, 1], [9, 7, 4, 1, 1]],
    ),
    (
        &[
            (THREE, 1),
            (MAIN, 1),
            ("FF90 000A 0001 00000012 00 01 FF93 C0 74 10 01", 1),
            ("FF90 000A 0002 0000000F 00 01 FF93 80", 1),
            ("FF90 000A 0000 00000011 00 01 FF93 C0 21 03", 1),
            (EOC, 1),
        ],
        &[[9, 8, 1, 1, 1], [9, 7, 4, 1, 1], [9, 9, 0, 0, 0]],
    ),
    (
        &[
            (TWO, 1),
            (MAIN, 1),
            ("FF90 000A 0001 00000011 00 01 FF93 C0 21 03", 1),
            ("FF90 000A 0000 0000000F 00 01 FF93 80", 1),
            (EOC, 1),
        ],
        &[[9, 9, 0, 0, 0], [9, 8, 1, 1, 1]],
    ),
    (
        &[
            (THREE, 1),
            (MAIN, 1),
            ("FF90 000A 0001 00000011 00 01 FF93 C0 21 03", 1),
            ("FF90 000A 0002 00000012 00 01 FF93 C0 74 10 01", 1),
            ("FF90 000A 0000 0000000F 00 01 FF93 80", 1),
            (EOC, 1),
        ],
        &[[9, 9, 0, 0, 0], [9, 8, 1, 1, 1], [9, 7, 4, 1, 1]],
    ),
    (
        &[
            (TWO, 1),
            (MAIN, 1),
            ("FF90 000A 0001 0000000F 00 01 FF93 80", 1),
            ("FF90 000A 0000 00000012 00 01 FF93 C0 74 10 01", 1),
            (EOC, 1),
        ],
        &[[9, 7, 4, 1, 1], [9, 9, 0, 0, 0]],
    ),
    (
        &[
            (THREE, 1),
            (MAIN, 1),
            ("FF90 000A 0001 0000000F 00 01 FF93 80", 1),
            ("FF90 000A 0002 00000011 00 01 FF93 C0 21 03", 1),
            ("FF90 000A 0000 00000012 00 01 FF93 C0 74 10 01", 1),
            (EOC, 1),
        ],
        &[[9, 7, 4, 1, 1], [9, 9, 0, 0, 0], [9, 8, 1, 1, 1]],
    ),
];

#[test]
fn blocks(rt: HostRuntime) -> Result<(), Fail> {
    for (parts, want) in &BLOCKS {
        let file = file_of(rt.alloc(), parts)?;
        let facts = facts_in(rt.alloc(), &file)?;
        equal_at(&rt, parts, facts.as_slice(), *want);
    }
    Ok(())
}

// A file, and what it is refused for: by its headers and by its tile data.
static FAULTS: [(Parts, StreamFault); 4] = [
    (
        &[(SIZ, 1), (MAIN, 1), (PART, 1), ("FFD8", 1)],
        StreamFault::Rule {
            number: 23,
            place: 80,
        },
    ),
    (
        &[
            (
                "FF4F FF51 0029 0000 FFFFFFFF 00000001 00000000 00000000 00000001 00000001 00000000 00000000",
                1,
            ),
            (MAIN, 1),
            (PART, 1),
            (EOC, 1),
        ],
        StreamFault::Limit {
            number: 3,
            found: 4_294_967_295,
        },
    ),
    (
        &[
            (SIZ, 1),
            (MAIN, 1),
            ("FF90 000A 0000 00000011 00 01 FF93 C021FF", 1),
            (EOC, 1),
        ],
        StreamFault::Rule {
            number: 30,
            place: 81,
        },
    ),
    (
        &[
            (
                "FF4F FF51 0029 0000 00000009 00000009 00000000 00000000 00000009 00000009 00000000 00000000",
                1,
            ),
            (
                "0001 070101 FF52 000D 01 00 FFFF 00 00 04 04 00 01 00 FF5C 0004 40 40",
                1,
            ),
            (PART, 1),
            (EOC, 1),
        ],
        StreamFault::Limit {
            number: 6,
            found: 5_308_335,
        },
    ),
];

// What a file is refused for.
pub(crate) fn fault_in(
    alloc: Global,
    parts: &[(&str, u16)],
) -> Result<Option<StreamFault>, AllocError> {
    let file = file_of(alloc, parts)?;
    match facts_in(alloc, &file) {
        Ok(_) => Ok(None),
        Err(fault) => Ok(Some(fault)),
    }
}

#[test]
fn faults(rt: HostRuntime) -> Result<(), Fail> {
    for (parts, fault) in &FAULTS {
        equal_at(&rt, parts, fault_in(rt.alloc(), parts)?, Some(*fault));
    }
    Ok(())
}

// Each of as many tiles as there may be has an empty packet, but the last one, which has a pass.
static TILES: [(&str, u16); 5] = [
    (MOST_TILES, 1),
    (MAIN, 1),
    ("FF90 000A # 0000000F 00 01 FF93 00", 65_534),
    ("FF90 000A FFFE 00000011 00 01 FF93 C0 21 03", 1),
    (EOC, 1),
];

#[test]
fn many_tiles(rt: HostRuntime) -> Result<(), Fail> {
    let file = file_of(rt.alloc(), &TILES)?;
    let facts = facts_in(rt.alloc(), &file)?;
    equal_at(&rt, &"tiles", facts.len(), 65_535);
    for (number, found) in facts.iter().enumerate() {
        let want = if number < 65_534 {
            [9, 9, 0, 0, 0]
        } else {
            [9, 8, 1, 1, 1]
        };
        equal_at(&rt, &number, *found, want);
    }
    Ok(())
}
