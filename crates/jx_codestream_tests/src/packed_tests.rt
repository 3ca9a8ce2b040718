//! Packet headers in PPM and PPT: where they stand in the file, the code-blocks of their packets, and what is refused.
//! Files of other encoders stand in tests/packed.

use crate::checks::{check, equal_at};
use crate::files::{EOC, MAIN, PART, Parts, SIZ, TWO, file_of};
use crate::gather_tests::{facts_in, fault_in};
use crate::stream_tests::stream_of;
use jx_codestream::{Body, StreamFault};
use std::test::Fail;

// PPM with the headers of two tile-parts. Its second segment is the first by index, and the second number begins in it.
const SHARED: [(&str, u16); 6] = [
    (TWO, 1),
    (MAIN, 1),
    ("FF60 0007 09 000001 00 FF60 0009 03 00000001 00 00", 1),
    ("FF90 000A 0001 0000000E 00 01 FF93", 1),
    ("FF90 000A 0000 0000000E 00 01 FF93", 1),
    (EOC, 1),
];

// A tile with its headers in place, and one of two tile-parts with three PPT. The last of these is the first by index,
// and empty.
const OWN: [(&str, u16); 6] = [
    (TWO, 1),
    (MAIN, 1),
    (PART, 1),
    (
        "FF90 000A 0001 0000001F 00 02 FF61 0004 02 21 FF61 0004 01 C0 FF61 0003 00 FF93",
        1,
    ),
    ("FF90 000A 0001 0000000F 01 02 FF93 03", 1),
    (EOC, 1),
];

// A PPT without data.
const EMPTY: [(&str, u16); 4] = [
    (SIZ, 1),
    (MAIN, 1),
    ("FF90 000A 0000 00000013 00 01 FF61 0003 FF FF93", 1),
    (EOC, 1),
];

/// A tile, and the pieces of the file that are its packet headers, where these stand apart.
type Heads = (usize, Option<&'static [Body]>);

static HEADS: [(Parts, &[Heads]); 3] = [
    (
        &SHARED,
        &[
            (0, Some(&[Body { at: 73, length: 1 }])),
            (1, Some(&[Body { at: 83, length: 1 }])),
        ],
    ),
    (
        &OWN,
        &[
            (0, None),
            (
                1,
                Some(&[Body { at: 103, length: 1 }, Body { at: 97, length: 1 }]),
            ),
        ],
    ),
    (&EMPTY, &[(0, Some(&[]))]),
];

#[test]
fn packed_headers(rt: HostRuntime) -> Result<(), Fail> {
    for (parts, list) in &HEADS {
        let stream = stream_of(rt.alloc(), parts)?;
        let tiles = stream.tiles.as_slice();
        for (number, want) in *list {
            check(&rt, *number < tiles.len());
            equal_at(&rt, number, tiles[*number].heads.pieces(), *want);
        }
    }
    Ok(())
}

#[test]
fn packed_blocks(rt: HostRuntime) -> Result<(), Fail> {
    let file = file_of(rt.alloc(), &SHARED)?;
    let facts = facts_in(rt.alloc(), &file)?;
    let want = [[9, 9, 0, 0, 0], [9, 9, 0, 0, 0]];
    equal_at(&rt, &"PPM", facts.as_slice(), want.as_slice());
    let file = file_of(rt.alloc(), &OWN)?;
    let facts = facts_in(rt.alloc(), &file)?;
    let want = [[9, 9, 0, 0, 0], [9, 8, 1, 1, 1]];
    equal_at(&rt, &"PPT", facts.as_slice(), want.as_slice());
    Ok(())
}

// A file of one tile: what stands behind the main header, and the rule with its place.
static FAULTS: [(&str, u8, u32); 5] = [
    // a byte of PPM for no tile-part
    (
        "FF60 0009 00 00000001 00 00 FF90 000A 0000 0000000E 00 01 FF93",
        37,
        65,
    ),
    // PPT beside PPM
    (
        "FF60 0003 00 FF90 000A 0000 00000014 00 01 FF61 0004 00 00 FF93",
        14,
        82,
    ),
    // a second PPT of one index
    (
        "FF90 000A 0000 00000018 00 01 FF61 0003 05 FF61 0003 05 FF93",
        18,
        82,
    ),
    // a header that is cut short, in a tile without data
    ("FF90 000A 0000 00000014 00 01 FF61 0004 00 C0 FF93", 26, 85),
    // a byte behind the last header
    (
        "FF90 000A 0000 00000015 00 01 FF61 0005 00 00 00 FF93",
        31,
        83,
    ),
];

#[test]
fn packed_faults(rt: HostRuntime) -> Result<(), Fail> {
    for (text, number, place) in &FAULTS {
        let found = fault_in(rt.alloc(), &[(SIZ, 1), (MAIN, 1), (*text, 1), (EOC, 1)])?;
        let (number, place) = (*number, *place);
        equal_at(&rt, text, found, Some(StreamFault::Rule { number, place }));
    }
    Ok(())
}
