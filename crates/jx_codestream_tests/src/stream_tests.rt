//! Parameters by precedence, as a stream's calls give them, and the parts of tiles. What the program shows of a file stands in
//! tables (tests/tables/header_kinds.rows and others).

ghost use Rattle.std.specs.Prelude.{IfOk};
ghost use Rattle.jx_geom.specs.Ranges.{HasBand};
ghost use Rattle.jx_codestream.specs.InRange.{StreamInRange};

use crate::checks::{check, equal_at};
use crate::files::{EOC, MAIN, MOST_TILES, PART, Parts, SIZ, TWO, file_of};
use jx_base::{Band, MOST_BYTES};
use jx_codestream::{Body, Params, Stream, StreamFault, Tile, read_stream};
use jx_marker::{Progression, Segment};
use std::alloc::Global;
use std::process::Abort;
use std::test::Fail;

// The stream of a file.
#[tactic(auto, using(jx_codestream::proofs::RangeLemmas::read_in_range))]
pub(crate) fn stream_of(alloc: Global, parts: &[(&str, u16)]) -> Result<Stream, StreamFault>
    ensures range { IfOk result (λ stream. StreamInRange stream) }
{
    let file = file_of(alloc, parts)?;
    if file.len() > MOST_BYTES {
        return Err(StreamFault::NoMemory);
    }
    read_stream(alloc, &file)
}

// Levels, exponents of code-blocks, style, wavelet, precinct, order, layers, transform, guard bits, quantization and shift.
fn fields(params: &Params) -> [u16; 12] {
    [
        u16::from(params.levels),
        u16::from(params.xcb),
        u16::from(params.ycb),
        u16::from(params.style.bits),
        u16::from(params.wavelet),
        u16::from(params.precincts[0]),
        u16::from(params.order),
        params.layers,
        u16::from(params.transform),
        u16::from(params.guard),
        u16::from(params.quant),
        u16::from(params.shift),
    ]
}

// The exponent and the mantissa of a band's step, and its planes.
type Step = (u8, u16, u32);

fn step_of(stream: &Stream, tile: u16, res: u8, band: Band) -> Step
    requires { HasBand res band }
{
    let (exponent, mantissa) = stream.step(tile, 0, res, band);
    (exponent, mantissa, stream.planes(tile, 0, res, band))
}

// Those of a resolution's bands: LL, or HL, LH and HH.
fn steps_of(stream: &Stream, tile: u16, res: u8) -> [Step; 3] {
    if res == 0 {
        [step_of(stream, tile, res, Band::LL); 3]
    } else {
        [
            step_of(stream, tile, res, Band::HL),
            step_of(stream, tile, res, Band::LH),
            step_of(stream, tile, res, Band::HH),
        ]
    }
}

// The later tile-parts have comments alone, and these are the tile's entries.
fn tile_has(rt: &impl Abort, tile: &Tile, entries: &[[u16; 6]]) {
    for note in tile.notes.as_slice() {
        check(rt, matches!(note, Segment::Com(_)));
    }
    let found = tile.progressions.as_slice();
    equal_at(rt, &entries, found.len(), entries.len());
    for (number, entry) in found.iter().enumerate() {
        check(rt, number < entries.len());
        equal_at(rt, &entries, fields_of(entry), entries[number]);
    }
}

fn fields_of(entry: &Progression) -> [u16; 6] {
    [
        u16::from(entry.rs),
        entry.cs,
        entry.lye,
        u16::from(entry.re),
        entry.ce,
        u16::from(entry.order),
    ]
}

// A tile, how many components there are, one of them and its parameters; a tile, a resolution and its bands' steps; how many tiles
// there are, one of them, its place, how many segments its header has and how many comments the later ones, its data and entries.
enum Asked {
    Params(u16, usize, u16, [u16; 12]),
    Steps(u16, u8, [Step; 3]),
    Tile(usize, usize, (u32, usize, usize), &'static [Body], &'static [[u16; 6]]),
}

fn shows(rt: &impl Abort, stream: &Stream, asked: &Asked) {
    match asked {
        Asked::Params(tile, comps, comp, want) => {
            let found = fields(&stream.params(*tile, *comp));
            let all = stream.siz.comps.as_slice().len();
            equal_at(rt, &(*tile, *comp), (all, found), (*comps, *want));
        }
        Asked::Steps(tile, res, want) => {
            equal_at(rt, &(*tile, *res), steps_of(stream, *tile, *res), *want);
        }
        Asked::Tile(tiles, number, want, bodies, entries) => {
            let all = stream.tiles.as_slice();
            equal_at(rt, number, all.len(), *tiles);
            check(rt, *number < all.len());
            let tile = &all[*number];
            let (header, notes) = (tile.header.as_slice(), tile.notes.as_slice());
            equal_at(rt, number, (tile.place, header.len(), notes.len()), *want);
            equal_at(rt, number, tile.bodies.as_slice(), *bodies);
            tile_has(rt, tile, entries);
        }
    }
}

// Two tiles. The main header's COC and QCC yield to the second one's COD, of style 2, order 3 and 9 layers, and QCD, of exponent 9;
// its POC doesn't.
pub(crate) const DEFAULTS: [(&str, u16); 6] = [
    (TWO, 1),
    (MAIN, 1),
    (
        "FF53 0009 00 00 00 04 04 01 01 FF5D 0005 00 40 50 FF5F 0009 00 00 0009 01 01 04",
        1,
    ),
    (PART, 1),
    (
        "FF90 000A 0001 00000023 00 01 FF52 000C 00 03 0009 00 00 04 04 02 01 FF5C 0004 40 48 FF93 00",
        1,
    ),
    (EOC, 1),
];

// SOC and SIZ up to the components, of which there are 257 and 16,384; COD and QCD.
const WIDE: &str =
    "FF4F FF51 0329 0000 00000001 00000001 00000000 00000000 00000001 00000001 00000000 00000000 0101";

const MOST_COMPONENTS: &str =
    "FF4F FF51 C026 0000 00000001 00000001 00000000 00000000 00000001 00000001 00000000 00000000 4000";

const CODING: &str = "FF52 000C 00 00 0001 00 00 04 04 00 01 FF5C 0004 40 40";

static STREAMS: [(Parts, &[Asked]); 13] = [
    (
        &DEFAULTS,
        &[
            Asked::Params(0, 1, 0, [0, 6, 6, 1, 1, 255, 0, 1, 0, 2, 0, 0]),
            Asked::Params(1, 1, 0, [0, 6, 6, 2, 1, 255, 3, 9, 0, 2, 0, 0]),
            Asked::Steps(0, 0, [(10, 0, 11); 3]),
            Asked::Steps(1, 0, [(9, 0, 10); 3]),
            Asked::Tile(
                2,
                0,
                (94, 0, 0),
                &[Body { at: 108, length: 1 }],
                &[[0, 0, 9, 1, 1, 4]],
            ),
            Asked::Tile(
                2,
                1,
                (109, 2, 0),
                &[Body { at: 143, length: 1 }],
                &[[0, 0, 9, 1, 1, 4]],
            ),
        ],
    ),
    // The second tile has a style, a quantization and a shift of its own.
    (
        &[
            (TWO, 1),
            (MAIN, 1),
            ("FF5E 0005 00 00 03", 1),
            (PART, 1),
            (
                "FF90 000A 0001 00000028 00 01 FF53 0009 00 00 00 04 04 01 01 FF5D 0005 00 40 48 FF5E 0005 00 00 0C FF93 00",
                1,
            ),
            (EOC, 1),
        ],
        &[
            Asked::Params(0, 1, 0, [0, 6, 6, 0, 1, 255, 0, 1, 0, 2, 0, 3]),
            Asked::Params(1, 1, 0, [0, 6, 6, 1, 1, 255, 0, 1, 0, 2, 0, 12]),
            Asked::Steps(0, 0, [(8, 0, 12); 3]),
            Asked::Steps(1, 0, [(9, 0, 22); 3]),
        ],
    ),
    // Guard bits and exponent are 0: the planes are those of the shift.
    (
        &[
            (SIZ, 1),
            (
                "0001 07 01 01 FF52 000C 00 00 0001 00 00 04 04 00 01 FF5C 0004 00 00 FF5E 0005 00 00 05",
                1,
            ),
            (PART, 1),
            (EOC, 1),
        ],
        &[
            Asked::Params(0, 1, 0, [0, 6, 6, 0, 1, 255, 0, 1, 0, 0, 0, 5]),
            Asked::Steps(0, 0, [(0, 0, 5); 3]),
        ],
    ),
    // Steps by the lowest band's, the same with an exponent that ends below 0, and steps of each band.
    (
        &[
            (SIZ, 1),
            (
                "0001 07 01 01 FF52 000C 00 00 0001 00 05 04 04 00 01 FF5C 0005 41 6F00",
                1,
            ),
            (PART, 1),
            (EOC, 1),
        ],
        &[
            Asked::Steps(0, 0, [(13, 1792, 14); 3]),
            Asked::Steps(0, 1, [(13, 1792, 14); 3]),
            Asked::Steps(0, 5, [(9, 1792, 10); 3]),
        ],
    ),
    (
        &[
            (SIZ, 1),
            (
                "0001 07 01 01 FF52 000C 00 00 0001 00 05 04 04 00 01 FF5C 0005 01 1000",
                1,
            ),
            (PART, 1),
            (EOC, 1),
        ],
        &[Asked::Steps(0, 5, [(0, 0, 0); 3])],
    ),
    (
        &[
            (SIZ, 1),
            (
                "0001 07 01 01 FF52 000C 00 00 0001 00 01 04 04 00 01 FF5C 000B 42 4001 4802 5003 5804",
                1,
            ),
            (PART, 1),
            (EOC, 1),
        ],
        &[
            Asked::Steps(0, 0, [(8, 1, 9); 3]),
            Asked::Steps(0, 1, [(9, 2, 10), (10, 3, 11), (11, 4, 12)]),
        ],
    ),
    // Indexes of two bytes, without and with a COC of the last component.
    (
        &[
            (WIDE, 1),
            ("070101", 257),
            (CODING, 1),
            ("FF90 000A 0000 0000010F 00 01 FF93", 1),
            ("00", 257),
            (EOC, 1),
        ],
        &[
            Asked::Params(0, 257, 255, [0, 6, 6, 0, 1, 255, 0, 1, 0, 2, 0, 0]),
            Asked::Params(0, 257, 256, [0, 6, 6, 0, 1, 255, 0, 1, 0, 2, 0, 0]),
        ],
    ),
    (
        &[
            (WIDE, 1),
            ("070101", 257),
            (CODING, 1),
            ("FF53 000A 0100 00 00 04 04 20 01", 1),
            ("FF90 000A 0000 0000010F 00 01 FF93", 1),
            ("00", 257),
            (EOC, 1),
        ],
        &[
            Asked::Params(0, 257, 255, [0, 6, 6, 0, 1, 255, 0, 1, 0, 2, 0, 0]),
            Asked::Params(0, 257, 256, [0, 6, 6, 0x20, 1, 255, 0, 1, 0, 2, 0, 0]),
        ],
    ),
    // A COC for each component, and as many tiles as there may be, each with an empty tile-part.
    (
        &[
            (MOST_COMPONENTS, 1),
            ("070101", 16384),
            (CODING, 1),
            ("FF53 000A # 00 00 04 04 00 01", 16384),
            ("FF90 000A 0000 0000000E 00 01 FF93", 1),
            (EOC, 1),
        ],
        &[Asked::Params(0, 16_384, 16_383, [0, 6, 6, 0, 1, 255, 0, 1, 0, 2, 0, 0])],
    ),
    (
        &[
            (MOST_TILES, 1),
            (MAIN, 1),
            ("FF90 000A # 0000000E 00 01 FF93", 65535),
            (EOC, 1),
        ],
        &[Asked::Params(65_534, 1, 0, [0, 6, 6, 0, 1, 255, 0, 1, 0, 2, 0, 0])],
    ),
    // Two tiles of two tile-parts each.
    (
        &[
            (TWO, 1),
            (MAIN, 1),
            (
                "FF90 000A 0000 0000001A 00 02 FF5F 0009 00 00 0001 01 01 00 FF93 00",
                1,
            ),
            (
                "FF90 000A 0001 00000019 00 00 FF5F 0009 00 00 0001 01 01 01 FF93",
                1,
            ),
            (
                "FF90 000A 0000 00000023 01 02 FF5F 0009 00 00 0001 01 01 02 FF64 0006 0001 6A78 FF93 80 81",
                1,
            ),
            ("FF90 000A 0001 00000000 01 00 FF93 00 01", 1),
            (EOC, 1),
        ],
        &[
            Asked::Tile(
                2,
                0,
                (65, 1, 1),
                &[Body { at: 90, length: 1 }, Body { at: 149, length: 2 }],
                &[[0, 0, 1, 1, 1, 0], [0, 0, 1, 1, 1, 2]],
            ),
            Asked::Tile(
                2,
                1,
                (91, 1, 0),
                &[Body { at: 116, length: 0 }, Body { at: 165, length: 2 }],
                &[[0, 0, 1, 1, 1, 1]],
            ),
        ],
    ),
    // Entries of the main header alone, and none: there is one for all then.
    (
        &[
            (TWO, 1),
            (MAIN, 1),
            ("FF5F 0009 00 00 0001 01 01 04", 1),
            (PART, 1),
            ("FF90 000A 0001 0000000F 00 01 FF93 00", 1),
            (EOC, 1),
        ],
        &[
            Asked::Tile(
                2,
                0,
                (76, 0, 0),
                &[Body { at: 90, length: 1 }],
                &[[0, 0, 1, 1, 1, 4]],
            ),
            Asked::Tile(
                2,
                1,
                (91, 0, 0),
                &[Body { at: 105, length: 1 }],
                &[[0, 0, 1, 1, 1, 4]],
            ),
        ],
    ),
    (
        &[(SIZ, 1), (MAIN, 1), (PART, 1), (EOC, 1)],
        &[Asked::Tile(
            1,
            0,
            (65, 0, 0),
            &[Body { at: 79, length: 1 }],
            &[[0, 0, 1, 33, 0, 0]],
        )],
    ),
];

fn all_show(
    rt: &(impl Abort + AllocGlobal),
    rows: &[(Parts, &'static [Asked])],
) -> Result<(), Fail> {
    for (parts, list) in rows {
        let stream = stream_of(rt.alloc(), parts)?;
        for asked in *list {
            shows(rt, &stream, asked);
        }
    }
    Ok(())
}

#[test]
fn streams(rt: HostRuntime) -> Result<(), Fail> {
    all_show(&rt, &STREAMS)
}
