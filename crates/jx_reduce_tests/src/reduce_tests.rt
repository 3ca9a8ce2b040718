//! Codestreams without their highest resolutions.

ghost use Rattle.std.specs.Prelude.{IfSome, ◌≤◌};
ghost use Rattle.jx_plan.specs.Plan.{MayBePlanned};

use crate::checks::equal_at;
use crate::hex::bytes_of;
use jx_base::{Block, MOST_BYTES};
use jx_codestream::{Stream, read_stream};
use jx_generate::make;
use jx_marker::Segment;
use jx_reduce::{ReduceFault, reduce};
use jx_tier2_reader::gather;
use std::alloc::Global;
use std::test::Fail;

// SOC and SIZ up to the components: 8 by 8 places in one tile, and in two; 3 bytes more for a second component.
const ONE: &str =
    "FF4F FF51 0029 0000 00000008 00000008 00000000 00000000 00000008 00000008 00000000 00000000";

const PAIR: &str =
    "FF4F FF51 002C 0000 00000008 00000008 00000000 00000000 00000008 00000008 00000000 00000000";

const TILES: &str =
    "FF4F FF51 0029 0000 00000008 00000008 00000000 00000000 00000004 00000008 00000000 00000000";

const COMP: &str = "0001 07 01 01";

const WIDE: &str = "0001 07 80 01";

const HIGH: &str = "0002 07 01 01 07 01 40";
// Two levels; the same with a precinct byte for each resolution; none; 32.
const TWO: &str = "FF52 000C 00 00 0001 00 02 04 04 00 01";

const SIZED: &str = "FF52 000F 01 00 0001 00 02 04 04 00 01 76 87 98";

const FLAT: &str = "FF52 000C 00 00 0001 00 00 04 04 00 01";

const DEEP: &str = "FF52 000C 00 00 0001 00 20 04 04 00 01";
// Two levels, but one of component 0.
const LOWER: &str = "FF52 000C 00 00 0001 00 02 04 04 00 01 FF53 0009 00 00 01 04 04 00 01";

const BANDS: &str = "FF5C 000A 40 40 40 40 40 40 40 40";

const DERIVED: &str = "FF5C 0005 41 4000";

// Empty packets: one for each resolution of each tile and component. The last file's second tile has one level.
const THREE: &str = "FF90 000A 0000 00000011 00 01 FF93 00 00 00 FFD9";

const SIX: &str = "FF90 000A 0000 00000014 00 01 FF93 00 00 00 00 00 00 FFD9";

const EMPTY: &str = "FF90 000A 0000 0000000F 00 01 FF93 00 FFD9";

const PAIRED: &str = "FF90 000A 0000 00000010 00 01 FF93 00 00 FFD9";

const FULL: &str =
    "FF90 000A 0000 0000002F 00 01 FF93 000000000000000000000000000000000000000000000000000000000000000000 FFD9";

const BOTH: &str =
    "FF90 000A 0000 00000011 00 01 FF93 00 00 00 FF90 000A 0001 0000001E 00 01 FF52 000C 00 00 0001 00 01 04 04 00 01 FF93 00 00 FFD9";

/// How many code-blocks are left, the factors of component 0, the levels of the main COD, how many precinct bytes it has, and the first
/// and the last of them.
type Facts = [usize; 7];

type Answer = Result<Facts, ReduceFault>;

/// A codestream by its parts, how many resolutions are left out, and what is wanted.
struct Row {
    parts: [&'static str; 5],
    d: u8,
    want: Answer,
}

static ROWS: [Row; 15] = [
    Row {
        parts: [ONE, COMP, TWO, BANDS, THREE],
        d: 0,
        want: Ok([7, 1, 1, 2, 0, 0, 0]),
    },
    Row {
        parts: [ONE, COMP, TWO, BANDS, THREE],
        d: 1,
        want: Ok([4, 2, 2, 1, 0, 0, 0]),
    },
    Row {
        parts: [ONE, COMP, TWO, BANDS, THREE],
        d: 2,
        want: Ok([1, 4, 4, 0, 0, 0, 0]),
    },
    Row {
        parts: [ONE, COMP, TWO, BANDS, THREE],
        d: 3,
        want: Err(ReduceFault::Choice {
            number: 9,
            place: 0,
        }),
    },
    Row {
        parts: [ONE, COMP, SIZED, BANDS, THREE],
        d: 1,
        want: Ok([4, 2, 2, 1, 2, 0x76, 0x87]),
    },
    Row {
        parts: [ONE, WIDE, FLAT, BANDS, EMPTY],
        d: 1,
        want: Err(ReduceFault::Choice {
            number: 8,
            place: 0,
        }),
    },
    Row {
        parts: [PAIR, HIGH, TWO, BANDS, SIX],
        d: 1,
        want: Ok([6, 2, 2, 1, 0, 0, 0]),
    },
    Row {
        parts: [PAIR, HIGH, TWO, BANDS, SIX],
        d: 2,
        want: Err(ReduceFault::Choice {
            number: 8,
            place: 1,
        }),
    },
    Row {
        parts: [PAIR, HIGH, TWO, BANDS, SIX],
        d: 3,
        want: Err(ReduceFault::Choice {
            number: 8,
            place: 1,
        }),
    },
    Row {
        parts: [ONE, COMP, LOWER, BANDS, PAIRED],
        d: 1,
        want: Ok([1, 2, 2, 1, 0, 0, 0]),
    },
    Row {
        parts: [ONE, COMP, LOWER, BANDS, PAIRED],
        d: 2,
        want: Err(ReduceFault::Choice {
            number: 9,
            place: 0,
        }),
    },
    Row {
        parts: [TILES, COMP, TWO, BANDS, BOTH],
        d: 1,
        want: Ok([5, 2, 2, 1, 0, 0, 0]),
    },
    Row {
        parts: [TILES, COMP, TWO, BANDS, BOTH],
        d: 2,
        want: Err(ReduceFault::Choice {
            number: 9,
            place: 1,
        }),
    },
    Row {
        parts: [ONE, COMP, DEEP, DERIVED, FULL],
        d: 7,
        want: Ok([1, 128, 128, 25, 0, 0, 0]),
    },
    Row {
        parts: [ONE, COMP, DEEP, DERIVED, FULL],
        d: 8,
        want: Err(ReduceFault::Choice {
            number: 8,
            place: 0,
        }),
    },
];

// One file of the parts, one behind another.
fn file_of(alloc: Global, parts: &[&str]) -> Option<Vec<u8>> {
    let mut file = Vec::new(alloc);
    for part in parts {
        let bytes = bytes_of(alloc, part)?;
        file.extend_from_slice(&bytes).ok()?;
    }
    Some(file)
}

// A file's headers and blocks, where it isn't refused.
#[tactic(auto, using(jx_plan::proofs::PlanLemmas::gathered_may))]
fn input<'a>(alloc: Global, file: &'a [u8]) -> Option<(Stream, Vec<Block<'a>>)>
    ensures { IfSome result (λ r. MayBePlanned r.0 r.1.items) }
{
    if file.len() > MOST_BYTES {
        return None;
    }
    let Ok(stream) = read_stream(alloc, file) else {
        return None;
    };
    let Ok(blocks) = gather(alloc, file, &stream) else {
        return None;
    };
    Some((stream, blocks))
}

// The factors of the first component.
fn factors(stream: &Stream) -> [usize; 2] {
    match stream.siz.comps.as_slice().first() {
        Some(size) => [usize::from(size.dx), usize::from(size.dy)],
        None => [0, 0],
    }
}

// The levels and the precinct bytes of the first COD.
fn coding(stream: &Stream) -> [usize; 4] {
    for segment in stream.main.as_slice() {
        if let Segment::Cod(cod) = segment {
            let bytes = cod.shape.precincts.as_slice();
            let first = bytes.first().copied().unwrap_or(0);
            let last = bytes.last().copied().unwrap_or(0);
            return [
                usize::from(cod.shape.levels),
                bytes.len(),
                usize::from(first),
                usize::from(last),
            ];
        }
    }
    [0, 0, 0, 0]
}

fn facts_of(stream: &Stream, blocks: &[Block<'_>]) -> Facts {
    let [dx, dy] = factors(stream);
    let [levels, count, first, last] = coding(stream);
    [blocks.len(), dx, dy, levels, count, first, last]
}

// What is left of a codestream.
fn left_of(alloc: Global, stream: &Stream, blocks: &[Block<'_>], d: u8) -> Answer
    requires may { MayBePlanned stream.now blocks.now }
    requires few { d ≤ 32 }
{
    match reduce(alloc, stream, blocks, d) {
        Ok((stream, blocks)) => Ok(facts_of(&stream, &blocks)),
        Err(fault) => Err(fault),
    }
}

// What is left of a file; none where it is refused.
fn answer(alloc: Global, file: &[u8], d: u8) -> Option<Answer>
    requires { d ≤ 32 }
{
    let (stream, blocks) = input(alloc, file)?;
    Some(left_of(alloc, &stream, &blocks, d))
}

fn answer_of(alloc: Global, row: &Row) -> Option<Answer> {
    let file = file_of(alloc, &row.parts)?;
    if row.d > 32 {
        return None;
    }
    answer(alloc, &file, row.d)
}

#[test]
fn what_is_left(rt: HostRuntime) -> Result<(), Fail> {
    for (number, row) in ROWS.iter().enumerate() {
        equal_at(&rt, &number, answer_of(rt.alloc(), row), Some(row.want));
    }
    Ok(())
}

// Three components of five levels in one tile.
#[test]
fn a_larger_picture(rt: HostRuntime) -> Result<(), Fail> {
    let file = make(rt.alloc(), 1, 2048, 1536)?;
    for (d, want) in [
        (0, Ok(2316)),
        (1, Ok(588)),
        (5, Ok(3)),
        (
            6,
            Err(ReduceFault::Choice {
                number: 9,
                place: 0,
            }),
        ),
        (
            8,
            Err(ReduceFault::Choice {
                number: 8,
                place: 0,
            }),
        ),
    ] {
        let found = match answer(rt.alloc(), &file, d) {
            Some(Ok(facts)) => Some(Ok(facts[0])),
            Some(Err(fault)) => Some(Err(fault)),
            None => None,
        };
        equal_at(&rt, &d, found, Some(want));
    }
    Ok(())
}
