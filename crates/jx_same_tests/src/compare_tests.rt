//! Pairs of codestreams, and what is told of them.

ghost use Rattle.std.specs.Prelude.{◌≤◌, IfSome};
ghost use Rattle.jx_plan.specs.Plan.{MayBePlanned};

use crate::checks::equal_at;
use crate::hex::bytes_of;
use jx_base::{Band, Block, MOST_BYTES};
use jx_codestream::{Stream, read_stream};
use jx_same::{Answer, Field, Spot, compare};
use jx_tier2_reader::gather;
use std::alloc::Global;
use std::test::Fail;
use std::thread::Threads;

// SOC and SIZ up to the components, of one place in one tile, of two places in two tiles, and of 8 by 8 places.
pub(crate) const ONE: &str =
    "FF4F FF51 0029 0000 00000001 00000001 00000000 00000000 00000001 00000001 00000000 00000000";

const TWO: &str =
    "FF4F FF51 0029 0000 00000002 00000001 00000000 00000000 00000001 00000001 00000000 00000000";

const WIDE: &str =
    "FF4F FF51 0029 0000 00000008 00000008 00000000 00000000 00000008 00000008 00000000 00000000";

// Two components in two tiles, the second with every other column alone: it has no place in the second tile.
const THIN: &str =
    "FF4F FF51 002C 0000 00000002 00000001 00000000 00000000 00000001 00000001 00000000 00000000";

pub(crate) const COMP: &str = "0001 07 01 01";

const COMPS: &str = "0002 07 01 01 07 02 01";
// Code-blocks of 64 by 64, of 8 by 8 and of 4 by 4; each pass terminated; causal contexts; one level; the 9-7 wavelet.
pub(crate) const PLAIN: &str = "FF52 000C 00 00 0001 00 00 04 04 00 01";

const EIGHT: &str = "FF52 000C 00 00 0001 00 00 01 01 00 01";

const FOUR: &str = "FF52 000C 00 00 0001 00 00 00 00 00 01";

const ENDED: &str = "FF52 000C 00 00 0001 00 00 04 04 04 01";

const CAUSAL: &str = "FF52 000C 00 00 0001 00 00 04 04 08 01";

const LEVEL: &str = "FF52 000C 00 00 0001 00 01 04 04 00 01";

const LOSSY: &str = "FF52 000C 00 00 0001 00 00 04 04 00 00";
// The exponent is 8; 9; with one guard bit; four bands; scalar quantization, derived and expounded, with mantissas 0 and 1.
pub(crate) const STEP: &str = "FF5C 0004 40 40";

pub(crate) const FINER: &str = "FF5C 0004 40 48";

pub(crate) const GUARD: &str = "FF5C 0004 20 40";

const BANDS: &str = "FF5C 0007 40 40 40 40 40";

const DERIVED: &str = "FF5C 0005 41 4000";

const EXPOUNDED: &str = "FF5C 0005 42 4000";

const MANTISSA: &str = "FF5C 0005 42 4001";

const SHIFTED: &str = "FF5C 0004 40 40 FF5E 0005 00 00 01";

pub(crate) const EMPTY: &str = "FF90 000A 0000 0000000F 00 01 FF93 00 FFD9";

const EMPTIES: &str = "FF90 000A 0000 00000010 00 01 FF93 00 00 FFD9";

// What a block of one coding pass has: +1, -1, and 0, which is a plane more than nothing.
pub(crate) const PLUS: &str = "FF90 000A 0000 00000011 00 01 FF93 C0 21 03 FFD9";

pub(crate) const MINUS: &str = "FF90 000A 0000 00000011 00 01 FF93 C0 21 07 FFD9";

pub(crate) const ZERO: &str = "FF90 000A 0000 00000011 00 01 FF93 C0 21 60 FFD9";
// +2 in four passes: one segment, and four.
const PASSES: &str = "FF90 000A 0000 00000012 00 01 FF93 C0 74 10 01 FFD9";

const SEGMENTS: &str = "FF90 000A 0000 00000019 00 01 FF93 C0 74 52 40 03 FF7F FF7F FF7F FFD9";
// The third of these segments is another one.
const OTHER: &str = "FF90 000A 0000 00000019 00 01 FF93 C0 74 52 40 03 FF7F 0000 FF7F FFD9";
// One code-block with a pass without bytes, which decodes to 0; four, and four of which the last has no pass.
const WHOLE: &str = "FF90 000A 0000 00000010 00 01 FF93 C0 20 FFD9";

const QUARTERS: &str = "FF90 000A 0000 00000013 00 01 FF93 E0 18 30 60 C0 FFD9";

const THREE: &str = "FF90 000A 0000 00000013 00 01 FF93 E0 18 30 60 00 FFD9";
// Two tiles without a pass; the same with a shift of the second component, which is empty there.
const BARE: &str =
    "FF90 000A 0000 00000010 00 01 FF93 00 00 FF90 000A 0001 0000000F 00 01 FF93 00 FFD9";

const RAISED: &str =
    "FF90 000A 0000 00000010 00 01 FF93 00 00 FF90 000A 0001 00000016 00 01 FF5E 0005 01 00 01 FF93 00 FFD9";
// Two tiles: +1 and +1, +1 and -1.
const BOTH: &str =
    "FF90 000A 0000 00000011 00 01 FF93 C0 21 03 FF90 000A 0001 00000011 00 01 FF93 C0 21 03 FFD9";

const UNLIKE: &str =
    "FF90 000A 0000 00000011 00 01 FF93 C0 21 03 FF90 000A 0001 00000011 00 01 FF93 C0 21 07 FFD9";

/// A codestream by its parts.
pub(crate) type Parts = [&'static str; 5];

/// What is told of two codestreams: nothing where they are the same.
type Row = (Parts, Parts, Option<Field>);

static ROWS: [Row; 28] = [
    (
        [ONE, COMP, PLAIN, STEP, EMPTY],
        [ONE, COMP, PLAIN, STEP, EMPTY],
        None,
    ),
    (
        [ONE, COMP, PLAIN, STEP, EMPTY],
        [ONE, COMP, PLAIN, FINER, EMPTY],
        Some(Field::Exponent),
    ),
    (
        [ONE, COMP, PLAIN, STEP, PLUS],
        [ONE, COMP, PLAIN, STEP, MINUS],
        Some(Field::Coef),
    ),
    (
        [ONE, COMP, PLAIN, STEP, EMPTY],
        [ONE, COMP, PLAIN, STEP, ZERO],
        Some(Field::Coef),
    ),
    (
        [ONE, COMP, PLAIN, STEP, ZERO],
        [ONE, COMP, PLAIN, STEP, EMPTY],
        Some(Field::Coef),
    ),
    (
        [ONE, COMP, PLAIN, STEP, PASSES],
        [ONE, COMP, ENDED, STEP, SEGMENTS],
        None,
    ),
    (
        [ONE, COMP, ENDED, STEP, SEGMENTS],
        [ONE, COMP, PLAIN, STEP, PASSES],
        None,
    ),
    (
        [ONE, COMP, PLAIN, STEP, PASSES],
        [ONE, COMP, ENDED, STEP, OTHER],
        Some(Field::Coef),
    ),
    (
        [ONE, COMP, PLAIN, STEP, PASSES],
        [ONE, COMP, CAUSAL, STEP, PASSES],
        None,
    ),
    (
        [ONE, COMP, PLAIN, STEP, EMPTY],
        [ONE, COMP, ENDED, STEP, EMPTY],
        None,
    ),
    (
        [ONE, COMP, PLAIN, STEP, PLUS],
        [ONE, COMP, PLAIN, STEP, PASSES],
        Some(Field::Coef),
    ),
    (
        [ONE, COMP, ENDED, STEP, SEGMENTS],
        [ONE, COMP, ENDED, STEP, SEGMENTS],
        None,
    ),
    (
        [ONE, COMP, ENDED, STEP, SEGMENTS],
        [ONE, COMP, ENDED, STEP, OTHER],
        Some(Field::Coef),
    ),
    (
        [WIDE, COMP, EIGHT, STEP, WHOLE],
        [WIDE, COMP, FOUR, STEP, QUARTERS],
        None,
    ),
    (
        [WIDE, COMP, FOUR, STEP, QUARTERS],
        [WIDE, COMP, EIGHT, STEP, WHOLE],
        None,
    ),
    (
        [THIN, COMPS, PLAIN, STEP, BARE],
        [THIN, COMPS, PLAIN, STEP, BARE],
        None,
    ),
    (
        [THIN, COMPS, PLAIN, STEP, RAISED],
        [THIN, COMPS, PLAIN, STEP, RAISED],
        None,
    ),
    (
        [WIDE, COMP, EIGHT, STEP, EMPTY],
        [WIDE, COMP, FOUR, STEP, EMPTY],
        None,
    ),
    (
        [WIDE, COMP, FOUR, STEP, EMPTY],
        [WIDE, COMP, EIGHT, STEP, EMPTY],
        None,
    ),
    (
        [ONE, COMP, PLAIN, STEP, EMPTY],
        [WIDE, COMP, PLAIN, STEP, EMPTY],
        Some(Field::Canvas),
    ),
    (
        [ONE, COMP, PLAIN, STEP, EMPTY],
        [ONE, "0001 87 01 01", PLAIN, STEP, EMPTY],
        Some(Field::Depth),
    ),
    (
        [ONE, COMP, PLAIN, STEP, EMPTY],
        [ONE, "0001 07 02 01", PLAIN, STEP, EMPTY],
        Some(Field::Sampling),
    ),
    (
        [ONE, COMP, PLAIN, BANDS, EMPTY],
        [ONE, COMP, LEVEL, BANDS, EMPTIES],
        Some(Field::Levels),
    ),
    (
        [ONE, COMP, PLAIN, EXPOUNDED, EMPTY],
        [ONE, COMP, LOSSY, EXPOUNDED, EMPTY],
        Some(Field::Wavelet),
    ),
    (
        [ONE, COMP, LOSSY, DERIVED, EMPTY],
        [ONE, COMP, LOSSY, EXPOUNDED, EMPTY],
        Some(Field::Quant),
    ),
    (
        [ONE, COMP, PLAIN, STEP, EMPTY],
        [ONE, COMP, PLAIN, GUARD, EMPTY],
        Some(Field::Guard),
    ),
    (
        [ONE, COMP, LOSSY, EXPOUNDED, EMPTY],
        [ONE, COMP, LOSSY, MANTISSA, EMPTY],
        Some(Field::Mantissa),
    ),
    (
        [ONE, COMP, PLAIN, STEP, EMPTY],
        [ONE, COMP, PLAIN, SHIFTED, EMPTY],
        Some(Field::Shift),
    ),
];

// One file of the parts, one behind another.
fn file_of(alloc: Global, parts: &Parts) -> Option<Vec<u8>> {
    let mut file = Vec::new(alloc);
    for part in parts {
        let bytes = bytes_of(alloc, part)?;
        file.extend_from_slice(&bytes).ok()?;
    }
    Some(file)
}

// A file's headers and blocks, where it isn't refused.
#[tactic(auto, using(jx_plan::proofs::PlanLemmas::gathered_may))]
fn input<'a>(alloc: Global, file: &'a [u8]) -> Option<(Stream, Vec<Block<'a>>)>
    ensures { IfSome result (λ r. MayBePlanned r.0 r.1.items) }
{
    if file.len() > MOST_BYTES {
        return None;
    }
    let Ok(stream) = read_stream(alloc, file) else {
        return None;
    };
    let Ok(blocks) = gather(alloc, file, &stream) else {
        return None;
    };
    Some((stream, blocks))
}

// What is told of two files by so many threads; none where one of them is refused.
pub(crate) fn answer<R: Threads + Sync>(
    rt: &R,
    alloc: Global,
    threads: u32,
    a: &Parts,
    b: &Parts,
) -> Option<Answer>
    requires { (1 ≤ threads) × (threads ≤ 64) }
{
    let (first, second) = (file_of(alloc, a)?, file_of(alloc, b)?);
    let (sa, ba) = input(alloc, &first)?;
    let (sb, bb) = input(alloc, &second)?;
    compare(rt, alloc, threads, &sa, &ba, &sb, &bb).ok()
}

// Where two files differ; none where they are the same or one of them is refused.
fn spot_in(answer: Option<Answer>) -> Option<Spot> {
    match answer {
        Some(Answer::Differs(difference)) => Some(difference.spot),
        _ => None,
    }
}

// A value of the first tile and component, at the first place.
fn at_first(field: Field) -> Spot {
    spot(field, 0, 0, 0, 0)
}

#[test]
fn first_values_that_differ(rt: HostRuntime) -> Result<(), Fail> {
    for (number, (a, b, field)) in ROWS.iter().enumerate() {
        for threads in [1, 2, 64] {
            let found = answer(&rt, rt.alloc(), threads, a, b);
            equal_at(
                &rt,
                &(number, threads),
                found == Some(Answer::Same),
                field.is_none(),
            );
            equal_at(&rt, &(number, threads), spot_in(found), field.map(at_first));
        }
    }
    Ok(())
}

// A spot of the lowest band.
fn spot(field: Field, tile: u16, comp: u16, x: u32, y: u32) -> Spot {
    Spot {
        field,
        tile,
        comp,
        res: 0,
        band: Band::LL,
        x,
        y,
    }
}

// The coefficient of the second tile stands in the second column of its band. Of four code-blocks the last one differs from a whole
// one. A tile's header says something of a component without a place there.
#[test]
fn other_spots(rt: HostRuntime) -> Result<(), Fail> {
    let rows = [
        (
            [TWO, COMP, PLAIN, STEP, BOTH],
            [TWO, COMP, PLAIN, STEP, UNLIKE],
            spot(Field::Coef, 1, 0, 1, 0),
        ),
        (
            [WIDE, COMP, EIGHT, STEP, WHOLE],
            [WIDE, COMP, FOUR, STEP, THREE],
            spot(Field::Coef, 0, 0, 4, 4),
        ),
        (
            [WIDE, COMP, FOUR, STEP, THREE],
            [WIDE, COMP, EIGHT, STEP, WHOLE],
            spot(Field::Coef, 0, 0, 4, 4),
        ),
        (
            [THIN, COMPS, PLAIN, STEP, BARE],
            [THIN, COMPS, PLAIN, STEP, RAISED],
            spot(Field::Shift, 1, 1, 0, 0),
        ),
    ];
    for (number, (a, b, want)) in rows.iter().enumerate() {
        let found = answer(&rt, rt.alloc(), 3, a, b);
        equal_at(&rt, &number, spot_in(found), Some(*want));
    }
    Ok(())
}
