//! Rows of plans: what the program doesn't show of them, and planners that aren't the program's.

use crate::checks::equal;
use crate::planned::{Ask, AskStyle, Want, is_answered, misfit};
use jx_base::Style;
use jx_plan::PlanFault;
use std::alloc::Global;
use std::test::Fail;

// Two tiles of one sample, with a pass in the first's one layer, and one in each of the second's two, which its own COD says.
const TILES: &str = "
    FF4F FF51 0029 0000 00000002 00000001 00000000 00000000 00000001 00000001 00000000 00000000 0001 07 01 01
    FF52 000C 00 00 0001 00 00 04 04 00 01 FF5C 0004 40 40
    FF90 000A 0000 00000010 00 01 FF93 E101
    FF90 000A 0001 00000020 00 01 FF52 000C 00 00 0002 00 00 04 04 00 01 FF93 E101 C202
    FFD9";

// Three tiles of one column each; every second column has a sample, so the tile in the middle has no code-block.
const COLUMNS: &str = "
    FF4F FF51 0029 0000 00000003 00000001 00000000 00000000 00000001 00000001 00000000 00000000 0001 07 02 01
    FF52 000C 00 00 0001 00 00 04 04 00 01 FF5C 0004 40 40
    FF90 000A 0000 0000000F 00 01 FF93 00 FF90 000A 0001 0000000E 00 01 FF93 FF90 000A 0002 0000000F 00 01 FF93 00
    FFD9";

// Two tiles of two samples with a level each, whose packets are empty; the blocks' exponents are 5, in the second tile 6.
const LEVELS: &str = "
    FF4F FF51 0029 0000 00000004 00000001 00000000 00000000 00000002 00000001 00000000 00000000 0001 07 01 01
    FF52 000C 00 00 0001 00 01 03 03 00 01 FF5C 0007 40 40 40 40 40
    FF90 000A 0000 00000010 00 01 FF93 0000
    FF90 000A 0001 0000001E 00 01 FF52 000C 00 00 0001 00 01 04 04 00 01 FF93 0000
    FFD9";

// The same, but the first tile has no level.
const LEVEL: &str = "
    FF4F FF51 0029 0000 00000004 00000001 00000000 00000000 00000002 00000001 00000000 00000000 0001 07 01 01
    FF52 000C 00 00 0001 00 00 03 03 00 01 FF5C 0007 40 40 40 40 40
    FF90 000A 0000 0000000F 00 01 FF93 00
    FF90 000A 0001 0000001E 00 01 FF52 000C 00 00 0001 00 01 04 04 00 01 FF93 0000
    FFD9";

// One sample with a level and style 0, whose block has three passes of its nine planes; and the same with four passes.
const THREE: &str = "
    FF4F FF51 0029 0000 00000001 00000001 00000000 00000000 00000001 00000001 00000000 00000000 0001 07 01 01
    FF52 000C 00 00 0001 00 01 04 04 00 01 FF5C 0007 40 40 40 40 40
    FF90 000A 0000 00000012 00 01 FF93 F81001 00
    FFD9";

const FOUR: &str = "
    FF4F FF51 0029 0000 00000001 00000001 00000000 00000000 00000001 00000001 00000000 00000000 0001 07 01 01
    FF52 000C 00 00 0001 00 01 04 04 00 01 FF5C 0007 40 40 40 40 40
    FF90 000A 0000 00000012 00 01 FF93 FA0801 00
    FFD9";

// The order is RPCL, with POC in both headers; a tile of two tile-parts.
const POC: &str = "
    FF4F FF51 0029 0001 00000001 00000001 00000000 00000000 00000001 00000001 00000000 00000000 0001 07 01 01
    FF52 000C 00 02 0001 00 00 04 04 00 01 FF5C 0004 40 40 FF5F 0009 00 00 0001 01 01 04 FF55 0004 00 40
    FF64 0005 0001 61 FF30
    FF90 000A 0000 00000032 00 02 FF53 0009 00 00 00 04 04 01 01 FF64 0005 0001 62 FF5F 0009 00 00 0001 01 01 03 FF58 0004 00 01 FF93 00
    FF90 000A 0000 0000001B 01 02 FF64 0005 0001 63 FF58 0004 00 01 FF93
    FFD9";

const KEEP: Ask = Ask {
    words: "keep",
    planners: &[0],
    style: AskStyle::Keep,
    cprl: false,
    precincts: None,
};

const PLAIN: Ask = Ask {
    words: "keep",
    planners: &[0],
    style: AskStyle::Plain,
    cprl: false,
    precincts: None,
};

const CAUSAL: Ask = Ask {
    words: "keep",
    planners: &[0],
    style: AskStyle::Causal,
    cprl: false,
    precincts: None,
};

// Without exponents each is 15.
const CAUSAL_LARGEST: Ask = Ask {
    words: "keep",
    planners: &[0],
    style: AskStyle::Causal,
    cprl: false,
    precincts: Some(&[]),
};

const OTHERS_LARGEST: Ask = Ask {
    words: "keep",
    planners: &[0],
    style: AskStyle::Others,
    cprl: false,
    precincts: Some(&[]),
};

const CUT: Ask = Ask {
    words: "cuts:1,2",
    planners: &[3],
    style: AskStyle::Keep,
    cprl: false,
    precincts: None,
};

const CUT_IN_PRECINCTS: Ask = Ask {
    words: "cuts:1,2",
    planners: &[3],
    style: AskStyle::Keep,
    cprl: true,
    precincts: Some(&[0x67, 0x55]),
};

// The planner of a table and that of one layer serve the same words.
const TABLE_FIRST: Ask = Ask {
    words: "one",
    planners: &[0, 1, 2],
    style: AskStyle::Keep,
    cprl: false,
    precincts: None,
};

const TABLE_LAST: Ask = Ask {
    words: "one",
    planners: &[0, 2, 1],
    style: AskStyle::Keep,
    cprl: false,
    precincts: None,
};

const UNSERVED: Ask = Ask {
    words: "two",
    planners: &[0, 1, 2],
    style: AskStyle::Keep,
    cprl: false,
    precincts: None,
};

const NONE: Ask = Ask {
    words: "two",
    planners: &[],
    style: AskStyle::Keep,
    cprl: false,
    precincts: None,
};

const NO_RULE: PlanFault = PlanFault::Choice {
    number: 6,
    place: 0,
};

// A file, what is asked of it, and what is wanted of the plan. A style is asked of a block that has another one; where all six bits
// are the same, or no style is asked, none is.
static PLANS: [(&str, &Ask, Want); 12] = [
    (COLUMNS, &KEEP, Want::Tiles(&[(0, 1), (1, 1), (1, 2)])),
    (FOUR, &CAUSAL, Want::Style(Some(Style { bits: 0x08 }))),
    (
        FOUR,
        &CAUSAL_LARGEST,
        Want::Style(Some(Style { bits: 0x08 })),
    ),
    (
        THREE,
        &OTHERS_LARGEST,
        Want::Style(Some(Style { bits: 0x27 })),
    ),
    (THREE, &PLAIN, Want::Style(None)),
    (THREE, &KEEP, Want::Style(None)),
    (POC, &CUT, Want::Entry(3, 33, 2)),
    (POC, &CUT_IN_PRECINCTS, Want::Entry(3, 33, 4)),
    (
        TILES,
        &TABLE_FIRST,
        Want::Layers(2, &[[0, 0, 1], [1, 1, 2]]),
    ),
    (TILES, &TABLE_LAST, Want::Layers(1, &[[0, 0, 1], [1, 0, 2]])),
    (TILES, &UNSERVED, Want::Fault(NO_RULE)),
    (TILES, &NONE, Want::Fault(NO_RULE)),
];

#[test]
fn plans(rt: HostRuntime) -> Result<(), Fail> {
    for (text, ask, want) in &PLANS {
        equal(&rt, is_answered(rt.alloc(), text, ask, *want), Some(true));
    }
    Ok(())
}

// A file, a style and exponents that are asked of it, and the number and the place of the choice that can't be had.
type Row = (&'static str, AskStyle, &'static [u8], (u8, u32));

// Choice 1 comes before 3, 3 before 2, and each before 6. The second tile's block has two passes, the first one's has one.
static CHOICES: [Row; 15] = [
    (LEVELS, AskStyle::Keep, &[], (6, 0)),
    (LEVELS, AskStyle::Keep, &[0x77], (6, 0)),
    (LEVELS, AskStyle::Keep, &[0x77, 0x70], (3, 0)),
    (LEVELS, AskStyle::Keep, &[0x00], (3, 0)),
    (LEVELS, AskStyle::Keep, &[0x70, 0x77], (2, 0)),
    (LEVELS, AskStyle::Keep, &[0x55], (2, 0)),
    (LEVELS, AskStyle::Keep, &[0x55, 0x66], (2, 1)),
    (LEVEL, AskStyle::Keep, &[0x77, 0x07], (3, 1)),
    (THREE, AskStyle::Causal, &[], (1, 0)),
    (THREE, AskStyle::Causal, &[0x77, 0x70], (1, 0)),
    (THREE, AskStyle::Others, &[0x77, 0x70], (3, 0)),
    (THREE, AskStyle::Others, &[], (6, 0)),
    (FOUR, AskStyle::Causal, &[], (6, 0)),
    (TILES, AskStyle::Causal, &[], (1, 1)),
    (LEVELS, AskStyle::Causal, &[], (6, 0)),
];

// The planner of one layer has no rule for these words.
fn is_chosen(alloc: Global, row: &Row) -> Option<bool> {
    let (text, style, bytes, (number, place)) = *row;
    let ask = Ask {
        words: "keep",
        planners: &[2],
        style,
        cprl: false,
        precincts: Some(bytes),
    };
    let fault = PlanFault::Choice { number, place };
    is_answered(alloc, text, &ask, Want::Fault(fault))
}

#[test]
fn choices_without_a_rule(rt: HostRuntime) -> Result<(), Fail> {
    for row in &CHOICES {
        equal(&rt, is_chosen(rt.alloc(), row), Some(true));
    }
    Ok(())
}

// Two components of code-blocks of 64 by 64, of which the second has precincts of 16 by 32 in resolution 1.
const OWN: &str = "
    FF4F FF51 002C 0000 00000001 00000001 00000000 00000000 00000001 00000001 00000000 00000000 0002 070101 070101
    FF52 000E 01 00 0001 00 01 04 04 00 01 66 77 FF53 000B 01 01 01 04 04 00 01 66 54 FF5C 0007 40 40 40 40 40
    FF90 000A 0000 00000012 00 01 FF93 00000000
    FFD9";

// A file, a tile, precincts that are asked, and the component, the resolution and the exponents there that can be had.
type Fit = (&'static str, u16, &'static [u8], Option<(u16, u8, u8, u8)>);

static FITS: [Fit; 7] = [
    (LEVELS, 0, &[0x66], None),
    (LEVELS, 0, &[0x55], Some((0, 1, 15, 15))),
    (LEVELS, 1, &[0x55], Some((0, 0, 15, 15))),
    (OWN, 0, &[], Some((1, 1, 4, 5))),
    (OWN, 0, &[0x66, 0x77], Some((1, 1, 4, 5))),
    (OWN, 0, &[0x66, 0x54], Some((0, 1, 7, 7))),
    (OWN, 0, &[0x65], Some((0, 0, 6, 6))),
];

#[test]
fn own_exponents(rt: HostRuntime) -> Result<(), Fail> {
    for (text, tile, bytes, want) in &FITS {
        equal(&rt, misfit(rt.alloc(), text, *tile, bytes), Some(*want));
    }
    Ok(())
}
