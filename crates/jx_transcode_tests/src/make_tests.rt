//! `make`: a generated codestream is transcoded in memory.

use crate::checks::equal;
use crate::runs::{Devices, Made, Want, ending, ends, holding, is_left, run_planned, run_words};
use jx_io_memory::{Call, NoGate};
use jx_layers::{KeepLayers, LayerPlanner};
use jx_transcode::Status;
use std::alloc::{AllocError, Global};
use std::test::Fail;

const MAKE: [&str; 5] = ["jx", "make", "5", "1", "1"];

// The fixed options, as words of `transcode`.
const FIXED: [&str; 17] = [
    "jx",
    "transcode",
    "in",
    "out",
    "--order",
    "rpcl",
    "--layers",
    "one",
    "--style",
    "bypass+segment",
    "--tile-parts",
    "r",
    "--plt",
    "--threads",
    "4",
    "--window",
    "64",
];

fn sum_of(bytes: &[u8]) -> u64 {
    let mut sum = 0u64;
    for byte in bytes {
        sum = sum.wrapping_add(u64::from(*byte));
    }
    sum
}

// Devices of which no call is to be made: an older file IN stands there, and the first call of each kind fails.
fn untouched(unsaid: Option<u32>) -> Devices<'static> {
    Devices {
        failing: &[
            (Call::Open, 1),
            (Call::Read, 1),
            (Call::Create, 1),
            (Call::Write, 1),
            (Call::Finish, 1),
        ],
        unsaid,
        ..holding(b"older")
    }
}

#[test]
fn lines_of_make(rt: HostRuntime) -> Result<(), Fail> {
    let made = "make: 3 blocks, 1101 bytes in, 293 bytes out, sum 14543\n";
    for (side, status, blocks, line) in [
        ("1", Status::Done, 3, made),
        ("0", Status::Words, 0, "words\n"),
    ] {
        let words = ["jx", "make", "5", side, "1"];
        let want = Want {
            blocks: Some(blocks),
            taped: Some(blocks as usize),
            ..ending(status, line)
        };
        ends(&rt, &words, &untouched(None), &want)?;
    }
    Ok(())
}

// `make` asks for what these words of `transcode` ask for, of the same codestream.
#[test]
fn fixed_options_are_words(rt: HostRuntime) -> Result<(), Fail> {
    let input = jx_generate::make(rt.alloc(), 5, 1, 1).map_err(|_| "memory")?;
    let left = run_words(&rt, &FIXED, &holding(&input))?;
    let want = Want {
        made: Made::Length(293),
        ..ending(Status::Done, "done: 3 blocks, 293 bytes\n")
    };
    is_left(&rt, &FIXED, &left, &want);
    equal(&rt, sum_of(left.made().unwrap_or(&[])), 14_543);
    Ok(())
}

fn one_planner(alloc: Global) -> Result<Vec<Box<dyn LayerPlanner>>, AllocError> {
    let keep: Box<dyn LayerPlanner> = Box::new(alloc, KeepLayers::new())?;
    let mut planners = Vec::new(alloc);
    planners.push(keep)?;
    Ok(planners)
}

#[test]
fn no_planner_serves(rt: HostRuntime) -> Result<(), Fail> {
    let planners = one_planner(rt.alloc())?;
    let left = run_planned(&rt, &MAKE, &untouched(None), &NoGate, planners)?;
    let choice = Status::Choice {
        number: 6,
        place: 0,
    };
    let want = Want {
        blocks: Some(3),
        taped: Some(0),
        ..ending(choice, "choice 6 at 0\n")
    };
    is_left(&rt, &MAKE, &left, &want);
    Ok(())
}

#[test]
fn line_of_make_is_not_said(rt: HostRuntime) -> Result<(), Fail> {
    let want = Want {
        blocks: Some(3),
        ..ending(Status::WriteFault, "")
    };
    ends(&rt, &MAKE, &untouched(Some(1)), &want)
}
