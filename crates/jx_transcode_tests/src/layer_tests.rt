//! Layers by the planners that are handed in.

use crate::run_tests::{GOOD, SMALL};
use crate::runs::{Made, Want, ending, holding, is_left, run_planned};
use crate::style_tests::body;
use jx_io_memory::NoGate;
use jx_layers::{CutLayers, LayerPlanner};
use jx_transcode::Status;
use std::alloc::Global;
use std::test::Fail;

// The small file with four passes of its block, in two layers: one and three of them. The one byte of the block is in layer 0.
const TWO_LAYERS: [u8; 86] = [
    0xFF, 0x4F, 0xFF, 0x51, 0, 0x29, 0, 0, 0, 0, 0, 1, 0, 0, 0, 1, 0, 0, 0, 0, 0, 0, 0, 0, 0, 0, 0,
    1, 0, 0, 0, 1, 0, 0, 0, 0, 0, 0, 0, 0, 0, 1, 7, 1, 1, 0xFF, 0x52, 0, 0x0C, 0, 0, 0, 2, 0, 0, 4,
    4, 0, 1, 0xFF, 0x5C, 0, 4, 0x40, 0x40, 0xFF, 0x90, 0, 0x0A, 0, 0, 0, 0, 0, 0x13, 0, 1, 0xFF,
    0x93, 0xC0, 0x42, 1, 0xF0, 0, 0xFF, 0xD9,
];

const CUTS: [&str; 6] = ["jx", "transcode", "in", "out", "--layers", "cuts:1"];

// It cuts before pass 1. No other planner is there.
#[test]
fn a_planner_is_handed_in(rt: HostRuntime) -> Result<(), Fail> {
    let bytes = body(rt.alloc(), 0, &[0xC0, 0x74, 0x10, 1])?;
    let planners = one_planner(rt.alloc())?;
    let left = run_planned(&rt, &CUTS, &holding(&bytes), &NoGate, planners)?;
    let want = Want {
        made: Made::Bytes(&TWO_LAYERS),
        ..ending(Status::Done, "done: 1 blocks, 86 bytes\n")
    };
    is_left(&rt, &CUTS, &left, &want);
    Ok(())
}

fn one_planner(alloc: Global) -> Result<Vec<Box<dyn LayerPlanner>>, Fail> {
    let cuts: Box<dyn LayerPlanner> = Box::new(alloc, CutLayers::new())?;
    let mut planners = Vec::new(alloc);
    planners.push(cuts)?;
    Ok(planners)
}

#[test]
fn no_planners(rt: HostRuntime) -> Result<(), Fail> {
    let none = Vec::new(rt.alloc());
    let left = run_planned(&rt, &GOOD, &holding(&SMALL), &NoGate, none)?;
    let choice = Status::Choice {
        number: 6,
        place: 0,
    };
    let want = Want {
        blocks: Some(1),
        ..ending(choice, "choice 6 at 0\n")
    };
    is_left(&rt, &GOOD, &left, &want);
    Ok(())
}
