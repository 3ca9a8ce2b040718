//! Runs of `same`: the second file is opened once the first is accepted, and what a report has of the first.

use crate::bytes::{Edit, spliced};
use crate::run_tests::SMALL;
use crate::runs::{Devices, Want, ending, ends, holding, stops};
use jx_io_memory::Call;
use jx_transcode::Status;
use std::process::Abort;
use std::sync::Wait;
use std::test::Fail;
use std::thread::Threads;

// The second name, an edit of the first file, and what a run ends with: the status, the code-blocks and the line. No file has the name `gone`.
type Row<'a> = (&'a str, Edit<'a>, Status, u32, &'a str);

static ROWS: [Row<'static>; 3] = [
    ("in", (80, 0, &[]), Status::Done, 1, "same\n"),
    ("gone", (80, 0, &[]), Status::ReadFault, 0, "read fault\n"),
    (
        "gone",
        (51, 2, &[0, 0]),
        Status::Rule {
            number: 6,
            place: 45,
        },
        0,
        "rule 6 at 45\n",
    ),
];

fn all_stop(
    rt: &(impl Abort + AllocGlobal + Threads + Wait + Sync),
    rows: &[Row<'_>],
) -> Result<(), Fail> {
    for (second, edit, status, blocks, line) in rows {
        let bytes = spliced(rt.alloc(), &SMALL, &[*edit])?;
        stops(
            rt,
            &["jx", "same", "in", second],
            &bytes,
            *status,
            *blocks,
            line,
        )?;
    }
    Ok(())
}

#[test]
fn first_before_second(rt: HostRuntime) -> Result<(), Fail> {
    all_stop(&rt, &ROWS)
}

// Each file is opened once, and read to its end by two calls.
#[test]
fn second_that_fails(rt: HostRuntime) -> Result<(), Fail> {
    let want: Want<'_> = Want {
        blocks: Some(0),
        ..ending(Status::ReadFault, "read fault\n")
    };
    for failing in [(Call::Open, 2), (Call::Read, 3), (Call::Read, 4)] {
        let devices = Devices {
            failing: &[failing],
            ..holding(&SMALL)
        };
        ends(&rt, &["jx", "same", "in", "in"], &devices, &want)?;
    }
    Ok(())
}
