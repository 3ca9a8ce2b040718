//! How many code-blocks a report has of an input that is refused.

use crate::bytes::{Edit, put_all, repeated, spliced};
use crate::run_tests::{GOOD, SMALL};
use crate::runs::stops;
use jx_transcode::Status;
use std::alloc::{AllocError, Global};
use std::process::Abort;
use std::sync::Wait;
use std::test::Fail;
use std::thread::Threads;

// Words, an edit of the small file, and what a run ends with: the status, the code-blocks and the line.
type Row<'a> = (&'a [&'a str], Edit<'a>, Status, u32, &'a str);

static ROWS: [Row<'static>; 4] = [
    (
        &GOOD,
        (51, 2, &[0, 0]),
        Status::Rule {
            number: 6,
            place: 45,
        },
        0,
        "rule 6 at 45\n",
    ),
    (
        &GOOD,
        (71, 9, &[0, 0, 0, 15, 0, 1, 0xFF, 0x93, 0xC0]),
        Status::Rule {
            number: 26,
            place: 79,
        },
        0,
        "rule 26 at 79\n",
    ),
    (
        &GOOD,
        (8, 4, &[0, 1, 0, 0]),
        Status::Limit {
            number: 3,
            found: 65_536,
        },
        0,
        "limit 3: 65536\n",
    ),
    (
        &["jx", "transcode", "in", "out", "--precincts", "5x5"],
        (80, 0, &[]),
        Status::Choice {
            number: 2,
            place: 0,
        },
        1,
        "choice 2 at 0\n",
    ),
];

fn all_stop(
    rt: &(impl Abort + AllocGlobal + Threads + Wait + Sync),
    rows: &[Row<'_>],
) -> Result<(), Fail> {
    for (words, edit, status, blocks, line) in rows {
        let bytes = spliced(rt.alloc(), &SMALL, &[*edit])?;
        stops(rt, words, &bytes, *status, *blocks, line)?;
    }
    Ok(())
}

#[test]
fn blocks_are_told(rt: HostRuntime) -> Result<(), Fail> {
    all_stop(&rt, &ROWS)
}

// 81 precincts of each of 65,535 layers.
fn many_packets(alloc: Global) -> Result<Vec<u8>, AllocError> {
    let side = [0, 0, 0, 36, 0, 0, 0, 36];
    let edits: [Edit<'_>; 5] = [
        (8, 8, &side),
        (24, 8, &side),
        (51, 2, &[0xFF, 0xFF]),
        (55, 2, &[0, 0]),
        (71, 4, &[0, 1, 0, 13]),
    ];
    let mut bytes = spliced(alloc, &SMALL[..79], &edits)?;
    let packets = repeated(alloc, 0, 65_535)?;
    put_all(&mut bytes, &[&packets, &[0xFF, 0xD9]])?;
    Ok(bytes)
}

#[test]
fn too_many_packets(rt: HostRuntime) -> Result<(), Fail> {
    let bytes = many_packets(rt.alloc())?;
    let words = ["jx", "transcode", "in", "out", "--precincts", "2x2"];
    let limit = Status::Limit {
        number: 7,
        found: 5_308_335,
    };
    stops(&rt, &words, &bytes, limit, 81, "limit 7: 5308335\n")
}
