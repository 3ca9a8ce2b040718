//! The lines of a file's boxes.

use crate::checks::{check, equal_at};
use crate::files::{CONTENT, HEADER, REST, SHORT, START, file_of};
use jx_base::MOST_BYTES;
use jx_jp2::{BoxFault, list};
use std::alloc::{AllocError, Global};
use std::process::Abort;
use std::test::Fail;

fn lists(rt: &impl Abort, alloc: Global, pieces: &[&[u8]], want: &str) -> Result<(), AllocError> {
    let file = file_of(alloc, pieces)?;
    check(rt, file.len() <= MOST_BYTES);
    match list(alloc, &file) {
        Ok(text) => equal_at(rt, &want, text.as_str() == want, true),
        Err(_) => check(rt, false),
    }
    Ok(())
}

fn breaks(
    rt: &impl Abort,
    alloc: Global,
    pieces: &[&[u8]],
    number: u8,
    place: u32,
) -> Result<(), AllocError> {
    let file = file_of(alloc, pieces)?;
    check(rt, file.len() <= MOST_BYTES);
    match list(alloc, &file) {
        Ok(_) => check(rt, false),
        Err(fault) => equal_at(rt, &place, fault, BoxFault::Rule { number, place }),
    }
    Ok(())
}

#[test]
fn lists_all(rt: HostRuntime) -> Result<(), Fail> {
    let alloc = rt.alloc();
    lists(
        &rt,
        alloc,
        &[START, HEADER, SHORT, CONTENT],
        "jP   0 12\nftyp 12 20\njp2h 32 45\n  ihdr 40 22\n  colr 62 15\njp2c 77 90\n",
    )?;
    // Boxes behind the codestream, a resolution in the header, and a type that is no text.
    lists(
        &rt,
        alloc,
        &[
            START,
            b"\0\0\0\x08jp2c\0\0\0\x24jp2h\0\0\0\x1Cres \0\0\0\x0Aresc\x01\x02\0\0\0\x0Aresd\x03\x04\0\0\0\x10uinf\0\0\0\x08res ",
            b"\0\0\0\x08jp\x1F\xFE",
            REST,
            CONTENT,
        ],
        "jP   0 12\nftyp 12 20\njp2c 32 8\njp2h 40 36\n  res  48 28\n    resc 56 10\n    resd 66 10\nuinf 76 16\n  res  84 8\n6A701FFE 92 8\njp2c 100 90\n",
    )?;
    lists(&rt, alloc, &[], "")?;
    Ok(())
}

#[test]
fn names_first_rule(rt: HostRuntime) -> Result<(), Fail> {
    let alloc = rt.alloc();
    // A box that passes its parent's end, though not the file's.
    breaks(
        &rt,
        alloc,
        &[START, b"\0\0\0\x10jp2h\0\0\0\x09ihdr", SHORT, CONTENT],
        34,
        40,
    )?;
    breaks(
        &rt,
        alloc,
        &[START, b"\0\0\0\x10jp2h\0\0\0\0ihdr", SHORT, CONTENT],
        33,
        40,
    )?;
    breaks(
        &rt,
        alloc,
        &[START, b"\0\0\0\x0Fjp2h\0\0\0\0ihdr", SHORT, CONTENT],
        32,
        40,
    )?;
    // The first in order of place, not the first level by level.
    breaks(
        &rt,
        alloc,
        &[START, b"\0\0\0\x10jp2h\0\0\0\x07ihdr\0\0\0\x02free"],
        33,
        40,
    )?;
    Ok(())
}

// 2,000 boxes in the header, and 3,000 behind it.
#[test]
fn lists_many(rt: HostRuntime) -> Result<(), Fail> {
    let mut file = file_of(rt.alloc(), &[START, b"\0\0\x3E\x88jp2h"])?;
    for _ in 0..5_000_u32 {
        file.extend_from_slice(b"\0\0\0\x08free")?;
    }
    check(&rt, file.len() <= MOST_BYTES);
    match list(rt.alloc(), &file) {
        Ok(text) => equal_at(&rt, &"length", text.len(), 67_662),
        Err(_) => check(&rt, false),
    }
    Ok(())
}
