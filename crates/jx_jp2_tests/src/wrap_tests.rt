//! A file with another codestream in the place of its own.

use crate::checks::check;
use crate::files::{CONTENT, HEADER, LONG, REST, SHORT, START, file_of};
use jx_base::MOST_BYTES;
use jx_jp2::{around, find, head_for};
use std::alloc::{AllocError, Global};
use std::process::Abort;
use std::test::Fail;

const INNER: &[u8] = &[9; 88];

// Appends the file with INNER in it.
fn wrapped(rt: &impl Abort, file: &[u8], out: &mut Vec<u8>) -> Result<(), AllocError> {
    check(rt, file.len() <= MOST_BYTES);
    let Ok(boxed) = find(file) else {
        return Ok(());
    };
    let (front, back) = around(file, &boxed);
    let head = head_for(&boxed, INNER.len() as u64);
    out.extend_from_slice(front)?;
    out.extend_from_slice(head.bytes())?;
    out.extend_from_slice(INNER)?;
    out.extend_from_slice(back)
}

fn becomes(
    rt: &impl Abort,
    alloc: Global,
    pieces: &[&[u8]],
    want: &[&[u8]],
) -> Result<(), AllocError> {
    let file = file_of(alloc, pieces)?;
    let whole = file_of(alloc, want)?;
    let mut out = file_of(alloc, &[b"\x05"])?;
    check(rt, wrapped(rt, &file, &mut out).is_ok());
    check(rt, out.as_slice() == whole.as_slice());
    Ok(())
}

#[test]
fn keeps_each_form(rt: HostRuntime) -> Result<(), Fail> {
    let alloc = rt.alloc();
    becomes(
        &rt,
        alloc,
        &[START, SHORT, CONTENT, HEADER],
        &[b"\x05", START, b"\0\0\0\x60jp2c", INNER, HEADER],
    )?;
    becomes(
        &rt,
        alloc,
        &[START, LONG, CONTENT, HEADER],
        &[
            b"\x05",
            START,
            b"\0\0\0\x01jp2c\0\0\0\0\0\0\0\x68",
            INNER,
            HEADER,
        ],
    )?;
    becomes(
        &rt,
        alloc,
        &[START, HEADER, REST, CONTENT],
        &[b"\x05", START, HEADER, REST, INNER],
    )?;
    Ok(())
}
