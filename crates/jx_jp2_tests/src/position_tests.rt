//! Whether a file has a box that holds positions in it.

use crate::checks::{check, equal_at};
use crate::files::{CONTENT, HEADER, LONG, REST, SHORT, START, file_of};
use jx_base::MOST_BYTES;
use jx_jp2::holds_positions;
use std::alloc::{AllocError, Global};
use std::process::Abort;
use std::test::Fail;

// A box of each type that holds positions, with 4 bytes of content, that of `iptr` with a long head.
const FRAGMENTS: &[u8] = b"\0\0\0\x0Cftbl\0\0\0\x01";

const FRAGMENT_LIST: &[u8] = b"\0\0\0\x0Cflst\0\0\0\x05";

const REFERENCE: &[u8] = b"\0\0\0\x0Ccref\0\0\0\x06";

const SIGNATURE: &[u8] = b"\0\0\0\x0Cchck\0\0\0\x07";

const PAGES: &[u8] = b"\0\0\0\x0Cpagt\0\0\0\x08";

const FILE_INDEX: &[u8] = b"\0\0\0\x0Cfidx\0\0\0\x02";

const CODE_INDEX: &[u8] = b"\0\0\0\x0Ccidx\0\0\0\x03";

const FINDER: &[u8] = b"\0\0\0\x01iptr\0\0\0\0\0\0\0\x14\0\0\0\x04";

fn holds(
    rt: &impl Abort,
    alloc: Global,
    case: &str,
    pieces: &[&[u8]],
    want: bool,
) -> Result<(), AllocError> {
    let file = file_of(alloc, pieces)?;
    check(rt, file.len() <= MOST_BYTES);
    equal_at(rt, &case, holds_positions(&file), want);
    Ok(())
}

#[test]
fn passes_over_others(rt: HostRuntime) -> Result<(), Fail> {
    let alloc = rt.alloc();
    holds(&rt, alloc, "empty", &[], false)?;
    holds(&rt, alloc, "usual", &[START, HEADER, SHORT, CONTENT], false)?;
    holds(&rt, alloc, "behind", &[START, LONG, CONTENT, HEADER], false)?;
    // An association, and a type that differs in its case.
    holds(
        &rt,
        alloc,
        "alike",
        &[START, b"\0\0\0\x08asoc\0\0\0\x08FTBL", SHORT, CONTENT],
        false,
    )?;
    Ok(())
}

#[test]
fn finds_each_type(rt: HostRuntime) -> Result<(), Fail> {
    let alloc = rt.alloc();
    for kind in [
        FRAGMENTS,
        FRAGMENT_LIST,
        REFERENCE,
        SIGNATURE,
        PAGES,
        FILE_INDEX,
        CODE_INDEX,
        FINDER,
    ] {
        holds(&rt, alloc, "alone", &[kind], true)?;
        holds(&rt, alloc, "before", &[START, kind, SHORT, CONTENT], true)?;
        holds(
            &rt,
            alloc,
            "behind",
            &[START, HEADER, SHORT, CONTENT, HEADER, kind],
            true,
        )?;
        // The codestream goes on to the file's end.
        holds(&rt, alloc, "inside", &[START, REST, CONTENT, kind], false)?;
        // What is in a header isn't looked at.
        holds(
            &rt,
            alloc,
            "header",
            &[
                START,
                b"\0\0\0\x1Cjp2h",
                kind,
                b"\0\0\0\x08free",
                SHORT,
                CONTENT,
            ],
            false,
        )?;
    }
    Ok(())
}

#[test]
fn stops_at_a_rule(rt: HostRuntime) -> Result<(), Fail> {
    let alloc = rt.alloc();
    let short = b"\0\0\0\x07free";
    holds(&rt, alloc, "after", &[START, short, FRAGMENTS], false)?;
    holds(&rt, alloc, "before", &[START, FRAGMENTS, short], true)?;
    // A table that is longer than what is left, and one of which half a head is there.
    let long = b"\0\0\0\x0Dftbl\0\0\0\x01";
    holds(&rt, alloc, "itself", &[START, long], false)?;
    holds(&rt, alloc, "half", &[START, b"\0\0\0\x0Cftb"], false)?;
    Ok(())
}
