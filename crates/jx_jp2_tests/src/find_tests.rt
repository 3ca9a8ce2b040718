//! The codestream of a file, or the rule that is broken before it.

use crate::checks::{check, equal_at};
use crate::files::{CONTENT, HEADER, LONG, REST, SHORT, START, file_of};
use jx_base::MOST_BYTES;
use jx_jp2::{BoxFault, Boxed, HeadForm, find, is_jp2};
use std::alloc::{AllocError, Global};
use std::process::Abort;
use std::test::Fail;

fn found(rt: &impl Abort, file: &[u8]) -> Result<Boxed, BoxFault> {
    check(rt, is_jp2(file));
    check(rt, file.len() <= MOST_BYTES);
    find(file)
}

// The codestream of the first bytes of pieces.
fn front(
    rt: &impl Abort,
    alloc: Global,
    pieces: &[&[u8]],
    length: usize,
) -> Result<Result<Boxed, BoxFault>, AllocError> {
    let file = file_of(alloc, pieces)?;
    check(rt, length <= file.len());
    Ok(found(rt, file.split_at(length).0))
}

fn finds(
    rt: &impl Abort,
    alloc: Global,
    pieces: &[&[u8]],
    length: usize,
    want: Boxed,
) -> Result<(), AllocError> {
    let boxed = front(rt, alloc, pieces, length)?;
    equal_at(rt, &length, boxed, Ok(want));
    Ok(())
}

fn breaks(
    rt: &impl Abort,
    alloc: Global,
    pieces: &[&[u8]],
    length: usize,
    number: u8,
    place: u32,
) -> Result<(), AllocError> {
    let boxed = front(rt, alloc, pieces, length)?;
    equal_at(rt, &length, boxed, Err(BoxFault::Rule { number, place }));
    Ok(())
}

fn boxed(head: u32, from: u32, to: u32, form: HeadForm) -> Boxed {
    Boxed {
        head,
        from,
        to,
        form,
    }
}

#[test]
fn finds_each_form(rt: HostRuntime) -> Result<(), Fail> {
    let alloc = rt.alloc();
    let short = boxed(32, 40, 122, HeadForm::Short);
    finds(&rt, alloc, &[START, SHORT, CONTENT], 122, short)?;
    let long = boxed(32, 48, 130, HeadForm::Long);
    finds(&rt, alloc, &[START, LONG, CONTENT, HEADER], 175, long)?;
    let rest = boxed(32, 40, 122, HeadForm::Rest);
    finds(&rt, alloc, &[START, REST, CONTENT], 122, rest)?;
    let empty = boxed(32, 40, 40, HeadForm::Rest);
    finds(&rt, alloc, &[START, REST, CONTENT], 40, empty)?;
    let first = boxed(77, 85, 167, HeadForm::Short);
    finds(
        &rt,
        alloc,
        &[START, HEADER, SHORT, CONTENT, REST],
        175,
        first,
    )?;
    Ok(())
}

#[test]
fn names_rules(rt: HostRuntime) -> Result<(), Fail> {
    let alloc = rt.alloc();
    breaks(&rt, alloc, &[START, SHORT, CONTENT], 40, 34, 32)?;
    breaks(&rt, alloc, &[START, SHORT, CONTENT], 36, 32, 32)?;
    breaks(&rt, alloc, &[START, SHORT, CONTENT], 32, 35, 32)?;
    breaks(&rt, alloc, &[START, LONG, CONTENT], 47, 32, 32)?;
    breaks(&rt, alloc, &[START, LONG, CONTENT], 129, 34, 32)?;
    breaks(&rt, alloc, &[START, b"\0\0\0\x07free"], 40, 33, 32)?;
    breaks(
        &rt,
        alloc,
        &[START, b"\0\0\0\x01free\0\0\0\0\0\0\0\x0F"],
        48,
        33,
        32,
    )?;
    // Its low 32 bits alone would end with the file.
    breaks(
        &rt,
        alloc,
        &[START, b"\0\0\0\x01free\0\0\0\x01\0\0\0\x10"],
        48,
        34,
        32,
    )?;
    check(&rt, !is_jp2(CONTENT));
    Ok(())
}

// 100,000 boxes without content, and the codestream behind them.
#[test]
fn walks_far(rt: HostRuntime) -> Result<(), Fail> {
    let mut file = file_of(rt.alloc(), &[START])?;
    for _ in 0..100_000_u32 {
        file.extend_from_slice(b"\0\0\0\x08free")?;
    }
    file.extend_from_slice(REST)?;
    let far = boxed(800_032, 800_040, 800_040, HeadForm::Rest);
    equal_at(&rt, &"far", found(&rt, &file), Ok(far));
    Ok(())
}
