//! The pieces of a file with another codestream in the place of its own: what is around it, and its head.

use crate::checks::{check, equal_at};
use crate::files::{CONTENT, HEADER, LONG, REST, SHORT, START, file_of};
use jx_base::MOST_BYTES;
use jx_jp2::{Boxed, HeadForm, around, find, head_for};
use std::alloc::{AllocError, Global};
use std::process::Abort;
use std::test::Fail;

fn heads(rt: &impl Abort, form: HeadForm, size: u64, want: &[u8]) {
    check(rt, size < 1 << 63);
    let boxed = Boxed {
        head: 32,
        from: 40,
        to: 122,
        form,
    };
    let head = head_for(&boxed, size);
    equal_at(rt, &size, head.bytes() == want, true);
}

#[test]
fn makes_each_head(rt: HostRuntime) -> Result<(), Fail> {
    heads(&rt, HeadForm::Short, 0, b"\0\0\0\x08jp2c");
    heads(&rt, HeadForm::Short, 82, SHORT);
    heads(&rt, HeadForm::Long, 82, LONG);
    heads(&rt, HeadForm::Rest, 82, REST);
    // The longest content of a short head, and what is longer.
    heads(&rt, HeadForm::Short, 4_294_967_287, b"\xFF\xFF\xFF\xFFjp2c");
    heads(
        &rt,
        HeadForm::Short,
        4_294_967_288,
        b"\0\0\0\x01jp2c\0\0\0\x01\0\0\0\x08",
    );
    heads(
        &rt,
        HeadForm::Short,
        4_294_967_296,
        b"\0\0\0\x01jp2c\0\0\0\x01\0\0\0\x10",
    );
    heads(
        &rt,
        HeadForm::Long,
        4_294_967_296,
        b"\0\0\0\x01jp2c\0\0\0\x01\0\0\0\x10",
    );
    heads(&rt, HeadForm::Rest, 4_294_967_296, REST);
    Ok(())
}

// What stands around the codestream of the middle pieces.
fn stands_around(
    rt: &impl Abort,
    alloc: Global,
    front: &[&[u8]],
    middle: &[&[u8]],
    back: &[&[u8]],
) -> Result<(), AllocError> {
    let before = file_of(alloc, front)?;
    let own = file_of(alloc, middle)?;
    let behind = file_of(alloc, back)?;
    let file = file_of(alloc, &[&before, &own, &behind])?;
    check(rt, file.len() <= MOST_BYTES);
    match find(&file) {
        Ok(boxed) => {
            let (first, last) = around(&file, &boxed);
            check(rt, first == before.as_slice());
            check(rt, last == behind.as_slice());
        }
        Err(_) => check(rt, false),
    }
    Ok(())
}

#[test]
fn leaves_what_is_around(rt: HostRuntime) -> Result<(), Fail> {
    let alloc = rt.alloc();
    stands_around(&rt, alloc, &[START], &[SHORT, CONTENT], &[HEADER])?;
    stands_around(&rt, alloc, &[START, HEADER], &[LONG, CONTENT], &[REST])?;
    stands_around(&rt, alloc, &[START], &[REST, CONTENT, HEADER], &[])?;
    stands_around(&rt, alloc, &[], &[REST], &[])?;
    Ok(())
}
