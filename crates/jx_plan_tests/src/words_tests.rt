//! Rows of words, and what is read of them.

use crate::checks::equal;
use jx_cli::{Request, WordsFault, read_boxes, read_make, read_same, read_show, read_words};
use jx_options::{FormChoice, OrderChoice};
use std::alloc::{AllocError, Global};
use std::test::Fail;

// The program's name, and the words of a line with spaces between them.
fn words_of(alloc: Global, line: &str) -> Result<Vec<String>, AllocError> {
    let mut words = Vec::new(alloc);
    put_word(alloc, &mut words, "jx")?;
    for word in line.split(' ') {
        put_word(alloc, &mut words, word)?;
    }
    Ok(words)
}

fn put_word(alloc: Global, words: &mut Vec<String>, word: &str) -> Result<(), AllocError> {
    let word = String::from_str(alloc, word)?;
    words.push(word)?;
    Ok(())
}

// A line of words, the names and the precincts that are read of it, and the workers, the window and its bytes; order and layers
// are kept.
type Row = (
    &'static str,
    [&'static str; 2],
    Option<&'static [u8]>,
    (u32, u32, u32),
);

// Whether a request is so.
fn is_so(request: &Request, row: &Row) -> bool {
    let (_, names, precincts, work) = row;
    let options = request.options();
    let found = request.work();
    [request.from(), request.to()] == *names
        && options.order == OrderChoice::Keep
        && options.precincts.bytes() == *precincts
        && options.layers.as_str() == "keep"
        && (found.threads, found.window, found.most) == *work
}

// Whether so much is read of words, or why nothing is.
fn is_read(alloc: Global, words: &[String], row: &Row) -> Result<bool, WordsFault> {
    match read_words(alloc, words) {
        Ok(request) => Ok(is_so(&request, row)),
        Err(fault) => Err(fault),
    }
}

// The same of a row's line.
fn is_read_of_line(alloc: Global, row: &Row) -> Result<bool, WordsFault> {
    match words_of(alloc, row.0) {
        Ok(words) => is_read(alloc, &words, row),
        Err(_) => Err(WordsFault::NoMemory),
    }
}

const MOST: u32 = 268_435_456;

static REQUESTS: [Row; 15] = [
    // behind `--` each word is a name
    (
        "transcode --sop -- -in --order",
        ["-in", "--order"],
        None,
        (0, 64, MOST),
    ),
    ("transcode -- -- --", ["--", "--"], None, (0, 64, MOST)),
    // so is any other word, the empty word too
    ("transcode - out", ["-", "out"], None, (0, 64, MOST)),
    (
        "transcode transcode help",
        ["transcode", "help"],
        None,
        (0, 64, MOST),
    ),
    ("transcode  out", ["", "out"], None, (0, 64, MOST)),
    (
        "transcode in out --precincts=0x15,15x0,10x9",
        ["in", "out"],
        Some(&[0xF0, 0x0F, 0x9A]),
        (0, 64, MOST),
    ),
    ("transcode in out", ["in", "out"], None, (0, 64, MOST)),
    (
        "transcode in out --threads 1",
        ["in", "out"],
        None,
        (1, 64, MOST),
    ),
    (
        "transcode in out --threads auto",
        ["in", "out"],
        None,
        (0, 64, MOST),
    ),
    (
        "transcode in out --threads=64",
        ["in", "out"],
        None,
        (64, 64, MOST),
    ),
    (
        "transcode in out --window 1",
        ["in", "out"],
        None,
        (0, 1, MOST),
    ),
    (
        "transcode in out --window 1024",
        ["in", "out"],
        None,
        (0, 1024, MOST),
    ),
    (
        "transcode in out --window-bytes 1",
        ["in", "out"],
        None,
        (0, 64, 1),
    ),
    (
        "transcode in out --window-bytes 4294967295",
        ["in", "out"],
        None,
        (0, 64, 4_294_967_295),
    ),
    (
        "transcode --window-bytes=20 in --threads 8 out --window=300",
        ["in", "out"],
        None,
        (8, 300, 20),
    ),
];

#[test]
fn words_of_transcode(rt: HostRuntime) -> Result<(), Fail> {
    for row in &REQUESTS {
        equal(&rt, is_read_of_line(rt.alloc(), row), Ok(true));
        equal(&rt, is_read(rt.alloc(), &[], row), Err(WordsFault::Words));
    }
    Ok(())
}

// What is read of a line that is written of a JP2 file, or why nothing is.
fn form_of_line(alloc: Global, line: &str) -> Result<FormChoice, WordsFault> {
    let words = match words_of(alloc, line) {
        Ok(words) => words,
        Err(_) => return Err(WordsFault::NoMemory),
    };
    match read_words(alloc, &words) {
        Ok(request) => Ok(request.form()),
        Err(fault) => Err(fault),
    }
}

static FORMS: [(&str, Result<FormChoice, WordsFault>); 7] = [
    ("transcode in out", Ok(FormChoice::Keep)),
    ("transcode in out --form keep", Ok(FormChoice::Keep)),
    ("transcode --form=j2k in out", Ok(FormChoice::Codestream)),
    ("transcode in out --form jp2", Err(WordsFault::Words)),
    ("transcode in out --form=J2K", Err(WordsFault::Words)),
    ("transcode in out --form=", Err(WordsFault::Words)),
    (
        "transcode in out --form j2k --form j2k",
        Err(WordsFault::Words),
    ),
];

#[test]
fn forms_of_words(rt: HostRuntime) -> Result<(), Fail> {
    for (line, want) in &FORMS {
        equal(&rt, form_of_line(rt.alloc(), line), *want);
    }
    Ok(())
}

// The seed, the columns and the rows that are read of words, or why nothing is.
fn made(alloc: Global, words: &[String]) -> Result<(u64, u32, u32), WordsFault> {
    match read_make(alloc, words) {
        Ok(make) => Ok((make.seed, make.width, make.height)),
        Err(fault) => Err(fault),
    }
}

// The same of a line.
fn made_of_line(alloc: Global, line: &str) -> Result<(u64, u32, u32), WordsFault> {
    match words_of(alloc, line) {
        Ok(words) => made(alloc, &words),
        Err(_) => Err(WordsFault::NoMemory),
    }
}

static MADE: [(&str, Result<(u64, u32, u32), WordsFault>); 8] = [
    ("make 5 1 1", Ok((5, 1, 1))),
    ("make 0 4096 1", Ok((0, 4096, 1))),
    ("make 1 2048 1536", Ok((1, 2048, 1536))),
    (
        "make 18446744073709551615 1 1",
        Ok((18_446_744_073_709_551_615, 1, 1)),
    ),
    ("make 10 10 4096", Ok((10, 10, 4096))),
    // behind `--` each word is a number
    ("make -- 5 1 2", Ok((5, 1, 2))),
    ("make 5 -- 1 2", Ok((5, 1, 2))),
    ("transcode in out", Err(WordsFault::Words)),
];

#[test]
fn words_of_make(rt: HostRuntime) -> Result<(), Fail> {
    for (line, want) in &MADE {
        equal(&rt, made_of_line(rt.alloc(), line), *want);
    }
    equal(&rt, made(rt.alloc(), &[]), Err(WordsFault::Words));
    Ok(())
}

// Whether words ask for the boxes of a file of this name, or why they ask for none.
fn names(alloc: Global, words: &[String], name: &str) -> Result<bool, WordsFault> {
    match read_boxes(alloc, words) {
        Ok(asked) => Ok(asked.name() == name),
        Err(fault) => Err(fault),
    }
}

// The same of a line.
fn names_of_line(alloc: Global, line: &str, name: &str) -> Result<bool, WordsFault> {
    match words_of(alloc, line) {
        Ok(words) => names(alloc, &words, name),
        Err(_) => Err(WordsFault::NoMemory),
    }
}

static BOXES: [(&str, &str, Result<bool, WordsFault>); 11] = [
    ("boxes in.jp2", "in.jp2", Ok(true)),
    ("boxes -", "-", Ok(true)),
    ("boxes ", "", Ok(true)),
    ("boxes boxes", "boxes", Ok(true)),
    // behind `--` each word is a name
    ("boxes -- --sop", "--sop", Ok(true)),
    ("boxes", "", Err(WordsFault::Words)),
    ("boxes in out", "in", Err(WordsFault::Words)),
    ("boxes in --sop", "in", Err(WordsFault::Words)),
    ("boxes --form j2k", "j2k", Err(WordsFault::Words)),
    ("transcode in out", "in", Err(WordsFault::Words)),
    ("make 5 1 1", "5", Err(WordsFault::Words)),
];

#[test]
fn words_of_boxes(rt: HostRuntime) -> Result<(), Fail> {
    for (line, name, want) in &BOXES {
        equal(&rt, names_of_line(rt.alloc(), line, name), *want);
    }
    equal(&rt, names(rt.alloc(), &[], ""), Err(WordsFault::Words));
    Ok(())
}

// How many bytes a file may have by words of a command that reads one, or why they are none.
fn limit_of(alloc: Global, words: &[String]) -> Result<u32, WordsFault> {
    if let Ok(request) = read_words(alloc, words) {
        return Ok(request.limit());
    }
    if let Ok(asked) = read_boxes(alloc, words) {
        return Ok(asked.limit());
    }
    if let Ok(names) = read_same(alloc, words) {
        return Ok(names.limit());
    }
    match read_show(alloc, words) {
        Ok(asked) => Ok(asked.limit()),
        Err(fault) => Err(fault),
    }
}

// The same of a line.
fn limit_of_line(alloc: Global, line: &str) -> Result<u32, WordsFault> {
    match words_of(alloc, line) {
        Ok(words) => limit_of(alloc, &words),
        Err(_) => Err(WordsFault::NoMemory),
    }
}

static LIMITS: [(&str, Result<u32, WordsFault>); 12] = [
    ("transcode in out", Ok(MOST)),
    ("transcode in out --limit-bytes 1", Ok(1)),
    (
        "transcode --limit-bytes=4294967295 in out",
        Ok(4_294_967_295),
    ),
    (
        "transcode in out --limit-bytes 4294967296",
        Err(WordsFault::Words),
    ),
    ("boxes in", Ok(MOST)),
    ("boxes in --limit-bytes 4294967295", Ok(4_294_967_295)),
    ("boxes in --limit-bytes 0", Err(WordsFault::Words)),
    ("same a b", Ok(MOST)),
    ("same --limit-bytes 7 a --threads 2 b", Ok(7)),
    ("show in --json", Ok(MOST)),
    ("show --limit-bytes=20 --json in", Ok(20)),
    ("show in --limit-bytes 020", Err(WordsFault::Words)),
];

#[test]
fn limits_of_words(rt: HostRuntime) -> Result<(), Fail> {
    for (line, want) in &LIMITS {
        equal(&rt, limit_of_line(rt.alloc(), line), *want);
    }
    Ok(())
}
