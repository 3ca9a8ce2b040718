//! Sentences for refusals that no small file brings about, or none alone: their lines fit a terminal.

use crate::checks::{check, check_at};
use jx_messages::{Refusal, explain};
use std::alloc::{AllocError, Global};
use std::process::Abort;
use std::test::Fail;

// Words of a command line.
fn words_of(alloc: Global, text: &str) -> Result<Vec<String>, AllocError> {
    let mut words = Vec::new(alloc);
    for word in text.split(' ') {
        words.push(String::from_str(alloc, word)?)?;
    }
    Ok(words)
}

// Whether what is said of these words are lines of at most 80 columns, of which the last one ends with a line feed, and has both parts.
fn says_lines(
    alloc: Global,
    words: &str,
    refusal: Refusal,
    part: &str,
    number: &str,
) -> Result<bool, AllocError> {
    let words = words_of(alloc, words)?;
    let text = explain(alloc, refusal, &words)?;
    let text = text.as_str();
    let Some(lines) = text.strip_suffix('\n') else {
        return Ok(false);
    };
    for line in lines.split('\n') {
        if line.is_empty() || line.len() > 80 {
            return Ok(false);
        }
    }
    Ok(text.starts_with("jx: ") && text.contains(part) && text.contains(number))
}

// A choice, and a text and a number that are said of it.
type Row<'a> = (u8, u32, &'a str, &'a str);

static CHOICES: [Row<'static>; 8] = [
    (
        1,
        4711,
        "--style keep would turn causal on or off for code-block 4711,",
        "choice 1)",
    ),
    (2, 4711, "code-blocks\n    in tile 4711", "choice 2)"),
    (3, 4711, "tile 4711\n    an exponent 0", "choice 3)"),
    (3, 0, "the main header or tile 0", "choice 3)"),
    (4, 4711, "of code-block 4711 into one layer", "choice 4)"),
    (5, 4711, "tile 4711 into over 255 tile-parts", "choice 5)"),
    (6, 4711, "is no rule for layers", "choice 6)"),
    (7, 4711, "a tile-part of tile 4711", "choice 7)"),
];

fn all_say(rt: &(impl Abort + AllocGlobal), rows: &[Row<'_>]) -> Result<(), Fail> {
    let words = "jx transcode in.j2k out.j2k --order=rpcl";
    for (number, place, part, name) in rows {
        let refusal = Refusal::Choice {
            number: *number,
            place: *place,
        };
        let holds = says_lines(rt.alloc(), words, refusal, part, name)?;
        check_at(rt, part, holds);
    }
    Ok(())
}

#[test]
fn each_choice_has_its_line(rt: HostRuntime) -> Result<(), Fail> {
    all_say(&rt, &CHOICES)
}

// No file is named where `make` can't say its line.
#[test]
fn other_refusals(rt: HostRuntime) -> Result<(), Fail> {
    let alloc = rt.alloc();
    let (none, fault) = (Refusal::NoMemory, Refusal::WriteFault);
    check(
        &rt,
        says_lines(alloc, "jx transcode a b", none, "memory", "")?,
    );
    let misfit = Refusal::Misfit {
        place: 65_534,
        comp: 16_383,
        res: 32,
        across: 15,
        down: 15,
    };
    let own = "16383: use the input's own 15x15 there, or";
    check(
        &rt,
        says_lines(alloc, "jx transcode a b", misfit, own, "in tile 65534,")?,
    );
    let line = "jx: standard output";
    check(&rt, says_lines(alloc, "jx make 1 2 3", fault, line, "")?);
    Ok(())
}
