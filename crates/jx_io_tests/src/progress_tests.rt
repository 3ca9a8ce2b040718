//! The line of progress, over a clock that is set by hand.

use crate::checks::equal;
use jx_io::{Gate, Progress, is_asked, progress_line};
use std::alloc::Global;
use std::cell::{Cell, RefCell};
use std::env::VarError;
use std::fmt::Display;
use std::io;
use std::io::{Eprint, ErrorKind};
use std::test::Fail;
use std::time::{Clock, Duration};

// A clock that is set by hand, and a standard error that is kept.
#[derive(Drop)]
struct Stage {
    alloc: Global,
    millis: Cell<u64>,
    said: RefCell<String>,
}

impl Clock for Stage {
    fn monotonic(&self) -> io::Result<Duration> {
        Ok(Duration::from_millis(self.millis.get()))
    }

    fn since_1970(&self) -> io::Result<Duration> {
        Err(ErrorKind::Unsupported.into())
    }
}

impl Eprint for Stage {
    fn eprint<D: Display + Drop>(&self, value: D) -> io::Result<()> {
        let Ok(mut said) = self.said.try_borrow_mut() else {
            return Err(ErrorKind::Other.into());
        };
        let text = value.to_string(self.alloc)?;
        said.push_str(text.as_str())?;
        Ok(())
    }

    fn eprintln<D: Display + Drop>(&self, value: D) -> io::Result<()> {
        self.eprint(value)
    }
}

// Four blocks, of which the first is done too early, and the third too soon behind the second.
fn run(stage: &Stage, is_asked: bool) {
    let progress = Progress::new(stage, stage.alloc, is_asked);
    progress.begin(1_234);
    for millis in [5_990, 6_010, 6_090, 6_100] {
        stage.millis.set(millis);
        progress.enter(0);
        progress.leave(0);
    }
    progress.end();
}

fn said(alloc: Global, is_asked: bool) -> Result<String, Fail> {
    let stage = Stage {
        alloc,
        millis: Cell::new(5_000),
        said: RefCell::new(String::new(alloc)),
    };
    run(&stage, is_asked);
    Ok(stage.said.into_inner())
}

#[test]
fn a_line_is_written_over(rt: HostRuntime) -> Result<(), Fail> {
    let shown = said(rt.alloc(), true)?;
    equal(
        &rt,
        shown.as_str(),
        "\rrecoding 2 of 1,234 blocks\rrecoding 4 of 1,234 blocks\r                          \r",
    );
    let shown = said(rt.alloc(), false)?;
    equal(&rt, shown.as_str(), "");
    Ok(())
}

#[test]
fn digits_stand_in_threes(rt: HostRuntime) -> Result<(), Fail> {
    for (done, all, text) in [
        (0, 999, "recoding 0 of 999 blocks"),
        (1_000, 12_034, "recoding 1,000 of 12,034 blocks"),
        (100_007, 1_048_576, "recoding 100,007 of 1,048,576 blocks"),
        (
            999_999_999,
            4_294_967_295,
            "recoding 999,999,999 of 4,294,967,295 blocks",
        ),
    ] {
        let line = progress_line(rt.alloc(), done, all)?;
        equal(&rt, line.as_str(), text);
    }
    Ok(())
}

#[test]
fn asked_by_one_alone(rt: HostRuntime) -> Result<(), Fail> {
    for (value, asked) in [("1", true), ("0", false), ("", false), ("11", false)] {
        let found = Ok(value.to_string(rt.alloc())?);
        equal(&rt, is_asked(&found, !asked), asked);
    }
    for is_watched in [false, true] {
        equal(
            &rt,
            is_asked(&Err(VarError::NotPresent), is_watched),
            is_watched,
        );
        equal(&rt, is_asked(&Err(VarError::NotUnicode), is_watched), false);
    }
    Ok(())
}
