//! `jx`, the transcoder: real files, standard output, and the status that the process ends with.
#![tactic(auto)]

mod ends;

use ends::{says_aside, start};
use jx_io::{Progress, StdFiles, StdSink, is_asked};
use jx_transcode::Status;
use std::io::IsTerminal;
use std::process::ExitCode;
use std::{env, process};

fn main(rt: HostRuntime) -> ExitCode {
    let Ok(is_aside) = says_aside(&rt, rt.alloc(), env::args(&rt)) else {
        return ExitCode::from(Status::NoMemory.number());
    };
    let mut files = StdFiles::new(&rt, process::id(rt.process()));
    let mut say = StdSink::new(&rt, is_aside);
    // one of several runs at a time has no terminal to read from
    let is_watched = rt.stdin().is_terminal() && rt.stderr().is_terminal();
    let asked = env::var(&rt, "JX_PROGRESS");
    let progress = Progress::new(&rt, rt.alloc(), is_asked(&asked, is_watched));
    match start(
        &rt,
        rt.alloc(),
        env::args(&rt),
        &mut files,
        &mut say,
        &progress,
    ) {
        Ok(end) => end,
        Err(_) => ExitCode::from(Status::NoMemory.number()),
    }
}
