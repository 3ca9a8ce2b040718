//! What is said of a run: one line, several, or nothing.

ghost use Rattle.std.specs.Prelude.{◌≡◌, ◌⊎◌, ◌<◌, [], false, None};
ghost use Rattle.jx_io.specs.Causes.{Rose};
ghost use Rattle.jx_transcode.specs.Outcome.{EndsAs, EndsAtWords, line_of};

use crate::lines::line_of;
use crate::{Report, Status};
use jx_io::{Refused, Sink};
use std::alloc::Global;

/// Says the line of a status, but nothing after a write fault: the status after it.
pub fn say_line<S: Sink>(say: &mut S, status: Status, line: &str) -> Status
    ensures { EndsAs status line.now result (S.said say.old) (S.said say.new) (S.faults say.old) (S.faults say.new) }
{
    if status == Status::WriteFault {
        return Status::WriteFault;
    }
    match say.say(line) {
        Ok(()) => status,
        Err(Refused::Failed) => Status::WriteFault,
        Err(Refused::NoMemory) => Status::NoMemory,
    }
}

/// Says why nothing was done: the words are no command, or there was no memory to read them.
pub fn refuse<S: Sink>(alloc: Global, say: &mut S, status: Status) -> Report
    ensures ends { EndsAs status (line_of status 0 0) result.status (S.said say.old) (S.said say.new)
        (S.faults say.old) (S.faults say.new) }
    ensures none { result.blocks ≡ 0 }
    ensures tape { result.tape.items ≡ [] }
    ensures positions { result.positions ≡ false }
    ensures misfit { result.misfit ≡ None }
{
    let status = match line_of(alloc, status, 0, 0) {
        Ok(line) => say_line(say, status, line.as_str()),
        Err(_) => Status::NoMemory,
    };
    Report {
        status,
        blocks: 0,
        tape: Vec::new(alloc),
        positions: false,
        misfit: None,
    }
}

/// Says lines, after which all is done.
pub fn say_lines<S: Sink>(alloc: Global, say: &mut S, lines: &str) -> Report
    ensures says { EndsAs Status.Done lines.now result.status (S.said say.old) (S.said say.new) (S.faults say.old)
        (S.faults say.new) }
    ensures none { result.blocks ≡ 0 }
    ensures tape { result.tape.items ≡ [] }
    ensures positions { result.positions ≡ false }
    ensures misfit { result.misfit ≡ None }
{
    Report {
        status: say_line(say, Status::Done, lines),
        blocks: 0,
        tape: Vec::new(alloc),
        positions: false,
        misfit: None,
    }
}
