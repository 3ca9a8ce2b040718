//! `boxes`: the boxes of a JP2 file are listed, and nothing is written.

ghost use Rattle.std.specs.Prelude.{◌≡◌, ◌<◌, IfErr, IfOk, None, Some, false, string_bytes};
ghost use Rattle.jx_io.specs.Causes.{Rose};
ghost use Rattle.jx_transcode.specs.BoxesRun.{EndsListed, IsListed, IsUnlisted};
ghost use Rattle.jx_transcode.specs.Outcome.{EndsAsReadFault, EndsUnread};

use crate::input::{read_input, unread_as};
use crate::say::{refuse, say_lines};
use crate::source::{check_length, status_of_boxes};
use crate::{Report, Status};
use jx_cli::Boxes;
use jx_io::{Files, Sink};
use jx_jp2::{is_jp2, list};
use std::alloc::Global;

/// The lines of all boxes of a file that may have `limit` bytes, of which these were read; or why there are none.
fn lines_of(alloc: Global, input: &[u8], limit: u32) -> Result<String, Status>
    ensures listed { IfOk result (λ text. IsListed limit input.now (string_bytes text)) }
    ensures refused { IfErr result (λ status. IsUnlisted limit input.now status) }
{
    match check_length(input, limit) {
        Ok(()) => {}
        Err(status) => return Err(status),
    }
    if !is_jp2(input) {
        return Err(Status::Rule {
            number: 36,
            place: 0,
        });
    }
    match list(alloc, input) {
        Ok(lines) => Ok(lines),
        Err(fault) => Err(status_of_boxes(fault)),
    }
}

/// Reads the file of a name, and says the lines of its boxes, or why it can't.
pub fn run<F: Files, S: Sink>(alloc: Global, asked: &Boxes, files: &mut F, say: &mut S) -> Report
    requires { F.can_open files.old asked.now.name }
    ensures ends { EndsListed asked.now result.status result.blocks result.tape.items (F.meaning files.old)
        (F.meaning files.new) (S.said say.old) (S.said say.new) }
    ensures read { result.status ≡ Status.ReadFault → Rose (F.read_faults files.old) (F.read_faults files.new) }
    ensures write { result.status ≡ Status.WriteFault → Rose (S.faults say.old) (S.faults say.new) }
    ensures unsaid { S.faults say.old < S.faults say.new → result.status ≡ Status.WriteFault }
    ensures absent { (F.meaning files.old).holds asked.now.name ≡ Some None
        → EndsUnread result.status (S.faults say.old) (S.faults say.new) }
    ensures read_rose { F.read_faults files.old < F.read_faults files.new
        → EndsAsReadFault result.status (S.said say.old) (S.said say.new) (S.faults say.old)
        (S.faults say.new) }
    ensures other { F.write_faults files.new ≡ F.write_faults files.old }
    ensures positions { result.positions ≡ false }
    ensures misfit { result.misfit ≡ None }
{
    let limit = asked.limit();
    let input = match read_input(alloc, files, asked.name(), limit) {
        Ok(input) => input,
        Err(refused) => return refuse(alloc, say, unread_as(refused)),
    };
    match lines_of(alloc, &input, limit) {
        Ok(lines) => say_lines(alloc, say, lines.as_str()),
        Err(status) => refuse(alloc, say, status),
    }
}
