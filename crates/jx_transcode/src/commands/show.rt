//! `show`: what a file's codestream is, in lines or as a JSON object. Nothing is written.

ghost use Rattle.std.specs.Prelude.{◌≡◌, ◌<◌, ◌≤◌, ℕ, List, Option, IfErr, IfOk, None, Some, false, length, string_bytes};
ghost use Rattle.jx_base.specs.Limits.{most_bytes};
ghost use Rattle.jx_io.specs.Causes.{Rose};
ghost use Rattle.jx_jp2.specs.Names.{brand_of, brand_text};
ghost use Rattle.jx_plan.specs.Plan.{MayBePlanned};
ghost use Rattle.jx_show.specs.Facts.{facts_of};
ghost use Rattle.jx_show.specs.File.{file_text};
ghost use Rattle.jx_transcode.specs.Outcome.{EndsAsReadFault, EndsUnread};
ghost use Rattle.jx_transcode.specs.Sources.{IsUnfit};
ghost use Rattle.jx_transcode.specs.ShowRun.{EndsShown, HasBoxes, IsShown};

use crate::input::{read_input, unread_as};
use crate::judge::read_checked;
use crate::say::{refuse, say_lines};
use crate::{Report, Status};
use jx_base::{Block, NoMemory};
use jx_cli::Show;
use jx_codestream::Stream;
use jx_io::{Files, Sink};
use jx_jp2::{brand, is_jp2, names};
use jx_show::show_file;
use std::alloc::Global;

/// What is told of bytes with a codestream, in lines or as a JSON object.
fn text_of(
    alloc: Global,
    input: &[u8],
    stream: &Stream,
    blocks: &[Block<'_>],
    json: bool,
) -> Result<String, NoMemory>
    requires within { length input.now ≤ most_bytes }
    requires may { MayBePlanned stream.now blocks.now }
    ensures { IfOk result (λ text. (names : Option (List ℕ)) × HasBoxes input.now names
        × (string_bytes text ≡ file_text json names (brand_text (brand_of input.now))
        (facts_of stream.now blocks.now))) }
{
    let brand = match brand(alloc, input) {
        Ok(brand) => brand,
        Err(_) => return Err(NoMemory),
    };
    if !is_jp2(input) {
        return show_file(alloc, None, brand.as_str(), stream, blocks, json);
    }
    match names(alloc, input) {
        Ok(names) => show_file(
            alloc,
            Some(names.as_str()),
            brand.as_str(),
            stream,
            blocks,
            json,
        ),
        Err(_) => Err(NoMemory),
    }
}

/// What is told of a file that may have `limit` bytes, of which these were read; or why nothing is.
fn lines_of(alloc: Global, input: &[u8], json: bool, limit: u32) -> Result<String, Status>
    ensures shown { IfOk result (λ text. IsShown limit json input.now (string_bytes text)) }
    ensures refused { IfErr result (λ status. IsUnfit limit input.now status) }
{
    let read = match read_checked(alloc, input, limit) {
        Ok(read) => read,
        Err(status) => return Err(status),
    };
    match text_of(
        alloc,
        input,
        &read.picture.stream,
        &read.picture.blocks,
        json,
    ) {
        Ok(text) => Ok(text),
        Err(_) => Err(Status::NoMemory),
    }
}

/// Reads the file of a name, and says what its codestream is, or why it can't.
pub fn run<F: Files, S: Sink>(alloc: Global, asked: &Show, files: &mut F, say: &mut S) -> Report
    requires { F.can_open files.old asked.now.name }
    ensures ends { EndsShown asked.now result.status result.blocks result.tape.items (F.meaning files.old)
        (F.meaning files.new) (S.said say.old) (S.said say.new) }
    ensures read { result.status ≡ Status.ReadFault → Rose (F.read_faults files.old) (F.read_faults files.new) }
    ensures write { result.status ≡ Status.WriteFault → Rose (S.faults say.old) (S.faults say.new) }
    ensures unsaid { S.faults say.old < S.faults say.new → result.status ≡ Status.WriteFault }
    ensures absent { (F.meaning files.old).holds asked.now.name ≡ Some None
        → EndsUnread result.status (S.faults say.old) (S.faults say.new) }
    ensures read_rose { F.read_faults files.old < F.read_faults files.new
        → EndsAsReadFault result.status (S.said say.old) (S.said say.new) (S.faults say.old)
        (S.faults say.new) }
    ensures other { F.write_faults files.new ≡ F.write_faults files.old }
    ensures positions { result.positions ≡ false }
    ensures misfit { result.misfit ≡ None }
{
    let limit = asked.limit();
    let input = match read_input(alloc, files, asked.name(), limit) {
        Ok(input) => input,
        Err(refused) => return refuse(alloc, say, unread_as(refused)),
    };
    match lines_of(alloc, &input, asked.json(), limit) {
        Ok(lines) => say_lines(alloc, say, lines.as_str()),
        Err(status) => refuse(alloc, say, status),
    }
}
