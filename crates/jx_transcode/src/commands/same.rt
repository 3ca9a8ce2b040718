//! `same`: whether the codestreams of two files mean the same. Nothing is written.

ghost use Rattle.std.specs.Prelude.{◌≡◌, ◌<◌, ◌≤◌, ◌⊎◌, IfOk, [], None, Some, false, string_bytes};
ghost use Rattle.jx_cli.specs.SameWords.{MayBeCompared};
ghost use Rattle.jx_io.specs.Causes.{Rose};
ghost use Rattle.jx_io.specs.Device.{joined};
ghost use Rattle.jx_plan.specs.Plan.{MayBePlanned};
ghost use Rattle.jx_transcode.specs.Outcome.{EndsAs, EndsAsReadFault, EndsUnread};
ghost use Rattle.jx_transcode.specs.SameRun.{EndsCompared, IsOfFirst, IsSecondTold, IsStillRead, IsToTell, answer_status, blocks_after, same_line, second_status};

use crate::input::{read_input, unread_as};
use crate::judge::read_checked;
use crate::lines::line_of;
use crate::say::say_line;
use crate::{Report, Status, Unlike};
use jx_base::{Block, NoMemory};
use jx_cli::Pair;
use jx_codestream::Stream;
use jx_io::{Files, Sink};
use jx_rounds::threads_for;
use jx_same::{Answer, compare};
use std::alloc::{AllocError, Global};
use std::thread::Threads;

/// What is known of two files before anything is said.
#[derive(Clone, Copy, Debug)]
struct Told {
    status: Status,
    // the code-blocks of the first, where it was accepted
    count: u32,
}

/// The status of an answer.
fn answer_status(answer: Result<Answer, NoMemory>) -> Status
    ensures { result ≡ answer_status answer }
{
    match answer {
        Ok(Answer::Same) => Status::Done,
        Ok(Answer::Differs(difference)) => Status::Unlike(Unlike::Differs(difference)),
        Err(_) => Status::NoMemory,
    }
}

/// The status of a second file that is refused.
fn second_status(status: Status) -> Status
    ensures { result ≡ second_status status }
{
    match status {
        Status::Rule { number, place } => { Status::Unlike(Unlike::SecondRule { number, place }) }
        Status::Limit { number, found } => { Status::Unlike(Unlike::SecondLimit { number, found }) }
        other => other,
    }
}

/// What becomes of the file of a name, beside a codestream that was read before it.
fn compare_second<R: Threads + Sync, F: Files>(
    rt: &R,
    alloc: Global,
    threads: u32,
    stream: &Stream,
    blocks: &[Block<'_>],
    files: &mut F,
    name: &str,
    limit: u32,
) -> Status
    requires threads { (1 ≤ threads) × (threads ≤ 64) }
    requires may { MayBePlanned stream.now blocks.now }
    requires opens { F.can_open files.old name.now }
    ensures told { IsSecondTold limit name.now stream.now blocks.now result (F.meaning files.old)
        (F.meaning files.new) }
    ensures read { result ≡ Status.ReadFault → Rose (F.read_faults files.old) (F.read_faults files.new) }
    ensures absent { (F.meaning files.old).holds name.now ≡ Some None
        → (result ≡ Status.ReadFault) ⊎ (result ≡ Status.NoMemory) }
    ensures read_rose { F.read_faults files.old < F.read_faults files.new → result ≡ Status.ReadFault }
    ensures other { F.write_faults files.new ≡ F.write_faults files.old }
{
    let held = match read_input(alloc, files, name, limit) {
        Ok(held) => held,
        Err(refused) => return unread_as(refused),
    };
    match read_checked(alloc, &held, limit) {
        Ok(second) => {
            let others: &[Block<'_>] = &second.picture.blocks;
            answer_status(compare(
                rt,
                alloc,
                threads,
                stream,
                blocks,
                &second.picture.stream,
                others,
            ))
        }
        Err(status) => second_status(status),
    }
}

/// What becomes of the files of two names. The second is opened once the first is accepted.
fn compare_files<R: Threads + Sync, F: Files>(
    rt: &R,
    alloc: Global,
    names: &Pair,
    files: &mut F,
) -> Told
    requires asked { MayBeCompared names.now }
    requires opens { F.can_open files.old names.now.first }
    requires opens_too { F.can_open files.old names.now.second }
    ensures told { IsToTell names.now result.status result.count (F.meaning files.old) (F.meaning files.new) }
    ensures read { result.status ≡ Status.ReadFault → Rose (F.read_faults files.old) (F.read_faults files.new) }
    ensures write { result.status ≡ Status.WriteFault → ⊥ }
    ensures absent { (F.meaning files.old).holds names.now.first ≡ Some None
        → (result.status ≡ Status.ReadFault) ⊎ (result.status ≡ Status.NoMemory) }
    ensures absent_too { (F.meaning files.old).holds names.now.second ≡ Some None
        → ((result.status ≡ Status.ReadFault) ⊎ (result.status ≡ Status.NoMemory)) ⊎ IsOfFirst result.status }
    ensures unopened { IsOfFirst result.status
        → IsStillRead (joined ((F.meaning files.old).holds names.now.first)) (F.meaning files.new).left }
    ensures read_rose { F.read_faults files.old < F.read_faults files.new → result.status ≡ Status.ReadFault }
    ensures other { F.write_faults files.new ≡ F.write_faults files.old }
{
    let limit = names.limit();
    let held = match read_input(alloc, files, names.first(), limit) {
        Ok(held) => held,
        Err(refused) => {
            return Told {
                status: unread_as(refused),
                count: 0,
            };
        }
    };
    match read_checked(alloc, &held, limit) {
        Ok(accepted) => {
            let blocks: &[Block<'_>] = &accepted.picture.blocks;
            let status = compare_second(
                rt,
                alloc,
                threads_for(rt, names.threads()),
                &accepted.picture.stream,
                blocks,
                files,
                names.second(),
                limit,
            );
            Told {
                status,
                count: blocks.len() as u32,
            }
        }
        Err(status) => Told { status, count: 0 },
    }
}

/// The line of a status.
fn same_line(alloc: Global, status: Status) -> Result<String, AllocError>
    ensures { IfOk result (λ line. string_bytes line ≡ same_line status) }
{
    match status {
        Status::Done => String::from_str(alloc, "same\n"),
        other => line_of(alloc, other, 0, 0),
    }
}

/// The code-blocks that are told, by how many the first file has.
fn blocks_after(status: Status, count: u32) -> u32
    ensures { result ≡ blocks_after status count }
{
    match status {
        Status::Done => count,
        Status::Unlike(Unlike::Differs(_)) => count,
        _ => 0,
    }
}

/// Says the line of what is known.
fn say_told<S: Sink>(alloc: Global, say: &mut S, told: Told) -> Report
    ensures says { EndsAs told.status (same_line told.status) result.status (S.said say.old) (S.said say.new)
        (S.faults say.old) (S.faults say.new) }
    ensures blocks { result.blocks ≡ blocks_after result.status told.count }
    ensures tape { result.tape.items ≡ [] }
    ensures positions { result.positions ≡ false }
    ensures misfit { result.misfit ≡ None }
{
    let status = match same_line(alloc, told.status) {
        Ok(line) => say_line(say, told.status, line.as_str()),
        Err(_) => Status::NoMemory,
    };
    Report {
        status,
        blocks: blocks_after(status, told.count),
        tape: Vec::new(alloc),
        positions: false,
        misfit: None,
    }
}

/// Reads the files of two names, and says whether their codestreams mean the same, or why it can't. Their code-blocks are compared by as
/// many threads as are asked for, on which what is said doesn't depend.
pub fn run<R: Threads + Sync, F: Files, S: Sink>(
    rt: &R,
    alloc: Global,
    names: &Pair,
    files: &mut F,
    say: &mut S,
) -> Report
    requires asked { MayBeCompared names.now }
    requires opens { F.can_open files.old names.now.first }
    requires opens_too { F.can_open files.old names.now.second }
    ensures ends { EndsCompared names.now result.status result.blocks result.tape.items (F.meaning files.old)
        (F.meaning files.new) (S.said say.old) (S.said say.new) }
    ensures read { result.status ≡ Status.ReadFault → Rose (F.read_faults files.old) (F.read_faults files.new) }
    ensures write { result.status ≡ Status.WriteFault → Rose (S.faults say.old) (S.faults say.new) }
    ensures unsaid { S.faults say.old < S.faults say.new → result.status ≡ Status.WriteFault }
    ensures absent { (F.meaning files.old).holds names.now.first ≡ Some None
        → EndsUnread result.status (S.faults say.old) (S.faults say.new) }
    ensures absent_too { (F.meaning files.old).holds names.now.second ≡ Some None
        → EndsUnread result.status (S.faults say.old) (S.faults say.new) ⊎ IsOfFirst result.status }
    ensures unopened { IsOfFirst result.status
        → IsStillRead (joined ((F.meaning files.old).holds names.now.first)) (F.meaning files.new).left }
    ensures read_rose { F.read_faults files.old < F.read_faults files.new
        → EndsAsReadFault result.status (S.said say.old) (S.said say.new) (S.faults say.old)
        (S.faults say.new) }
    ensures other { F.write_faults files.new ≡ F.write_faults files.old }
    ensures positions { result.positions ≡ false }
    ensures misfit { result.misfit ≡ None }
{
    let told = compare_files(rt, alloc, names, files);
    say_told(alloc, say, told)
}
