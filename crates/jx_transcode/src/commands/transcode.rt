//! `transcode`: a codestream, or that in a JP2 file, is rewritten to another file.

ghost use Rattle.std.specs.Prelude.{◌≡◌, ◌<◌, ◌≤◌, ◌⊎◌, ◌↔◌, [], None, Some, length, IfSome, IsTrue};
ghost use Rattle.jx_base.specs.Limits.{most_bytes};
ghost use Rattle.jx_jp2.specs.Codestream.{IsJp2};
ghost use Rattle.jx_plan.specs.Planned.{chosen};
ghost use Rattle.jx_options.specs.Wanted.{MayBeWanted};
ghost use Rattle.jx_options.specs.Work.{MayBeWork};
ghost use Rattle.jx_io.specs.Causes.{Rose};
ghost use Rattle.jx_transcode.specs.Aims.{MayBeTask, aim_by};
ghost use Rattle.jx_transcode.specs.Filed.{IsAnswered, IsTooLong, unread_as};
ghost use Rattle.jx_transcode.specs.Jp2Run.{EndsJp2, KeepsPositions};
ghost use Rattle.jx_transcode.specs.Misfits.{IsChoice, IsMisfitOfFile, TellsMisfit};
ghost use Rattle.jx_rounds.specs.Files.{IsUntouched};
ghost use Rattle.jx_transcode.specs.Outcome.{EndsAs, EndsAsReadFault, EndsUnread, line_of};
ghost use Rattle.jx_transcode.specs.TranscodeRun.{Ends, TellsPositions};

use crate::around::write_around;
use crate::input::{read_input, unread_as};
use crate::judge::{Accepted, read_checked};
use crate::laws::plans_are_carried_out;
use crate::lines::line_of;
use crate::rewrite::{Ending, planned, unreduced_by, without_resolutions, write_bare};
use crate::say::say_line;
use crate::task::Task;
use crate::{Report, Status};
use jx_base::Block;
use jx_cli::Request;
use jx_io::{Files, Gate, Refused, Sink};
use jx_jp2::{holds_positions, is_jp2};
use jx_layers::LayerPlanner;
use jx_options::FormChoice;
use jx_plan::Misfit;
use jx_plan::laws::gathered_may_be_planned;
use jx_reduce::laws::whole_stays;
use jx_rounds::Crew;
use std::alloc::Global;
use std::sync::Wait;
use std::thread::Threads;

/// The input couldn't be opened or read.
fn unread(alloc: Global, refused: Refused) -> Ending
    ensures status { result.status ≡ unread_as refused }
    ensures none { (result.blocks ≡ 0) × (result.bytes ≡ 0) }
    ensures tape { result.tape.items ≡ [] }
    ensures misfit { result.misfit ≡ None }
{
    Ending::refused(alloc, unread_as(refused))
}

/// What becomes of a file, of which these bytes were read: a codestream, or a JP2 file.
fn answer<R: Threads + Wait + Sync, G: Gate + Sync, F: Files>(
    crew: &Crew<'_, R, G>,
    alloc: Global,
    files: &mut F,
    to: &str,
    input: &[u8],
    task: &Task<'_>,
    planners: &mut [Box<dyn LayerPlanner>],
) -> Ending
    requires creates { F.can_create files.old to.now }
    requires task { MayBeTask task.now }
    requires work { MayBeWork crew.now.work }
    ensures bare { (IsJp2 input.now → ⊥) → IsAnswered to.now crew.now.work
        (aim_by task.now (λ text facts. chosen (λ b. serves_text b text) (λ b. rule_of b text facts) planners.old))
        input.now result.status result.blocks result.bytes result.tape.items (F.meaning files.old)
        (F.meaning files.new) }
    ensures jp2 { IsJp2 input.now → EndsJp2 to.now crew.now.work task.now.form
        (aim_by task.now (λ text facts. chosen (λ b. serves_text b text) (λ b. rule_of b text facts) planners.old))
        input.now result.status result.blocks result.bytes result.tape.items (F.meaning files.old)
        (F.meaning files.new) }
    ensures long { task.now.limit < length input.now
        → IsTooLong task.now.limit result.status result.blocks result.bytes result.tape.items (F.meaning files.old)
        (F.meaning files.new) }
    ensures cause { result.status ≡ Status.WriteFault → Rose (F.write_faults files.old) (F.write_faults files.new) }
    ensures rose { F.write_faults files.old < F.write_faults files.new → result.status ≡ Status.WriteFault }
    ensures read { (result.status ≡ Status.ReadFault → ⊥) × (result.status ≡ Status.Words → ⊥) }
    ensures other { F.read_faults files.new ≡ F.read_faults files.old }
    ensures short { result.status ≡ Status.Done → length input.now ≤ task.now.limit }
    ensures misfit { IfSome result.misfit (λ misfit.
        IsMisfitOfFile task.now.options.now.precincts task.now.reduce task.now.limit input.now result.status misfit) }
{
    plans_are_carried_out();
    gathered_may_be_planned();
    whole_stays();
    let read = match read_checked(alloc, input, task.limit) {
        Ok(read) => read,
        Err(status) => return Ending::refused(alloc, status),
    };
    let Accepted { source, picture } = read;
    let all: &[Block<'_>] = &picture.blocks;
    let count = all.len() as u32;
    let left = match without_resolutions(alloc, picture, task.reduce) {
        Ok(left) => left,
        Err(fault) => return unreduced_by(alloc, fault, count),
    };
    let plan = match planned(alloc, &left, task.options, planners) {
        Ok(plan) => plan,
        Err(ending) => return ending,
    };
    match source.boxed {
        None => write_bare(crew, alloc, files, to, &plan),
        Some(boxed) => write_around(crew, alloc, files, to, task.form, input, &boxed, &plan),
    }
}

/// Whether boxes that hold positions in the file were kept. `input` was read, and `status` is what became of it.
fn keeps_positions(form: FormChoice, input: &[u8], status: Status) -> bool
    requires { status ≡ Status.Done → length input.now ≤ most_bytes }
    ensures { IsTrue result ↔ KeepsPositions form input.now status }
{
    status == Status::Done && form == FormChoice::Keep && is_jp2(input) && holds_positions(input)
}

/// What is told beside choice 2, where the status is still a choice after the line was said.
fn told_still(misfit: Option<Misfit>, status: Status) -> Option<Misfit>
    ensures { IfSome result (λ told. (misfit ≡ Some told) × IsChoice status) }
{
    match status {
        Status::Choice { .. } => misfit,
        _ => None,
    }
}

/// Says the line of what was done. `positions` says whether boxes that hold positions were kept.
fn say_ending<S: Sink>(alloc: Global, say: &mut S, ending: Ending, positions: bool) -> Report
    ensures says { EndsAs ending.status (line_of ending.status ending.blocks ending.bytes) result.status
        (S.said say.old) (S.said say.new) (S.faults say.old) (S.faults say.new) }
    ensures blocks { result.blocks ≡ ending.blocks }
    ensures tape { result.tape.items ≡ ending.tape.items }
    ensures failed { ending.status ≡ Status.WriteFault → result.status ≡ Status.WriteFault }
    ensures positions { IsTrue result.positions ↔ (IsTrue positions × (result.status ≡ Status.Done)) }
    ensures misfit { IfSome result.misfit (λ told. (ending.misfit ≡ Some told) × IsChoice result.status) }
{
    let status = match ending.status {
        // nothing is said
        Status::WriteFault => Status::WriteFault,
        other => match line_of(alloc, other, ending.blocks, ending.bytes) {
            Ok(line) => say_line(say, other, line.as_str()),
            Err(_) => Status::NoMemory,
        },
    };
    Report {
        status,
        blocks: ending.blocks,
        tape: ending.tape,
        positions: positions && status == Status::Done,
        misfit: told_still(ending.misfit, status),
    }
}

/// Does what good words ask for, and says its line.
pub fn run<R: Threads + Wait + Sync, F: Files, S: Sink, G: Gate + Sync>(
    rt: &R,
    alloc: Global,
    request: &Request,
    files: &mut F,
    say: &mut S,
    gate: &G,
    planners: &mut [Box<dyn LayerPlanner>],
) -> Report
    requires opens { F.can_open files.old request.now.from }
    requires creates { F.can_create files.old request.now.to }
    requires wanted { MayBeWanted request.now.wanted }
    requires few { request.now.reduce ≤ 32 }
    requires work { MayBeWork request.now.work }
    ensures ends { Ends request.now (λ text facts.
        chosen (λ b. serves_text b text)
        (λ b. rule_of b text facts) planners.old) result.status result.blocks result.tape.items (F.meaning files.old)
        (F.meaning files.new) (S.said say.old) (S.said say.new) }
    ensures read { result.status ≡ Status.ReadFault → Rose (F.read_faults files.old) (F.read_faults files.new) }
    ensures write { result.status ≡ Status.WriteFault
        → Rose (F.write_faults files.old) (F.write_faults files.new) ⊎ Rose (S.faults say.old) (S.faults say.new) }
    ensures unsaid { S.faults say.old < S.faults say.new → result.status ≡ Status.WriteFault }
    ensures absent { (F.meaning files.old).holds request.now.from ≡ Some None
        → EndsUnread result.status (S.faults say.old) (S.faults say.new) }
    ensures uncreated { (F.meaning files.old).holds request.now.from ≡ Some None
        → IsUntouched (F.meaning files.old) (F.meaning files.new) }
    ensures read_rose { F.read_faults files.old < F.read_faults files.new
        → EndsAsReadFault result.status (S.said say.old) (S.said say.new) (S.faults say.old)
        (S.faults say.new) }
    ensures write_rose { F.write_faults files.old < F.write_faults files.new → result.status ≡ Status.WriteFault }
    ensures positions { TellsPositions request.now result.positions result.status (F.meaning files.old) }
    ensures misfit { IfSome result.misfit (λ misfit.
        TellsMisfit request.now misfit result.status (F.meaning files.old)) }
{
    let crew = Crew {
        rt,
        gate,
        work: request.work(),
    };
    let task = Task {
        options: request.options(),
        form: request.form(),
        reduce: request.reduce(),
        limit: request.limit(),
    };
    match read_input(alloc, files, request.from(), task.limit) {
        Ok(held) => {
            let input: &[u8] = &held;
            let ending = answer(&crew, alloc, files, request.to(), input, &task, planners);
            let positions = keeps_positions(task.form, input, ending.status);
            say_ending(alloc, say, ending, positions)
        }
        Err(refused) => say_ending(alloc, say, unread(alloc, refused), false),
    }
}
