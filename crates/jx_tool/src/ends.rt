//! A run over the words of the process, or help, and the status that the process ends with.

ghost use Rattle.std.specs.Prelude.{◌≡◌, ◌≢◌, ◌⊎◌, true, map, string_bytes, IfErr, IfOk, IsOk, OnErr};
ghost use Rattle.std.specs.Process.{exit_status};
ghost use Rattle.std.specs.IoError.{error_kind};
ghost use Rattle.std.specs.Vec.Iter.{into_iter_items};
ghost use Rattle.jx_plan.specs.Planned.{chosen};
ghost use Rattle.jx_cli.specs.BoxesWords.{boxes_of, is_boxes};
ghost use Rattle.jx_cli.specs.SameWords.{is_same, same_of};
ghost use Rattle.jx_cli.specs.ShowWords.{is_show, show_of};
ghost use Rattle.jx_cli.specs.Words.{is_good, request_of};
ghost use Rattle.jx_tool.specs.Ended.{IsEnded, IsHelped, IsEndedBySome, IsSaid, TellsUnsaid, words_in};

use jx_cli::{WordsFault, read_words};
use jx_io::{Fault, Files, Progress, Refused, Sink, TellsFault, is_standard_output};
use jx_layers::{CutLayers, KeepLayers, LayerPlanner, OneLayer, PlaneLayers};
use jx_messages::{Refusal, explain, explain_fault, help_of, note_positions};
use jx_plan::Misfit;
use jx_transcode::{Status, Unlike, run};
use std::alloc::{AllocError, Global};
use std::env::Args;
use std::io;
use std::io::{Eprint, ErrorKind};
use std::process::ExitCode;
use std::rt::Files as Disk;
use std::sync::Wait;
use std::thread::Threads;
use std::time::Clock;

fn collected(alloc: Global, args: Args) -> Result<Vec<String>, AllocError>
    ensures { IfOk result (λ words. words.items ≡ into_iter_items args) }
{
    args.collect::<Vec<String>>(alloc)
}

/// The words of the command line, all of them in their order. Where one is no text there are none,
/// which is no command.
fn words_of(alloc: Global, args: io::Result<Args>) -> Result<Vec<String>, Status>
    ensures words { IfOk result (λ words. map string_bytes words.items ≡ words_in args) }
    ensures faulty { IfErr args (λ e. error_kind e ≢ ErrorKind.OutOfMemory → IsOk result) }
    ensures err { IfErr result (λ status. status ≡ Status.NoMemory) }
{
    match args {
        Ok(args) => match collected(alloc, args) {
            Ok(words) => Ok(words),
            Err(_) => Err(Status::NoMemory),
        },
        Err(error) => {
            if error.kind() == ErrorKind::OutOfMemory {
                return Err(Status::NoMemory);
            }
            Ok(Vec::new(alloc))
        }
    }
}

/// Whether the line that says how a run over these words went goes to standard error: where good words have the codestream written to
/// standard output. An `Err` is want of memory.
pub(crate) fn says_aside<R: Disk + AllocGlobal>(
    rt: &R,
    alloc: Global,
    args: io::Result<Args>,
) -> Result<bool, AllocError> {
    let Ok(words) = words_of(alloc, args) else {
        return Err(AllocError);
    };
    match read_words(alloc, &words) {
        Ok(request) => is_standard_output(rt, request.to()),
        Err(WordsFault::Words) => Ok(false),
        Err(WordsFault::NoMemory) => Err(AllocError),
    }
}

/// A choice that can't be had: choice 2 with what is known of the input's own precincts.
fn choice_of(number: u8, place: u32, misfit: Option<Misfit>) -> Refusal {
    match misfit {
        Some(own) => Refusal::Misfit {
            place,
            comp: own.comp,
            res: own.res,
            across: own.across,
            down: own.down,
        },
        None => Refusal::Choice { number, place },
    }
}

/// Why a run was refused; nothing where it is done.
fn refusal_of(status: Status, misfit: Option<Misfit>) -> Option<Refusal> {
    match status {
        Status::Done => None,
        Status::Words => Some(Refusal::Words),
        Status::Rule { number, place } => Some(Refusal::Rule { number, place }),
        Status::Limit { number, found } => Some(Refusal::Limit { number, found }),
        Status::Choice { number, place } => Some(choice_of(number, place, misfit)),
        Status::Block { number } => Some(Refusal::Block { number }),
        Status::Unlike(Unlike::Differs(difference)) => Some(Refusal::Differs(difference)),
        Status::Unlike(Unlike::SecondRule { number, place }) => {
            Some(Refusal::SecondRule { number, place })
        }
        Status::Unlike(Unlike::SecondLimit { number, found }) => {
            Some(Refusal::SecondLimit { number, found })
        }
        Status::ReadFault => Some(Refusal::ReadFault),
        Status::WriteFault => Some(Refusal::WriteFault),
        Status::NoMemory => Some(Refusal::NoMemory),
    }
}

fn fault_text(alloc: Global, fault: &Fault, words: &[String]) -> Result<String, AllocError> {
    let cause = fault.cause(alloc)?;
    explain_fault(alloc, fault.step(), cause.as_str(), words)
}

/// Why a run was refused, where it was: by a fault, if this is why.
fn text_of(
    alloc: Global,
    words: &[String],
    status: Status,
    misfit: Option<Misfit>,
    fault: Option<Fault>,
) -> Result<Option<String>, AllocError> {
    let Some(refusal) = refusal_of(status, misfit) else {
        return Ok(None);
    };
    match (refusal, fault) {
        (Refusal::ReadFault | Refusal::WriteFault, Some(fault)) => {
            Ok(Some(fault_text(alloc, &fault, words)?))
        }
        _ => Ok(Some(explain(alloc, refusal, words)?)),
    }
}

/// Says on standard error why a run was refused. The status stays what it is where that can't be said.
fn tell<R: Eprint>(
    rt: &R,
    alloc: Global,
    words: &[String],
    status: Status,
    misfit: Option<Misfit>,
    fault: Option<Fault>,
) {
    if let Ok(Some(text)) = text_of(alloc, words, status, misfit, fault) {
        let _ = rt.eprint(text.as_str());
    }
}

/// Says on standard error what the output of a run may mislead about. The status stays what it is where that can't be said.
fn note<R: Eprint>(rt: &R, alloc: Global, words: &[String], positions: bool) {
    if positions {
        if let Ok(text) = note_positions(alloc, words) {
            let _ = rt.eprint(text.as_str());
        }
    }
}

/// Says a text: how that ends.
fn say_text<S: Sink>(say: &mut S, text: &str) -> Status
    ensures said { IsSaid result text.now (S.said say.old) (S.said say.new) }
    ensures counted { TellsUnsaid result (S.faults say.old) (S.faults say.new) }
{
    match say.say(text) {
        Ok(()) => Status::Done,
        Err(Refused::Failed) => Status::WriteFault,
        Err(Refused::NoMemory) => Status::NoMemory,
    }
}

/// Says the help that words ask for: what the process ends with. Where it can't be said standard error says why.
fn help<R: Eprint, S: Sink + TellsFault>(
    rt: &R,
    alloc: Global,
    words: &[String],
    say: &mut S,
    text: &str,
) -> Status
    ensures said { IsSaid result text.now (S.said say.old) (S.said say.new) }
    ensures counted { TellsUnsaid result (S.faults say.old) (S.faults say.new) }
{
    let status = say_text(say, text);
    tell(rt, alloc, words, status, None, say.last_fault());
    status
}

fn last_fault<F: TellsFault, S: TellsFault>(files: &F, say: &S) -> Option<Fault> {
    match say.last_fault() {
        Some(fault) => Some(fault),
        None => files.last_fault(),
    }
}

/// Runs on the words of the command line with these planners of layers, or says the help that they ask for: what the process ends with.
fn end_of<R: Threads + Wait + Sync + Eprint + Clock, F: Files + TellsFault, S: Sink + TellsFault>(
    rt: &R,
    alloc: Global,
    args: io::Result<Args>,
    files: &mut F,
    say: &mut S,
    planners: Vec<Box<dyn LayerPlanner>>,
    progress: &Progress<'_, R>,
) -> ExitCode
    requires opens { is_good (words_in args) ≡ true → F.can_open files.old (request_of (words_in args)).from }
    requires lists { is_boxes (words_in args) ≡ true → F.can_open files.old (boxes_of (words_in args)).name }
    requires compares { is_same (words_in args) ≡ true
        → F.can_open files.old (same_of (words_in args)).first × F.can_open files.old (same_of (words_in args)).second }
    requires shows { is_show (words_in args) ≡ true → F.can_open files.old (show_of (words_in args)).name }
    requires creates { is_good (words_in args) ≡ true → F.can_create files.old (request_of (words_in args)).to }
    ensures { IsEnded (words_in args) (λ text facts. chosen (λ b. serves_text b text) (λ b. rule_of b text facts) planners.items) (exit_status result) (F.meaning files.old) (F.meaning files.new) (S.said say.old) (S.said say.new) (F.read_faults files.old) (F.read_faults files.new) (F.write_faults files.old) (F.write_faults files.new) (S.faults say.old) (S.faults say.new)
        ⊎ IsHelped (words_in args) (exit_status result) (F.meaning files.old) (F.meaning files.new) (S.said say.old) (S.said say.new) (F.read_faults files.old) (F.read_faults files.new) (F.write_faults files.old) (F.write_faults files.new) (S.faults say.old) (S.faults say.new) }
{
    let words = match words_of(alloc, args) {
        Ok(words) => words,
        Err(status) => return ExitCode::from(status.number()),
    };
    match help_of(alloc, &words) {
        Ok(None) => {
            let report = run(rt, alloc, &words, files, say, progress, planners);
            let fault = last_fault(files, say);
            tell(rt, alloc, &words, report.status, report.misfit, fault);
            note(rt, alloc, &words, report.positions);
            ExitCode::from(report.status.number())
        }
        Ok(Some(text)) => ExitCode::from(help(rt, alloc, &words, say, text.as_str()).number()),
        Err(_) => ExitCode::from(Status::NoMemory.number()),
    }
}

/// Makes the planners of layers, and runs with them, or says help. An `Err` is want of memory for these: then nothing was done.
pub(crate) fn start<
    R: Threads + Wait + Sync + Eprint + Clock,
    F: Files + TellsFault,
    S: Sink + TellsFault,
>(
    rt: &R,
    alloc: Global,
    args: io::Result<Args>,
    files: &mut F,
    say: &mut S,
    progress: &Progress<'_, R>,
) -> Result<ExitCode, AllocError>
    requires opens { is_good (words_in args) ≡ true → F.can_open files.old (request_of (words_in args)).from }
    requires lists { is_boxes (words_in args) ≡ true → F.can_open files.old (boxes_of (words_in args)).name }
    requires compares { is_same (words_in args) ≡ true
        → F.can_open files.old (same_of (words_in args)).first × F.can_open files.old (same_of (words_in args)).second }
    requires shows { is_show (words_in args) ≡ true → F.can_open files.old (show_of (words_in args)).name }
    requires creates { is_good (words_in args) ≡ true → F.can_create files.old (request_of (words_in args)).to }
    ensures ended { IfOk result (λ end. IsEndedBySome (words_in args) (exit_status end) (F.meaning files.old) (F.meaning files.new) (S.said say.old) (S.said say.new) (F.read_faults files.old) (F.read_faults files.new) (F.write_faults files.old) (F.write_faults files.new) (S.faults say.old) (S.faults say.new)
        ⊎ IsHelped (words_in args) (exit_status end) (F.meaning files.old) (F.meaning files.new) (S.said say.old) (S.said say.new) (F.read_faults files.old) (F.read_faults files.new) (F.write_faults files.old) (F.write_faults files.new) (S.faults say.old) (S.faults say.new)) }
    ensures undone { OnErr result ((F.meaning files.new ≡ F.meaning files.old) × (S.said say.new ≡ S.said say.old)) }
{
    let mut planners = Vec::with_capacity(alloc, 4)?;
    let keep: Box<dyn LayerPlanner> = Box::new(alloc, KeepLayers::new())?;
    planners.push_reserved(keep);
    let one: Box<dyn LayerPlanner> = Box::new(alloc, OneLayer::new())?;
    planners.push_reserved(one);
    let cuts: Box<dyn LayerPlanner> = Box::new(alloc, CutLayers::new())?;
    planners.push_reserved(cuts);
    let planes: Box<dyn LayerPlanner> = Box::new(alloc, PlaneLayers::new())?;
    planners.push_reserved(planes);
    Ok(end_of(rt, alloc, args, files, say, planners, progress))
}
