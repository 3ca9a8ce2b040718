//! The stages from a codestream that was read to its output: its highest resolutions are left out, a plan is made of what is left, and the
//! plan is written to a file, or to memory.

ghost use Rattle.std.specs.Prelude.{◌≡◌, ◌<◌, ◌≤◌, ℕ, List, [], length, IfErr, IfOk, IfSome, None, Some};
ghost use Rattle.jx_io.specs.Causes.{Rose};
ghost use Rattle.jx_codestream.specs.InRange.{StreamInRange};
ghost use Rattle.jx_plan.specs.Facts.{facts_of};
ghost use Rattle.jx_plan.specs.Plan.{IsPlan, MayBePlanned};
ghost use Rattle.jx_plan.specs.Planned.{IsPlanned, chosen};
ghost use Rattle.jx_options.specs.Wanted.{MayBeWanted};
ghost use Rattle.jx_options.specs.Work.{MayBeWork};
ghost use Rattle.jx_reduce.specs.Unreducible.{IsUnreducible};
ghost use Rattle.jx_workers.specs.Told.{anew_in};
ghost use Rattle.jx_transcode.specs.Filed.{IsCarriedIn, IsCarriedTo, IsEndOf, IsUnplannedEnd, all_told, blocks_told, status_of, told_of_all, told_of_plan};
ghost use Rattle.jx_transcode.specs.Misfits.{HasTile, IsMisfitBy};
ghost use Rattle.jx_transcode.specs.Rewritten.{Reads, ReadsLeft};
ghost use Rattle.jx_base.specs.Limits.{most_blocks};

use crate::Status;
use crate::judge::Picture;
use jx_base::Block;
use jx_codeblock::Job;
use jx_codestream::Stream;
use jx_io::{Files, Gate};
use jx_layers::LayerPlanner;
use jx_options::Options;
use jx_plan::{Misfit, OutStream, PlanFault, first_misfit, plan_served, shortened};
use jx_reduce::ReduceFault;
use jx_reduce::laws::whole_stays;
use jx_rounds::{Crew, Halt, TapeEntry, write_file, write_memory};
use std::alloc::Global;
use std::sync::Wait;
use std::thread::Threads;

/// How the files were left, before anything is said.
#[derive(Debug, Drop)]
pub struct Ending {
    pub status: Status,
    pub blocks: u32,
    // the bytes of the output after Done, else 0
    pub bytes: usize,
    // the entries of the rounds that were written
    pub tape: Vec<TapeEntry>,
    // what is told beside choice 2
    pub misfit: Option<Misfit>,
}

impl Ending {
    /// Nothing was made.
    pub fn refused(alloc: Global, status: Status) -> Ending
        ensures status { result.status ≡ status }
        ensures none { (result.blocks ≡ 0) × (result.bytes ≡ 0) }
        ensures tape { result.tape.items ≡ [] }
        ensures misfit { result.misfit ≡ None }
    {
        Ending {
            status,
            blocks: 0,
            bytes: 0,
            tape: Vec::new(alloc),
            misfit: None,
        }
    }
}

/// The status of a file that wasn't written to its end.
fn status_of(halt: Halt) -> Status
    ensures status { result ≡ status_of halt }
{
    match halt {
        Halt::Bad { tile: _, number } => Status::Block { number },
        Halt::TooLong { tile } => Status::Choice {
            number: 7,
            place: u32::from(tile),
        },
        Halt::Failed => Status::WriteFault,
        Halt::NoMemory => Status::NoMemory,
    }
}

/// How a run ends whose file was written, or wasn't to its end, with the entries of the rounds that were.
fn ending_of(written: Result<usize, Halt>, blocks: u32, tape: Vec<TapeEntry>) -> Ending
    ensures ends { IsEndOf written result.status result.bytes }
    ensures blocks { result.blocks ≡ blocks }
    ensures tape { result.tape.items ≡ tape.items }
    ensures misfit { result.misfit ≡ None }
{
    match written {
        Ok(bytes) => Ending {
            status: Status::Done,
            blocks,
            bytes,
            tape,
            misfit: None,
        },
        Err(halt) => Ending {
            status: status_of(halt),
            blocks,
            bytes: 0,
            tape,
            misfit: None,
        },
    }
}

/// Where precincts would change a code-block first: after choice 2, where there is memory to look for it.
fn misfit_of(alloc: Global, stream: &Stream, options: &Options, fault: PlanFault) -> Option<Misfit>
    requires range { StreamInRange stream.now }
    requires tile { HasTile stream.now fault }
    ensures { IfSome result (λ misfit. IsMisfitBy options.now.precincts stream.now fault misfit) }
{
    let PlanFault::Choice { number: 2, place } = fault else {
        return None;
    };
    match first_misfit(alloc, stream, place as u16, &options.precincts) {
        Ok(first) => first,
        Err(_) => None,
    }
}

/// A plan that can't be had of an input with so many code-blocks, and what is told beside choice 2.
fn unplanned_by(alloc: Global, fault: PlanFault, blocks: u32, misfit: Option<Misfit>) -> Ending
    ensures status { result.status ≡ told_of_plan fault }
    ensures blocks { (result.blocks ≡ blocks_told fault blocks) × (result.bytes ≡ 0) }
    ensures tape { result.tape.items ≡ [] }
    ensures misfit { IfSome result.misfit (λ told. misfit ≡ Some told) }
{
    match fault {
        PlanFault::Limit { number, found } => Ending {
            status: Status::Limit { number, found },
            blocks,
            bytes: 0,
            tape: Vec::new(alloc),
            misfit: None,
        },
        PlanFault::Choice { number, place } => Ending {
            status: Status::Choice { number, place },
            blocks,
            bytes: 0,
            tape: Vec::new(alloc),
            misfit,
        },
        PlanFault::NoMemory => Ending::refused(alloc, Status::NoMemory),
    }
}

/// How many of the blocks are coded anew.
fn anew_in(jobs: &[Job<'_>]) -> u32
    requires { length jobs.now ≤ most_blocks }
    ensures { result ≡ anew_in jobs.now }
{
    let mut count = 0;
    for job in jobs {
        if job.style.is_some() {
            count += 1;
        }
    }
    count
}

/// Resolutions that can't be left out of a picture with so many code-blocks: choice 8 or choice 9.
pub fn unreduced_by(alloc: Global, fault: ReduceFault, blocks: u32) -> Ending
    ensures status { result.status ≡ told_of_all fault }
    ensures blocks { (result.blocks ≡ all_told fault blocks) × (result.bytes ≡ 0) }
    ensures tape { result.tape.items ≡ [] }
    ensures misfit { result.misfit ≡ None }
{
    match fault {
        ReduceFault::Choice { number, place } => Ending {
            status: Status::Choice { number, place },
            blocks,
            bytes: 0,
            tape: Vec::new(alloc),
            misfit: None,
        },
        ReduceFault::NoMemory => Ending::refused(alloc, Status::NoMemory),
    }
}

/// Leaves the highest resolutions out of a picture, 0 to 32 of them. With 0 nothing is copied.
pub fn without_resolutions<'a>(
    alloc: Global,
    picture: Picture<'a>,
    reduce: u8,
) -> Result<Picture<'a>, ReduceFault>
    requires may { MayBePlanned picture.stream picture.blocks.items }
    requires few { reduce ≤ 32 }
    ensures ok { IfOk result (λ left. (input : List ℕ) → Reads input picture.entry.stream picture.entry.blocks.items
        → ReadsLeft reduce input left.stream left.blocks.items) }
    ensures may { IfOk result (λ left. MayBePlanned left.stream left.blocks.items) }
    ensures err { IfErr result (λ fault. IsUnreducible reduce picture.entry.stream fault) }
{
    whole_stays();
    if reduce == 0 {
        return Ok(picture);
    }
    match jx_reduce::reduce(alloc, &picture.stream, &picture.blocks, reduce) {
        Ok((stream, blocks)) => Ok(Picture { stream, blocks }),
        Err(fault) => Err(fault),
    }
}

/// Plans the output of a picture.
///
/// # Errors
/// Choice 1, 3, 2 or 6, limit 7, choice 12, 4, 5, 10 or 11, with the picture's code-blocks and where precincts misfit; `NoMemory`.
pub fn planned<'a, 'b: 'a>(
    alloc: Global,
    picture: &'a Picture<'b>,
    options: &'a Options,
    planners: &mut [Box<dyn LayerPlanner>],
) -> Result<OutStream<'a>, Ending>
    requires may { MayBePlanned picture.now.stream picture.now.blocks.items }
    requires wanted { MayBeWanted options.now }
    ensures plan { IfOk result (λ p. IsPlanned (chosen (λ b. serves_text b options.entry.now.layers)
        (λ b. rule_of b options.entry.now.layers
        (facts_of picture.entry.now.stream picture.entry.now.blocks.items)) planners.old)
        picture.entry.now.stream picture.entry.now.blocks.items options.entry.now p) }
    ensures err { IfErr result (λ ending. IsUnplannedEnd (chosen (λ b. serves_text b options.entry.now.layers)
        (λ b. rule_of b options.entry.now.layers
        (facts_of picture.entry.now.stream picture.entry.now.blocks.items)) planners.old)
        picture.entry.now.stream picture.entry.now.blocks.items options.entry.now ending) }
{
    let blocks: &[Block<'_>] = &picture.blocks;
    match plan_served(alloc, &picture.stream, shortened(blocks), options, planners) {
        Ok(plan) => Ok(plan),
        Err(fault) => {
            let misfit = misfit_of(alloc, &picture.stream, options, fault);
            Err(unplanned_by(alloc, fault, blocks.len() as u32, misfit))
        }
    }
}

/// A plan that is written to a file of its own.
pub fn write_bare<R: Threads + Wait + Sync, G: Gate + Sync, F: Files>(
    crew: &Crew<'_, R, G>,
    alloc: Global,
    files: &mut F,
    to: &str,
    plan: &OutStream<'_>,
) -> Ending
    requires creates { F.can_create files.old to.now }
    requires plan { IsPlan plan.now }
    requires work { MayBeWork crew.now.work }
    ensures carried { IsCarriedTo plan.now to.now crew.now.work result.status result.blocks result.bytes result.tape.items
        (F.meaning files.old) (F.meaning files.new) }
    ensures cause { result.status ≡ Status.WriteFault → Rose (F.write_faults files.old) (F.write_faults files.new) }
    ensures rose { F.write_faults files.old < F.write_faults files.new → result.status ≡ Status.WriteFault }
    ensures read { (result.status ≡ Status.ReadFault → ⊥) × (result.status ≡ Status.Words → ⊥) }
    ensures other { F.read_faults files.new ≡ F.read_faults files.old }
    ensures misfit { result.misfit ≡ None }
{
    let jobs = plan.jobs();
    let count = jobs.len() as u32;
    let mut tape = Vec::new(alloc);
    crew.gate.begin(anew_in(jobs));
    let written = write_file(crew, alloc, files, to, plan, &mut tape);
    crew.gate.end();
    ending_of(written, count, tape)
}

/// A codestream that was written to memory, or wasn't to its end.
#[derive(Drop)]
pub struct Made {
    pub status: Status,
    pub blocks: u32,
    // its bytes after Done, else none
    pub out: Vec<u8>,
    // the entries of the rounds that were made
    pub tape: Vec<TapeEntry>,
}

/// What was made of a plan with so many code-blocks.
fn made_of(alloc: Global, written: Result<Vec<u8>, Halt>, blocks: u32, tape: Vec<TapeEntry>) -> Made
    ensures ok { IfOk written (λ bytes. (result.status ≡ Status.Done) × (result.out.items ≡ bytes.items)) }
    ensures err { IfErr written (λ h. result.status ≡ status_of h) }
    ensures blocks { result.blocks ≡ blocks }
    ensures tape { result.tape.items ≡ tape.items }
{
    match written {
        Ok(out) => Made {
            status: Status::Done,
            blocks,
            out,
            tape,
        },
        Err(halt) => Made {
            status: status_of(halt),
            blocks,
            out: Vec::new(alloc),
            tape,
        },
    }
}

/// A plan that is written to memory.
pub fn made_in_memory<R: Threads + Wait + Sync, G: Gate + Sync>(
    crew: &Crew<'_, R, G>,
    alloc: Global,
    plan: &OutStream<'_>,
) -> Made
    requires plan { IsPlan plan.now }
    requires work { MayBeWork crew.now.work }
    ensures { IsCarriedIn plan.now crew.now.work result.status result.blocks result.out.items result.tape.items }
{
    let jobs = plan.jobs();
    let count = jobs.len() as u32;
    let mut tape = Vec::new(alloc);
    crew.gate.begin(anew_in(jobs));
    let written = write_memory(crew, alloc, plan, &mut tape);
    crew.gate.end();
    made_of(alloc, written, count, tape)
}
