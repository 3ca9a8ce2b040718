//! By whom the code-blocks of a run are made, and how.

ghost use Rattle.std.specs.Prelude.{◌≡◌, ◌<◌, ◌≤◌, ◌+◌, ◌↔◌, [], None, true, is_some, length, map, All, IfOk, IfSome, OnOk};
ghost use Rattle.std.specs.List.{list_any, sum};
ghost use Rattle.jx_base.specs.Pieces.{bytes_in, value_of};
ghost use Rattle.jx_codeblock.specs.Jobs.{IsAsked};
ghost use Rattle.jx_store.specs.declared.event.Taped.{Taped};
ghost use Rattle.jx_store.specs.declared.work.Named.{Named};
ghost use Rattle.jx_codeblock.specs.Recoded.{WrittenBlock, is_bad};
ghost use Rattle.jx_codeblock.specs.declared.job.Job.{Job as job_asked};
ghost use Rattle.jx_workers.specs.Tapes.{AreAsked, answer_of, size_of, up_to_bad};
ghost use Rattle.jx_options.specs.Work.{MayBeWork, most_workers};
ghost use Rattle.jx_rounds.specs.MadeRounds.{AreMadeAlone, AreUnshared, IsTapeFrom};
ghost use Rattle.jx_base.specs.Limits.{most_blocks, most_bytes};

use jx_base::{MOST_BYTES, NoMemory, Piece};
use jx_codeblock::{BlockFault, Job, Recoded, recode};
use jx_io::Gate;
use jx_options::Work;
use jx_store::laws::numbers_count_up;
use jx_store::{Claim, Entry, Named, Taped};
use jx_workers::{Tape, recode_all};
use std::alloc::Global;
use std::sync::Wait;
use std::thread::{Threads, available_parallelism};

/// What workers are made with: the threads' and waiting's handle, the gate that is told of each block that is coded anew, and how many
/// there are, inside which windows.
#[derive(Drop)]
pub struct Crew<'a, R, G> {
    pub rt: &'a R,
    pub gate: &'a G,
    pub work: Work,
}

/// Whether one of the blocks is to be coded anew.
pub fn is_anew(jobs: &[Job<'_>]) -> bool
    ensures { result ≡ list_any (λ j. is_some j.style) jobs.now }
{
    jobs.iter().any(|job| job.style.is_some())
}

/// What is left of a room for bytes after those of some pieces; none where it is too small.
fn left_after(room: usize, pieces: &[Piece<'_>]) -> Option<usize>
    ensures some { IfSome result (λ left. left + bytes_in (map value_of pieces.now) ≡ room) }
    ensures none { result ≡ None → room < bytes_in (map value_of pieces.now) }
{
    let mut left = room;
    for piece in pieces {
        left = left.checked_sub(piece.bytes.len())?;
    }
    Some(left)
}

/// Whether the pieces of the blocks have at most 2^32 - 1 bytes together.
fn is_light(jobs: &[Job<'_>]) -> bool
    ensures { (result ≡ true) ↔ (sum (map size_of jobs.now) ≤ most_bytes) }
{
    let mut left = MOST_BYTES;
    for job in jobs {
        match left_after(left, job.block.pieces.as_slice()) {
            Some(rest) => left = rest,
            None => return false,
        }
    }
    true
}

/// What is made of a job, or its number where a segmentation symbol of its block is wrong.
fn answer<'a>(alloc: Global, job: &'a Job<'a>) -> Result<Named<Recoded<'a>>, NoMemory>
    requires { IsAsked job.now.block.now job.now.style job.now.ends }
    ensures { IfOk result (λ named. named ≡ answer_of job.now) }
{
    let claim = Claim::issue(job.number, job.number);
    let result = recode(alloc, &claim, job);
    let _ = claim.spend();
    match result {
        Ok(made) => Ok(Named::Made(made)),
        Err(BlockFault::BadSegmentation(number)) => Ok(Named::Bad(number)),
        Err(BlockFault::NoMemory) => Err(NoMemory),
    }
}

/// What is made of a job; the gate is told of one that is coded anew, before and after it is made.
fn answer_told<'a, G: Gate>(
    alloc: Global,
    gate: &G,
    job: &'a Job<'a>,
) -> Result<Named<Recoded<'a>>, NoMemory>
    requires { IsAsked job.now.block.now job.now.style job.now.ends }
    ensures { IfOk result (λ named. named ≡ answer_of job.now) }
{
    if job.style.is_none() {
        return answer(alloc, job);
    }
    gate.enter(job.number);
    let result = answer(alloc, job);
    gate.leave(job.number);
    result
}

/// The entry of a job whose block is the only one in hand.
fn entry_of<'a, G: Gate>(
    alloc: Global,
    gate: &G,
    job: &'a Job<'a>,
) -> Result<Entry<Recoded<'a>>, NoMemory>
    requires { IsAsked job.now.block.now job.now.style job.now.ends }
    ensures { IfOk result
        (λ t. t ≡ record { number = job.now.number; worker = 0; seen = job.now.number; named = answer_of job.now }) }
{
    let named = answer_told(alloc, gate, job)?;
    Ok(Taped {
        number: job.number,
        worker: 0,
        seen: job.number,
        named,
    })
}

/// Whether nothing can be made of a job of which this was made.
fn is_bad(entry: &Entry<Recoded<'_>>) -> bool
    ensures { (j : job_asked) → entry.now.named ≡ answer_of j → result ≡ is_bad j }
{
    match &entry.named {
        Named::Made(_) => false,
        Named::Bad(_) => true,
        Named::Short(_) => true,
    }
}

/// Puts what is made of jobs one after another, on this thread, into an empty list, up to the first of which nothing can be made.
#[tactic(auto, using(crate::proofs::TapedLemmas::alone_all))]
fn put_alone<'a, G: Gate>(
    alloc: Global,
    gate: &G,
    jobs: &'a [Job<'a>],
    entries: &mut Vec<Entry<Recoded<'a>>>,
) -> Result<(), NoMemory>
    requires asked { All (λ j. IsAsked j.block.now j.style j.ends) jobs.now }
    requires empty { entries.old.items ≡ [] }
    ensures { OnOk result (AreMadeAlone (up_to_bad jobs.entry.now) entries.new.items) }
{
    for job in jobs {
        let entry = entry_of(alloc, gate, job)?;
        let is_last = is_bad(&entry);
        entries.push(entry)?;
        if is_last {
            return Ok(());
        }
    }
    Ok(())
}

/// What is made of jobs one after another, on this thread, up to the first of which nothing can be made.
fn made_alone<'a, G: Gate>(
    alloc: Global,
    gate: &G,
    jobs: &'a [Job<'a>],
) -> Result<Vec<Entry<Recoded<'a>>>, NoMemory>
    requires { All (λ j. IsAsked j.block.now j.style j.ends) jobs.now }
    ensures { IfOk result (λ entries. AreMadeAlone (up_to_bad jobs.entry.now) entries.items) }
{
    let mut entries = Vec::new(alloc);
    put_alone(alloc, gate, jobs, &mut entries)?;
    Ok(entries)
}

/// How many threads are started where so many are asked for: as many, or, for 0, as many as the system has free for the process, at most 64 (one
/// where it doesn't say).
pub fn threads_for<R: Threads>(rt: &R, wanted: u32) -> u32
    requires { wanted ≤ 64 }
    ensures some { (1 ≤ result) × (result ≤ most_workers wanted) }
    ensures same { 1 ≤ wanted → result ≡ wanted }
{
    if wanted > 0 {
        return wanted;
    }
    match available_parallelism(rt) {
        Ok(free) => free.get().min(64) as u32,
        Err(_) => 1,
    }
}

/// What workers make of jobs.
#[tactic(auto, using(crate::proofs::TapedLemmas::more_workers))]
fn made_by_workers<'a, R: Threads + Wait + Sync, G: Gate + Sync>(
    crew: &Crew<'_, R, G>,
    alloc: Global,
    jobs: &'a [Job<'a>],
    first: u32,
) -> Result<Vec<Entry<Recoded<'a>>>, NoMemory>
    requires jobs { AreAsked first jobs.now }
    requires count { first + length jobs.now ≤ most_blocks }
    requires sizes { sum (map size_of jobs.now) ≤ most_bytes }
    requires work { MayBeWork crew.now.work }
    ensures { IfOk result (λ entries. IsTapeFrom jobs.entry.now first crew.now.work entries.items) }
{
    let work = crew.work;
    let threads = threads_for(crew.rt, work.threads);
    let Tape { entries } = recode_all(
        crew.rt,
        alloc,
        jobs,
        first,
        threads,
        work.window,
        work.most,
        crew.gate,
    )?;
    Ok(entries)
}

/// Makes of blocks what is asked of them, up to the first of which a segmentation symbol is wrong: by workers where one of them is coded anew and
/// their pieces have at most 2^32 - 1 bytes, else one after another, by worker 0. `first` is the number of the first job.
#[tactic(auto, using(crate::proofs::TapedLemmas::shared_none))]
pub fn made_blocks<'a, R: Threads + Wait + Sync, G: Gate + Sync>(
    crew: &Crew<'_, R, G>,
    alloc: Global,
    jobs: &'a [Job<'a>],
    first: u32,
) -> Result<Vec<Entry<Recoded<'a>>>, NoMemory>
    requires jobs { AreAsked first jobs.now }
    requires count { first + length jobs.now ≤ most_blocks }
    requires work { MayBeWork crew.now.work }
    ensures tape { IfOk result (λ entries. IsTapeFrom jobs.entry.now first crew.now.work entries.items) }
    ensures alone { IfOk result (λ entries. AreUnshared jobs.entry.now
        → AreMadeAlone (up_to_bad jobs.entry.now) entries.items) }
{
    numbers_count_up();
    if is_anew(jobs) && is_light(jobs) {
        return made_by_workers(crew, alloc, jobs, first);
    }
    made_alone(alloc, crew.gate, jobs)
}
