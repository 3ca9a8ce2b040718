//! The call that recodes the blocks of some jobs.
ghost use Rattle.std.specs.Prelude.{◌≡◌, ◌<◌, ◌≤◌, ◌+◌, IfOk, length, map};
ghost use Rattle.std.specs.List.{sum};
ghost use Rattle.jx_workers.specs.Tapes.{AreAsked, IsTape, size_of};
ghost use Rattle.jx_base.specs.Limits.{most_blocks, most_bytes};

use crate::recoder::{Recoder, right_front};
use crate::sizes::sizes_of;
use crate::workers::{Limits, tape_of};
use jx_base::NoMemory;
use jx_codeblock::{Job, Recoded};
use jx_io::Gate;
use jx_store::Entry;
use std::alloc::Global;
use std::marker::Brand;
use std::sync::Wait;
use std::thread::Threads;

/// What workers made of some jobs, in the order of the jobs, up to the first that is bad.
#[derive(Drop)]
pub struct Tape<'a> {
    /// For each job its number, the worker that had it, the first number that wasn't drained when it was
    /// claimed, and the block as it is written, or its number where it is bad.
    pub entries: Vec<Entry<Recoded<'a>>>,
}

/// Makes of each job's block what the job asks for, by `threads` workers, of which each takes the next job
/// that none has. Of several blocks between claim and sequence there are at most `window`, and their
/// pieces have at most `most` bytes; one alone may have more. The gate is told of each block that is coded
/// anew, before a worker makes it and after that, before it is committed. The numbers of the jobs go from `first` on and end at 2^22; `threads` is
/// 1 to 64, `window` 1 to 1,024 and `most` 1 to 2^32 - 1, and all pieces have at most 2^32 - 1 bytes.
///
/// The tape says of each job what it asks for, or that it is bad: that it is to be coded anew, and one of
/// its segmentation symbols is wrong (T.800 D.5). It ends with the first job that is bad: once a worker
/// found one, none claims a number above it and makes its block. It is refused for want of memory alone.
pub fn recode_all<'a, R: Threads + Wait + Sync, G: Gate + Sync>(
    rt: &R,
    alloc: Global,
    jobs: &'a [Job<'a>],
    first: u32,
    threads: u32,
    window: u32,
    most: u32,
    gate: &G,
) -> Result<Tape<'a>, NoMemory>
    requires jobs { AreAsked first jobs.now }
    requires count { first + length jobs.now ≤ most_blocks }
    requires sizes { sum (map size_of jobs.now) ≤ most_bytes }
    requires threads { (0 < threads) × (threads ≤ 64) }
    requires windows { (0 < window) × (window ≤ 1024) × (0 < most) × (most ≤ most_bytes) }
    ensures { IfOk result (λ tape. IsTape jobs.now first threads window most tape.entries.items) }
{
    if jobs.is_empty() {
        return Ok(Tape {
            entries: Vec::new(alloc),
        });
    }
    let sizes = sizes_of(alloc, jobs)?;
    let recoder = Recoder::new(alloc, first, jobs);
    let limits = Limits::new(first, window, most, threads);
    let entries = tape_of::<Recoded<'a>, Brand, R, G, Recoder<'a>>(
        rt,
        alloc,
        jobs,
        sizes.as_slice(),
        limits,
        &recoder,
        gate,
    )?;
    let Some(count) = right_front(entries.as_slice()) else {
        return Err(NoMemory);
    };
    let mut front = entries;
    front.truncate(count);
    Ok(Tape { entries: front })
}
