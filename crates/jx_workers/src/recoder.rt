//! What a worker makes of a claim: the recoding of the job under its number.
ghost use Rattle.std.specs.Prelude.{◌≡◌, ◌+◌, ◌<◌, ◌≤◌, true, IfSome, length, map};
ghost use Rattle.jx_store.specs.declared.event.Taped.{Taped};
ghost use Rattle.jx_store.specs.declared.work.Named.{Named};
ghost use Rattle.jx_codeblock.specs.Recoded.{WrittenBlock, is_bad};
ghost use Rattle.jx_workers.specs.Tapes.{AreAsked, IsJob};
ghost use Rattle.jx_workers.specs.Told.{is_anew};
ghost use Rattle.jx_workers.specs.Committed.{IsBadOne, IsCommitted, IsRight, IsRightFront};

use crate::workers::Maker;
use jx_codeblock::laws::bad_is_nothing;
use jx_codeblock::{BlockFault, Job, Recoded, recode};
use jx_store::{Claim, Entry, Named};
use std::alloc::Global;
use std::marker::Model;

/// The jobs of the numbers from a first one on.
#[derive(Drop)]
pub(crate) struct Recoder<'a> {
    alloc: Global,
    first: u32,
    jobs: &'a [Job<'a>],
}

impl<'a> Model for Recoder<'a> {
    ghost use Rattle.jx_workers.specs.Tapes.{AreAsked, Asked};

    ghost Value = { Asked };

    ghost view = { λ r. record { first = r.first; jobs = r.jobs.now } };

    ghost invariant = { λ r. AreAsked r.first r.jobs.now };
}

impl<'a> Recoder<'a> {
    pub(crate) fn new(alloc: Global, first: u32, jobs: &'a [Job<'a>]) -> Recoder<'a>
        requires { AreAsked first jobs.now }
        ensures { result ≡ record { first = first; jobs = jobs.now } }
    {
        Recoder { alloc, first, jobs }
    }
}

// What is made of a job: its recoding, or its number where a segmentation symbol is wrong, or where memory
// is refused.
fn answer<'a>(alloc: Global, claim: &Claim, job: &'a Job<'a>) -> Named<Recoded<'a>>
    requires { IsJob claim.now.number job.now }
    ensures { IsCommitted job.now result }
{
    bad_is_nothing();
    match recode(alloc, claim, job) {
        Ok(made) => Named::Made(made),
        Err(BlockFault::BadSegmentation(number)) => Named::Bad(number),
        Err(BlockFault::NoMemory) => Named::Short(claim.number()),
    }
}

impl<'a> Maker<Recoded<'a>> for Recoder<'a> {
    ghost first = { λ r. r.first };

    ghost jobs = { λ r. r.jobs };

    ghost told = { is_anew };

    fn is_told(&self, claim: &Claim) -> bool {
        let at = (claim.number() - self.first) as usize;
        self.jobs[at].style.is_some()
    }

    fn make(&self, claim: &Claim) -> Named<Recoded<'a>> {
        let place = (claim.number() - self.first) as usize;
        answer(self.alloc, claim, &self.jobs[place])
    }
}

// Whether something was made of a job.
fn is_made<'a>(named: &Named<Recoded<'a>>) -> bool
    ensures { result ≡ true → IsRight named.now }
{
    match named {
        Named::Made(made) => {
            // Its parts are those of the job's recoding.
            let _ = made.parts();
            true
        }
        Named::Bad(_) | Named::Short(_) => false,
    }
}

// So many, where the job of the last one is bad; none where memory was refused.
fn with_bad<'a>(named: &Named<Recoded<'a>>, count: usize) -> Option<usize>
    ensures { IfSome result (λ n. (n ≡ count) × IsBadOne named.now) }
{
    match named {
        Named::Bad(_) => Some(count),
        Named::Made(_) | Named::Short(_) => None,
    }
}

/// How many entries there are up to the first whose job is bad, with it; none where a worker was refused memory before.
pub(crate) fn right_front<'a>(entries: &[Entry<Recoded<'a>>]) -> Option<usize>
    ensures { IfSome result (λ n. IsRightFront (map (λ (t : Taped (Named WrittenBlock)). t.named) entries.now) n) }
{
    let mut count = 0;
    for entry in entries {
        count += 1;
        if !is_made(&entry.named) {
            return with_bad(&entry.named, count);
        }
    }
    Some(count)
}
