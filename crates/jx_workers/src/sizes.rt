//! How many bytes the blocks of jobs have.
ghost use Rattle.std.specs.Prelude.{◌≡◌, ◌≤◌, All, IfOk, map};
ghost use Rattle.jx_base.specs.Pieces.{bytes_in, value_of};
ghost use Rattle.jx_workers.specs.Tapes.{size_of};
ghost use Rattle.jx_base.specs.Limits.{most_bytes};

use jx_base::{NoMemory, Piece};
use jx_codeblock::Job;
use std::alloc::Global;

// The bytes of some pieces.
fn bytes_of(pieces: &[Piece<'_>]) -> u32
    requires { bytes_in (map value_of pieces.now) ≤ most_bytes }
    ensures { result ≡ bytes_in (map value_of pieces.now) }
{
    let mut bytes = 0;
    for piece in pieces {
        bytes += piece.bytes.len() as u32;
    }
    bytes
}

// The bytes of a job's block.
fn size_of(job: &Job<'_>) -> u32
    requires { size_of job.now ≤ most_bytes }
    ensures { result ≡ size_of job.now }
{
    bytes_of(job.block.pieces.as_slice())
}

/// The bytes of the block of each job.
pub(crate) fn sizes_of(alloc: Global, jobs: &[Job<'_>]) -> Result<Vec<u32>, NoMemory>
    requires { All (λ j. size_of j ≤ most_bytes) jobs.now }
    ensures { IfOk result (λ sizes. sizes.items ≡ map size_of jobs.now) }
{
    let mut sizes = Vec::with_capacity(alloc, jobs.len())?;
    for job in jobs {
        sizes.push_reserved(size_of(job));
    }
    Ok(sizes)
}
