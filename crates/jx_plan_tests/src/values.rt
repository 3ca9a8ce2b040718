//! What is made of the blocks of a codestream without a coding pass.

ghost use Rattle.std.specs.Prelude.{◌≡◌, map, [], IfOk};
ghost use Rattle.std.specs.List.{All};
ghost use Rattle.jx_base.specs.declared.pieces.Block.{Block};
ghost use Rattle.jx_base.specs.Sound.{IsSound};
ghost use Rattle.jx_codeblock.specs.declared.job.Job.{Job};
ghost use Rattle.jx_codeblock.specs.Jobs.{IsAsked};
ghost use Rattle.jx_codeblock.specs.Recoded.{WrittenBlock};
ghost use Rattle.jx_tier2_writer.specs.Tile.{AreMade, block_written, made_in};

use jx_base::NoMemory;
use jx_codeblock::{Job, Recoded, recode};
use jx_store::{Claim, Entry, Named};
use std::alloc::Global;

/// A block without a pass, as it is written. Where it has a pass this fails as if memory were refused.
fn bare_value<'a>(alloc: Global, job: &'a Job<'a>) -> Result<Recoded<'a>, NoMemory>
    requires { IsAsked job.now.block.now job.now.style job.now.ends }
    ensures job { IfOk result (λ r. r.job ≡ job.entry.now) }
    ensures sound { IfOk result (λ r. IsSound (block_written r)) }
    ensures bare { IfOk result (λ r. (block_written r).pieces ≡ []) }
{
    let claim = Claim::issue(job.number, 0);
    let value = recode(alloc, &claim, job);
    claim.spend();
    let Ok(value) = value else {
        return Err(NoMemory);
    };
    if value.parts().len() > 0 {
        return Err(NoMemory);
    }
    Ok(value)
}

/// A block's entry.
fn entry_of<'a>(number: u32, value: Recoded<'a>) -> Entry<Recoded<'a>>
    ensures { result.named ≡ Named.Made value.entry }
{
    Entry {
        number,
        worker: 0,
        seen: number,
        named: Named::Made(value),
    }
}

/// The entries of the blocks as they are written, where none has a pass.
pub(crate) fn bare_values<'a>(
    alloc: Global,
    jobs: &'a [Job<'a>],
) -> Result<Vec<Entry<Recoded<'a>>>, NoMemory>
    requires { All (λ (j : Job). IsAsked j.block.now j.style j.ends) jobs.now }
    ensures made { IfOk result (λ list. AreMade list.items) }
    ensures jobs { IfOk result (λ list. map (λ (r : WrittenBlock). r.job) (made_in list.items) ≡ jobs.entry.now) }
    ensures sound { IfOk result (λ list. All IsSound (map block_written (made_in list.items))) }
    ensures bare { IfOk result (λ list. All (λ (b : Block). b.pieces ≡ []) (map block_written (made_in list.items))) }
{
    let mut list = Vec::new(alloc);
    for job in jobs {
        let value = bare_value(alloc, job)?;
        list.push(entry_of(job.number, value))?;
    }
    Ok(list)
}
