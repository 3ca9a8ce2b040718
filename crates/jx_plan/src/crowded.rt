//! Whether a packet header can tell how many passes its layer has of each code-block (ITU-T T.800, B.10.6, Table B.4).

ghost use Rattle.std.specs.Prelude.{◌≤◌, length};
ghost use Rattle.std.specs.Bool.{Decides};
ghost use Rattle.jx_plan.specs.Layers.{HasMany};
ghost use Rattle.jx_plan.specs.Crowded.{IsLowestCrowded};
ghost use Rattle.jx_base.specs.Limits.{most_blocks};

use jx_codeblock::{Job, LayerEnd};

/// Whether some layer has over 164 passes.
fn has_many(ends: &[LayerEnd]) -> bool
    ensures { Decides result (HasMany 0 ends.now) }
{
    let mut first = 0_u16;
    for end in ends {
        if end.passes.saturating_sub(first) > 164 {
            return true;
        }
        first = end.passes;
    }
    false
}

/// The number of the lowest code-block of which some layer has over 164 passes, where the jobs stand in the order of their
/// numbers from 0 on; none where there is no such block.
#[tactic(auto, using(crate::proofs::CrowdLemmas::none_crowded, crate::proofs::CrowdLemmas::is_crowded, crate::proofs::CrowdLemmas::still_none))]
pub fn first_crowded(jobs: &[Job<'_>]) -> Option<u32>
    requires { length jobs.now ≤ most_blocks }
    ensures { IsLowestCrowded jobs.now result }
{
    for number in 0..jobs.len() {
        if has_many(jobs[number].ends.as_slice()) {
            return Some(number as u32);
        }
    }
    None
}
