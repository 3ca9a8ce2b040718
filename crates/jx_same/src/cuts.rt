//! Numbers from one on below another, cut into runs, each of which a thread takes.

ghost use Rattle.std.specs.Prelude.{◌≡◌, ◌<◌, ◌≤◌, ◌+◌, ◌*◌, ℕ, Bool, List, find, length, IfOk};
ghost use Rattle.jx_base.specs.Joined.{joined};
ghost use Rattle.jx_same.specs.declared.answer.Spot.{Spot};
ghost use Rattle.jx_same.specs.Runs.{AreFirsts, cut_at};

use crate::Spot;
use jx_base::NoMemory;

/// Units from `low` on below `high` in runs of `size`, of which the last may have fewer.
#[derive(Clone, Copy, Debug)]
pub(crate) struct Cut {
    pub(crate) low: u32,
    pub(crate) high: u32,
    pub(crate) size: u32,
    pub(crate) runs: u32,
}

/// The units from one on that threads take next, at most `share` each, of those below an end.
pub(crate) fn cut_evenly(low: u32, end: u32, share: u32, threads: u32) -> Cut
    requires threads { (1 ≤ threads) × (threads ≤ 64) }
    requires share { 0 < share }
    requires low { low < end }
    ensures from { result.low ≡ low }
    ensures some { low < result.high }
    ensures high { result.high ≤ end }
    ensures all { result.high ≤ result.low + result.runs * result.size }
{
    let taken = share.saturating_mul(threads).min(end - low);
    let size = taken.div_ceil(threads);
    Cut {
        low,
        high: low + taken,
        size,
        runs: taken.div_ceil(size),
    }
}

/// Where the run of a number begins.
pub(crate) fn cut_at(low: u32, size: u32, high: u32, number: u32) -> u32
    ensures { result ≡ cut_at low size high number }
{
    low.saturating_add(number.saturating_mul(size)).min(high)
}

/// What a run answered.
fn answer_in(answer: &Result<Option<Spot>, NoMemory>) -> Result<Option<Spot>, NoMemory>
    ensures { result ≡ answer.now }
{
    match answer {
        Ok(found) => Ok(*found),
        Err(NoMemory) => Err(NoMemory),
    }
}

/// The first spot of the answers of runs, or the error of the first run that has one and stands before it.
pub(crate) fn first_found(
    answers: &[Result<Option<Spot>, NoMemory>],
) -> Result<Option<Spot>, NoMemory>
    ensures { (p : Spot → Bool) → (f : ℕ → List Spot) → AreFirsts p f answers.now
        → IfOk result (λ found. found ≡ find p (joined f 0 (length answers.now))) }
{
    for answer in answers {
        if let Some(spot) = answer_in(answer)? {
            return Ok(Some(spot));
        }
    }
    Ok(None)
}
