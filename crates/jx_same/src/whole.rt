//! Two codestreams compared.

ghost use Rattle.std.specs.Prelude.{◌≡◌, ◌≤◌, find, IfOk};
ghost use Rattle.jx_plan.specs.Meaning.{meaning_of};
ghost use Rattle.jx_plan.specs.Plan.{MayBePlanned};
ghost use Rattle.jx_same.specs.Items.{answer_of, differs, items_of};
ghost use Rattle.jx_same.specs.Sides.{IsInput, meaning_in};
ghost use Rattle.jx_same.specs.Within.{MeanOne};
ghost use Rattle.jx_same.specs.declared.answer.Answer.TheVariants as told;

use crate::headers::compare_pictures;
use crate::input::Input;
use crate::rounds::compare_tiles;
use crate::values::difference_at;
use crate::{Answer, Spot};
use jx_base::{Block, NoMemory};
use jx_codestream::Stream;
use std::alloc::Global;
use std::thread::Threads;

/// The first value that differs.
fn first_differing<R: Threads + Sync>(
    rt: &R,
    alloc: Global,
    threads: u32,
    a: Input<'_>,
    b: Input<'_>,
) -> Result<Option<Spot>, NoMemory>
    requires threads { (1 ≤ threads) × (threads ≤ 64) }
    requires a { IsInput a }
    requires b { IsInput b }
    ensures { IfOk result (λ found. found ≡ find (differs (meaning_in a.entry) (meaning_in b.entry))
        (items_of a.entry.stream.now)) }
{
    if let Some(spot) = compare_pictures(&a, &b) {
        return Ok(Some(spot));
    }
    compare_tiles(rt, alloc, threads, a, b)
}

/// Whether two codestreams that were read, with the code-blocks that were gathered of them, mean the same: the picture's canvas, each
/// component's depth and subsampling, how each tile-component is transformed and quantized, and of each place of each band the sign,
/// the magnitude bits and the decoded planes of the coefficient (ITU-T T.800, A.5, A.6, B.3 to B.7, D and E), whatever their packets,
/// layers, precincts, sizes of code-blocks and styles are. The first value that differs is told, as both have it, in the order of `a`'s code-blocks.
///
/// Code-blocks of both that have the same places, passes, style and segments aren't decoded. The others are, by `threads` threads, 1 to
/// 64, on which the answer doesn't depend; with one none is started. Each takes a run of small tiles, or in larger ones a run of at most
/// 16 code-blocks of one band of `a`, and has one code-block of `a` decoded at a time.
///
/// # Errors
///
/// `NoMemory` where memory is refused.
pub fn compare<R: Threads + Sync>(
    rt: &R,
    alloc: Global,
    threads: u32,
    sa: &Stream,
    ba: &[Block<'_>],
    sb: &Stream,
    bb: &[Block<'_>],
) -> Result<Answer, NoMemory>
    requires threads { (1 ≤ threads) × (threads ≤ 64) }
    requires a { MayBePlanned sa.now ba.now }
    requires b { MayBePlanned sb.now bb.now }
    ensures first { IfOk result (λ answer. answer
        ≡ answer_of sa.now (meaning_of sa.now ba.now) (meaning_of sb.now bb.now)) }
    ensures one { IfOk result (λ answer. answer ≡ told.Same
        → MeanOne (meaning_of sa.now ba.now) (meaning_of sb.now bb.now)) }
    ensures within { IfOk result (λ answer. MeanOne (meaning_of sa.now ba.now) (meaning_of sb.now bb.now)
        → answer ≡ told.Same) }
    ensures same { IfOk result (λ answer. meaning_of sa.now ba.now ≡ meaning_of sb.now bb.now → answer ≡ told.Same) }
{
    let a = Input {
        stream: sa,
        blocks: ba,
    };
    let b = Input {
        stream: sb,
        blocks: bb,
    };
    Ok(match first_differing(rt, alloc, threads, a, b)? {
        None => Answer::Same,
        Some(spot) => Answer::Differs(difference_at(alloc, &a, &b, spot)?),
    })
}
