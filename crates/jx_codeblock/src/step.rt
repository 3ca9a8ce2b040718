//! A block that is coded anew while it is decoded, where its causal bit stays.

ghost use Rattle.std.specs.Prelude.{◌≡◌, ◌≢◌, ◌≤◌, ◌-◌, map, None, IfOk, IfErr};
ghost use Rattle.jx_base.specs.Sound.{IsSound};
ghost use Rattle.jx_base.specs.Passes.{is_causal};
ghost use Rattle.jx_tier1_specs.specs.Needs.{written};
ghost use Rattle.jx_tier1_specs.specs.Short.{AreShort};
ghost use Rattle.jx_codeblock.specs.Recoded.{HasCause};
ghost use Rattle.jx_codeblock.specs.Recoding.{own_segments, coding_in, decoded_in, wrong_in};
ghost use Rattle.jx_codeblock.specs.Groups.{groups};
ghost use Rattle.jx_codeblock.specs.Learnt.{IsLearnt};

use crate::lists::NewLists;
use crate::looks::coded_in;
use crate::segments::{goes_on, joined, segments_apart, segments_in};
use crate::{BlockFault, Job};
use jx_base::{Block, NoMemory, Style};
use jx_tier1::{Coded, FlagRecoded, Segments, recode_flags};
use std::alloc::Global;

/// The passes of a block in another style that agrees on causal contexts.
fn recode(
    alloc: Global,
    block: &Block<'_>,
    coded: &Coded<'_>,
    style: Style,
) -> Result<FlagRecoded, NoMemory>
    requires sound { IsSound block.now }
    requires some { 1 ≤ block.now.passes }
    requires band { coded.now.band ≡ block.now.name.band }
    requires planes { coded.now.planes ≡ block.now.planes - block.now.zero }
    requires passes { coded.now.passes ≡ block.now.passes }
    requires short { AreShort coded.now.segments }
    requires causal { is_causal style.bits ≡ is_causal coded.now.style.bits }
    ensures segments { IfOk result (λ r. map (λ s. s.items) r.segments.items
        ≡ written (coding_in block.now style.bits) (decoded_in block.now coded.now.style.bits coded.now.segments).cells block.now.passes) }
    ensures looked { IfOk result (λ r. r.looked.items ≡ (decoded_in block.now style.bits (map (λ s. s.items) r.segments.items)).looked) }
    ensures wrong { IfOk result (λ r. r.wrong ≡ (decoded_in block.now coded.now.style.bits coded.now.segments).wrong) }
{
    let wide = block.rect.x.len() as u16;
    let high = block.rect.y.len() as u16;
    recode_flags(alloc, wide, high, coded, style)
}

/// The same from segments that are the block's own.
fn recoded_from(
    alloc: Global,
    block: &Block<'_>,
    style: Style,
    segments: Segments<'_>,
) -> Result<FlagRecoded, NoMemory>
    requires sound { IsSound block.now }
    requires some { 1 ≤ block.now.passes }
    requires own { segments ≡ groups block.now.style.bits block.now.pieces }
    requires causal { is_causal style.bits ≡ is_causal block.now.style.bits }
    ensures segments { IfOk result (λ r. map (λ s. s.items) r.segments.items
        ≡ written (coding_in block.now style.bits) (decoded_in block.now block.now.style.bits (own_segments block.now)).cells block.now.passes) }
    ensures looked { IfOk result (λ r. r.looked.items ≡ (decoded_in block.now style.bits (map (λ s. s.items) r.segments.items)).looked) }
    ensures wrong { IfOk result (λ r. r.wrong ≡ wrong_in block.now) }
{
    let coded = coded_in(block, block.style, segments);
    recode(alloc, block, &coded, style)
}

/// The passes of a block from its own segments. Where each segment is one piece no byte is copied.
fn own_recoded(alloc: Global, block: &Block<'_>, style: Style) -> Result<FlagRecoded, NoMemory>
    requires sound { IsSound block.now }
    requires some { 1 ≤ block.now.passes }
    requires causal { is_causal style.bits ≡ is_causal block.now.style.bits }
    ensures segments { IfOk result (λ r. map (λ s. s.items) r.segments.items
        ≡ written (coding_in block.now style.bits) (decoded_in block.now block.now.style.bits (own_segments block.now)).cells block.now.passes) }
    ensures looked { IfOk result (λ r. r.looked.items ≡ (decoded_in block.now style.bits (map (λ s. s.items) r.segments.items)).looked) }
    ensures wrong { IfOk result (λ r. r.wrong ≡ wrong_in block.now) }
{
    let pieces = block.pieces.as_slice();
    if !goes_on(block.style, pieces) {
        let segments = segments_apart(alloc, block.style, pieces)?;
        return recoded_from(alloc, block, style, segments);
    }
    let whole = joined(alloc, pieces)?;
    let segments = segments_in(alloc, block.style, pieces, &whole)?;
    recoded_from(alloc, block, style, segments)
}

/// The segments of a block that is to be coded anew in a style that agrees on causal contexts, and how far
/// a decoder of them looks.
pub(crate) fn lists_in_step(
    alloc: Global,
    job: &Job<'_>,
    style: Style,
) -> Result<NewLists, BlockFault>
    requires sound { IsSound job.now.block.now }
    requires some { 1 ≤ job.now.block.now.passes }
    requires anew { job.now.style ≢ None }
    requires causal { is_causal style.bits ≡ is_causal job.now.block.now.style.bits }
    ensures lists { let b = job.now.block.now in IfOk result (λ new. map (λ l. l.items) new.lists.items
        ≡ written (coding_in b style.bits) (decoded_in b b.style.bits (own_segments b)).cells b.passes) }
    ensures looked { IfOk result (λ new. IsLearnt job.now.block.now style new) }
    ensures right { IfOk result (λ new. wrong_in job.now.block.now ≡ None) }
    ensures bad { IfErr result (λ e. HasCause job.now e) }
{
    let recoded = own_recoded(alloc, job.block, style)?;
    if recoded.wrong.is_some() {
        return Err(BlockFault::BadSegmentation(job.number));
    }
    Ok(NewLists {
        lists: recoded.segments,
        looked: Some(recoded.looked),
    })
}
