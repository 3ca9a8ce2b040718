//! A block that is coded anew: its coefficients, their segments in another style, and the parts of these.

ghost use Rattle.std.specs.Prelude.{◌≡◌, ◌≢◌, ◌≤◌, true, length, map, None, Some, IfOk, IfErr};
ghost use Rattle.std.specs.List.{concat};
ghost use Rattle.jx_base.specs.Sound.{IsSound};
ghost use Rattle.jx_tier1_specs.specs.Cells.{HasSize};
ghost use Rattle.jx_codeblock.specs.Jobs.{AreEnds};
ghost use Rattle.jx_codeblock.specs.Recoded.{HasCause};
ghost use Rattle.jx_codeblock.specs.Recoding.{layer_parts_after, sent_in, own_segments, decoded_in, wrong_in};
ghost use Rattle.jx_codeblock.specs.Learnt.{IsLearnt};
ghost use Rattle.jx_codeblock.specs.Segments.{bytes_before};
ghost use Rattle.jx_codeblock.specs.Tables.{are_cut};
ghost use Rattle.jx_base.specs.Limits.{most_bytes};

use crate::lists::NewLists;
use crate::looks::{looked_in, own_decoded};
use crate::own::{all_cut, last_within};
use crate::parts::all_parts;
use crate::sent::by_looks;
use crate::{BlockFault, Job, LayerEnd, LayerPart};
use jx_base::{Block, NoMemory, Style};
use jx_tier1::{FlagGrid, Segments, sound_flags};
use std::alloc::Global;

/// The coefficients of a block that is to be coded anew.
pub(crate) fn own_cells(alloc: Global, job: &Job<'_>) -> Result<FlagGrid, BlockFault>
    requires sound { IsSound job.now.block.now }
    requires some { 1 ≤ job.now.block.now.passes }
    requires anew { job.now.style ≢ None }
    ensures cells { let b = job.now.block.now in IfOk result (λ g. g ≡ (decoded_in b b.style.bits (own_segments b)).cells) }
    ensures size { IfOk result (λ g. HasSize g) }
    ensures right { IfOk result (λ g. wrong_in job.now.block.now ≡ None) }
    ensures bad { IfErr result (λ e. HasCause job.now e) }
{
    let decoded = own_decoded(alloc, job.block)?;
    if sound_flags(&decoded).is_err() {
        return Err(BlockFault::BadSegmentation(job.number));
    }
    Ok(decoded.grid)
}

/// The bytes of lists, one behind another.
pub(crate) fn all_bytes(alloc: Global, lists: &[Vec<u8>]) -> Result<Vec<u8>, NoMemory>
    ensures { IfOk result (λ bytes. bytes.items ≡ concat (map (λ l. l.items) lists.now)) }
{
    let mut bytes = Vec::new(alloc);
    for list in lists {
        bytes.extend_from_slice(list)?;
    }
    Ok(bytes)
}

/// Lists of bytes as segments.
fn segments_of<'a>(alloc: Global, lists: &'a [Vec<u8>]) -> Result<Segments<'a>, NoMemory>
    ensures { IfOk result (λ segments. segments ≡ map (λ l. l.items) lists.entry.now) }
{
    let mut segments = Segments::new(alloc);
    for list in lists {
        segments.push(list)?;
    }
    Ok(segments)
}

/// The parts of new segments, where no layer ends within one of them.
fn parts_by_ends(
    alloc: Global,
    block: &Block<'_>,
    style: Style,
    ends: &[LayerEnd],
    segments: &Segments<'_>,
) -> Result<Vec<LayerPart>, NoMemory>
    requires sound { IsSound block.now }
    requires ends { AreEnds 0 0 block.now.passes ends.now }
    requires cut { are_cut style.bits block.now.passes ends.now ≡ true }
    requires few { bytes_before segments.now (length segments.now) ≤ most_bytes }
    ensures { IfOk result (λ parts. parts.items ≡ layer_parts_after style.bits (sent_in block.now (Some style) ends.now segments.now) 0 ends.now) }
{
    let table = by_looks(alloc, style, block.passes, segments.as_slice(), &[])?;
    all_parts(alloc, style, ends, &table)
}

/// The parts of new segments, which are decoded to the last end that lies within one of them.
fn parts_by_looks(
    alloc: Global,
    block: &Block<'_>,
    style: Style,
    ends: &[LayerEnd],
    segments: Segments<'_>,
) -> Result<Vec<LayerPart>, NoMemory>
    requires sound { IsSound block.now }
    requires some { 1 ≤ block.now.passes }
    requires ends { AreEnds 0 0 block.now.passes ends.now }
    requires few { bytes_before segments (length segments) ≤ most_bytes }
    ensures { IfOk result (λ parts. parts.items ≡ layer_parts_after style.bits (sent_in block.now (Some style) ends.now segments.entry) 0 ends.now) }
{
    let last = last_within(style, block.passes, ends);
    let table = looked_in(alloc, block, style, last, segments)?;
    all_parts(alloc, style, ends, &table)
}

/// The parts of new segments, where it is known how far a decoder of them looks.
fn parts_learnt(
    alloc: Global,
    block: &Block<'_>,
    style: Style,
    ends: &[LayerEnd],
    segments: &Segments<'_>,
    looked: &[usize],
) -> Result<Vec<LayerPart>, NoMemory>
    requires sound { IsSound block.now }
    requires ends { AreEnds 0 0 block.now.passes ends.now }
    requires looked { looked.now ≡ (decoded_in block.now style.bits segments.now).looked }
    requires few { bytes_before segments.now (length segments.now) ≤ most_bytes }
    ensures { IfOk result (λ parts. parts.items ≡ layer_parts_after style.bits (sent_in block.now (Some style) ends.now segments.now) 0 ends.now) }
{
    let table = by_looks(alloc, style, block.passes, segments.as_slice(), looked)?;
    all_parts(alloc, style, ends, &table)
}

/// The parts of the segments in which a block is coded anew. Where it wasn't learnt how far a decoder looks
/// they are decoded, and only if a layer ends within one of them.
pub(crate) fn parts_of(
    alloc: Global,
    block: &Block<'_>,
    style: Style,
    ends: &[LayerEnd],
    new: &NewLists,
) -> Result<Vec<LayerPart>, NoMemory>
    requires sound { IsSound block.now }
    requires some { 1 ≤ block.now.passes }
    requires ends { AreEnds 0 0 block.now.passes ends.now }
    requires looked { IsLearnt block.now style new.now }
    requires few { length (concat (map (λ l. l.items) new.now.lists.items)) ≤ most_bytes }
    ensures { IfOk result (λ parts. parts.items ≡ layer_parts_after style.bits (sent_in block.now (Some style) ends.now (map (λ l. l.items) new.now.lists.items)) 0 ends.now) }
{
    let segments = segments_of(alloc, &new.lists)?;
    if let Some(looked) = &new.looked {
        return parts_learnt(alloc, block, style, ends, &segments, looked);
    }
    if all_cut(style, block.passes, ends) {
        return parts_by_ends(alloc, block, style, ends, &segments);
    }
    parts_by_looks(alloc, block, style, ends, segments)
}
