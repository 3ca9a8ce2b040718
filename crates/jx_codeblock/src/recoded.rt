//! A block as it is written.

ghost use Rattle.std.specs.Prelude.{All, ◌≡◌, ◌≢◌, ◌≤◌, ◌<◌, ◌+◌, ◌++◌, length, map, vec_len, vec_capacity, None, Some, IfOk, IfErr, OnOk, OnErr};
ghost use Rattle.jx_base.specs.Pieces.{ArePieces};
ghost use Rattle.jx_base.specs.Sound.{IsSound};
ghost use Rattle.jx_tier1_specs.specs.Needs.{written};
ghost use Rattle.jx_codeblock.specs.Jobs.{IsAsked};
ghost use Rattle.jx_codeblock.specs.Laws.{IsWithin};
ghost use Rattle.jx_codeblock.specs.Recoding.{coding_in, decoded_in, own_segments, layer_part_bytes, recoded_pieces, wrong_in};
ghost use Rattle.jx_codeblock.specs.Recoded.{recoding_in, is_bad, HasCause};
ghost use Rattle.jx_codeblock.specs.Learnt.{IsLearnt};
ghost use Rattle.jx_codeblock.specs.Written.{block_with, own_cells};
ghost use Rattle.jx_base.specs.Limits.{most_bytes};

use crate::anew::{all_bytes, own_cells, parts_of as parts_anew};
use crate::copy::{append_bytes, append_within};
use crate::decide::parts_of;
use crate::held::Held;
use crate::laws::written_keeps_coefficients;
use crate::lists::NewLists;
use crate::made::Made;
use crate::starts::starts_of;
use crate::step::lists_in_step;
use crate::{BlockFault, Job, LayerPart};
use jx_base::{NoMemory, Style};
use jx_store::{Claim, Work};
use jx_tier1::encode_flags;
use std::alloc::Global;
use std::marker::Model;

/// A block as it is written: what is asked of it by its job. A block that keeps its segments copies none
/// of their bytes, and has where its pieces begin, 4 bytes for each, where it has more than a few; one that is
/// coded anew has its own.
#[derive(Drop)]
pub struct Recoded<'a> {
    job: &'a Job<'a>,
    made: Made,
}

impl<'a> Model for Recoded<'a> {
    ghost use Rattle.jx_codeblock.specs.Recoded.{WrittenBlock, made_recoding, IsMade};

    ghost Value = { WrittenBlock };

    ghost view = { λ r. record { job = r.job.now; recoding = made_recoding r.job.now r.made.bytes r.made.parts } };

    ghost invariant = { λ r. IsMade r.job.now r.made.bytes r.made.starts r.made.parts };
}

/// A block that keeps its segments.
fn keep<'a>(alloc: Global, job: &'a Job<'a>) -> Result<Recoded<'a>, NoMemory>
    requires asked { IsAsked job.now.block.now job.now.style job.now.ends }
    requires kept { job.now.style ≡ None }
    ensures job { IfOk result (λ r. r.job ≡ job.now) }
    ensures recoding { IfOk result (λ r. Some r.recoding ≡ recoding_in job.now) }
{
    let parts = parts_of(alloc, job.block, job.ends.as_slice())?;
    let pieces = job.block.pieces.as_slice();
    let starts = starts_of(alloc, pieces)?;
    let made = Made::of(alloc, Held::Own(starts), parts)?;
    Ok(Recoded { job, made })
}

/// A block without passes, which has no segments in any style.
fn nothing<'a>(job: &'a Job<'a>) -> Recoded<'a>
    requires asked { IsAsked job.now.block.now job.now.style job.now.ends }
    requires none { job.now.block.now.passes ≡ 0 }
    ensures job { result.job ≡ job.now }
    ensures recoding { Some result.recoding ≡ recoding_in job.now }
{
    Recoded {
        job,
        made: Made::nothing(),
    }
}

/// The segments of a block that is to be coded anew, which is decoded first.
fn lists_apart(alloc: Global, job: &Job<'_>, style: Style) -> Result<NewLists, BlockFault>
    requires sound { IsSound job.now.block.now }
    requires some { 1 ≤ job.now.block.now.passes }
    requires anew { job.now.style ≢ None }
    ensures lists { let b = job.now.block.now in IfOk result (λ new. map (λ l. l.items) new.lists.items
        ≡ written (coding_in b style.bits) (decoded_in b b.style.bits (own_segments b)).cells b.passes) }
    ensures looked { IfOk result (λ new. IsLearnt job.now.block.now style new) }
    ensures right { IfOk result (λ new. wrong_in job.now.block.now ≡ None) }
    ensures bad { IfErr result (λ e. HasCause job.now e) }
{
    let block = job.block;
    let grid = own_cells(alloc, job)?;
    let planes = block.planes - block.zero;
    let lists = encode_flags(alloc, &grid, block.name.band, style, planes, block.passes)?;
    Ok(NewLists {
        lists,
        looked: None,
    })
}

/// The segments of a block that is to be coded anew. Where its causal bit stays they are written while
/// the block is decoded.
fn new_lists(alloc: Global, job: &Job<'_>, style: Style) -> Result<NewLists, BlockFault>
    requires sound { IsSound job.now.block.now }
    requires some { 1 ≤ job.now.block.now.passes }
    requires anew { job.now.style ≢ None }
    ensures lists { let b = job.now.block.now in IfOk result (λ new. map (λ l. l.items) new.lists.items
        ≡ written (coding_in b style.bits) (decoded_in b b.style.bits (own_segments b)).cells b.passes) }
    ensures looked { IfOk result (λ new. IsLearnt job.now.block.now style new) }
    ensures right { IfOk result (λ new. wrong_in job.now.block.now ≡ None) }
    ensures bad { IfErr result (λ e. HasCause job.now e) }
{
    if style.causal() == job.block.style.causal() {
        return lists_in_step(alloc, job, style);
    }
    lists_apart(alloc, job, style)
}

/// A block of which a style is asked.
fn code_anew<'a>(alloc: Global, job: &'a Job<'a>, style: Style) -> Result<Recoded<'a>, BlockFault>
    requires asked { IsAsked job.now.block.now job.now.style job.now.ends }
    requires some { 1 ≤ job.now.block.now.passes }
    requires style { job.now.style ≡ Some style }
    ensures job { IfOk result (λ r. r.job ≡ job.now) }
    ensures recoding { IfOk result (λ r. Some r.recoding ≡ recoding_in job.now) }
    ensures bad { IfErr result (λ e. HasCause job.now e) }
{
    let block = job.block;
    let new = new_lists(alloc, job, style)?;
    let bytes = all_bytes(alloc, &new.lists)?;
    let parts = parts_anew(alloc, block, style, job.ends.as_slice(), &new)?;
    let made = Made::of(alloc, Held::New(bytes), parts)?;
    Ok(Recoded { job, made })
}

/// Makes of a block what its job asks for. It is refused with the job's number where a style is asked
/// and a segmentation symbol of the block is wrong (T.800 D.5), and else for want of memory alone.
pub fn recode<'a>(alloc: Global, claim: &Claim, job: &'a Job<'a>) -> Result<Recoded<'a>, BlockFault>
    requires number { claim.now.number ≡ job.now.number }
    requires asked { IsAsked job.now.block.now job.now.style job.now.ends }
    ensures job { IfOk result (λ r. r.job ≡ job.now) }
    ensures recoding { IfOk result (λ r. Some r.recoding ≡ recoding_in job.now) }
    // its coefficients stay
    ensures same { IfOk result (λ r. own_cells (block_with job.now.block.now (Some r.recoding)) ≡ own_cells job.now.block.now) }
    ensures bad { IfErr result (λ e. HasCause job.now e) }
{
    // Only the contract speaks of it.
    let _ = claim;
    written_keeps_coefficients();
    if job.block.passes == 0 {
        return Ok(nothing(job));
    }
    match job.style {
        None => Ok(keep(alloc, job)?),
        Some(style) => code_anew(alloc, job, style),
    }
}

impl<'a> Recoded<'a> {
    /// The job, which was a valid one.
    pub fn job(&self) -> &'a Job<'a>
        ensures value { result.now ≡ self.now.job }
        ensures asked { IsAsked result.now.block.now result.now.style result.now.ends }
    {
        self.job
    }

    /// The parts of the layers, in their order. Their places are those of the block's bytes, at most 2^32 - 1,
    /// within which they lie. As pieces they are again those of a sound block.
    pub fn parts(&self) -> &[LayerPart]
        ensures value { result.now ≡ self.now.recoding.parts }
        ensures recoding { Some self.now.recoding ≡ recoding_in self.now.job }
        ensures few { length self.now.recoding.bytes ≤ most_bytes }
        ensures within { All (IsWithin (length self.now.recoding.bytes)) result.now }
        ensures sound { ArePieces self.now.recoding.style 0 0 self.now.job.block.now.passes (recoded_pieces self.now.recoding) }
    {
        self.made.parts()
    }

    /// Appends the bytes of a part. With room for them in `out` it isn't refused; after an `Err` `out` has
    /// the bytes that it had.
    pub fn append(&self, part: &LayerPart, out: &mut Vec<u8>) -> Result<(), NoMemory>
        ensures ok { OnOk result (out.new.items ≡ out.old.items ++ layer_part_bytes self.now.recoding.bytes part.now) }
        ensures err { OnErr result (out.new.items ≡ out.old.items) }
        ensures room { OnErr result (vec_capacity out.old < vec_len out.old + length (layer_part_bytes self.now.recoding.bytes part.now)) }
    {
        match self.job.style {
            None => {
                let pieces = self.job.block.pieces.as_slice();
                append_bytes(pieces, self.made.starts(), part.from, part.to, out)
            }
            Some(_) => append_within(self.made.bytes(), part.from, part.to, out),
        }
    }
}

impl<'a> Work for Recoded<'a> {
    type Job = Job<'a>;

    ghost job = { λ r. r.job };

    ghost bad = { is_bad };

    ghost number = { λ r. r.job.number };

    fn number(&self) -> u32 {
        self.job.number
    }
}
