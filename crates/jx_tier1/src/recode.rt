//! A code-block decoded and coded anew in one walk.

ghost use Rattle.std.specs.Prelude.{◌≡◌, ◌-◌, ◌*◌, ◌^◌, ◌<◌, ◌≤◌, ℕ, List, map, IfOk, OnOk};
ghost use Rattle.jx_base.specs.Passes.{is_causal};
ghost use Rattle.jx_tier1_specs.specs.Segments.{bytes_of};
ghost use Rattle.jx_tier1_specs.specs.Reading.{coding_of, decoded, zeros};
ghost use Rattle.jx_tier1_specs.specs.Needs.{written};
ghost use Rattle.jx_tier1.specs.InStep.{Recoding, recoded_from, to_recode, no_grid};
ghost use Rattle.jx_tier1.specs.Blocks.{BlockWords, blank};
ghost use Rattle.jx_tier1.specs.Placing.{placed};
ghost use Rattle.jx_tier1_specs.specs.Short.{AreShort};

use crate::block::BlockState;
use crate::contexts::Tables;
use crate::copier::Copier;
use crate::pen::Pen;
use crate::recoder::Recoder;
use jx_base::{NoMemory, Style, is_raw};
use jx_mq::Contexts;
use jx_tier1_specs::laws::ends_of_passes_are_told;
use jx_tier1_specs::{Coded, Reader};
use std::alloc::Global;

/// A block that is coded anew.
#[derive(Drop)]
pub struct FlagRecoded {
    /// Its segments in the new style.
    pub segments: Vec<Vec<u8>>,
    /// For each pass, how many bytes of its new segment a decoder has looked at by its end.
    pub looked: Vec<usize>,
    /// The first pass whose segmentation symbol wasn't 1010 in the old style (T.800 D.5).
    pub wrong: Option<u16>,
}

/// How many bytes the passes of a block can have at most: a pass asks for three decisions at a place
/// at most, since those of a run of four are ten, and for four in a symbol, and each decision shifts
/// the coder by 15 places at most, of which a byte takes seven.
fn most_bytes(width: u16, height: u16, passes: u16) -> usize
    requires wide { width ≤ 1024 }
    requires high { height ≤ 1024 }
{
    let places = usize::from(width) * usize::from(height);
    usize::from(passes) * (3 * places + 4) * 15 / 7 + 2
}

/// For how many bytes of the first segment room is taken: for as many as all old segments have, where
/// no more are possible. More or fewer are no harm.
fn room_of(segments: &[&[u8]], style: Style, most: usize) -> usize {
    let mut bytes = 64usize;
    if style.terminate() {
        return bytes;
    }
    for segment in segments {
        bytes = bytes.saturating_add(segment.len());
    }
    bytes.min(most)
}

/// A block of which no pass was decoded.
fn start<'a>(
    alloc: Global,
    style: Style,
    segments: &'a [&'a [u8]],
    most: usize,
) -> Result<Recoder<'a>, NoMemory>
    ensures recoding { IfOk result (λ r. r ≡ placed no_grid (to_recode 0 0 style.bits (map bytes_of segments.entry.now))) }
{
    let room = room_of(segments, style, most);
    let pen = Pen::new(alloc, is_raw(style, 0), room)?;
    Ok(Recoder {
        copier: Copier {
            reader: Reader::new(false, &[], Contexts::new()),
            pen,
        },
        segments,
        next: 0,
        wrong: None,
        done: Vec::new(alloc),
        stands: Vec::new(alloc),
        looked: Vec::new(alloc),
    })
}

/// What a block gives whose passes were decoded and coded.
fn end(recoder: Recoder) -> FlagRecoded
    ensures segments { map (λ s. s.items) result.segments.items ≡ recoder.entry.done }
    ensures looked { result.looked.items ≡ recoder.entry.looked }
    ensures wrong { result.wrong ≡ recoder.entry.wrong }
{
    FlagRecoded {
        segments: recoder.done,
        looked: recoder.looked,
        wrong: recoder.wrong,
    }
}

/// Decodes the passes of a block and codes them.
fn run<'a>(
    recoder: &mut Recoder<'a>,
    block: &mut BlockState,
    alloc: Global,
    tables: &Tables,
    coded: &Coded,
    style: Style,
) -> Result<(), NoMemory>
    requires some { 1 ≤ coded.now.planes }
    requires planes { coded.now.planes ≤ 74 }
    requires passes { coded.now.passes ≤ 3 * coded.now.planes - 2 }
    requires fresh { block.old ≡ blank block.old.width block.old.height }
    requires band { tables.now ≡ coded.now.band }
    requires wide { block.old.width ≤ 1024 }
    requires high { block.old.height ≤ 1024 }
    requires rest { AreShort recoder.old.rest }
    ensures done { let planes = coded.now.planes in let band = coded.now.band in
        let start = placed (zeros block.old.width block.old.height) recoder.old in
        OnOk result (recoder.new.done ≡ (recoded_from (coding_of band coded.now.style.bits planes) (coding_of band style.bits planes) coded.now.passes 0 start).done) }
    ensures looked { let planes = coded.now.planes in let band = coded.now.band in
        let start = placed (zeros block.old.width block.old.height) recoder.old in
        OnOk result (recoder.new.looked ≡ (recoded_from (coding_of band coded.now.style.bits planes) (coding_of band style.bits planes) coded.now.passes 0 start).looked) }
    ensures wrong { let planes = coded.now.planes in let band = coded.now.band in
        let start = placed (zeros block.old.width block.old.height) recoder.old in
        OnOk result (recoder.new.wrong ≡ (recoded_from (coding_of band coded.now.style.bits planes) (coding_of band style.bits planes) coded.now.passes 0 start).wrong) }
{
    for pass in 0..coded.passes {
        recoder.pass(
            alloc,
            block,
            tables,
            coded.band,
            coded.style,
            style,
            coded.planes,
            pass,
            pass + 1 == coded.passes,
        )?;
    }
    Ok(())
}

/// The same with tables and words of a block that it makes.
fn run_block<'a>(
    recoder: &mut Recoder<'a>,
    alloc: Global,
    width: u16,
    height: u16,
    coded: &Coded,
    style: Style,
) -> Result<(), NoMemory>
    requires some { 1 ≤ coded.now.planes }
    requires planes { coded.now.planes ≤ 74 }
    requires passes { coded.now.passes ≤ 3 * coded.now.planes - 2 }
    requires wide { width ≤ 1024 }
    requires high { height ≤ 1024 }
    requires rest { AreShort recoder.old.rest }
    ensures done { let planes = coded.now.planes in let band = coded.now.band in
        let start = placed (zeros width height) recoder.old in
        OnOk result (recoder.new.done ≡ (recoded_from (coding_of band coded.now.style.bits planes) (coding_of band style.bits planes) coded.now.passes 0 start).done) }
    ensures looked { let planes = coded.now.planes in let band = coded.now.band in
        let start = placed (zeros width height) recoder.old in
        OnOk result (recoder.new.looked ≡ (recoded_from (coding_of band coded.now.style.bits planes) (coding_of band style.bits planes) coded.now.passes 0 start).looked) }
    ensures wrong { let planes = coded.now.planes in let band = coded.now.band in
        let start = placed (zeros width height) recoder.old in
        OnOk result (recoder.new.wrong ≡ (recoded_from (coding_of band coded.now.style.bits planes) (coding_of band style.bits planes) coded.now.passes 0 start).wrong) }
{
    let tables = Tables::new(coded.band);
    let mut block = BlockState::new(alloc, width, height)?;
    run(recoder, &mut block, alloc, &tables, coded, style)
}

/// The segments in another style of a block of at most 1,024 by 1,024 places, from its coded passes
/// (T.800, Annex D), which are decoded and coded in step. Each segment has fewer than 2^32 bytes; one
/// that isn't there is taken as one of no bytes. Both styles agree on causal contexts, so that each
/// decision is coded as it is read. The segments are those of the coefficients, whatever the
/// segmentation symbols, and how far a decoder of them looks is learnt in the same walk.
pub fn recode_flags(
    alloc: Global,
    width: u16,
    height: u16,
    coded: &Coded,
    style: Style,
) -> Result<FlagRecoded, NoMemory>
    requires wide { width ≤ 1024 }
    requires high { height ≤ 1024 }
    requires some { 1 ≤ coded.now.planes }
    requires planes { coded.now.planes ≤ 74 }
    requires passes { coded.now.passes ≤ 3 * coded.now.planes - 2 }
    requires segments { AreShort coded.now.segments }
    requires causal { is_causal style.bits ≡ is_causal coded.now.style.bits }
    ensures segments { let c = coding_of coded.now.band coded.now.style.bits coded.now.planes in
        let d = coding_of coded.now.band style.bits coded.now.planes in
        IfOk result (λ r. map (λ s. s.items) r.segments.items ≡ written d (decoded width height c coded.now.segments coded.now.passes).cells coded.now.passes) }
    ensures looked { let d = coding_of coded.now.band style.bits coded.now.planes in
        IfOk result (λ r. r.looked.items ≡ (decoded width height d (map (λ s. s.items) r.segments.items) coded.now.passes).looked) }
    ensures wrong { let c = coding_of coded.now.band coded.now.style.bits coded.now.planes in
        IfOk result (λ r. r.wrong ≡ (decoded width height c coded.now.segments coded.now.passes).wrong) }
{
    ends_of_passes_are_told();
    let most = most_bytes(width, height, coded.passes);
    let mut recoder = start(alloc, style, coded.segments.as_slice(), most)?;
    let result = run_block(&mut recoder, alloc, width, height, coded, style);
    let recoded = end(recoder);
    result?;
    Ok(recoded)
}
