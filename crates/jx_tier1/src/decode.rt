//! A code-block decoded.

ghost use Rattle.std.specs.Prelude.{◌≡◌, ◌-◌, ◌*◌, ◌^◌, ◌<◌, ◌≤◌, ℕ, List, map, IfOk, OnOk, MatchOption};
ghost use Rattle.jx_tier1_specs.specs.Cells.{Cells, AreWithin};
ghost use Rattle.jx_tier1_specs.specs.Segments.{bytes_of};
ghost use Rattle.jx_tier1_specs.specs.Reading.{Decoding, coding_of, at_start, read_from, decoded, zeros};
ghost use Rattle.jx_tier1.specs.Blocks.{blank};
ghost use Rattle.jx_tier1_specs.specs.Short.{AreShort};

use crate::FlagGrid;
use crate::block::BlockState;
use crate::contexts::Tables;
use crate::decoder::Decoder;
use crate::noter::Noter;
use jx_base::{Band, NoMemory};
use jx_mq::Contexts;
use jx_tier1_specs::{BadSymbol, Coded, Plane, Reader};
use std::alloc::Global;

/// The coefficients that coded passes give.
#[derive(Drop)]
pub struct FlagDecoded {
    /// The coefficients.
    pub grid: FlagGrid,
    /// For each pass, how many bytes of its segment were read or compared by its end.
    pub looked: Vec<usize>,
    /// The first pass whose segmentation symbol isn't 1010 (T.800 D.5).
    pub wrong: Option<u16>,
}

/// What is taken for the plane that is scanned before a pass begins.
fn first_plane() -> Plane
    ensures { result.number < 74 }
{
    Plane {
        band: Band::LL,
        causal: false,
        planes: 1,
        number: 0,
    }
}

/// A block of which no pass was decoded.
fn start<'a>(
    alloc: Global,
    width: u16,
    height: u16,
    segments: &'a [&'a [u8]],
) -> Result<Decoder<'a>, NoMemory>
    ensures decoding { IfOk result (λ d. d ≡ at_start width height (map bytes_of segments.entry.now)) }
{
    Ok(Decoder {
        noter: Noter {
            reader: Reader::new(false, &[], Contexts::new()),
            grid: FlagGrid::new(alloc, width, height)?,
            plane: first_plane(),
            high: false,
            low: false,
        },
        segments,
        next: 0,
        looked: Vec::new(alloc),
        wrong: None,
    })
}

/// What a block gives whose passes were decoded.
fn end(decoder: Decoder) -> FlagDecoded
    ensures grid { result.grid ≡ decoder.entry.cells }
    ensures looked { result.looked.items ≡ decoder.entry.looked }
    ensures wrong { result.wrong ≡ decoder.entry.wrong }
{
    let Decoder {
        noter,
        looked,
        wrong,
        ..
    } = decoder;
    FlagDecoded {
        grid: noter.grid,
        looked,
        wrong,
    }
}

/// Decodes the passes of a block.
fn run<'a>(
    decoder: &mut Decoder<'a>,
    block: &mut BlockState,
    tables: &Tables,
    coded: &Coded,
) -> Result<(), NoMemory>
    requires some { 1 ≤ coded.now.planes }
    requires planes { coded.now.planes ≤ 74 }
    requires passes { coded.now.passes ≤ 3 * coded.now.planes - 2 }
    requires fresh { block.old ≡ blank block.old.width block.old.height }
    requires band { tables.now ≡ coded.now.band }
    requires wide { block.old.width ≤ 1024 }
    requires high { block.old.height ≤ 1024 }
    requires cells { decoder.old.cells ≡ zeros block.old.width block.old.height }
    requires rest { AreShort decoder.old.rest }
    ensures decoding { OnOk result (decoder.new ≡
        read_from (coding_of coded.now.band coded.now.style.bits coded.now.planes) coded.now.passes 0 decoder.old) }
    ensures within { OnOk result (AreWithin coded.now.planes coded.now.planes decoder.new.cells) }
{
    for pass in 0..coded.passes {
        decoder.pass(block, tables, coded.band, coded.style, coded.planes, pass)?;
    }
    Ok(())
}

/// The same with tables and words of a block that it makes.
fn run_block<'a>(
    decoder: &mut Decoder<'a>,
    alloc: Global,
    width: u16,
    height: u16,
    coded: &Coded,
) -> Result<(), NoMemory>
    requires some { 1 ≤ coded.now.planes }
    requires planes { coded.now.planes ≤ 74 }
    requires passes { coded.now.passes ≤ 3 * coded.now.planes - 2 }
    requires wide { width ≤ 1024 }
    requires high { height ≤ 1024 }
    requires cells { decoder.old.cells ≡ zeros width height }
    requires rest { AreShort decoder.old.rest }
    ensures decoding { OnOk result (decoder.new ≡
        read_from (coding_of coded.now.band coded.now.style.bits coded.now.planes) coded.now.passes 0 decoder.old) }
    ensures within { OnOk result (AreWithin coded.now.planes coded.now.planes decoder.new.cells) }
{
    let tables = Tables::new(coded.band);
    let mut block = BlockState::new(alloc, width, height)?;
    run(decoder, &mut block, &tables, coded)
}

/// The coefficients of a block of at most 1,024 by 1,024 places, from its coded passes (T.800, Annex
/// D). Each segment has fewer than 2^32 bytes; one that isn't there is taken as one of no bytes.
pub fn decode_flags(
    alloc: Global,
    width: u16,
    height: u16,
    coded: &Coded,
) -> Result<FlagDecoded, NoMemory>
    requires wide { width ≤ 1024 }
    requires high { height ≤ 1024 }
    requires some { 1 ≤ coded.now.planes }
    requires planes { coded.now.planes ≤ 74 }
    requires passes { coded.now.passes ≤ 3 * coded.now.planes - 2 }
    requires segments { AreShort coded.now.segments }
    ensures grid { let c = coding_of coded.now.band coded.now.style.bits coded.now.planes in
        IfOk result (λ d. d.grid ≡ (decoded width height c coded.now.segments coded.now.passes).cells) }
    ensures looked { let c = coding_of coded.now.band coded.now.style.bits coded.now.planes in
        IfOk result (λ d. d.looked.items ≡ (decoded width height c coded.now.segments coded.now.passes).looked) }
    ensures wrong { let c = coding_of coded.now.band coded.now.style.bits coded.now.planes in
        IfOk result (λ d. d.wrong ≡ (decoded width height c coded.now.segments coded.now.passes).wrong) }
    ensures within { IfOk result (λ d. AreWithin coded.now.planes coded.now.planes d.grid) }
{
    let mut decoder = start(alloc, width, height, coded.segments.as_slice())?;
    let result = run_block(&mut decoder, alloc, width, height, coded);
    let decoded = end(decoder);
    result?;
    Ok(decoded)
}

/// Whether each segmentation symbol was right.
pub fn sound_flags(decoded: &FlagDecoded) -> Result<(), BadSymbol>
    ensures { MatchOption decoded.now.wrong (result ≡ Ok tt) (λ pass. result ≡ Err (record { pass = pass })) }
{
    match decoded.wrong {
        None => Ok(()),
        Some(pass) => Err(BadSymbol { pass }),
    }
}
