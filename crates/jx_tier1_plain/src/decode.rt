//! A code-block decoded by the plain form of the coding passes.

ghost use Rattle.std.specs.Prelude.{◌≡◌, ◌-◌, ◌*◌, ◌^◌, ◌<◌, ◌≤◌, ℕ, List, map, IfOk, OnOk, MatchOption};
ghost use Rattle.jx_tier1_specs.specs.Cells.{Cells, HasSize, AreWithin};
ghost use Rattle.jx_tier1_specs.specs.Segments.{bytes_of};
ghost use Rattle.jx_tier1_specs.specs.Reading.{Decoding, coding_of, at_start, read_from, decoded};
ghost use Rattle.jx_tier1_specs.specs.Short.{AreShort};

use crate::Grid;
use crate::decoder::Decoder;
use jx_base::NoMemory;
use jx_mq::Contexts;
use jx_tier1_specs::{BadSymbol, Coded, Reader};
use std::alloc::Global;

/// The coefficients that coded passes give.
#[derive(Drop)]
pub struct Decoded {
    /// The coefficients.
    pub grid: Grid,
    /// For each pass, how many bytes of its segment were read or compared by its end.
    pub looked: Vec<usize>,
    /// The first pass whose segmentation symbol isn't 1010 (T.800 D.5).
    pub wrong: Option<u16>,
}

/// A block of which no pass was decoded.
fn start<'a>(
    alloc: Global,
    width: u16,
    height: u16,
    segments: &'a [&'a [u8]],
) -> Result<Decoder<'a>, NoMemory>
    ensures decoding { IfOk result (λ d. d ≡ at_start width height (map bytes_of segments.entry.now)) }
{
    Ok(Decoder {
        grid: Grid::new(alloc, width, height)?,
        reader: Reader::new(false, &[], Contexts::new()),
        segments,
        next: 0,
        looked: Vec::new(alloc),
        wrong: None,
    })
}

/// Decodes the passes of a block.
#[tactic(auto, using(jx_tier1_specs::proofs::ReadMore::read_more, jx_tier1_specs::proofs::ReadMore::read_done, jx_tier1_specs::proofs::Places::within_more))]
fn run<'a>(decoder: &mut Decoder<'a>, coded: &Coded) -> Result<(), NoMemory>
    requires some { 1 ≤ coded.now.planes }
    requires planes { coded.now.planes ≤ 74 }
    requires passes { coded.now.passes ≤ 3 * coded.now.planes - 2 }
    requires size { HasSize decoder.old.cells }
    requires within { AreWithin coded.now.planes 1 decoder.old.cells }
    requires rest { AreShort decoder.old.rest }
    ensures decoding { OnOk result (decoder.new ≡
        read_from (coding_of coded.now.band coded.now.style.bits coded.now.planes) coded.now.passes 0 decoder.old) }
    ensures within { OnOk result (AreWithin coded.now.planes coded.now.planes decoder.new.cells) }
{
    for pass in 0..coded.passes {
        decoder.pass(coded.band, coded.style, coded.planes, pass)?;
    }
    Ok(())
}

/// The coefficients of a block of at most 1,024 by 1,024 places, from its coded passes (T.800, Annex
/// D). Each segment has fewer than 2^32 bytes; one that isn't there is taken as one of no bytes.
#[tactic(auto, unfolding(jx_tier1_specs::specs::Reading::decoded), using(jx_tier1_specs::proofs::Places::zeros_within))]
pub fn decode_passes(
    alloc: Global,
    width: u16,
    height: u16,
    coded: &Coded,
) -> Result<Decoded, NoMemory>
    requires wide { width ≤ 1024 }
    requires high { height ≤ 1024 }
    requires some { 1 ≤ coded.now.planes }
    requires planes { coded.now.planes ≤ 74 }
    requires passes { coded.now.passes ≤ 3 * coded.now.planes - 2 }
    requires segments { AreShort coded.now.segments }
    ensures grid { let c = coding_of coded.now.band coded.now.style.bits coded.now.planes in
        IfOk result (λ d. d.grid ≡ (decoded width height c coded.now.segments coded.now.passes).cells) }
    ensures looked { let c = coding_of coded.now.band coded.now.style.bits coded.now.planes in
        IfOk result (λ d. d.looked.items ≡ (decoded width height c coded.now.segments coded.now.passes).looked) }
    ensures wrong { let c = coding_of coded.now.band coded.now.style.bits coded.now.planes in
        IfOk result (λ d. d.wrong ≡ (decoded width height c coded.now.segments coded.now.passes).wrong) }
    ensures within { IfOk result (λ d. AreWithin coded.now.planes coded.now.planes d.grid) }
{
    let mut decoder = start(alloc, width, height, coded.segments.as_slice())?;
    run(&mut decoder, coded)?;
    let Decoder {
        grid,
        looked,
        wrong,
        ..
    } = decoder;
    Ok(Decoded {
        grid,
        looked,
        wrong,
    })
}

/// Whether each segmentation symbol was right.
pub fn sound(decoded: &Decoded) -> Result<(), BadSymbol>
    ensures { MatchOption decoded.now.wrong (result ≡ Ok tt) (λ pass. result ≡ Err (record { pass = pass })) }
{
    match decoded.wrong {
        None => Ok(()),
        Some(pass) => Err(BadSymbol { pass }),
    }
}
