//! The marker segment at a place, or the first rule that the place violates.

ghost use Rattle.std.specs.Prelude.{Err, Ok, List, ◌⊎◌, ◌≡◌, ◌≢◌, ◌+◌, ◌-◌, ◌/◌, ◌*◌, ◌≤◌, ◌<◌, ◌++◌, length, drop, Some, None, IfOk, true, false, slice_index, ℕ};
ghost use Rattle.jx_marker.specs.declared.Segment.{Segment};
ghost use Rattle.jx_marker.specs.Markers.{has_length, index_size};
ghost use Rattle.jx_marker.specs.Segments.{spelling, segment_at, size_at, value_of, alone, code_at, body_at};
ghost use Rattle.jx_marker.specs.Rules.{first_broken, first_true, rules_inside, least_length};
ghost use Rattle.jx_marker.specs.Ranges.{InRange};
ghost use Rattle.jx_marker.specs.Laws.{StandsAt, BeginsWith};
ghost use Rattle.jx_marker.specs.Codes.{SOT};

use crate::codes::{
    COC, COD, COM, CRG, EOC, PLM, PLT, POC, PPM, PPT, QCC, QCD, RGN, SIZ, SOC, SOD, TLM,
};
use crate::fields::{
    bytes_of, read_cod, read_packed, read_poc, read_quant, read_shape, read_siz, read_sot,
};
use crate::markers::{has_length, index_size};
use crate::numbers::{narrow_at, u16_at};
use crate::rules::{body_of, first_broken};
use crate::{Rule, Segment};
use std::alloc::{AllocError, Global};

fn value_of(alloc: Global, comps: u16, code: u8, body: &[u8]) -> Result<Segment, AllocError>
    requires room { least_length comps code ≤ 2 + length body.now }
    requires rules { first_true (rules_inside comps code body.now) ≡ None }
    requires sot { code ≡ SOT → length body.now ≡ 8 }
    requires marker { has_length code ≡ true }
    ensures { IfOk result (λ segment. segment ≡ value_of comps code body.now) }
{
    match code {
        SIZ => Ok(Segment::Siz(read_siz(alloc, body)?)),
        COD => Ok(Segment::Cod(read_cod(alloc, body)?)),
        COC => Ok(Segment::Coc {
            comp: narrow_at(body, index_size(comps), 0),
            shape: read_shape(alloc, body, 1 + index_size(comps))?,
        }),
        QCD => Ok(Segment::Qcd(read_quant(alloc, body, 0)?)),
        QCC => Ok(Segment::Qcc {
            comp: narrow_at(body, index_size(comps), 0),
            quant: read_quant(alloc, body, index_size(comps))?,
        }),
        RGN => Ok(Segment::Rgn {
            comp: narrow_at(body, index_size(comps), 0),
            shift: body[1 + index_size(comps)],
        }),
        POC => Ok(Segment::Poc(read_poc(alloc, comps, body)?)),
        CRG => Ok(Segment::Crg(bytes_of(alloc, body)?)),
        COM => Ok(Segment::Com(bytes_of(alloc, body)?)),
        PLT => Ok(Segment::Plt(bytes_of(alloc, body)?)),
        PLM => Ok(Segment::Plm(bytes_of(alloc, body)?)),
        TLM => Ok(Segment::Tlm(bytes_of(alloc, body)?)),
        PPM => {
            let (index, bytes) = read_packed(alloc, body)?;
            Ok(Segment::Ppm { index, bytes })
        }
        PPT => {
            let (index, bytes) = read_packed(alloc, body)?;
            Ok(Segment::Ppt { index, bytes })
        }
        _ => Ok(Segment::Sot(read_sot(body))),
    }
}

fn alone(code: u8) -> Segment
    ensures { result ≡ alone code }
{
    match code {
        SOC => Segment::Soc,
        SOD => Segment::Sod,
        EOC => Segment::Eoc,
        _ => Segment::Skipped(code),
    }
}

fn read_front(alloc: Global, bytes: &[u8], comps: u16) -> Result<(Segment, usize), Rule>
    ensures found { IfOk result (λ read. StandsAt comps bytes.now read.0 read.1) }
    ensures within { IfOk result (λ read. read.1 ≤ length bytes.now) }
    ensures broken { (m : ℕ) → result ≡ Err (Rule.Broken m) → first_broken comps bytes.now ≡ Some m }
    ensures violated { (m : ℕ) → first_broken comps bytes.now ≡ Some m → result ≡ Err (Rule.Broken m) }
{
    if let Some(rule) = first_broken(comps, bytes) {
        return Err(Rule::Broken(rule));
    }
    let code = bytes[1];
    if !has_length(code) {
        return Ok((alone(code), 2));
    }
    let size = 2 + usize::from(u16_at(bytes, 2));
    match value_of(alloc, comps, code, body_of(bytes)) {
        Ok(segment) => Ok((segment, size)),
        Err(_) => Err(Rule::NoMemory),
    }
}

/// The segment that is spelled at a place in a picture of `comps` components, and the place after it.
/// SIZ, which tells that number, is read alike with any.
///
/// `Broken(m)` comes exactly where m, from 1 to 13, is the first rule that the place violates.
pub fn read_segment(
    alloc: Global,
    bytes: &[u8],
    at: usize,
    comps: u16,
) -> Result<(Segment, usize), Rule>
    requires { at ≤ length bytes.now }
    ensures found { IfOk result (λ read. StandsAt comps (drop at bytes.now) read.0 (read.1 - at)) }
    ensures after { IfOk result (λ read. (read.1 ≡ at + size_at (drop at bytes.now)) × (read.1 ≤ length bytes.now)) }
    ensures one { (segment : Segment) (rest : List ℕ) → InRange comps segment → drop at bytes.now ≡ spelling comps segment ++ rest
        → (result ≡ Ok (segment, at + length (spelling comps segment))) ⊎ (result ≡ Err Rule.NoMemory) }
    ensures spelled { IfOk result (λ read. BeginsWith comps (drop at bytes.now) read.0 (drop read.1 bytes.now)) }
    ensures broken { (m : ℕ) → result ≡ Err (Rule.Broken m) → first_broken comps (drop at bytes.now) ≡ Some m }
    ensures violated { (m : ℕ) → first_broken comps (drop at bytes.now) ≡ Some m → result ≡ Err (Rule.Broken m) }
{
    let (_, rest) = bytes.split_at(at);
    match read_front(alloc, rest, comps) {
        Ok((segment, size)) => Ok((segment, at + size)),
        Err(rule) => Err(rule),
    }
}
