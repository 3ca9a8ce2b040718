//! Marker segments as they are written.

ghost use Rattle.std.specs.Prelude.{◌≡◌, ◌+◌, ◌*◌, ◌<◌, ◌≤◌, ◌++◌, ◌∷◌, [], ◌^◌, length, take, OnOk, OnErr, true, false};
ghost use Rattle.std.specs.List.{All, flat_map};
ghost use Rattle.byteorder.specs.Endian.{big_bytes};
ghost use Rattle.jx_marker.specs.Markers.{index_size, entry_size};
ghost use Rattle.jx_marker.specs.Values.{siz_bytes, canvas_bytes, comp_size_bytes, shape_bytes, precinct_bit, scod, cod_bytes, index_bytes, quant_bytes, progression_bytes, poc_bytes, sot_bytes};
ghost use Rattle.jx_marker.specs.Segments.{spelling, with_length};
ghost use Rattle.jx_marker.specs.Ranges.{InRange, SizInRange, ShapeInRange, CodInRange, CocInRange, QuantInRange, QccInRange, RgnInRange, ProgressionInRange, PocInRange, BytesInRange, SotInRange};
ghost use Rattle.jx_marker.specs.Codes.{SIZ, COD, QCD, POC, SOT};

use crate::codes::{
    COC, COD, COM, CRG, EOC, PLM, PLT, POC, PPM, PPT, QCC, QCD, RGN, SIZ, SOC, SOD, SOT, TLM,
};
use crate::markers::{entry_size, index_size, progression_size};
use crate::numbers::{put_narrow, put_u16, put_u32};
use crate::{Cod, CompSize, Progression, Quant, Segment, Shape, Siz, Sot};
use jx_base::NoMemory;
use std::alloc::AllocError;

// A marker and the length of a segment of so many further bytes.
fn put_front(out: &mut Vec<u8>, code: u8, size: usize) -> Result<(), AllocError>
    requires { 2 + size < 2 ^ 16 }
    ensures ok { OnOk result (out.new.items ≡ out.old.items ++ 255 ∷ code ∷ big_bytes 2 (2 + size)) }
    ensures front { take (length out.old.items) out.new.items ≡ out.old.items }
{
    out.extend_from_slice(&[255, code])?;
    put_u16(out, 2 + size as u16)
}

fn put_comp_sizes(out: &mut Vec<u8>, comps: &[CompSize]) -> Result<(), AllocError>
    ensures ok { OnOk result (out.new.items ≡ out.old.items ++ flat_map comp_size_bytes comps.now) }
    ensures front { take (length out.old.items) out.new.items ≡ out.old.items }
{
    for comp in comps {
        out.extend_from_slice(&[comp.ssiz, comp.dx, comp.dy])?;
    }
    Ok(())
}

fn put_pair(out: &mut Vec<u8>, first: u32, second: u32) -> Result<(), AllocError>
    ensures ok { OnOk result (out.new.items ≡ out.old.items ++ (big_bytes 4 first ++ big_bytes 4 second)) }
    ensures front { take (length out.old.items) out.new.items ≡ out.old.items }
{
    put_u32(out, first)?;
    put_u32(out, second)
}

#[tactic(auto, unfolding(crate::specs::Values::canvas_bytes))]
fn put_canvas(out: &mut Vec<u8>, siz: &Siz) -> Result<(), AllocError>
    ensures ok { OnOk result (out.new.items ≡ out.old.items ++ canvas_bytes siz.now) }
    ensures front { take (length out.old.items) out.new.items ≡ out.old.items }
{
    put_pair(out, siz.x1, siz.y1)?;
    put_pair(out, siz.x0, siz.y0)?;
    put_pair(out, siz.tw, siz.th)?;
    put_pair(out, siz.tx, siz.ty)?;
    Ok(())
}

fn put_siz_body(out: &mut Vec<u8>, siz: &Siz) -> Result<(), AllocError>
    requires { length siz.now.comps < 2 ^ 16 }
    ensures ok { OnOk result (out.new.items ≡ out.old.items ++ siz_bytes siz.now) }
    ensures front { take (length out.old.items) out.new.items ≡ out.old.items }
{
    let comps = siz.comps.as_slice();
    put_u16(out, siz.rsiz)?;
    put_canvas(out, siz)?;
    put_u16(out, comps.len() as u16)?;
    put_comp_sizes(out, comps)?;
    Ok(())
}

#[tactic(auto, using(crate::proofs::PutLemmas::most_comps))]
fn put_siz(out: &mut Vec<u8>, siz: &Siz) -> Result<(), AllocError>
    requires { SizInRange siz.now }
    ensures ok { OnOk result (out.new.items ≡ out.old.items ++ with_length SIZ (siz_bytes siz.now)) }
    ensures front { take (length out.old.items) out.new.items ≡ out.old.items }
{
    put_front(out, SIZ, 36 + 3 * siz.comps.as_slice().len())?;
    put_siz_body(out, siz)?;
    Ok(())
}

fn put_shape(out: &mut Vec<u8>, shape: &Shape) -> Result<(), AllocError>
    requires { ShapeInRange shape.now }
    ensures ok { OnOk result (out.new.items ≡ out.old.items ++ shape_bytes shape.now) }
    ensures front { take (length out.old.items) out.new.items ≡ out.old.items }
{
    out.extend_from_slice(&[
        shape.levels,
        shape.xcb - 2,
        shape.ycb - 2,
        shape.style,
        shape.wavelet,
    ])?;
    out.extend_from_slice(shape.precincts.as_slice())?;
    Ok(())
}

fn precinct_bit(shape: &Shape) -> u8
    ensures { result ≡ precinct_bit shape.now }
{
    if shape.precincts.as_slice().is_empty() {
        0
    } else {
        1
    }
}

fn scod(cod: &Cod) -> u8
    ensures { result ≡ scod cod.now }
{
    precinct_bit(&cod.shape) + if cod.sop { 2 } else { 0 } + if cod.eph { 4 } else { 0 }
}

fn put_cod_body(out: &mut Vec<u8>, cod: &Cod) -> Result<(), AllocError>
    requires { CodInRange cod.now }
    ensures ok { OnOk result (out.new.items ≡ out.old.items ++ cod_bytes cod.now) }
    ensures front { take (length out.old.items) out.new.items ≡ out.old.items }
{
    out.extend_from_slice(&[scod(cod), cod.order])?;
    put_u16(out, cod.layers)?;
    out.push(cod.transform)?;
    put_shape(out, &cod.shape)
}

fn put_cod(out: &mut Vec<u8>, cod: &Cod) -> Result<(), AllocError>
    requires { CodInRange cod.now }
    ensures ok { OnOk result (out.new.items ≡ out.old.items ++ with_length COD (cod_bytes cod.now)) }
    ensures front { take (length out.old.items) out.new.items ≡ out.old.items }
{
    put_front(out, COD, 10 + cod.shape.precincts.as_slice().len())?;
    put_cod_body(out, cod)?;
    Ok(())
}

fn put_coc(out: &mut Vec<u8>, comps: u16, comp: u16, shape: &Shape) -> Result<(), AllocError>
    requires { CocInRange comps comp shape.now }
    ensures ok { OnOk result (out.new.items ≡ out.old.items ++ spelling comps (Segment.Coc comp shape.now)) }
    ensures front { take (length out.old.items) out.new.items ≡ out.old.items }
{
    let size = index_size(comps);
    put_front(out, COC, size + 6 + shape.precincts.as_slice().len())?;
    put_narrow(out, size, comp)?;
    out.push(precinct_bit(shape))?;
    put_shape(out, shape)
}

fn put_entries(out: &mut Vec<u8>, size: usize, entries: &[u16]) -> Result<(), AllocError>
    requires some { 1 ≤ size }
    requires most { size ≤ 2 }
    requires fits { All (λ entry. entry < 256 ^ size) entries.now }
    ensures ok { OnOk result (out.new.items ≡ out.old.items ++ flat_map (big_bytes size) entries.now) }
    ensures front { take (length out.old.items) out.new.items ≡ out.old.items }
{
    for entry in entries {
        put_narrow(out, size, *entry)?;
    }
    Ok(())
}

fn put_quant(out: &mut Vec<u8>, quant: &Quant) -> Result<(), AllocError>
    requires { All (λ entry. entry < 256 ^ entry_size quant.now.sqcd) quant.now.entries }
    ensures ok { OnOk result (out.new.items ≡ out.old.items ++ quant_bytes quant.now) }
    ensures front { take (length out.old.items) out.new.items ≡ out.old.items }
{
    out.push(quant.sqcd)?;
    put_entries(out, entry_size(quant.sqcd), quant.entries.as_slice())
}

fn put_qcd(out: &mut Vec<u8>, quant: &Quant) -> Result<(), AllocError>
    requires { QuantInRange quant.now 0 }
    ensures ok { OnOk result (out.new.items ≡ out.old.items ++ with_length QCD (quant_bytes quant.now)) }
    ensures front { take (length out.old.items) out.new.items ≡ out.old.items }
{
    put_front(
        out,
        QCD,
        1 + quant.entries.as_slice().len() * entry_size(quant.sqcd),
    )?;
    put_quant(out, quant)
}

fn put_qcc_body(out: &mut Vec<u8>, comps: u16, comp: u16, quant: &Quant) -> Result<(), AllocError>
    requires { QccInRange comps comp quant.now }
    ensures ok { OnOk result (out.new.items ≡ out.old.items ++ (index_bytes comps comp ++ quant_bytes quant.now)) }
    ensures front { take (length out.old.items) out.new.items ≡ out.old.items }
{
    put_narrow(out, index_size(comps), comp)?;
    put_quant(out, quant)
}

fn put_qcc(out: &mut Vec<u8>, comps: u16, comp: u16, quant: &Quant) -> Result<(), AllocError>
    requires { QccInRange comps comp quant.now }
    ensures ok { OnOk result (out.new.items ≡ out.old.items ++ spelling comps (Segment.Qcc comp quant.now)) }
    ensures front { take (length out.old.items) out.new.items ≡ out.old.items }
{
    put_front(
        out,
        QCC,
        index_size(comps) + 1 + quant.entries.as_slice().len() * entry_size(quant.sqcd),
    )?;
    put_qcc_body(out, comps, comp, quant)
}

fn put_rgn(out: &mut Vec<u8>, comps: u16, comp: u16, shift: u8) -> Result<(), AllocError>
    requires { RgnInRange comps comp shift }
    ensures ok { OnOk result (out.new.items ≡ out.old.items ++ spelling comps (Segment.Rgn comp shift)) }
    ensures front { take (length out.old.items) out.new.items ≡ out.old.items }
{
    let size = index_size(comps);
    put_front(out, RGN, size + 2)?;
    put_narrow(out, size, comp)?;
    out.extend_from_slice(&[0, shift])?;
    Ok(())
}

fn put_progression(out: &mut Vec<u8>, comps: u16, entry: Progression) -> Result<(), AllocError>
    requires { ProgressionInRange comps entry }
    ensures ok { OnOk result (out.new.items ≡ out.old.items ++ progression_bytes comps entry) }
    ensures front { take (length out.old.items) out.new.items ≡ out.old.items }
{
    let size = index_size(comps);
    out.push(entry.rs)?;
    put_narrow(out, size, entry.cs)?;
    put_u16(out, entry.lye)?;
    out.push(entry.re)?;
    put_narrow(out, size, entry.ce)?;
    out.push(entry.order)?;
    Ok(())
}

fn put_progressions(
    out: &mut Vec<u8>,
    comps: u16,
    entries: &[Progression],
) -> Result<(), AllocError>
    requires { All (ProgressionInRange comps) entries.now }
    ensures ok { OnOk result (out.new.items ≡ out.old.items ++ poc_bytes comps entries.now) }
    ensures front { take (length out.old.items) out.new.items ≡ out.old.items }
{
    for entry in entries {
        put_progression(out, comps, *entry)?;
    }
    Ok(())
}

fn put_poc(out: &mut Vec<u8>, comps: u16, entries: &[Progression]) -> Result<(), AllocError>
    requires { PocInRange comps entries.now }
    ensures ok { OnOk result (out.new.items ≡ out.old.items ++ with_length POC (poc_bytes comps entries.now)) }
    ensures front { take (length out.old.items) out.new.items ≡ out.old.items }
{
    put_front(out, POC, entries.len() * progression_size(comps))?;
    put_progressions(out, comps, entries)
}

fn put_bytes(out: &mut Vec<u8>, code: u8, bytes: &[u8]) -> Result<(), AllocError>
    requires { 2 + length bytes.now < 2 ^ 16 }
    ensures ok { OnOk result (out.new.items ≡ out.old.items ++ with_length code bytes.now) }
    ensures front { take (length out.old.items) out.new.items ≡ out.old.items }
{
    put_front(out, code, bytes.len())?;
    out.extend_from_slice(bytes)?;
    Ok(())
}

fn put_packed(out: &mut Vec<u8>, code: u8, index: u8, bytes: &[u8]) -> Result<(), AllocError>
    requires { 3 + length bytes.now < 2 ^ 16 }
    ensures ok { OnOk result (out.new.items ≡ out.old.items ++ with_length code (index ∷ bytes.now)) }
    ensures front { take (length out.old.items) out.new.items ≡ out.old.items }
{
    put_front(out, code, 1 + bytes.len())?;
    out.push(index)?;
    out.extend_from_slice(bytes)?;
    Ok(())
}

fn put_sot(out: &mut Vec<u8>, sot: Sot) -> Result<(), AllocError>
    ensures ok { OnOk result (out.new.items ≡ out.old.items ++ with_length SOT (sot_bytes sot)) }
    ensures front { take (length out.old.items) out.new.items ≡ out.old.items }
{
    put_front(out, SOT, 8)?;
    put_u16(out, sot.tile)?;
    put_u32(out, sot.psot)?;
    out.extend_from_slice(&[sot.part, sot.parts])?;
    Ok(())
}

fn put_marker(out: &mut Vec<u8>, code: u8) -> Result<(), AllocError>
    ensures ok { OnOk result (out.new.items ≡ out.old.items ++ 255 ∷ code ∷ []) }
    ensures front { take (length out.old.items) out.new.items ≡ out.old.items }
{
    out.extend_from_slice(&[255, code])?;
    Ok(())
}

fn put_spelling(segment: &Segment, comps: u16, out: &mut Vec<u8>) -> Result<(), AllocError>
    requires { InRange comps segment.now }
    ensures ok { OnOk result (out.new.items ≡ out.old.items ++ spelling comps segment.now) }
    ensures front { take (length out.old.items) out.new.items ≡ out.old.items }
{
    match segment {
        Segment::Soc => put_marker(out, SOC),
        Segment::Siz(siz) => put_siz(out, siz),
        Segment::Cod(cod) => put_cod(out, cod),
        Segment::Coc { comp, shape } => put_coc(out, comps, *comp, shape),
        Segment::Qcd(quant) => put_qcd(out, quant),
        Segment::Qcc { comp, quant } => put_qcc(out, comps, *comp, quant),
        Segment::Rgn { comp, shift } => put_rgn(out, comps, *comp, *shift),
        Segment::Poc(entries) => put_poc(out, comps, entries.as_slice()),
        Segment::Crg(bytes) => put_bytes(out, CRG, bytes.as_slice()),
        Segment::Com(bytes) => put_bytes(out, COM, bytes.as_slice()),
        Segment::Plt(bytes) => put_bytes(out, PLT, bytes.as_slice()),
        Segment::Plm(bytes) => put_bytes(out, PLM, bytes.as_slice()),
        Segment::Tlm(bytes) => put_bytes(out, TLM, bytes.as_slice()),
        Segment::Ppm { index, bytes } => put_packed(out, PPM, *index, bytes.as_slice()),
        Segment::Ppt { index, bytes } => put_packed(out, PPT, *index, bytes.as_slice()),
        Segment::Sot(sot) => put_sot(out, *sot),
        Segment::Sod => put_marker(out, SOD),
        Segment::Eoc => put_marker(out, EOC),
        Segment::Skipped(code) => put_marker(out, *code),
    }
}

/// Appends the bytes of a segment in a picture of `comps` components. After `NoMemory` `out` is as
/// before.
pub fn put_segment(segment: &Segment, comps: u16, out: &mut Vec<u8>) -> Result<(), NoMemory>
    requires { InRange comps segment.now }
    ensures ok { OnOk result (out.new.items ≡ out.old.items ++ spelling comps segment.now) }
    ensures err { OnErr result (out.new.items ≡ out.old.items) }
{
    let length = out.len();
    if put_spelling(segment, comps, out).is_err() {
        out.truncate(length);
        return Err(NoMemory);
    }
    Ok(())
}
