//! The values that stand in the bytes of a segment (T.800, A.5 to A.9).

ghost use Rattle.std.specs.Prelude.{◌≡◌, ◌+◌, ◌-◌, ◌*◌, ◌/◌, ◌≤◌, ◌<◌, length, drop, slice_index, IfOk};
ghost use Rattle.byteorder.specs.Endian.{big_from};
ghost use Rattle.jx_marker.specs.Markers.{index_size, entry_size, progression_size};
ghost use Rattle.jx_marker.specs.Values.{values_from, comp_size_at, siz_at, shape_at, cod_at, index_at, entry_at, quant_at, progression_at, poc_at, sot_at};

use crate::lists::{Bytes, CompSizes, Numbers, Progressions};
use crate::markers::{entry_size, index_size, progression_size};
use crate::numbers::{narrow_at, u16_at, u32_at};
use crate::{Cod, CompSize, Progression, Quant, Shape, Siz, Sot};
use std::alloc::{AllocError, Global};

pub fn comp_size_at(body: &[u8], at: usize) -> CompSize
    requires { at + 3 ≤ length body.now }
    ensures { result ≡ comp_size_at at body.now }
{
    CompSize {
        ssiz: body[at],
        dx: body[at + 1],
        dy: body[at + 2],
    }
}

pub fn progression_at(comps: u16, body: &[u8], at: usize) -> Progression
    requires { at + progression_size comps ≤ length body.now }
    ensures { result ≡ progression_at comps at body.now }
{
    let size = index_size(comps);
    Progression {
        rs: body[at],
        cs: narrow_at(body, size, at + 1),
        lye: u16_at(body, at + 1 + size),
        re: body[at + 3 + size],
        ce: narrow_at(body, size, at + 4 + size),
        order: body[at + 4 + 2 * size],
    }
}

fn comp_sizes(alloc: Global, body: &[u8], count: u16) -> Result<CompSizes, AllocError>
    requires { 36 + 3 * count ≤ length body.now }
    ensures { IfOk result (λ list. list ≡ values_from comp_size_at 3 count 36 body.now) }
{
    let mut items = Vec::new(alloc);
    let mut at = 36usize;
    for _i in 0..count {
        items.push(comp_size_at(body, at))?;
        at += 3;
    }
    Ok(CompSizes::new(items))
}

pub fn read_siz(alloc: Global, body: &[u8]) -> Result<Siz, AllocError>
    requires { 36 + 3 * big_from 34 2 body.now ≤ length body.now }
    ensures { IfOk result (λ siz. siz ≡ siz_at body.now) }
{
    let comps = comp_sizes(alloc, body, u16_at(body, 34))?;
    Ok(Siz {
        rsiz: u16_at(body, 0),
        x1: u32_at(body, 2),
        y1: u32_at(body, 6),
        x0: u32_at(body, 10),
        y0: u32_at(body, 14),
        tw: u32_at(body, 18),
        th: u32_at(body, 22),
        tx: u32_at(body, 26),
        ty: u32_at(body, 30),
        comps,
    })
}

/// A list of these bytes.
pub fn bytes_of(alloc: Global, bytes: &[u8]) -> Result<Bytes, AllocError>
    ensures { IfOk result (λ list. list ≡ bytes.now) }
{
    Ok(Bytes::new(Vec::from_slice(alloc, bytes)?))
}

pub fn read_shape(alloc: Global, body: &[u8], at: usize) -> Result<Shape, AllocError>
    requires room { at + 5 ≤ length body.now }
    requires xcb { slice_index body.now (at + 1) ≤ 8 }
    requires ycb { slice_index body.now (at + 2) ≤ 8 }
    ensures { IfOk result (λ shape. shape ≡ shape_at at body.now) }
{
    let precincts = bytes_of(alloc, &body[at + 5..])?;
    Ok(Shape {
        levels: body[at],
        xcb: body[at + 1] + 2,
        ycb: body[at + 2] + 2,
        style: body[at + 3],
        wavelet: body[at + 4],
        precincts,
    })
}

pub fn read_cod(alloc: Global, body: &[u8]) -> Result<Cod, AllocError>
    requires room { 10 ≤ length body.now }
    requires xcb { slice_index body.now 6 ≤ 8 }
    requires ycb { slice_index body.now 7 ≤ 8 }
    ensures { IfOk result (λ cod. cod ≡ cod_at body.now) }
{
    let shape = read_shape(alloc, body, 5)?;
    Ok(Cod {
        sop: body[0] / 2 % 2 == 1,
        eph: body[0] / 4 % 2 == 1,
        order: body[1],
        layers: u16_at(body, 2),
        transform: body[4],
        shape,
    })
}

fn entries(
    alloc: Global,
    body: &[u8],
    size: usize,
    count: usize,
    from: usize,
) -> Result<Numbers, AllocError>
    requires room { from + count * size ≤ length body.now }
    requires some { 1 ≤ size }
    requires most { size ≤ 2 }
    ensures { IfOk result (λ list. list ≡ values_from (entry_at size) size count from body.now) }
{
    let mut items = Vec::new(alloc);
    let mut at = from;
    for _i in 0..count {
        items.push(narrow_at(body, size, at))?;
        at += size;
    }
    Ok(Numbers::new(items))
}

pub fn read_quant(alloc: Global, body: &[u8], at: usize) -> Result<Quant, AllocError>
    requires { at + 1 ≤ length body.now }
    ensures { IfOk result (λ quant. quant ≡ quant_at at body.now) }
{
    let sqcd = body[at];
    let size = entry_size(sqcd);
    let count = (body.len() - (at + 1)) / size;
    let entries = entries(alloc, body, size, count, at + 1)?;
    Ok(Quant { sqcd, entries })
}

pub fn read_poc(alloc: Global, comps: u16, body: &[u8]) -> Result<Progressions, AllocError>
    ensures { IfOk result (λ list. list ≡ poc_at comps body.now) }
{
    let size = progression_size(comps);
    let mut items = Vec::new(alloc);
    let mut at = 0usize;
    for _i in 0..body.len() / size {
        items.push(progression_at(comps, body, at))?;
        at += size;
    }
    Ok(Progressions::new(items))
}

/// The index and the data behind it.
pub fn read_packed(alloc: Global, body: &[u8]) -> Result<(u8, Bytes), AllocError>
    requires { 1 ≤ length body.now }
    ensures { IfOk result (λ read. (read.0 ≡ slice_index body.now 0) × (read.1 ≡ drop 1 body.now)) }
{
    let bytes = bytes_of(alloc, &body[1..])?;
    Ok((body[0], bytes))
}

pub fn read_sot(body: &[u8]) -> Sot
    requires { 8 ≤ length body.now }
    ensures { result ≡ sot_at body.now }
{
    Sot {
        tile: u16_at(body, 0),
        psot: u32_at(body, 2),
        part: body[6],
        parts: body[7],
    }
}
