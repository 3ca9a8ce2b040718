//! The headers of a made file (ITU-T T.800, A.4 to A.6 and A.9.2).

ghost use Rattle.std.specs.Prelude.{◌≡◌, ◌+◌, ◌<◌, ◌++◌, ◌^◌, [], length, IfOk, OnOk};
ghost use Rattle.jx_marker.specs.declared.Segment.TheVariants as segment_value;
ghost use Rattle.jx_marker.specs.Ranges.{InRange};
ghost use Rattle.jx_marker.specs.Segments.{spelling};
ghost use Rattle.jx_codestream.specs.Spells.{all_bytes, part_bytes};
ghost use Rattle.jx_generate.specs.Headers.{AreSizes, cod_made, com_made, main_made, qcd_made, siz_made};
ghost use Rattle.jx_generate.specs.Made.{file_with, part_with};

use jx_base::NoMemory;
use jx_marker::{
    Bytes, Cod, CompSize, CompSizes, Numbers, Quant, Segment, Shape, Siz, Sot, put_segment,
};
use std::alloc::Global;

/// How many components there are.
const COMPS: u16 = 3;

/// The picture: one tile, and three components of 8 bits.
fn siz(alloc: Global, width: u32, height: u32) -> Result<Siz, NoMemory>
    ensures { IfOk result (λ s. s ≡ siz_made width height) }
{
    let comp = CompSize {
        ssiz: 7,
        dx: 1,
        dy: 1,
    };
    let comps = Vec::from_array(alloc, [comp, comp, comp])?;
    Ok(Siz {
        rsiz: 0,
        x1: width,
        y1: height,
        x0: 0,
        y0: 0,
        tw: width,
        th: height,
        tx: 0,
        ty: 0,
        comps: CompSizes::new(comps),
    })
}

/// Five levels of the 9-7 wavelet with the component transform, code-blocks of 64 by 64, twelve layers in the order LRCP.
fn cod(alloc: Global) -> Cod
    ensures { result ≡ cod_made }
{
    let shape = Shape {
        levels: 5,
        xcb: 6,
        ycb: 6,
        style: 0,
        wavelet: 0,
        precincts: Bytes::new(Vec::new(alloc)),
    };
    Cod {
        sop: false,
        eph: false,
        order: 0,
        layers: 12,
        transform: 1,
        shape,
    }
}

/// 13 planes in each band: a guard bit, and an exponent of 13.
fn qcd(alloc: Global) -> Result<Quant, NoMemory>
    ensures { IfOk result (λ q. q ≡ qcd_made) }
{
    let entries = vec![in alloc; 0x6F00; 16]?;
    Ok(Quant {
        sqcd: 0x22,
        entries: Numbers::new(entries),
    })
}

/// A comment, "jx".
fn com(alloc: Global) -> Result<Bytes, NoMemory>
    ensures { IfOk result (λ b. b ≡ com_made) }
{
    Ok(Bytes::new(Vec::from_array(alloc, [0, 1, b'j', b'x'])?))
}

/// Appends a segment and lets it go: at one place, as a segment is dropped by its kind.
fn put_owned(segment: Segment, comps: u16, out: &mut Vec<u8>) -> Result<(), NoMemory>
    requires { InRange comps segment }
    ensures { OnOk result (out.new.items ≡ out.old.items ++ spelling comps segment) }
{
    put_segment(&segment, comps, out)
}

/// Appends SIZ.
fn put_siz(alloc: Global, width: u32, height: u32, out: &mut Vec<u8>) -> Result<(), NoMemory>
    requires { AreSizes width height }
    ensures { OnOk result (out.new.items ≡ out.old.items ++ spelling 1 (segment_value.Siz (siz_made width height))) }
{
    let siz = siz(alloc, width, height)?;
    put_owned(Segment::Siz(siz), 1, out)
}

/// Appends SOC and SIZ.
fn put_front(alloc: Global, width: u32, height: u32, out: &mut Vec<u8>) -> Result<(), NoMemory>
    requires { AreSizes width height }
    ensures { OnOk result (out.new.items ≡ out.old.items ++ (spelling 1 segment_value.Soc ++ spelling 1 (segment_value.Siz (siz_made width height)))) }
{
    put_segment(&Segment::Soc, 1, out)?;
    put_siz(alloc, width, height, out)?;
    Ok(())
}

/// Appends COD.
fn put_cod(alloc: Global, out: &mut Vec<u8>) -> Result<(), NoMemory>
    ensures { OnOk result (out.new.items ≡ out.old.items ++ spelling 3 (segment_value.Cod cod_made)) }
{
    put_owned(Segment::Cod(cod(alloc)), COMPS, out)
}

/// Appends QCD.
fn put_qcd(alloc: Global, out: &mut Vec<u8>) -> Result<(), NoMemory>
    ensures { OnOk result (out.new.items ≡ out.old.items ++ spelling 3 (segment_value.Qcd qcd_made)) }
{
    let quant = qcd(alloc)?;
    put_owned(Segment::Qcd(quant), COMPS, out)
}

/// Appends COM.
fn put_com(alloc: Global, out: &mut Vec<u8>) -> Result<(), NoMemory>
    ensures { OnOk result (out.new.items ≡ out.old.items ++ spelling 3 (segment_value.Com com_made)) }
{
    let comment = com(alloc)?;
    put_owned(Segment::Com(comment), COMPS, out)
}

/// Appends the segments after SIZ.
fn put_main(alloc: Global, out: &mut Vec<u8>) -> Result<(), NoMemory>
    ensures { OnOk result (out.new.items ≡ out.old.items ++ all_bytes 3 main_made) }
{
    put_cod(alloc, out)?;
    put_qcd(alloc, out)?;
    put_com(alloc, out)?;
    Ok(())
}

/// Appends the one tile-part, of at most 2^32 - 1 bytes.
fn put_part(body: &[u8], out: &mut Vec<u8>) -> Result<(), NoMemory>
    requires { 14 + length body.now < 2 ^ 32 }
    ensures { OnOk result (out.new.items ≡ out.old.items ++ part_bytes 3 (part_with body.now)) }
{
    let sot = Sot {
        tile: 0,
        psot: 14 + body.len() as u32,
        part: 0,
        parts: 1,
    };
    put_owned(Segment::Sot(sot), COMPS, out)?;
    put_owned(Segment::Sod, COMPS, out)?;
    out.extend_from_slice(body)?;
    Ok(())
}

/// A file with these tile data.
pub(crate) fn file(alloc: Global, width: u32, height: u32, body: &[u8]) -> Result<Vec<u8>, NoMemory>
    requires sizes { AreSizes width height }
    requires few { 14 + length body.now < 2 ^ 32 }
    ensures { IfOk result (λ bytes. bytes.items ≡ file_with width height body.now) }
{
    let mut out = Vec::new(alloc);
    put_front(alloc, width, height, &mut out)?;
    put_main(alloc, &mut out)?;
    put_part(body, &mut out)?;
    put_segment(&Segment::Eoc, COMPS, &mut out)?;
    Ok(out)
}
