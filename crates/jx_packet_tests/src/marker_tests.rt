//! Segments that are read and put again as they were, and their fields.

ghost use Rattle.jx_marker.specs.Ranges.{InRange};

use crate::checks::{check, check_at, equal};
use jx_marker::{
    Cod, CompSize, Progression, Segment, Shape, Siz, eph, put_segment, read_segment, sop,
};
use std::alloc::{AllocError, Global};
use std::process::Abort;
use std::test::Fail;

/// Segments, one a line, of pictures of so many components.
const SEGMENTS: [(u16, &str); 4] = [
    (
        0,
        "
FF51_0029_0000_00000001_00000001_00000000_00000000_00000001_00000001_00000000_00000000_0001_070101
",
    ),
    (
        1,
        "
FF4F
FF52_000C_00_00_0001_00_00_04_04_00_01
FF52_000E_07_04_0002_01_01_04_04_3F_00_00_11
FF53_0009_00_00_00_04_04_00_01
FF5C_0004_40_40
FF5C_0007_22_6F00_6F01
FF5C_0005_41_1234
FF5D_0005_00_40_40
FF5E_0005_00_00_25
FF5F_0009_00_00_0001_01_01_00
FF5F_0010_00_00_0001_01_01_00_01_00_FFFF_21_00_04
FF63_0006_0000_0000
FF64_0006_0001_6A78
FF64_0002
FF58_0003_00
FF57_0003_00
FF55_0004_00_50
FF60_0003_00
FF60_0006_FF_010203
FF61_0003_07
FF61_0005_00_80FF
FF90_000A_0000_0000000F_00_01
FF90_000A_FFFE_FFFFFFFF_FF_00
FF93
FFD9
FF30
FF3F
FF51_0029_3FFF_00000001_00000001_00000000_00000000_00000001_00000001_00000000_00000000_0001_070101
FF5F_0009_00_00_0001_01_01_04
FF5F_0009_01_00_0001_02_01_00
FF5F_0009_00_01_0001_01_02_00
FF5F_0009_00_01_0001_01_00_00
",
    ),
    (
        2,
        "
FF53_000B_01_01_01_00_08_3F_00_0F_77
",
    ),
    (
        257,
        "
FF53_000A_0100_00_00_04_04_00_01
FF5D_0006_0100_40_40
FF5E_0006_0100_00_05
FF5F_000B_00_0000_0001_01_0101_04
",
    ),
];

fn digit(byte: u8) -> Option<u8> {
    match byte {
        b'0'..=b'9' => Some(byte - b'0'),
        b'A'..=b'F' => Some(byte - b'A' + 10),
        _ => None,
    }
}

// The bytes of hexadecimal digits; what is no digit stands between them.
fn bytes_of(alloc: Global, texts: &[&str]) -> Result<Vec<u8>, AllocError> {
    let mut bytes = Vec::new(alloc);
    let mut high = None;
    for text in texts {
        for byte in text.as_bytes() {
            if let Some(low) = digit(*byte) {
                match high {
                    None => high = Some(low),
                    Some(first) => {
                        let first: u8 = first;
                        bytes.push(first.wrapping_mul(16).wrapping_add(low))?;
                        high = None;
                    }
                }
            }
        }
    }
    Ok(bytes)
}

// Whether a segment is put as these bytes.
fn is_put(alloc: Global, segment: &Segment, comps: u16, want: &[u8]) -> bool
    requires { InRange comps segment.now }
{
    let mut out = Vec::new(alloc);
    put_segment(segment, comps, &mut out).is_ok() && out.as_slice() == want
}

// Whether a segment and its copy are put as these bytes.
fn are_put(alloc: Global, segment: &Segment, comps: u16, want: &[u8]) -> bool
    requires { InRange comps segment.now }
{
    match segment.copy() {
        Ok(copy) => is_put(alloc, segment, comps, want) && is_put(alloc, &copy, comps, want),
        Err(_) => false,
    }
}

// Whether the segment at a place ends at `end`, and is put again as the bytes between.
fn goes(alloc: Global, bytes: &[u8], at: usize, end: usize, comps: u16) -> bool {
    if at > end || end > bytes.len() {
        return false;
    }
    match read_segment(alloc, bytes, at, comps) {
        Ok((segment, after)) => after == end && are_put(alloc, &segment, comps, &bytes[at..end]),
        Err(_) => false,
    }
}

// Whether a segment goes alone, and with bytes before and after it.
fn goes_anywhere(alloc: Global, text: &str, comps: u16) -> Result<bool, AllocError> {
    let alone = bytes_of(alloc, &[text])?;
    let within = bytes_of(alloc, &["12", text, text])?;
    let end = within.len() / 2 + 1;
    Ok(goes(alloc, &alone, 0, alone.len(), comps) && goes(alloc, &within, 1, end, comps))
}

#[test]
fn segments_are_put_again(rt: HostRuntime) -> Result<(), Fail> {
    for (comps, texts) in &SEGMENTS {
        for text in texts.trim().lines() {
            check_at(&rt, &text, goes_anywhere(rt.alloc(), text, *comps)?);
        }
    }
    Ok(())
}

// A segment of each kind, and how many components the picture has.
static FIELDS: [(&str, u16); 8] = [
    (
        "FF51_002C_1234_00000101_00000202_00000003_00000004_00000105_00000206_00000001_00000002_0002_070101_8B0203",
        0,
    ),
    ("FF52_000E_05_04_0002_01_01_03_05_28_01_00_98", 3),
    ("FF53_000A_0102_00_02_04_03_01_00", 300),
    ("FF5D_000A_02_41_4801_4902_4A03", 3),
    ("FF5F_000B_01_0002_0304_05_0106_03", 300),
    ("FF90_000A_0102_00030405_06_07", 3),
    ("FF60_0005_09_8001", 3),
    ("FF61_0003_0A", 3),
];

// Fields by their values, as the standard's tables have them.
#[test]
fn fields_of_segments(rt: HostRuntime) -> Result<(), Fail> {
    for (text, comps) in &FIELDS {
        let bytes = bytes_of(rt.alloc(), &[text])?;
        match read_segment(rt.alloc(), &bytes, 0, *comps) {
            Ok((segment, _)) => has_fields(&rt, &segment),
            Err(_) => check(&rt, false),
        }
    }
    Ok(())
}

fn has_fields(rt: &impl Abort, segment: &Segment) {
    match segment {
        Segment::Siz(siz) => is_siz(rt, siz),
        Segment::Cod(cod) => is_cod(rt, cod),
        Segment::Coc { comp, shape } => {
            equal(rt, *comp, 258);
            are_fields_of(rt, shape, (2, 6, 5, 1, 0));
        }
        Segment::Qcc { comp, quant } => {
            equal(rt, (*comp, quant.sqcd), (2, 0x41));
            let want = [0x4801, 0x4902, 0x4A03];
            equal(rt, quant.entries.as_slice(), want.as_slice());
        }
        Segment::Poc(entries) => {
            let entry = Progression {
                rs: 1,
                cs: 2,
                lye: 0x304,
                re: 5,
                ce: 0x106,
                order: 3,
            };
            equal(rt, entries.as_slice().first().copied(), Some(entry));
        }
        Segment::Sot(sot) => equal(
            rt,
            (sot.tile, sot.psot, sot.part, sot.parts),
            (0x102, 0x30405, 6, 7),
        ),
        Segment::Ppm { index, bytes } => {
            equal(rt, *index, 9);
            equal(rt, bytes.as_slice(), [0x80, 0x01].as_slice());
        }
        Segment::Ppt { index, bytes } => {
            equal(rt, (*index, bytes.as_slice().len()), (10, 0));
        }
        _ => check(rt, false),
    }
}

fn is_siz(rt: &impl Abort, siz: &Siz) {
    equal(
        rt,
        (siz.rsiz, siz.x1, siz.y1, siz.x0, siz.y0),
        (0x1234, 0x101, 0x202, 3, 4),
    );
    equal(rt, (siz.tw, siz.th, siz.tx, siz.ty), (0x105, 0x206, 1, 2));
    let last = CompSize {
        ssiz: 0x8B,
        dx: 2,
        dy: 3,
    };
    equal(rt, siz.comps.as_slice().last().copied(), Some(last));
}

fn is_cod(rt: &impl Abort, cod: &Cod) {
    check(rt, !cod.sop && cod.eph);
    equal(rt, (cod.order, cod.layers, cod.transform), (4, 2, 1));
    are_fields_of(rt, &cod.shape, (1, 5, 7, 0x28, 1));
    equal(rt, cod.shape.precincts.as_slice(), [0x00, 0x98].as_slice());
}

// Levels, both exponents of a code-block, style and wavelet.
fn are_fields_of(rt: &impl Abort, shape: &Shape, want: (u8, u8, u8, u8, u8)) {
    let found = (
        shape.levels,
        shape.xcb,
        shape.ycb,
        shape.style,
        shape.wavelet,
    );
    equal(rt, found, want);
}

#[test]
fn marks_of_packets(rt: HostRuntime) {
    equal(&rt, sop(0x1234), [0xFF, 0x91, 0, 4, 0x12, 0x34]);
    equal(&rt, sop(0xFFFF), [0xFF, 0x91, 0, 4, 0xFF, 0xFF]);
    equal(&rt, eph(), [0xFF, 0x92]);
}
