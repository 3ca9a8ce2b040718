//! The conditions of profile 3, and which of them headers don't meet first.

use crate::checks::equal;
use crate::hex::bytes_of;
use jx_base::MOST_BYTES;
use jx_codestream::laws::read_is_in_range;
use jx_codestream::read_stream;
use jx_options::{Marks, PartChoice};
use jx_plan::{Cinema, first_unmet};
use std::alloc::Global;
use std::test::Fail;

// A picture of 2 by 1, three components of 12 bits, one tile; CPRL, one layer, one level, code-blocks of 32 by 32, the 9-7 wavelet,
// precincts of 128 by 128 and 256 by 256; one guard bit; six empty packets.
const FILM: &str = "
    FF4F FF51 002F 0003 00000002 00000001 00000000 00000000 00000002 00000001 00000000 00000000 0003 0B 01 01 0B 01 01 0B 01 01
    FF52 000E 01 04 0001 00 01 03 03 00 00 77 88 FF5C 0005 21 4000
    FF90 000A 0000 00000014 00 01 FF93 000000000000 FFD9";

// The file with one byte in place of another.
fn changed(alloc: Global, change: (usize, u8)) -> Option<Vec<u8>> {
    let mut bytes = bytes_of(alloc, FILM)?;
    if change.0 < bytes.len() {
        bytes[change.0] = change.1;
    }
    Some(bytes)
}

// The first condition that its headers don't meet; 99 where the file is refused.
fn unmet(alloc: Global, change: (usize, u8), parts: PartChoice, tlm: bool) -> Option<u32> {
    read_is_in_range();
    let bytes = changed(alloc, change)?;
    if bytes.len() > MOST_BYTES {
        return Some(99);
    }
    let mut marks = Marks::none();
    marks.parts = parts;
    marks.tlm = tlm;
    match read_stream(alloc, &bytes) {
        Ok(stream) => first_unmet(&stream, marks, Cinema::TwoK),
        Err(_) => Some(99),
    }
}

// Bytes that break a condition each: XOsiz, a depth, a code-block's width, the style, a precinct, the order, the layers, the wavelet, the
// guard bits.
static BROKEN: [((usize, u8), u32); 9] = [
    ((19, 1), 2),
    ((42, 7), 4),
    ((61, 4), 7),
    ((63, 8), 8),
    ((66, 0x87), 9),
    ((56, 0), 10),
    ((58, 2), 11),
    ((64, 1), 13),
    ((71, 0x41), 14),
];

#[test]
fn each_condition(rt: HostRuntime) -> Result<(), Fail> {
    let alloc = rt.alloc();
    for (change, want) in &BROKEN {
        equal(
            &rt,
            unmet(alloc, *change, PartChoice::Component, true),
            Some(*want),
        );
    }
    Ok(())
}

// Nothing is changed: byte 0 is FF.
#[test]
fn marks_of_a_profile(rt: HostRuntime) -> Result<(), Fail> {
    let alloc = rt.alloc();
    equal(
        &rt,
        unmet(alloc, (0, 0xFF), PartChoice::Component, true),
        None,
    );
    equal(
        &rt,
        unmet(alloc, (0, 0xFF), PartChoice::Resolution, true),
        Some(15),
    );
    equal(
        &rt,
        unmet(alloc, (0, 0xFF), PartChoice::Component, false),
        Some(16),
    );
    Ok(())
}
