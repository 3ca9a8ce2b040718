//! Files by hexadecimal digits.

use std::alloc::{AllocError, Global};

/// Texts of a file, one after another, each so many times: digits, and `#` for the number of the repetition in two bytes.
pub(crate) type Parts = &'static [(&'static str, u16)];

// SOC and SIZ up to Csiz of one tile of one sample, of a row of two such tiles, and of as many as there may be.
pub(crate) const SIZ: &str =
    "FF4F FF51 0029 0000 00000001 00000001 00000000 00000000 00000001 00000001 00000000 00000000";

pub(crate) const TWO: &str =
    "FF4F FF51 0029 0000 00000002 00000001 00000000 00000000 00000001 00000001 00000000 00000000";

pub(crate) const MOST_TILES: &str =
    "FF4F FF51 0029 0000 0000FFFF 00000001 00000000 00000000 00000001 00000001 00000000 00000000";
// One component, COD and QCD.
pub(crate) const MAIN: &str =
    "0001 07 01 01 FF52 000C 00 00 0001 00 00 04 04 00 01 FF5C 0004 40 40";
// One tile-part with one byte of data.
pub(crate) const PART: &str = "FF90 000A 0000 0000000F 00 01 FF93 00";

pub(crate) const EOC: &str = "FFD9";

fn digit(byte: u8) -> Option<u8> {
    match byte {
        b'0'..=b'9' => Some(byte - b'0'),
        b'A'..=b'F' => Some(byte - b'A' + 10),
        _ => None,
    }
}

// Appends the bytes of a text; what is neither a digit nor # stands between them.
fn push_text(text: &str, number: u16, bytes: &mut Vec<u8>) -> Result<(), AllocError> {
    let mut high: Option<u8> = None;
    for byte in text.as_bytes() {
        if *byte == b'#' {
            bytes.extend_from_slice(&number.to_be_bytes())?;
        }
        if let Some(low) = digit(*byte) {
            match high {
                None => high = Some(low),
                Some(first) => {
                    bytes.push(first.wrapping_mul(16).wrapping_add(low))?;
                    high = None;
                }
            }
        }
    }
    Ok(())
}

/// The bytes of a file's parts.
pub(crate) fn file_of(alloc: Global, parts: &[(&str, u16)]) -> Result<Vec<u8>, AllocError> {
    let mut bytes = Vec::new(alloc);
    for (text, times) in parts {
        for number in 0..*times {
            push_text(text, number, &mut bytes)?;
        }
    }
    Ok(bytes)
}
