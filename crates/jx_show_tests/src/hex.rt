//! Files as texts of hexadecimal digits.

use std::alloc::Global;

fn digit(byte: u8) -> Option<u8> {
    match byte {
        b'0'..=b'9' => Some(byte - b'0'),
        b'A'..=b'F' => Some(byte - b'A' + 10),
        _ => None,
    }
}

/// The bytes of hexadecimal digits; what is no digit stands between them. None for want of memory.
pub(crate) fn bytes_of(alloc: Global, text: &str) -> Option<Vec<u8>> {
    let mut bytes = Vec::new(alloc);
    let mut high: Option<u8> = None;
    for byte in text.as_bytes() {
        if let Some(low) = digit(*byte) {
            match high {
                None => high = Some(low),
                Some(first) => {
                    bytes.push(first.wrapping_mul(16).wrapping_add(low)).ok()?;
                    high = None;
                }
            }
        }
    }
    Some(bytes)
}
