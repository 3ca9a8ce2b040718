//! Files that tests put together: of slices, and of a file in which some bytes stand in place of others.

use std::alloc::{AllocError, Global};

/// Where, how many bytes go, and what is put in their place.
pub type Edit<'a> = (usize, usize, &'a [u8]);

/// Puts these slices behind what there is.
pub fn put_all(bytes: &mut Vec<u8>, parts: &[&[u8]]) -> Result<(), AllocError> {
    for part in parts {
        bytes.extend_from_slice(part)?;
    }
    Ok(())
}

/// These slices, one behind another.
pub fn joined(alloc: Global, parts: &[&[u8]]) -> Result<Vec<u8>, AllocError> {
    let mut bytes = Vec::new(alloc);
    put_all(&mut bytes, parts)?;
    Ok(bytes)
}

/// This file with these edits, whose places are those of the file, and rise.
pub fn spliced(alloc: Global, file: &[u8], edits: &[Edit<'_>]) -> Result<Vec<u8>, AllocError> {
    let mut bytes = Vec::new(alloc);
    let mut rest = file;
    let mut from = 0_usize;
    for (at, gone, put) in edits {
        let (kept, behind) = rest.split_at(at.saturating_sub(from).min(rest.len()));
        put_all(&mut bytes, &[kept, put])?;
        rest = behind.split_at((*gone).min(behind.len())).1;
        from = at.saturating_add(*gone);
    }
    put_all(&mut bytes, &[rest])?;
    Ok(bytes)
}

/// The low byte of a number.
pub fn low_byte(number: usize) -> u8 {
    let [_, _, _, _, _, _, _, low] = (number as u64).to_be_bytes();
    low
}

/// So many bytes of one value.
pub fn repeated(alloc: Global, byte: u8, count: usize) -> Result<Vec<u8>, AllocError> {
    vec![in alloc; byte; count]
}
