//! JP2 files, put together of boxes.

use std::alloc::{AllocError, Global};

/// The signature box and a file type box: 32 bytes.
pub const START: &[u8] = b"\0\0\0\x0CjP  \r\n\x87\n\0\0\0\x14ftypjp2 \0\0\0\0jp2 ";

/// A header box with an image header box of 22 bytes and a colour specification box of 15: 45 bytes.
pub const HEADER: &[u8] =
    b"\0\0\0\x2Djp2h\0\0\0\x16ihdr\0\0\0\x08\0\0\0\x08\0\x01\x07\x07\0\0\0\0\0\x0Fcolr\x01\0\0\0\0\0\x11";

/// A codestream box with LBox 90, without its content.
pub const SHORT: &[u8] = b"\0\0\0\x5Ajp2c";

/// The same with LBox 1 and XLBox 98.
pub const LONG: &[u8] = b"\0\0\0\x01jp2c\0\0\0\0\0\0\0\x62";

/// The same with LBox 0.
pub const REST: &[u8] = b"\0\0\0\0jp2c";

/// Stands for a codestream: no box's content is looked at.
pub const CONTENT: &[u8] = &[7; 82];

/// Pieces one after the other.
pub fn file_of(alloc: Global, pieces: &[&[u8]]) -> Result<Vec<u8>, AllocError> {
    let mut file = Vec::new(alloc);
    for piece in pieces {
        file.extend_from_slice(piece)?;
    }
    Ok(file)
}
