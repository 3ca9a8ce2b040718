//! The bits of packet headers and the tag trees in them, both ways (ITU-T T.800, B.10.1 and B.10.2).
#![tactic(auto)]

pub mod laws;
pub(crate) mod node;
mod passing;
mod read_tree;
mod reader;
mod reading;
mod shape;
mod tag_reader;
mod tag_writer;
mod writer;
mod writing;

pub use reader::BitReader;
pub use tag_reader::TagReader;
pub use tag_writer::TagWriter;
pub use writer::BitWriter;

/// Why a packet header has no next bit (T.800 B.10.1).
#[derive(Clone, Copy, Debug, PartialEq, Eq)]
pub enum BitFault {
    /// The bit, or the byte that must follow a last byte FF, lies past the bytes.
    Ended,
    /// The bit that is stuffed after a byte FF is 1.
    Stuffed,
}
