//! Raw bits, as segments that bypass the arithmetic coder have them (ITU-T T.800, Annex D.6): the
//! most significant bit of a byte first, seven bits in a byte after FF, and 1 past the end.
#![tactic(auto)]

mod ends;
pub mod laws;
mod reader;
mod writer;

pub use ends::looked_from;
pub use reader::RawReader;
pub use writer::RawWriter;
