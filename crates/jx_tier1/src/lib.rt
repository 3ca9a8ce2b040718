//! Decoding and coding of coded passes (ITU-T T.800, Annex D) in the fast form: a block is kept in
//! words of eight columns of a stripe, a pass goes through the bits of a word, and labels are read
//! from tables.
#![tactic(auto)]

mod answers;
mod block;
mod coefs;
mod comparer;
mod contexts;
mod copier;
mod decisions;
mod decode;
mod decoder;
mod encode;
mod encoder;
mod ends;
mod grid;
mod half;
mod noter;
mod passes;
mod pen;
mod places;
mod questions;
mod recode;
mod recoder;
mod rest;
mod same;
mod tables;
mod word_passes;
mod words;
mod writer;

pub use decode::{FlagDecoded, decode_flags, sound_flags};
pub use encode::encode_flags;
pub use grid::FlagGrid;
pub use jx_tier1_specs::{BadSymbol, Coded, Coef, Segments};
pub use recode::{FlagRecoded, recode_flags};
pub use same::same_flags;
