//! The arithmetic coder of bit-plane decisions (ITU-T T.800, Annex C): contexts, decoder, encoder.
#![tactic(auto)]

mod choice;
mod contexts;
mod decoder;
mod encoder;
pub mod laws;
mod table;

pub use contexts::Contexts;
pub use decoder::MqDecoder;
pub use encoder::MqEncoder;
