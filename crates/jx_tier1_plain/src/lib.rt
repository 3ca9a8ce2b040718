//! The coding passes of a code-block over a plain grid (ITU-T T.800, Annex D), step by step as their
//! definitions have them: the reference for the fast form.
#![tactic(auto)]

mod answers;
mod decode;
mod decoder;
mod encode;
mod encoder;
mod grid;
mod near;
mod runs;
mod scan;
mod steps;
mod writer;

pub use answers::answer;
pub use decode::{Decoded, decode_passes, sound};
pub use encode::encode_passes;
pub use grid::Grid;
pub use scan::{place, run_pass};
