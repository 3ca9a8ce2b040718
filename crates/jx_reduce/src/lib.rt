//! A codestream without its highest resolutions, of which nothing is decoded (ITU-T T.800, A.5.1, A.6.1 and B.5).
#![tactic(auto)]

mod blocks;
mod choices;
mod faults;
mod headers;
pub mod laws;
mod reducing;

pub use faults::ReduceFault;
pub use reducing::reduce;
