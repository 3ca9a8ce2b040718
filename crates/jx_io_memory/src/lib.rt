//! The outside in memory, for tests: files and text whose calls can be made to fail, and a gate that does nothing.
//!
//! [`MemFiles`] and [`MemSink`] keep all in memory and fail as planned, [`SureSink`] never fails, and [`NoGate`] passes over
//! what workers have in hand. The program calls none of them.
#![tactic(auto)]

mod gate;
mod memory;
mod plan;
mod spoken;

pub use gate::NoGate;
pub use memory::MemFiles;
pub use plan::Call;
pub use spoken::{MemSink, SureSink};
