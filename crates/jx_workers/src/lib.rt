//! The workers: several threads make of each code-block what its job asks for, and what they made stands
//! on a tape in the order of the jobs, whatever the threads did when.
#![tactic(auto)]

pub mod laws;
mod pool;
mod recoder;
mod sizes;
mod workers;

pub use pool::{Tape, recode_all};
