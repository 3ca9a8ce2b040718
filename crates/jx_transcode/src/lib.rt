//! The top call of the transcoder: from the words of the command line and the bytes read to the
//! bytes written, what is said and the status.
#![tactic(auto)]

mod around;
mod commands;
mod device;
mod input;
mod judge;
pub mod laws;
mod lines;
mod program;
mod rewrite;
mod say;
mod source;
mod status;
mod task;

pub use jx_rounds::TapeEntry;
pub use program::run;
pub use status::{Report, Status, Unlike};
