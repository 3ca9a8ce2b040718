//! The outside of the transcoder: the files that it reads and makes, and the text that it says.
//!
//! [`Files`] and [`Sink`] state what each call does, when it may be refused, and what a refusal
//! leaves. [`StdFiles`] and [`StdSink`] stand on the system, and [`SureFiles`] keeps its files in memory,
//! in a [`Store`]. [`Gate`] is told of the blocks that workers have in hand, and [`Progress`] shows how
//! many they are done with.
#![tactic(auto)]

mod draft;
mod fault;
mod files;
mod gate;
mod kept;
mod names;
mod output;
mod progress;
mod real;
mod refused;
mod sink;
mod store;
mod sure;

pub use fault::{Fault, Step, TellsFault};
pub use files::Files;
pub use gate::Gate;
pub use names::is_standard_output;
pub use progress::{Progress, is_asked, progress_line};
pub use real::{StdFiles, StdSink};
pub use refused::Refused;
pub use sink::Sink;
pub use store::Store;
pub use sure::SureFiles;
