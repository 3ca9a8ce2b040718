//! What is written of a codestream, chosen before a byte of it is: its headers, and what is asked of each code-block, the layers in
//! which its coding passes are sent and the style in which it is coded anew (ITU-T T.800, B.10, D.7).
#![tactic(auto)]

mod asking;
mod causal;
mod changes;
mod counting;
mod crowded;
mod facts;
mod faults;
mod fitting;
mod headers;
pub mod laws;
pub mod layer_laws;
mod lending;
mod out_stream;
mod own_entries;
mod parting;
mod planning;
mod profile;
mod sending;
mod strays;

pub use asking::ask_jobs;
pub use causal::{first_broken, style_for};
pub use crowded::first_crowded;
pub use facts::facts_of;
pub use faults::{Misfit, PlanFault};
pub use fitting::{check_precincts, first_misfit};
pub use lending::shortened;
pub use out_stream::OutStream;
pub use planning::plan_served;
pub use profile::{Cinema, first_unmet};
