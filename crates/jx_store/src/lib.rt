//! What a shared store is: numbers are claimed in turn, values are committed under them in any order,
//! and a tape takes them in sequence. The definitions, the laws over every run, and what each store has.
#![tactic(auto)]

mod claim;
mod event;
pub mod laws;
mod sums;
mod work;

pub use claim::{Claim, ClaimAnswer};
pub use event::{Event, Reply, Taped};
pub use sums::Sums;
pub use work::{Bounds, Entry, Named, Work};
