//! The store without a lock: numbers are claimed, committed and drained over the words and slots of
//! one table, each by single atomic steps.
#![tactic(auto)]

mod claims;
mod laws;
mod make;
mod ring;
mod rule;
mod steps;
mod tape;
mod view;

pub use laws::{claims_stand_once, steps_are_events};
pub use ring::RingStore;
pub use rule::Turns;
pub use view::{Pass, Place, RingView, Taken};
