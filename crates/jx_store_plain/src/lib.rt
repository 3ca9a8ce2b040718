//! The store under a lock: the plain reference for the ring. A core takes events one at a time, the
//! lock lends it to one worker after another, and a history says what happened.
#![tactic(auto)]

mod history;
mod kernel;
mod locked;
mod pass;
mod slot;
mod store;
mod values;

pub use history::{History, Kind, Step, Told};
pub use kernel::Core;
pub use locked::Locked;
pub use pass::Pass;
pub use store::{Blanks, LockStore};
