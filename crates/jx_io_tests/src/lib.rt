//! Tests of files and texts: of those in memory, which fail as planned, and of those of the system.
//! They speak to the public calls of jx_io alone, so an edit here proves nothing else anew.
#![tactic(auto)]

#[cfg(test)]
mod checks;
#[cfg(test)]
mod memory_tests;
#[cfg(test)]
mod progress_tests;
#[cfg(test)]
mod real_tests;
