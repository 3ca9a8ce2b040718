//! Tests of the two stores, one with a lock and one without: worked runs on the core and through passes, histories, and threads.
//! They speak to the public calls of jx_store and jx_ring alone, so an edit here proves nothing else anew.
#![tactic(auto)]

#[cfg(test)]
mod checks;
#[cfg(test)]
mod core_tests;
#[cfg(test)]
mod history_tests;
#[cfg(test)]
mod lock_rows;
#[cfg(test)]
mod lock_thread_tests;
#[cfg(test)]
mod pass_tests;
#[cfg(test)]
mod ring_byte_tests;
#[cfg(test)]
mod ring_rows;
#[cfg(test)]
mod ring_tests;
#[cfg(test)]
mod ring_thread_tests;
#[cfg(test)]
mod works;
