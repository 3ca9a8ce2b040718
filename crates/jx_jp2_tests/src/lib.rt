//! Tests of JP2 boxes, over public calls alone. They stand in a crate of their own, so that an edit here proves nothing else anew,
//! and a check of the tests doesn't prove again what they test.
#![tactic(auto)]

#[cfg(test)]
mod checks;
#[cfg(test)]
mod files;
#[cfg(test)]
mod find_tests;
#[cfg(test)]
mod list_tests;
#[cfg(test)]
mod piece_tests;
#[cfg(test)]
mod position_tests;
#[cfg(test)]
mod wrap_tests;
