//! Tests of the stream, of the pieces of code-blocks and of the file that is made, over public calls alone.
//! They stand in a crate of their own, so that an edit here proves nothing else anew, and a check of the tests doesn't prove
//! again what they test. What the program shows of a file stands in tables (tests/tables).
#![tactic(auto)]

#[cfg(test)]
mod checks;
#[cfg(test)]
mod files;
#[cfg(test)]
mod gather_tests;
#[cfg(test)]
mod make_tests;
#[cfg(test)]
mod packed_tests;
#[cfg(test)]
mod stream_tests;
#[cfg(test)]
mod view_tests;
