//! Tests of the coders (arithmetic and raw) and of the coding passes, in the plain form and in the fast one, over the public calls of
//! their crates. They are a crate of their own, so the crates below are proved without them, and an edit here proves none of those anew.
#![tactic(auto)]

#[cfg(test)]
mod checks;
#[cfg(test)]
mod coder_rows;
#[cfg(test)]
mod decode_tests;
#[cfg(test)]
mod encode_tests;
#[cfg(test)]
mod flags_tests;
#[cfg(test)]
mod grid_tests;
#[cfg(test)]
mod mq_tests;
#[cfg(test)]
mod raw_tests;
#[cfg(test)]
mod recode_tests;
#[cfg(test)]
mod same_tests;
#[cfg(test)]
mod samples;
#[cfg(test)]
mod walk_rows;
