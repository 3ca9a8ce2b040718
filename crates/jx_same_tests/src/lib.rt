//! Tests of jx_same, over public calls alone: two codestreams, and the first value in which they differ.
#![tactic(auto)]

#[cfg(test)]
mod checks;
#[cfg(test)]
mod compare_tests;
#[cfg(test)]
mod hex;
#[cfg(test)]
mod values_tests;
