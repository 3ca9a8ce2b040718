//! Tests of jx_reduce, over public calls alone: what is left of codestreams, and why nothing is.
#![tactic(auto)]

#[cfg(test)]
mod checks;
#[cfg(test)]
mod hex;
#[cfg(test)]
mod reduce_tests;
