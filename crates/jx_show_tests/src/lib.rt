//! Tests of jx_show, over public calls alone: the lines of small codestreams.
#![tactic(auto)]

#[cfg(test)]
mod checks;
#[cfg(test)]
mod hex;
#[cfg(test)]
mod show_tests;
