//! Tests of what becomes of a code-block, and of the workers, over the public calls of their crates.
//! They are a crate of their own, so the crates below are proved without them, and an edit here proves none of those anew.
#![tactic(auto)]

#[cfg(test)]
mod block_tests;
#[cfg(test)]
mod blocks;
#[cfg(test)]
mod checks;
#[cfg(test)]
mod pieces_tests;
#[cfg(test)]
mod pool_tests;
#[cfg(test)]
mod stop_tests;
#[cfg(test)]
mod style_tests;
