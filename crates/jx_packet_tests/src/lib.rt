//! Tests of marker segments, geometry, orders, tag trees and packet headers, over public calls alone.
//! They stand in a crate of their own, so that an edit here proves nothing else anew, and a check of the tests doesn't prove
//! again what they test.
#![tactic(auto)]

#[cfg(test)]
mod checks;
#[cfg(test)]
mod geom_tests;
#[cfg(test)]
mod geometries;
#[cfg(test)]
mod head_tests;
#[cfg(test)]
mod marker_tests;
#[cfg(test)]
mod naming_tests;
#[cfg(test)]
mod order_tests;
#[cfg(test)]
mod plain_tests;
#[cfg(test)]
mod ranges;
#[cfg(test)]
mod tagtree_tests;
