//! What a keeper of pictures must know of a codestream: facts, each with a name and a value, as text (ITU-T T.800, Annexes A and B).
#![tactic(auto)]

mod bytes;
mod counts;
mod fact;
mod headers;
mod json;
mod lines;
mod orders;
mod picture;
mod segments;
mod sizes;
mod stated;
mod whole;
mod words;

pub use whole::show_file;
