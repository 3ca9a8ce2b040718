//! Whether two codestreams have the same coefficients, however they are packed, divided into code-blocks and coded (ITU-T T.800).
#![tactic(auto)]

mod answer;
mod bands;
mod blocks;
mod cells;
mod changes;
mod cuts;
mod decoded;
mod first;
mod headers;
mod input;
mod rounds;
mod runs;
mod sayings;
mod segments;
mod shelf;
mod side;
mod tiles;
mod values;
mod whole;

pub use answer::{Answer, Difference, Field, Spot, Value};
pub use whole::compare;
