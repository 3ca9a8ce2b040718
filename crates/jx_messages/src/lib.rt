//! What a keeper of pictures is told beside the one line for scripts: why a run was refused, what to ask instead, and how the program is
//! called. Each text is the sentence of a row of rules, limits and choices, with the names, the place and the number in it.
#![tactic(auto)]

mod choices;
mod commands;
mod differences;
mod faults;
mod forms;
mod help;
mod limits;
mod notes;
mod profile;
mod rules;
mod sentence;
mod shown;
mod words;

pub use faults::explain_fault;
pub use help::help_of;
use jx_same::Difference;
pub use notes::note_positions;
pub use sentence::explain;

/// Why a run was refused.
#[derive(Clone, Copy, Debug, PartialEq, Eq)]
pub enum Refusal {
    /// The words aren't good.
    Words,
    /// The input violates a rule of the standard at a byte.
    Rule {
        /// The rule, 1 to 37.
        number: u8,
        /// The byte, counted from 0.
        place: u64,
    },
    /// A limit is passed.
    Limit {
        /// The limit, 1 to 7.
        number: u8,
        /// What was counted.
        found: u128,
    },
    /// The input can't have what is asked.
    Choice {
        /// The choice, 1 to 11.
        number: u8,
        /// The code-block or the tile.
        place: u32,
    },
    /// Precincts would change the size of a tile's code-blocks, first at a resolution of a component: choice 2, with what the input has there.
    Misfit {
        /// The tile.
        place: u32,
        /// The component, 0 to 16,383.
        comp: u16,
        /// The resolution, 0 to 32.
        res: u8,
        /// The exponent of the width of the input's precincts there, 0 to 15.
        across: u8,
        /// The exponent of their height, 0 to 15.
        down: u8,
    },
    /// A code-block that is to be coded anew is wrong.
    Block {
        /// Its number.
        number: u32,
    },
    /// Two files aren't the same: the first value that differs, as both have it.
    Differs(Difference),
    /// The second of two files violates a rule of the standard at a byte.
    SecondRule {
        /// The rule, 1 to 35.
        number: u8,
        /// The byte, counted from 0.
        place: u64,
    },
    /// A limit is passed by the second of two files.
    SecondLimit {
        /// The limit, 1 to 6.
        number: u8,
        /// What was counted.
        found: u128,
    },
    /// The input couldn't be opened or read.
    ReadFault,
    /// The output couldn't be written.
    WriteFault,
    /// Memory was refused.
    NoMemory,
}
