//! How a run ended, and what it tells.

use jx_plan::Misfit;
use jx_rounds::TapeEntry;
use jx_same::Difference;

/// Why two files aren't the same, or can't be compared.
#[derive(Clone, Copy, Debug, PartialEq, Eq)]
pub enum Unlike {
    /// They mean something else: the first value that differs, as both have it.
    Differs(Difference),
    /// The first is accepted, and the second violates a rule: its number, and the place of the byte.
    SecondRule { number: u8, place: u64 },
    /// The first is accepted, and the second passes a limit: its number, and what was counted.
    SecondLimit { number: u8, found: u128 },
}

impl Unlike {
    ghost use Rattle.std.specs.Prelude.{◌≡◌};
    ghost use Rattle.jx_transcode.specs.SameLines.{unlike_number};

    /// The number with which the program ends.
    fn number(self) -> u8
        ensures { result ≡ unlike_number self }
    {
        match self {
            Unlike::Differs(_) => 11,
            Unlike::SecondRule { .. } => 12,
            Unlike::SecondLimit { .. } => 13,
        }
    }
}

/// How a run ended.
#[derive(Clone, Copy, Debug, PartialEq, Eq)]
pub enum Status {
    /// The output was written, and the line was said.
    Done,
    /// The words are no command.
    Words,
    /// The input violates a rule: its number, and the place of the byte.
    Rule { number: u8, place: u64 },
    /// A limit was passed: its number, and what was counted.
    Limit { number: u8, found: u128 },
    /// The output can't be had: the number of the choice, and the block or tile.
    Choice { number: u8, place: u32 },
    /// A block was to be coded anew, and one of its segmentation symbols is wrong: its number.
    Block { number: u32 },
    /// Two files aren't the same, or the second can't be compared with the first.
    Unlike(Unlike),
    /// The input couldn't be opened or read.
    ReadFault,
    /// The output couldn't be created, written or finished, or the line couldn't be said.
    WriteFault,
    /// Memory was refused.
    NoMemory,
}

impl Status {
    ghost use Rattle.std.specs.Prelude.{◌≡◌, ◌+◌};
    ghost use Rattle.jx_transcode.specs.Outcome.{number_of};

    /// Limit 1 is passed: the input has over `limit` bytes, of which one more is read.
    pub(crate) fn too_long(limit: u32) -> Status
        ensures { result ≡ Status.Limit 1 (limit + 1) }
    {
        Status::Limit {
            number: 1,
            found: u128::from(limit) + 1,
        }
    }

    /// The number with which the program ends.
    pub fn number(self) -> u8
        ensures { result ≡ number_of self }
    {
        match self {
            Status::Done => 0,
            Status::Words => 2,
            Status::Rule { .. } => 3,
            Status::Limit { .. } => 4,
            Status::Choice { .. } => 5,
            Status::Block { .. } => 6,
            Status::Unlike(how) => how.number(),
            Status::ReadFault => 7,
            Status::WriteFault => 8,
            Status::NoMemory => 9,
        }
    }
}

/// What a run tells its caller.
#[derive(Debug, Drop)]
pub struct Report {
    /// How the run ended.
    pub status: Status,
    /// The code-blocks of the input once it was accepted, of the first where two were compared, else 0.
    pub blocks: u32,
    /// The blocks of all rounds that were written, in their order.
    pub tape: Vec<TapeEntry>,
    /// Whether the output has boxes of the input that hold positions in the file: they stay as they are, and may be wrong now.
    pub positions: bool,
    /// After choice 2 where the asked precincts would change a code-block of the tile first, and what the input has there; none where there
    /// was no memory to look for it.
    pub misfit: Option<Misfit>,
}
