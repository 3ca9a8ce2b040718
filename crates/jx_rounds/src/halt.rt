ghost use Rattle.std.specs.Prelude.{◌≡◌};
ghost use Rattle.jx_rounds.specs.Halts.{halt_of};

use jx_io::Refused;

/// Why the writing of a file ends before the file does.
#[derive(Clone, Copy, Debug, PartialEq, Eq)]
pub enum Halt {
    /// A block of this tile is to be coded anew, and one of its segmentation symbols is wrong: its number.
    Bad { tile: u16, number: u32 },
    /// A tile-part of this tile would have 2^32 bytes or more.
    TooLong { tile: u16 },
    /// A call of the files failed.
    Failed,
    /// Memory was refused.
    NoMemory,
}

/// What a refused call of the files means.
pub fn halt_of(refused: Refused) -> Halt
    ensures { result ≡ halt_of refused }
{
    match refused {
        Refused::Failed => Halt::Failed,
        Refused::NoMemory => Halt::NoMemory,
    }
}
