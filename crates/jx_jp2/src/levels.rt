//! The levels on which boxes stand, by what is opened there (ITU-T T.800, I.5.3, I.5.3.7 and I.7.3).

ghost use Rattle.std.specs.Prelude.{◌≡◌};
ghost use Rattle.jx_jp2.specs.Trees.{is_top, opened};

use crate::kinds::{JP2H, RES, UINF};

/// A level of boxes.
#[derive(Clone, Copy)]
pub enum Level {
    /// That of the file: `jp2h` and `uinf` are opened.
    Top,
    /// That of what is in `jp2h`: `res ` is opened.
    Header,
    /// One on which no box is opened.
    Closed,
}

/// Whether a box may end with the file, by LBox 0.
pub fn is_top(level: Level) -> bool
    ensures { result ≡ is_top level }
{
    match level {
        Level::Top => true,
        Level::Header | Level::Closed => false,
    }
}

/// The level of what is in a box, where the box is opened.
#[tactic(auto, unfolding(crate::specs::Trees::opened))]
pub fn opened(level: Level, kind: u32) -> Option<Level>
    ensures { result ≡ opened level kind }
{
    match level {
        Level::Top => {
            if kind == JP2H {
                Some(Level::Header)
            } else if kind == UINF {
                Some(Level::Closed)
            } else {
                None
            }
        }
        Level::Header => {
            if kind == RES {
                Some(Level::Closed)
            } else {
                None
            }
        }
        Level::Closed => None,
    }
}
