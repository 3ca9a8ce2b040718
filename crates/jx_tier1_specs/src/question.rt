//! The questions of coding passes, one for each decision.

use jx_base::Band;

/// What a coding pass scans: a coded plane of a block.
#[derive(Clone, Copy, Debug)]
pub struct Plane {
    /// The block's band.
    pub band: Band,
    /// Whether contexts are vertically causal (T.800 D.7).
    pub causal: bool,
    /// How many coded planes the block has, 1 to 74.
    pub planes: u8,
    /// Which of them it is: 0 is the highest.
    pub number: u8,
}

/// What a decision says. Places are columns and rows of the block.
#[derive(Clone, Copy, Debug)]
pub enum About {
    /// The bit of the plane at a place.
    Bit(u16, u16),
    /// Whether the coefficient at a place is negative.
    Sign(u16, u16),
    /// Whether one of the four places from this one downwards has the bit 1.
    Run(u16, u16),
    /// The high bit of the number of the first of these that has.
    High(u16, u16),
    /// The low bit of that number.
    Low(u16, u16),
    /// A bit of a segmentation symbol, which should be this one (T.800 D.5).
    Symbol(bool),
}

/// A question for one decision.
#[derive(Clone, Copy, Debug)]
pub struct Question {
    /// Its label in an arithmetically coded pass, below 19.
    pub label: u8,
    /// Whether the decision is turned over there.
    pub turned: bool,
    /// The weight of a bit of the plane is 2 to this power.
    pub shift: u8,
    /// What it says.
    pub about: About,
}
