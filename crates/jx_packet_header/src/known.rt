//! What packet headers have told of a code-block.

/// What headers have told of a block (T.800 B.10).
#[derive(Clone, Copy, Debug, PartialEq, Eq)]
pub struct Known {
    /// Its zero planes, once a packet has included it.
    pub zero: Option<u8>,
    /// Its passes so far.
    pub passes: u16,
    /// The indicator of the lengths' bits, 3 at first.
    pub lblock: u128,
}
