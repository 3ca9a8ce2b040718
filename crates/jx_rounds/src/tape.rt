//! What a run tells of its code-blocks.

/// Which worker had a block, and the first block that wasn't in sequence when it was claimed. A block of a round in which none is coded
/// anew was had by worker 0, alone.
#[derive(Clone, Copy, Debug, PartialEq, Eq)]
pub struct TapeEntry {
    pub number: u32,
    pub worker: u32,
    pub seen: u32,
}
