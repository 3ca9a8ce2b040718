//! The trait of a gate, which is told of the code-blocks that a run codes anew.

/// What is told of the code-blocks that a run codes anew: how many there are, then each that a worker has in
/// hand, then that all is over. Blocks that are kept are told to nobody. It is called by several threads at
/// once, has no faults, and no contract speaks of what it does.
pub trait Gate {
    /// So many code-blocks are to be coded anew. Told once, before any of them is in hand, also of none.
    fn begin(&self, blocks: u32);

    /// A worker is about to code the block of this number anew. Told once of each block, but of those that
    /// a run doesn't come to which ends before.
    fn enter(&self, block: u32);

    /// The worker is done with the block of this number, which it entered, and hasn't committed what it
    /// made yet.
    fn leave(&self, block: u32);

    /// No block is in hand any more, and how the run went isn't said yet. Told once after `begin`.
    fn end(&self) {}
}
