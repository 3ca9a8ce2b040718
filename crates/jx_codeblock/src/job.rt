//! What is asked of a block.

use crate::Ends;
use jx_base::{Block, Style};

/// A block, the style in which it is to be coded anew, and the layers in which it is sent.
#[derive(Drop)]
pub struct Job<'a> {
    /// The number of the job.
    pub number: u32,
    /// The block as it was read.
    pub block: &'a Block<'a>,
    /// The style in which it is coded anew; with none the block keeps its segments.
    pub style: Option<Style>,
    /// The layers that have passes of it.
    pub ends: Ends,
}
