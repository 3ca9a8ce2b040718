//! The new segments of a block.

/// The segments of a block that is coded anew, and for each pass how many bytes of its segment a decoder
/// has looked at by its end, where that was learnt while they were written.
#[derive(Drop)]
pub(crate) struct NewLists {
    pub(crate) lists: Vec<Vec<u8>>,
    pub(crate) looked: Option<Vec<usize>>,
}
