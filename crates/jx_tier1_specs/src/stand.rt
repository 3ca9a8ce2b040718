//! Where an encoder stands within a segment.

/// How many bytes an encoder gave out, and how many places wait behind them of what it has coded: a
/// decoder of the finished segment has looked at the bytes that have one of these.
#[derive(Clone, Copy, Debug)]
pub struct Stand {
    pub given: usize,
    pub places: u8,
}
