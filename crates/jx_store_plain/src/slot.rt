//! A place of the window.

/// A place of the window.
#[derive(Drop)]
pub enum Slot<V> {
    Empty,
    Held { worker: u32, seen: u32 },
    Parked { worker: u32, seen: u32, value: V },
}
