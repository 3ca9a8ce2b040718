//! What happens to a store, and what it replies.

/// What a worker does to the store, or what the store does by itself.
#[derive(Drop)]
pub enum Event<V> {
    /// A worker asks for the next number.
    Claim { worker: u32 },
    /// A worker hands in the value of a number.
    Commit { worker: u32, number: u32, value: V },
    /// The next number in sequence goes to the tape.
    Drain,
}

/// What the core replies to an event.
#[derive(Clone, Copy, PartialEq, Eq, Debug)]
pub enum Reply {
    /// To a claim: the number, and the first number that wasn't drained then.
    Claimed { number: u32, seen: u32 },
    /// To a claim: a window is full.
    Full { next: u32, drained: u32 },
    /// To a claim: every number is claimed.
    AllClaimed,
    /// To a commit: the value is parked.
    Committed,
    /// To a commit: the worker doesn't hold the number. Nothing changes.
    Foreign,
    /// To a drain: this number went to the tape.
    Drained { number: u32 },
    /// To a drain: the next number in sequence isn't parked.
    Nothing,
}

/// A number on the tape, the worker that claimed it, the first number that wasn't drained when it
/// was claimed, and what was committed under it.
#[derive(Drop)]
pub struct Taped<V> {
    pub number: u32,
    pub worker: u32,
    pub seen: u32,
    pub named: V,
}
