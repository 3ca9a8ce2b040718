//! Laws over the definitions, each carried by a function that does nothing.
ghost use Rattle.std.specs.Prelude.{◌≡◌, ◌<◌, ◌+◌, ◌++◌, ℕ, Some, length, slice_get};
ghost use Rattle.jx_store.specs.Order.{AlwaysInOrder, numbers};

/// After every list of events, the tape has the first numbers in order, each once, with the worker
/// that claimed it and the value that this worker committed under it. Each number after them up to
/// the next to claim is held or parked, never both, and no other is. All numbers were given inside
/// both windows, and those that are claimed and not drained fill no more than these.
pub fn events_keep_order<V>()
    ensures { AlwaysInOrder V }
{}

/// The numbers from one on, in which a tape stands, count up: n of them are n (`count`), the one at place i is i more than the first
/// (`at`), and behind n of them follow those from n more on (`more`).
pub fn numbers_count_up()
    ensures count { (a n : ℕ) → length (numbers a n) ≡ n }
    ensures at { (a n i : ℕ) → i < n → slice_get (numbers a n) i ≡ Some (a + i) }
    ensures more { (a n m : ℕ) → numbers a n ++ numbers (a + n) m ≡ numbers a (n + m) }
{}
