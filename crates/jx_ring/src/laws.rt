//! Laws of the rule.
ghost use Rattle.jx_store.specs.Valid.{IsOf};
ghost use Rattle.jx_ring.specs.Laws.{ClaimsStandOnce, StepsAreEvents};

use jx_store::{Bounds, Work};

/// In every state that meets the rule each number from the first to the next stands once in the lists
/// of claims of all views, and no other does. So claims of different passes differ.
pub fn claims_stand_once<V: Work, N: Bounds<V::Job>>()
    ensures { ClaimsStandOnce N.setup N.workers (IsOf V.number V.job V.bad N.setup.first N.jobs) }
{}

/// Every state that meets the rule shows a state of the store machine, but for `seen`. A claim that is
/// won, a commit and the end of a drain are its events; the tape after a drain is the machine's but for
/// the values, which are those of the tape that came home.
pub fn steps_are_events<V: Work, N: Bounds<V::Job>>()
    ensures { StepsAreEvents N.setup N.workers (IsOf V.number V.job V.bad N.setup.first N.jobs) }
{}
