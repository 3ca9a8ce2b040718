//! What a test wants of a value, as one call: an assertion's macro, written out at each place, costs a test's proof
//! more than twice as much. A library may not end the process, so each crate of tests has its own.
ghost use Rattle.std.specs.Prelude.{IsTrue};

use std::process::Abort;

/// Ends the process where this doesn't hold.
pub fn check(rt: &impl Abort, holds: bool)
    ensures { IsTrue holds }
{
    assert!(rt; holds);
}
