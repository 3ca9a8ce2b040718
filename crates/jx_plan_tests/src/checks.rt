//! What a test wants of a value, each as one call: an assertion's macro, written out at each place, costs a test's proof more
//! than twice as much. A library may not end the process, so each crate of tests has its own.
ghost use Rattle.std.specs.Prelude.{IsTrue};

use std::fmt::Debug;
use std::process::Abort;

/// Ends the process, with both values, where they aren't equal.
pub fn equal<T: PartialEq + Debug + Drop>(rt: &impl Abort, found: T, want: T)
    ensures { IsTrue (⟦<T as PartialEq>⟧.eq found want) }
{
    assert_eq!(rt; found, want);
}

/// Ends the process, with both values and the case, where the values aren't equal.
pub fn equal_at<C: Debug, T: PartialEq + Debug + Drop>(rt: &impl Abort, case: &C, found: T, want: T)
    ensures { IsTrue (⟦<T as PartialEq>⟧.eq found want) }
{
    assert_eq!(rt; found, want, "{case:?}");
}

/// Ends the process where this doesn't hold.
pub fn check(rt: &impl Abort, holds: bool)
    ensures { IsTrue holds }
{
    assert!(rt; holds);
}
