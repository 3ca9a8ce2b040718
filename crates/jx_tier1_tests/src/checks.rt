//! What a test wants of a value, each as one call: an assertion's macro, written out at each place, costs a test's
//! proof more than twice as much. A library may not end the process, so each crate of tests has its own.
ghost use Rattle.std.specs.Prelude.{◌≡◌, IsTrue, IfOk, IfErr, Ok};
ghost use Rattle.std.specs.Result.{IsErr};

use std::fmt::Debug;
use std::process::Abort;
use std::test::Fail;

/// Ends the process, with both values, where they aren't equal.
pub fn equal<T: PartialEq + Debug + Drop>(rt: &impl Abort, found: T, want: T)
    ensures { IsTrue (⟦<T as PartialEq>⟧.eq found want) }
{
    assert_eq!(rt; found, want);
}

/// Ends the process, with both values and the case, where the values aren't equal.
pub fn equal_at<C: Debug, T: PartialEq + Debug + Drop>(rt: &impl Abort, case: &C, found: T, want: T)
    ensures { IsTrue (⟦<T as PartialEq>⟧.eq found want) }
{
    assert_eq!(rt; found, want, "{case:?}");
}

/// Ends the process where this doesn't hold.
pub fn check(rt: &impl Abort, holds: bool)
    ensures { IsTrue holds }
{
    assert!(rt; holds);
}

/// Ends the process, with the case, where this doesn't hold.
pub fn check_at<C: Debug>(rt: &impl Abort, case: &C, holds: bool)
    ensures { IsTrue holds }
{
    assert!(rt; holds, "{case:?}");
}

/// What was made, or the test's failure where it wasn't.
pub fn given<T, E: Drop>(made: Result<T, E>) -> Result<T, Fail>
    ensures value { IfOk result (λ value. made ≡ Ok value) }
    ensures failure { IfErr result (λ _. IsErr made) }
{
    match made {
        Ok(value) => Ok(value),
        Err(_) => Err("refused")?,
    }
}
