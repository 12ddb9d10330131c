//! Assertions of tests, as functions. A macro's text is proved anew at each use, and a call is not.

use std::fmt::Debug;
use std::process::Abort;

/// Ends the test where the values differ, and says what both are.
pub fn assert_equal<R: Abort, T: PartialEq + Debug>(rt: &R, found: &T, wanted: &T) {
    assert_eq!(rt; found, wanted);
}

/// Ends the test where the values differ in this case, and says the case and what both are.
pub fn assert_equal_in<R: Abort, C: Debug, T: PartialEq + Debug>(
    rt: &R,
    case: &C,
    found: &T,
    wanted: &T,
) {
    assert_eq!(rt; found, wanted, "{case:?}");
}
