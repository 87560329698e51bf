//! Comparisons of what a test finds with what it wants. Each is proved here once, so that a test is a list of plain calls. They
//! end the test if they fail, as no function of a library may, so each crate of tests has its own.
use std::fmt::Debug;
use std::process::Abort;

/// Checks that the value found is the wanted one.
pub fn sees<R: Abort, T: PartialEq + Debug>(rt: &R, what: &str, found: &T, wanted: &T) {
    assert_eq!(rt; *found, *wanted, "{what}");
}

/// Checks that this holds.
pub fn holds<R: Abort>(rt: &R, what: &str, condition: bool) {
    assert!(rt; condition, "{what}");
}
