use std::fmt::Debug;
use std::process::Abort;

/// Asserts that what a case gave is what is wanted.
pub fn same<T: PartialEq + Debug + Drop>(rt: &impl Abort, case: &str, given: T, wanted: T) {
    assert_eq!(rt; given, wanted, "{case}");
}
