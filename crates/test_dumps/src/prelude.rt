//! What most tests use: assertions as functions, so that the messages of failed ones are here once, for the values of all
//! tests.
pub use std::alloc::Global;
pub use std::fmt::Debug;
pub use std::process::Abort;

/// Aborts unless two values are equal.
pub fn assert_equal<T: PartialEq + Debug + Drop>(rt: impl Abort + Copy, found: T, wanted: T) {
    assert_eq!(rt; found, wanted);
}

/// Aborts unless two values are equal, and prints the case that they belong to.
pub fn assert_equal_in<C: Debug + Drop, T: PartialEq + Debug + Drop>(
    rt: impl Abort + Copy,
    case: C,
    found: T,
    wanted: T,
) {
    assert_eq!(rt; found, wanted, "in {case:?}");
}

/// Returns the value of a result, or aborts if it is an error.
pub fn unwrap<T, E: Drop>(rt: impl Abort + Copy, answer: Result<T, E>) -> T {
    match answer {
        Ok(value) => value,
        Err(_) => panic!(rt; "an error where there must be a value"),
    }
}
