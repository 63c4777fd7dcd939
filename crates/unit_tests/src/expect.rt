//! Assertions about answers.

use std::fmt::Debug;
use std::process::Abort;

/// Asserts that an answer is the one that is due.
pub fn expect<T: Copy + Debug + PartialEq>(rt: &impl Abort, found: T, due: T) {
    assert_eq!(rt; found, due);
}

/// Asserts that all of these hold.
pub fn expect_all(rt: &impl Abort, seen: &[bool]) {
    assert!(rt; !seen.contains(&false), "{seen:?}");
}
