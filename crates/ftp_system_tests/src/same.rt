//! Comparisons that the tests have in common. Each is proved once, and not in every test.

use std::alloc::Global;
use std::fmt::Debug;
use std::process::Abort;

/// What was found is what is due.
pub fn same<T: PartialEq + Debug>(rt: &impl Abort, found: &T, due: &T) {
    assert_eq!(rt; found, due);
}

/// A value as its debug text.
pub fn printed<T: Debug>(rt: &impl Abort, alloc: Global, value: &T) -> String {
    format!(in alloc; "{value:?}").expect(rt, "a text")
}
