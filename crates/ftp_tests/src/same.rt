//! Comparisons that the tests have in common. Each is proved once, and not in every test.

use std::alloc::Global;
use std::fmt::{Debug, Display};
use std::process::Abort;

/// What was found is what is due.
pub fn same<T: PartialEq + Debug>(rt: &impl Abort, found: &T, due: &T) {
    assert_eq!(rt; found, due);
}

/// A value is printed as this text.
pub fn shows<T: Display>(rt: &impl Abort, alloc: Global, value: &T, text: &str) {
    let printed = format!(in alloc; "{value}").expect(rt, "a text");
    assert_eq!(rt; printed.as_str(), text);
}
