//! Comparisons that the tests have in common. Each is proved once, and not in every test.

ghost use Rattle.std.specs.Prelude.{◌≡◌, true};

use std::fmt::Debug;
use std::process::Abort;

/// What was found is what is due.
pub fn same<T: PartialEq + Debug>(rt: &impl Abort, found: &T, due: &T) {
    assert_eq!(rt; found, due);
}

/// Something holds that a call behind it asks for.
pub fn holds(rt: &impl Abort, is_so: bool)
    ensures so { is_so ≡ true }
{
    assert!(rt; is_so);
}
