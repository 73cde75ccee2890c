//! The one assertion of these tests. It is proved wherever it stands, with all that it prints.

use std::fmt::Debug;
use std::process::Abort;

/// What is seen at this line of a table is what is wanted there.
pub fn same<T: Debug + PartialEq>(rt: &impl Abort, line: usize, seen: &T, wanted: &T) {
    assert_eq!(rt; seen, wanted, "line {line}");
}
