//! One comparison for all tests, since each that is written out takes seconds of proof.

use std::fmt::Debug;
use std::process::Abort;

/// Asserts that an answer is what was wanted.
pub fn same<T: PartialEq + Debug + Drop>(rt: &impl Abort, answer: T, want: T) {
    assert_eq!(rt; answer, want);
}
