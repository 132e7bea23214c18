//! What ends a test. An assertion costs the prover more than a call of a function that has one.

use std::process::Abort;

/// Ends the test unless this holds.
pub(crate) fn expect(rt: &impl Abort, holds: bool) {
    assert!(rt; holds);
}

/// Ends the test if a case is wrong, and says which.
pub(crate) fn expect_none(rt: &impl Abort, wrong: Option<usize>) {
    if let Some(number) = wrong {
        panic!(rt; "case {number}")
    }
}
