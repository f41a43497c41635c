//! Rows that hold.

use std::alloc::AllocError;
use std::process::Abort;

/// Ends the test where there is a first row that doesn't hold, or no memory.
pub(crate) fn expect(rt: &impl Abort, wrong: Result<Option<usize>, AllocError>) {
    assert_eq!(rt; wrong, Ok(None));
}

/// Ends the test where this doesn't hold, or there is no memory.
pub(crate) fn expect_true(rt: &impl Abort, holds: Result<bool, AllocError>) {
    assert_eq!(rt; holds, Ok(true));
}
