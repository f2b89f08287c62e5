//! Copies of values.

use crate::answer::Answer;
use std::alloc::AllocError;

/// Writes `uncopied` if the copy of a value isn't equal to the value.
pub fn push_copy<T: PartialEq + Drop>(value: &T, copy: Result<T, AllocError>, answer: &mut Answer) {
    match copy {
        Ok(copy) => answer.push_if("uncopied", copy != *value),
        Err(_) => answer.fail(),
    }
}
