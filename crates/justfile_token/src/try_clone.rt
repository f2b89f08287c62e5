//! Copies of optional values and of lists.
ghost use Rattle.std.specs.Prelude.{IfOk};
ghost use Rattle.std.specs.List.{AllZip};
ghost use Rattle.justfile_token.specs.Copies.{IsSameIfPresent, IsSameText};

use std::alloc::{AllocError, Global};

/// Values that can be copied, if memory suffices.
pub trait TryClone: Drop {
    /// The first value is a copy of the second.
    ghost is_copy: { Self → Self → Type 0 };

    /// Returns a copy of the value, or an error if out of memory.
    fn try_clone(&self, alloc: Global) -> Result<Self, AllocError>
        ensures { IfOk result (λ copy. is_copy copy self.now) };
}

/// Returns copies of the values, or an error if out of memory.
pub fn clone_all<T: TryClone>(alloc: Global, originals: &[T]) -> Result<Vec<T>, AllocError>
    ensures { IfOk result (λ copies. AllZip T.is_copy copies.items originals.now) }
{
    let mut copies = Vec::new(alloc);
    for original in originals {
        copies.push(original.try_clone(alloc)?)?;
    }
    Ok(copies)
}

/// Returns a copy of an optional text.
pub fn copy_optional_text(
    alloc: Global,
    text: &Option<String>,
) -> Result<Option<String>, AllocError>
    ensures { IfOk result (λ copy. IsSameIfPresent IsSameText copy text.now) }
{
    match text {
        None => Ok(None),
        Some(text) => Ok(Some(text.as_str().to_string(alloc)?)),
    }
}
