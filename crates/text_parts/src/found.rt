//! Finding the next part of a text.
ghost use Rattle.std.specs.Prelude.{IfOk};
ghost use Rattle.text_parts.specs.Found.{IsFound};
ghost use Rattle.text_parts.specs.Places.{IsPartStart};

use crate::cut::Cut;
use crate::part::Part;
use std::alloc::{AllocError, Global};

/// Finds the part of a text that begins at an offset, appends it to those before it, and returns the
/// offset at which it ends.
///
/// # Errors
///
/// Memory ran out.
pub(crate) fn find_part<C: Cut>(
    cut: &C,
    alloc: Global,
    text: &str,
    at: usize,
    done: &mut Vec<Part<C::Known>>,
) -> Result<usize, AllocError>
    requires { IsPartStart text.now at }
    ensures { IfOk result (IsFound C.is_part text.now at done.old.items done.new.items) }
{
    let part = cut.part(alloc, text, at)?;
    let end = at + part.size;
    done.push(part)?;
    Ok(end)
}
