//! The parts of a text.
ghost use Rattle.std.specs.Prelude.{IfOk, true};
ghost use Rattle.text_parts.specs.Parts.{AreParts};

use crate::cut::Cut;
use crate::found::find_part;
use crate::part::Part;
use std::alloc::{AllocError, Global};

/// Returns the parts of a text.
///
/// # Errors
///
/// Memory ran out.
pub fn parts_of<C: Cut>(
    cut: &C,
    alloc: Global,
    text: &str,
) -> Result<Vec<Part<C::Known>>, AllocError>
    ensures { IfOk result (λ parts. AreParts C.is_part true text.now parts.items) }
{
    let mut parts = Vec::new(alloc);
    let mut at = 0;
    'parts: loop {
        at = find_part(cut, alloc, text, at, &mut parts)?;
        if at == text.len() {
            return Ok(parts);
        }
    }
}
