//! What cuts a text into parts.
ghost use Rattle.std.specs.Prelude.{ℕ, ◌-◌, List, Bool, IfOk, drop, nat_eq};
ghost use Rattle.text_parts.specs.Parts.{IsNext};
ghost use Rattle.text_parts.specs.Places.{IsPartEnd, IsPartStart};
ghost use Rattle.text_parts.specs.declared.part.Part.{Part};

use crate::part::Part;
use std::alloc::{AllocError, Global};

/// What cuts a text into parts.
pub trait Cut {
    /// What is known of a part.
    type Known: Drop;

    /// Whether it is the first part of a text, what was read to find it, and whether the end of the
    /// text was noticed: for these the part is right. A later part is read with the line feed before
    /// it.
    ghost is_part: { Bool → List ℕ → Bool → Part Self.Known → Type 0 };

    /// Finds the part of a text that begins at an offset, where a line begins or the text.
    ///
    /// # Errors
    ///
    /// Memory ran out.
    fn part(&self, alloc: Global, text: &str, start: usize) -> Result<Part<Self::Known>, AllocError>
        requires { IsPartStart text.now start }
        ensures part { IfOk result (IsNext is_part (nat_eq start 0) (drop (start - 1) text.now)) }
        ensures ends { IfOk result (λ part. IsPartEnd text.now start part.size) };
}
