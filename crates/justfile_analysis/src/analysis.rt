//! What is known of a justfile.
ghost use Rattle.std.specs.Prelude.{IfOk, List, true};
ghost use Rattle.text_parts.specs.Parts.{AreParts};
ghost use Rattle.justfile_analysis.specs.Knowledge.{Knows, RightLaw};
ghost use Rattle.justfile_analysis.specs.Parts.{IsPartOf};

use crate::cut::JustfileCut;
use crate::in_text::problems_in_text;
use editor_language::{Analysis, Known};
use std::alloc::{AllocError, Global};
use text_parts::{Part, parts_after, parts_of};

/// Returns what is known of a text.
///
/// # Errors
///
/// Memory ran out.
pub fn analysis_of(alloc: Global, text: &str) -> Result<Analysis, AllocError>
    ensures { IfOk result (Knows text.now) }
{
    let parts = parts_of(&JustfileCut, alloc, text)?;
    analysis_with(alloc, text, parts)
}

/// Returns what is known of a text, by what was known of an old text, which it was before a change:
/// only the parts around the change are parsed.
///
/// # Errors
///
/// Memory ran out.
pub fn analysis_after(
    alloc: Global,
    old_text: &str,
    old: Analysis,
    text: &str,
) -> Result<Analysis, AllocError>
    ensures { Knows old_text.now old → IfOk result (Knows text.now) }
{
    let parts = parts_after(&JustfileCut, alloc, old_text, old.parts, text)?;
    analysis_with(alloc, text, parts)
}

/// Returns what is known of a text that is cut into parts.
fn analysis_with(alloc: Global, text: &str, parts: Vec<Part<Known>>) -> Result<Analysis, AllocError>
    ensures { AreParts IsPartOf true text.now parts.items → IfOk result (Knows text.now) }
{
    let problems = problems_in_text(alloc, text, &parts)?;
    Ok(Analysis { problems, parts })
}

/// Without problems the text is a justfile, and the items are those of its tree.
pub fn right_texts()
    ensures { RightLaw }
{}
