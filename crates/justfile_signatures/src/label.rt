//! What is shown of what is called.
ghost use Rattle.std.specs.Prelude.{◌≡◌, ◌++◌, [], IfOk, OnOk, cond, string_bytes};
ghost use Rattle.justfile_signatures.specs.Known.{shown};
ghost use Rattle.justfile_signatures.specs.Label.{function_label, is_mark, joined, part, parts_from, recipe_label};

use editor_messages::LabelPart;
use std::alloc::{AllocError, Global};

/// Returns texts with another one between each two.
fn joined(alloc: Global, between: &str, texts: &[&str]) -> Result<String, AllocError>
    ensures { IfOk result
        (λ made. string_bytes made ≡ joined between.now (shown texts.now)) }
{
    let made = texts.join(alloc, between)?;
    Ok(made)
}

/// Returns what is shown of a function with parameters.
pub(crate) fn function_label(
    alloc: Global,
    name: &str,
    parameters: &[&str],
) -> Result<String, AllocError>
    ensures { IfOk result
        (λ made. string_bytes made ≡ function_label name.now (shown parameters.now)) }
{
    let list = joined(alloc, ", ", parameters)?;
    let label = format!(in alloc; "{name}({list})")?;
    Ok(label)
}

/// Returns what is shown of a recipe with parameters.
pub(crate) fn recipe_label<'a>(
    alloc: Global,
    name: &'a str,
    parameters: &[&'a str],
) -> Result<String, AllocError>
    ensures { IfOk result
        (λ made. string_bytes made ≡ recipe_label name.now (shown parameters.now)) }
{
    let mut words = Vec::new(alloc);
    words.push(name)?;
    words.extend_from_slice(parameters)?;
    joined(alloc, " ", &words)
}

/// Whether a byte of a label is between names.
fn is_mark(byte: u8) -> bool
    ensures { result ≡ is_mark byte }
{
    matches!(byte, b' ' | b'(' | b')' | b',')
}

/// Appends the part from one offset up to another one, if it isn't empty.
fn push_part(start: usize, end: usize, parts: &mut Vec<LabelPart>) -> Result<(), AllocError>
    ensures { OnOk result (parts.new.items ≡ parts.old.items ++ part start end) }
{
    if start < end {
        parts.push(LabelPart { start, end })?;
    }
    Ok(())
}

/// Appends the part up to an offset if the byte there ends it.
fn push_ended(
    start: usize,
    offset: usize,
    byte: u8,
    parts: &mut Vec<LabelPart>,
) -> Result<(), AllocError>
    ensures { OnOk result
        (parts.new.items ≡ parts.old.items ++ cond (is_mark byte) (part start offset) []) }
{
    if is_mark(byte) {
        push_part(start, offset, parts)?;
    }
    Ok(())
}

/// Returns where the part begins that the byte before an offset belongs to, or the next one.
fn start_after(start: usize, byte: u8, next: usize) -> usize
    ensures { result ≡ cond (is_mark byte) next start }
{
    if is_mark(byte) { next } else { start }
}

/// Returns where the names are in a label.
#[tactic(auto, using(crate::proofs::Parts::parts_step, crate::proofs::Parts::parts_end))]
pub(crate) fn parts_of(alloc: Global, label: &[u8]) -> Result<Vec<LabelPart>, AllocError>
    ensures { IfOk result (λ parts. parts.items ≡ parts_from 0 0 label.now) }
{
    let mut parts = Vec::new(alloc);
    let mut start = 0;
    let mut next = 0;
    for byte in label {
        push_ended(start, next, *byte, &mut parts)?;
        next += 1;
        start = start_after(start, *byte, next);
    }
    push_part(start, next, &mut parts)?;
    Ok(parts)
}
