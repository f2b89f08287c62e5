//! What is called where an argument is written.
ghost use Rattle.std.specs.Prelude.{◌≡◌, IfOk, drop, option_and_then, option_map, string_bytes};
ghost use Rattle.justfile_completion.specs.Calls.{call_told};
ghost use Rattle.justfile_signatures.specs.Label.{parts_from};
ghost use Rattle.justfile_signatures.specs.Signatures.{IsSignature, built_in_label, label_of, signature_of, signed, told};

use crate::known::parameters_of;
use crate::label::{function_label, parts_of, recipe_label};
use editor_language::Mention;
use editor_messages::{LabelPart, Signature};
use justfile_completion::{Call, completions_at, parameters_shown};
use std::alloc::{AllocError, Global};

/// Returns what is called with an argument at an offset of a text with these mentions, if its parameters
/// are known: what the text defines, and built-in functions.
///
/// # Errors
///
/// Memory ran out.
#[tactic(auto, using(crate::proofs::Signed::is_signature))]
pub fn signature_at(
    alloc: Global,
    text: &str,
    mentions: &[Mention],
    offset: usize,
) -> Result<Option<Signature>, AllocError>
    ensures { IfOk result (IsSignature text.now mentions.now offset) }
{
    let made = completions_at(alloc, &[], text, offset)?;
    signature_if(alloc, mentions, &made.call)
}

/// Returns what is shown of a call, if there is one and its parameters are known.
fn signature_if(
    alloc: Global,
    mentions: &[Mention],
    call: &Option<Call>,
) -> Result<Option<Signature>, AllocError>
    ensures { IfOk result (λ made. option_map told made
        ≡ option_and_then (λ c. signature_of mentions.now (call_told c)) call.now) }
{
    match call {
        Some(call) => signature_of(alloc, mentions, call),
        None => Ok(None),
    }
}

/// Returns what is shown of a call, if its parameters are known.
fn signature_of(
    alloc: Global,
    mentions: &[Mention],
    call: &Call,
) -> Result<Option<Signature>, AllocError>
    ensures { IfOk result
        (λ made. option_map told made ≡ signature_of mentions.now (call_told call.now)) }
{
    match label_of(alloc, mentions, call)? {
        Some(label) => Ok(Some(signed(alloc, label, call.index)?)),
        None => Ok(None),
    }
}

/// Returns what is shown of what is called, with its parameters, if they are known.
fn label_of(alloc: Global, mentions: &[Mention], call: &Call) -> Result<Option<String>, AllocError>
    ensures { IfOk result (λ made. option_map string_bytes made
        ≡ label_of mentions.now (call_told call.now)) }
{
    let name = call.name.as_str();
    match parameters_of(alloc, mentions, name, call.is_recipe)? {
        Some(parameters) => {
            if call.is_recipe {
                Ok(Some(recipe_label(alloc, name, &parameters)?))
            } else {
                Ok(Some(function_label(alloc, name, &parameters)?))
            }
        }
        None => built_in_label(alloc, name, call.is_recipe),
    }
}

/// Returns what is shown of a built-in function, if it is one.
fn built_in_label(alloc: Global, name: &str, is_recipe: bool) -> Result<Option<String>, AllocError>
    ensures { IfOk result
        (λ made. option_map string_bytes made ≡ built_in_label name.now is_recipe) }
{
    if is_recipe {
        return Ok(None);
    }
    match parameters_shown(name) {
        Some(shown) => Ok(Some(format!(in alloc; "{name}{shown}")?)),
        None => Ok(None),
    }
}

/// Returns what is shown, with the parameter for which the argument is that so many others are before.
fn signed(alloc: Global, label: String, index: usize) -> Result<Signature, AllocError>
    ensures { IfOk result (λ made. told made ≡ signed (string_bytes label) index) }
{
    let parameters = parameters_in(alloc, label.as_str())?;
    let active = index.min(parameters.len().saturating_sub(1));
    Ok(Signature {
        label,
        parameters,
        active,
    })
}

/// Returns where the parameters are in a label, which has a name before them.
fn parameters_in(alloc: Global, label: &str) -> Result<Vec<LabelPart>, AllocError>
    ensures { IfOk result (λ parts. parts.items ≡ drop 1 (parts_from 0 0 label.now)) }
{
    let parts = parts_of(alloc, label.as_bytes())?;
    match parts.as_slice() {
        [] => Ok(Vec::new(alloc)),
        [_, parameters @ ..] => Vec::from_slice(alloc, parameters),
    }
}
