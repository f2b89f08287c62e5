//! The texts of what is sent.
ghost use Rattle.std.specs.Prelude.{◌≡◌, IfOk, Some, string_bytes};
ghost use Rattle.serde_json.specs.Read.{read};
ghost use Rattle.serde_json.specs.Written.{compact_text};
ghost use Rattle.editor_json.specs.Integers.{HasIntegers};
ghost use Rattle.editor_json.specs.Sent.{error_data, id_data, parameters_data, published_data, reply_data};

use crate::lists::list_text;
use crate::results::{quoted, result_text};
use crate::values::{error_value, id_value, text_of};
use editor_messages::{Answer, Diagnostic, ErrorCode, Id};
use std::alloc::{AllocError, Global};

/// Returns the text of the answer to a request.
///
/// # Errors
///
/// Memory ran out.
pub fn reply_text(alloc: Global, id: Id<'_>, answer: &Answer) -> Result<String, AllocError>
    ensures exact { IfOk result
        (λ text. string_bytes text ≡ compact_text (reply_data id.entry answer.now)) }
    ensures reads_back { IfOk result
        (λ text. read (string_bytes text) ≡ Some (reply_data id.entry answer.now)) }
{
    let id = id_text(alloc, Some(id))?;
    let result = result_text(alloc, answer)?;
    let text = format!(in alloc; "{{\"id\":{id},\"jsonrpc\":\"2.0\",\"result\":{result}}}")?;
    Ok(text)
}

/// Returns the text of an id.
fn id_text(alloc: Global, id: Option<Id<'_>>) -> Result<String, AllocError>
    ensures exact { IfOk result (λ text. string_bytes text ≡ compact_text (id_data id.entry)) }
    ensures integers { IfOk result (λ _. HasIntegers (id_data id.entry)) }
{
    let value = id_value(alloc, id)?;
    text_of(alloc, &value)
}

/// Returns the text that refuses a request.
///
/// # Errors
///
/// Memory ran out.
pub fn error_text(
    alloc: Global,
    id: Option<Id<'_>>,
    code: ErrorCode,
    message: &str,
) -> Result<String, AllocError>
    ensures exact { IfOk result
        (λ text. string_bytes text ≡ compact_text (error_data id.entry code message.now)) }
    ensures reads_back { IfOk result
        (λ text. read (string_bytes text) ≡ Some (error_data id.entry code message.now)) }
{
    let value = error_value(alloc, id, code, message)?;
    text_of(alloc, &value)
}

/// Returns the text that publishes the diagnostics of a document, with the version of its text.
///
/// # Errors
///
/// Memory ran out.
#[tactic(auto, unfolding(serde_json::proofs::OnLiterals::serde_json_on_literals))]
pub fn diagnostics_text(
    alloc: Global,
    uri: &str,
    version: Option<i64>,
    diagnostics: &[Diagnostic],
) -> Result<String, AllocError>
    ensures exact { IfOk result (λ text.
        string_bytes text ≡ compact_text (published_data uri.now version diagnostics.now)) }
    ensures reads_back { IfOk result
        (λ text. read (string_bytes text) ≡ Some (published_data uri.now version diagnostics.now)) }
{
    let params = parameters_text(alloc, uri, version, diagnostics)?;
    let method = "textDocument/publishDiagnostics";
    format!(in alloc; "{{\"jsonrpc\":\"2.0\",\"method\":\"{method}\",\"params\":{params}}}")
}

/// Returns the text of the parameters that tell the diagnostics of a document.
#[tactic(auto, unfolding(serde_json::proofs::OnLiterals::serde_json_on_literals))]
fn parameters_text(
    alloc: Global,
    uri: &str,
    version: Option<i64>,
    diagnostics: &[Diagnostic],
) -> Result<String, AllocError>
    ensures exact { IfOk result (λ text.
        string_bytes text ≡ compact_text (parameters_data uri.now version diagnostics.now)) }
    ensures integers { IfOk result (λ _. HasIntegers (parameters_data uri.now version diagnostics.now)) }
{
    let shared = uri.to_string(alloc)?;
    let found = list_text(alloc, &shared, diagnostics)?;
    let uri = quoted(alloc, uri)?;
    match version {
        Some(number) => {
            format!(in alloc; "{{\"diagnostics\":{found},\"uri\":{uri},\"version\":{number}}}")
        }
        None => format!(in alloc; "{{\"diagnostics\":{found},\"uri\":{uri}}}"),
    }
}
