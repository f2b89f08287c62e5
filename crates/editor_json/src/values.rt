//! Small parts of what is sent, as values of JSON.
ghost use Rattle.std.specs.Prelude.{◌≡◌, IfOk, false, string_bytes};
ghost use Rattle.serde_json.specs.View.{view};
ghost use Rattle.serde_json.specs.Written.{compact_text, has_float};
ghost use Rattle.editor_json.specs.Integers.{HasIntegers};
ghost use Rattle.editor_json.specs.Sent.{error_data, id_data, position_data, range_data, reason_data};

use editor_messages::{ErrorCode, Id};
use justfile_lines::Position;
use serde_json::{Value, json};
use std::alloc::{AllocError, Global};
use text_edits::Range;

/// Returns the text of a value.
pub(crate) fn text_of(alloc: Global, value: &Value) -> Result<String, AllocError>
    requires { has_float (view value.now) ≡ false }
    ensures { IfOk result (λ text. string_bytes text ≡ compact_text (view value.now)) }
{
    value.to_string(alloc)
}

/// Returns an id, or null if there is none.
pub(crate) fn id_value(alloc: Global, id: Option<Id<'_>>) -> Result<Value, AllocError>
    ensures exact { IfOk result (λ v. view v ≡ id_data id.entry) }
    ensures integers { IfOk result (λ _. HasIntegers (id_data id.entry)) }
{
    match id {
        None => Ok(Value::Null),
        Some(Id::Number(number)) => Ok(Value::from(number)),
        Some(Id::Text(text)) => Value::try_from_str(alloc, text),
    }
}

/// Returns a position.
fn position_value(alloc: Global, position: Position) -> Result<Value, AllocError>
    ensures exact { IfOk result (λ v. view v ≡ position_data position) }
    ensures integers { IfOk result (λ _. HasIntegers (position_data position)) }
{
    json!(in alloc; {"line": position.line, "character": position.column})
}

/// Returns a range.
pub(crate) fn range_value(alloc: Global, range: Range) -> Result<Value, AllocError>
    ensures exact { IfOk result (λ v. view v ≡ range_data range) }
    ensures integers { IfOk result (λ _. HasIntegers (range_data range)) }
{
    let start = position_value(alloc, range.start)?;
    let end = position_value(alloc, range.end)?;
    json!(in alloc; {"start": start, "end": end})
}

/// Returns a reason, with words.
fn reason_value(alloc: Global, code: ErrorCode, message: &str) -> Result<Value, AllocError>
    ensures exact { IfOk result (λ v. view v ≡ reason_data code message.now) }
    ensures integers { IfOk result (λ _. HasIntegers (reason_data code message.now)) }
{
    let number = code.number();
    json!(in alloc; {"code": number, "message": message})
}

/// Returns that a request is refused, for a reason.
pub(crate) fn error_value(
    alloc: Global,
    id: Option<Id<'_>>,
    code: ErrorCode,
    message: &str,
) -> Result<Value, AllocError>
    ensures exact { IfOk result (λ v. view v ≡ error_data id.entry code message.now) }
    ensures integers { IfOk result (λ _. HasIntegers (error_data id.entry code message.now)) }
{
    let id = id_value(alloc, id)?;
    let error = reason_value(alloc, code, message)?;
    json!(in alloc; {"jsonrpc": "2.0", "id": id, "error": error})
}
