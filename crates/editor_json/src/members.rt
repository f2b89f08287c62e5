//! The members of objects.
ghost use Rattle.std.specs.Prelude.{◌≡◌, option_copied, option_map};
ghost use Rattle.serde_json.specs.View.{view};
ghost use Rattle.editor_json.specs.Received.{document_in, number_in, position_of, range_of, text_in, uri_of, version_in};
ghost use Rattle.editor_json.specs.Requests.{position_in};

use justfile_lines::Position;
use serde_json::Value;
use text_edits::Range;

/// Returns the text that an object has under a key.
pub(crate) fn text_in<'a>(object: &'a Value, key: &str) -> Option<&'a str>
    ensures { option_copied result ≡ text_in key.now (view object.now) }
{
    object.get(key)?.as_str()
}

/// Returns the number that an object has under a key.
fn number_in(object: &Value, key: &str) -> Option<usize>
    ensures { result ≡ number_in key.now (view object.now) }
{
    let number = object.get(key)?.as_u64()?;
    Some(number as usize)
}

/// Returns the position that a value is.
fn position_of(value: &Value) -> Option<Position>
    ensures { result ≡ position_of (view value.now) }
{
    let line = number_in(value, "line")?;
    let column = number_in(value, "character")?;
    Some(Position { line, column })
}

/// Returns the position that an object has under its key.
pub(crate) fn position_in(object: &Value) -> Option<Position>
    ensures { result ≡ position_in (view object.now) }
{
    position_of(object.get("position")?)
}

/// Returns the range that a value is.
pub(crate) fn range_of(value: &Value) -> Option<Range>
    ensures { result ≡ range_of (view value.now) }
{
    let start = position_of(value.get("start")?)?;
    let end = position_of(value.get("end")?)?;
    Some(Range { start, end })
}

/// Returns the document that parameters name.
pub(crate) fn document_in(parameters: &Value) -> Option<&Value>
    ensures { option_map (λ v. view v.now) result ≡ document_in (view parameters.now) }
{
    parameters.get("textDocument")
}

/// Returns the address of a document.
pub(crate) fn uri_of(document: &Value) -> Option<&str>
    ensures { option_copied result ≡ uri_of (view document.now) }
{
    text_in(document, "uri")
}

/// Returns the version of a document.
pub(crate) fn version_in(document: &Value) -> Option<i64>
    ensures { result ≡ version_in (view document.now) }
{
    document.get("version")?.as_i64()
}
