//! What is told, by the parameters of methods.
ghost use Rattle.std.specs.Prelude.{◌≡◌, IfOk, Some, map, option_and_then, option_copied, option_map};
ghost use Rattle.serde_json.specs.View.{items_view, view};
ghost use Rattle.editor_json.specs.Received.{changed_at, changed_in, closed_at, closed_in, document_in, edit_at, edit_in, edit_of, edits_in, edits_of, listed_in, note_in, note_of, opened_at, opened_in, text_in, uri_of, version_in};

use crate::members::{document_in, range_of, text_in, uri_of, version_in};
use editor_messages::{Change, Method, Notification};
use serde_json::Value;
use std::alloc::{AllocError, Global};

/// Returns what a method tells, if it tells something.
///
/// # Errors
///
/// Memory ran out.
pub(crate) fn notification_of<'a>(
    alloc: Global,
    method: Method,
    parameters: Option<&'a Value>,
) -> Result<Option<Notification<'a>>, AllocError>
    ensures { IfOk result (λ told. option_map note_of told
        ≡ note_in method (option_map (λ v. view v.now) parameters.entry)) }
{
    match method {
        Method::Exit => Ok(Some(Notification::Exit)),
        Method::DidOpen => Ok(Some(opened(document_of(parameters)))),
        Method::DidChange => Ok(Some(changed(alloc, document_of(parameters), parameters)?)),
        Method::DidClose => Ok(Some(closed(document_of(parameters)))),
        _ => Ok(None),
    }
}

/// Returns the document that parameters name, if there are parameters.
fn document_of<'a>(parameters: Option<&'a Value>) -> Option<&'a Value>
    ensures { option_map (λ v. view v.now) result
        ≡ option_and_then document_in (option_map (λ v. view v.now) parameters.entry) }
{
    document_in(parameters?)
}

/// Returns that a document was opened.
fn opened<'a>(document: Option<&'a Value>) -> Notification<'a>
    ensures { note_of result ≡ opened_in (option_map (λ v. view v.now) document.entry) }
{
    match document {
        Some(document) => opened_at(document),
        None => Notification::Unclear(None),
    }
}

/// Returns that this document was opened.
fn opened_at<'a>(document: &'a Value) -> Notification<'a>
    ensures { note_of result ≡ opened_in (Some (view document.now)) }
{
    let Some(uri) = uri_of(document) else {
        return Notification::Unclear(None);
    };
    match text_in(document, "text") {
        Some(text) => Notification::Open(uri, version_in(document), text),
        None => Notification::Unclear(Some(uri)),
    }
}

/// Returns that a document was closed.
fn closed<'a>(document: Option<&'a Value>) -> Notification<'a>
    ensures { note_of result ≡ closed_in (option_map (λ v. view v.now) document.entry) }
{
    match document {
        Some(document) => closed_at(uri_of(document)),
        None => Notification::Unclear(None),
    }
}

/// Returns that the document with an address was closed, or an unknown one.
fn closed_at<'a>(uri: Option<&'a str>) -> Notification<'a>
    ensures { note_of result ≡ closed_at (option_copied uri.entry) }
{
    match uri {
        Some(uri) => Notification::Close(uri),
        None => Notification::Unclear(None),
    }
}

/// Returns how a document was changed.
fn changed<'a>(
    alloc: Global,
    document: Option<&'a Value>,
    parameters: Option<&'a Value>,
) -> Result<Notification<'a>, AllocError>
    ensures { IfOk result (λ told. note_of told
        ≡ changed_in (option_map (λ v. view v.now) document.entry)
        (option_map (λ v. view v.now) parameters.entry)) }
{
    match document {
        Some(document) => changed_at(alloc, document, parameters),
        None => Ok(Notification::Unclear(None)),
    }
}

/// Returns how this document was changed.
fn changed_at<'a>(
    alloc: Global,
    document: &'a Value,
    parameters: Option<&'a Value>,
) -> Result<Notification<'a>, AllocError>
    ensures { IfOk result (λ told. note_of told ≡ changed_in (Some (view document.now))
        (option_map (λ v. view v.now) parameters.entry)) }
{
    let Some(uri) = uri_of(document) else {
        return Ok(Notification::Unclear(None));
    };
    match changes_in(alloc, parameters)? {
        Some(changes) => Ok(Notification::Change(uri, version_in(document), changes)),
        None => Ok(Notification::Unclear(Some(uri))),
    }
}

/// Returns the changes that parameters tell, if each is one.
fn changes_in<'a>(
    alloc: Global,
    parameters: Option<&'a Value>,
) -> Result<Option<Vec<Change<'a>>>, AllocError>
    ensures { IfOk result (λ made. option_map (λ changes. map edit_of changes.items) made
        ≡ edits_of (option_map (λ v. view v.now) parameters.entry)) }
{
    match listed(parameters) {
        Some(values) => changes_of(alloc, values),
        None => Ok(None),
    }
}

/// Returns the list of changes that parameters have.
fn listed<'a>(parameters: Option<&'a Value>) -> Option<&'a Vec<Value>>
    ensures { option_map (λ v. items_view v.now.items) result
        ≡ option_and_then listed_in (option_map (λ v. view v.now) parameters.entry) }
{
    parameters?.get("contentChanges")?.as_array()
}

/// Returns the changes that values are, if each is one.
fn changes_of<'a>(alloc: Global, values: &'a [Value]) -> Result<Option<Vec<Change<'a>>>, AllocError>
    ensures { IfOk result (λ made. option_map (λ changes. map edit_of changes.items) made
        ≡ edits_in (items_view values.now)) }
{
    let mut changes = Vec::new(alloc);
    for value in values {
        let Some(change) = change_of(value) else {
            return Ok(None);
        };
        changes.push(change)?;
    }
    Ok(Some(changes))
}

/// Returns the change that a value is.
fn change_of<'a>(value: &'a Value) -> Option<Change<'a>>
    ensures { option_map edit_of result ≡ edit_in (view value.now) }
{
    let text = text_in(value, "text")?;
    change_at(text, value.get("range"))
}

/// Returns the change to a text, of a range if there is one. A range that is null is none.
fn change_at<'a>(text: &'a str, range: Option<&Value>) -> Option<Change<'a>>
    ensures { option_map edit_of result
        ≡ edit_at text.now (option_map (λ v. view v.now) range.entry) }
{
    match range {
        None | Some(Value::Null) => Some(Change::Whole(text)),
        Some(range) => Some(Change::Part(range_of(range)?, text)),
    }
}
