//! Reading messages.
ghost use Rattle.std.specs.Prelude.{◌≡◌, IfOk, codes, option_map};
ghost use Rattle.serde_json.specs.Find.{get};
ghost use Rattle.serde_json.specs.View.{view};
ghost use Rattle.editor_json.specs.Received.{IsParsed, text_in};
ghost use Rattle.editor_json.specs.Requests.{asked_by, name_in, name_of, numbered, said_by, said_in, said_named, told_by, without_method};
ghost use Rattle.editor_messages.specs.Methods.{method_named};

use crate::members::text_in;
use crate::notifications::notification_of;
use crate::parameters::request_of;
use editor_messages::{ErrorCode, Id, Message, Method};
use serde_json::Value;
use std::alloc::{AllocError, Global};

/// Returns the value that bytes write, or none if they write none.
///
/// # Errors
///
/// Memory ran out.
pub fn parsed(alloc: Global, body: &[u8]) -> Result<Option<Value>, AllocError>
    ensures { IfOk result (IsParsed body.now) }
{
    match Value::from_slice(alloc, body) {
        Ok(value) => Ok(Some(value)),
        Err(error) if error.is_memory() => Err(AllocError),
        Err(_) => Ok(None),
    }
}

/// Returns the message that a value is.
///
/// # Errors
///
/// Memory ran out.
pub fn message_of<'a>(alloc: Global, value: &'a Value) -> Result<Message<'a>, AllocError>
    ensures { IfOk result (λ message. said_by message ≡ said_in (view value.now)) }
{
    match value.get("id") {
        None => message_with(alloc, value, None),
        Some(written) => match id_of(written) {
            Some(id) => message_with(alloc, value, Some(id)),
            None => Ok(Message::Wrong(None, ErrorCode::InvalidRequest)),
        },
    }
}

/// Returns the message that a value is, with its id if it has one.
fn message_with<'a>(
    alloc: Global,
    value: &'a Value,
    id: Option<Id<'a>>,
) -> Result<Message<'a>, AllocError>
    ensures { IfOk result (λ message. said_by message
        ≡ said_named (view value.now) (option_map name_of id.entry)
        (text_in (codes "method") (view value.now))) }
{
    let Some(name) = text_in(value, "method") else {
        return Ok(without_method(value, id));
    };
    let parameters = value.get("params");
    match id {
        Some(id) => Ok(request(id, name, parameters)),
        None => told(alloc, name, parameters),
    }
}

/// Returns the id that a value is.
#[tactic(auto, using(crate::proofs::Names::number_name, crate::proofs::Names::text_name))]
fn id_of<'a>(value: &'a Value) -> Option<Id<'a>>
    ensures { option_map name_of result ≡ name_in (view value.now) }
{
    match value.as_str() {
        Some(text) => Some(Id::Text(text)),
        None => number_id(value.as_i64()),
    }
}

/// Returns the id that a number is.
fn number_id<'a>(number: Option<i64>) -> Option<Id<'a>>
    ensures { option_map name_of result ≡ option_map numbered number }
{
    Some(Id::Number(number?))
}

/// Returns what a message without a method is: an answer, which is ignored, or a wrong one.
fn without_method<'a>(value: &'a Value, id: Option<Id<'a>>) -> Message<'a>
    ensures { said_by result ≡ without_method (view value.now) (option_map name_of id.entry) }
{
    if value.get("result").is_some() || value.get("error").is_some() {
        return Message::Ignored;
    }
    Message::Wrong(id, ErrorCode::InvalidRequest)
}

/// Returns the request with a method's name.
fn request<'a>(id: Id<'a>, name: &str, parameters: Option<&'a Value>) -> Message<'a>
    ensures { said_by result ≡ asked_by (name_of id.entry) (method_named name.now)
        (option_map (λ v. view v.now) parameters.entry) }
{
    let Some(method) = Method::from_name(name) else {
        return Message::Wrong(Some(id), ErrorCode::MethodNotFound);
    };
    match request_of(method, parameters) {
        Some(request) => Message::Request(id, request),
        None => Message::Wrong(Some(id), ErrorCode::InvalidParams),
    }
}

/// Returns what a message with a method's name tells.
fn told<'a>(
    alloc: Global,
    name: &str,
    parameters: Option<&'a Value>,
) -> Result<Message<'a>, AllocError>
    ensures { IfOk result (λ message. said_by message ≡ told_by (method_named name.now)
        (option_map (λ v. view v.now) parameters.entry)) }
{
    let Some(method) = Method::from_name(name) else {
        return Ok(Message::Ignored);
    };
    match notification_of(alloc, method, parameters)? {
        Some(notification) => Ok(Message::Notification(notification)),
        None => Ok(Message::Ignored),
    }
}
