//! Why the task failed for a file, and how that is told.
ghost use Rattle.std.specs.Prelude.{◌≡◌, ℕ, All, List, IfOk, string_bytes};
ghost use Rattle.std.specs.List.{FoldsTo};
ghost use Rattle.justfile_files.specs.Failure.{IsMessage, TellFailure, failure_status, message_of};

use crate::folder::ReplaceError;
use crate::formatter::Refusal;
use crate::messages::Messages;
use crate::place::Place;
use crate::visible::{visible_lines, visible_name};
use std::alloc::{AllocError, Global};
use std::io::{self, ErrorKind};

/// Why the task failed for a file.
#[derive(Debug, Drop)]
pub(crate) enum Failure {
    /// The file can't be read.
    Reading(io::Error),
    /// The file isn't UTF-8 from this place on.
    NotUtf8(Place),
    /// The text can't be formatted. The lines tell why, and where in which file.
    Rejected(String),
    /// Something ran out that formatting needs, such as memory.
    Exhausted(&'static str),
    /// The file can't be replaced.
    Replacing(ReplaceError),
    /// The report of the file can't be written.
    Writing(io::Error),
}

impl From<Refusal> for Failure {
    ghost use Rattle.justfile_files.specs.Failure.{failure_of};

    ghost from_gives = { λ fault e. e ≡ failure_of fault };

    fn from(fault: Refusal) -> Self {
        match fault {
            Refusal::Rejected(lines) => Failure::Rejected(lines),
            Refusal::Exhausted(what) => Failure::Exhausted(what),
        }
    }
}

/// Tells why the task failed for the file with this name. Returns the status of the file: 2 if its
/// text can't be formatted, none if its report can't be written, 3 for any other failure.
pub(crate) fn report<E: Messages>(
    alloc: Global,
    name: &str,
    failure: &Failure,
    errors: &mut E,
) -> Option<u8>
    ensures status { result ≡ failure_status failure.now }
    ensures told { (messages : List (List ℕ)) × TellFailure name.now failure.now messages
        × FoldsTo E.tells errors.old messages errors.new }
{
    match failure {
        Failure::Rejected(lines) => {
            errors.tell(lines.as_str());
            Some(2)
        }
        Failure::Writing(error) => {
            tell_unless_gone(alloc, name, error, failure, errors);
            None
        }
        _ => {
            tell_reason(alloc, name, failure, errors);
            Some(3)
        }
    }
}

/// Tells that a report couldn't be written, unless nobody reads the reports any longer.
fn tell_unless_gone<E: Messages>(
    alloc: Global,
    name: &str,
    error: &io::Error,
    failure: &Failure,
    errors: &mut E,
)
    ensures { (messages : List (List ℕ)) × All (IsMessage name.now) messages
        × FoldsTo E.tells errors.old messages errors.new }
{
    if error.kind() == ErrorKind::BrokenPipe {
        return;
    }
    tell_reason(alloc, name, failure, errors);
}

/// Tells the reason of a failure in one message.
fn tell_reason<E: Messages>(alloc: Global, name: &str, failure: &Failure, errors: &mut E)
    ensures { (message : List ℕ) × IsMessage name.now message
        × E.tells errors.old message errors.new }
{
    match message(alloc, name, failure) {
        Ok(message) => errors.tell(message.as_str()),
        Err(_) => errors.tell("error: out of memory\n"),
    }
}

/// Returns the message that tells the reason of a failure.
fn message(alloc: Global, name: &str, failure: &Failure) -> Result<String, AllocError>
    ensures { IfOk result (λ message. IsMessage name.now (string_bytes message)) }
{
    let reason = reason(alloc, name, failure)?;
    with_reason(alloc, name, reason.as_str())
}

/// Returns the message with this reason.
fn with_reason(alloc: Global, name: &str, reason: &str) -> Result<String, AllocError>
    ensures { IfOk result (λ message. string_bytes message ≡ message_of name.now reason.now) }
{
    let name = visible_name(alloc, name)?;
    let reason = visible_lines(alloc, reason)?;
    let mut message = "error: ".to_string(alloc)?;
    message.push_str(name.as_str())?;
    message.push_str(": ")?;
    message.push_str(reason.as_str())?;
    message.push_str("\n")?;
    Ok(message)
}

/// Returns the reason of a failure in words.
fn reason(alloc: Global, name: &str, failure: &Failure) -> Result<String, AllocError> {
    match failure {
        Failure::Reading(error) => format!(in alloc; "can't be read: {error}"),
        Failure::NotUtf8(place) => not_utf8_reason(alloc, name, *place),
        Failure::Rejected(lines) => lines.as_str().to_string(alloc),
        Failure::Exhausted(what) => what.to_string(alloc),
        Failure::Replacing(error) => replace_reason(alloc, error),
        Failure::Writing(error) => format!(in alloc; "can't be reported: {error}"),
    }
}

/// Returns the reason that a file isn't UTF-8, with the place as it stands in other errors.
fn not_utf8_reason(alloc: Global, name: &str, place: Place) -> Result<String, AllocError> {
    let name = visible_name(alloc, name)?;
    format!(in alloc; "not UTF-8\n ——▶ {name}:{}:{}", place.line, place.column)
}

/// Returns the reason why a file wasn't replaced in words.
fn replace_reason(alloc: Global, error: &ReplaceError) -> Result<String, AllocError> {
    match error {
        ReplaceError::System(error) => format!(in alloc; "can't be replaced: {error}"),
        ReplaceError::Changed => "changed meanwhile".to_string(alloc),
        ReplaceError::Other(words) => words.as_str().to_string(alloc),
    }
}
