//! What is sent.
ghost use Rattle.std.specs.Prelude.{IfOk};
ghost use Rattle.editor_server.specs.Answering.{IsSent};

use crate::reaction::Reaction;
use editor_json::{diagnostics_text, error_text, reply_text};
use std::alloc::{AllocError, Global};

/// What is to be done after a message.
#[derive(Drop)]
pub enum Sent {
    /// Nothing.
    Nothing,
    /// A message is to be sent, whose body is this text.
    Text(String),
    /// The server is to exit, with this status.
    Exit(u8),
}

/// Returns what is sent.
///
/// # Errors
///
/// Memory ran out.
pub(crate) fn make_sent(alloc: Global, reaction: &Reaction<'_>) -> Result<Sent, AllocError>
    ensures { IfOk result (IsSent reaction.now) }
{
    match reaction {
        Reaction::Silent => Ok(Sent::Nothing),
        Reaction::Reply(id, answer) => Ok(Sent::Text(reply_text(alloc, *id, answer)?)),
        Reaction::Refuse(id, code, message) => {
            Ok(Sent::Text(error_text(alloc, *id, *code, message)?))
        }
        Reaction::Publish(uri, version, found) => {
            Ok(Sent::Text(diagnostics_text(alloc, uri, *version, found)?))
        }
        Reaction::Exit(status) => Ok(Sent::Exit(*status)),
    }
}
