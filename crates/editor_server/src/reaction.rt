//! Where in its life the server is, and what it does at a message.
use editor_messages::{Answer, Diagnostic, ErrorCode, Id};

/// Where in its life the server is.
#[derive(Clone, Copy, Debug, PartialEq, Eq)]
pub(crate) enum Stage {
    /// It isn't initialized.
    New,
    /// It works.
    Working,
    /// It was asked to end its work.
    ShutDown,
}

/// What is to be done after a message.
#[derive(Drop)]
pub(crate) enum Reaction<'a> {
    /// Nothing.
    Silent,
    /// The request with an id is answered.
    Reply(Id<'a>, Answer),
    /// The request with an id, if it has one, is refused, for a reason, in these words.
    Refuse(Option<Id<'a>>, ErrorCode, &'a str),
    /// What is wrong in the document with an address is told, with the version of its text.
    Publish(&'a str, Option<i64>, Vec<Diagnostic>),
    /// The server is to exit, with this status.
    Exit(u8),
}
