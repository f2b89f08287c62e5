//! What an editor sends.
use crate::change::Change;
use crate::error_code::ErrorCode;
use justfile_lines::{Encoding, Position};
use text_edits::Range;

/// By which a request is answered.
#[derive(Clone, Copy)]
pub enum Id<'a> {
    /// A number.
    Number(i64),
    /// A text.
    Text(&'a str),
}

/// What is asked for about a document.
#[derive(Clone, Copy)]
pub enum Query<'a> {
    /// Its symbols.
    Symbols,
    /// What can be folded.
    Folds,
    /// Edits that format it.
    Format,
    /// Edits that format what is in a range.
    FormatRange(Range),
    /// Where the name at a position is defined.
    Definition(Position),
    /// Where the name at a position is used, and where it is defined too if that is asked.
    References(Position, bool),
    /// Where the name at a position is, to highlight it.
    Highlights(Position),
    /// Whether there is a name at a position that can be replaced.
    PrepareRename(Position),
    /// Edits that replace the name at a position by another one.
    Rename(Position, &'a str),
    /// What is known of the name at a position.
    Hover(Position),
    /// What can be written at a position.
    Complete(Position),
    /// Ways to set right what is wrong in a range.
    Fixes(Range),
    /// The parameters for which arguments are written at a position.
    Signature(Position),
    /// What can be run.
    Lenses,
    /// The kinds of its tokens.
    Tokens,
    /// Its links.
    Links,
}

/// What is asked for.
#[derive(Clone, Copy)]
pub enum Request<'a> {
    /// What the server can do. It may count columns so.
    Initialize(Encoding),
    /// To end the work.
    Shutdown,
    /// Something about the document with an address.
    About(&'a str, Query<'a>),
}

/// What is told.
#[derive(Drop)]
pub enum Notification<'a> {
    /// The document with an address was opened, and has a text, with a version if it is named.
    Open(&'a str, Option<i64>, &'a str),
    /// The document with an address was changed, and has a version then if it is named.
    Change(&'a str, Option<i64>, Vec<Change<'a>>),
    /// The document with an address was closed.
    Close(&'a str),
    /// The document with an address was opened or changed in a way that can't be understood. Without
    /// an address it may be any document.
    Unclear(Option<&'a str>),
    /// The server is to exit.
    Exit,
}

/// A message.
#[derive(Drop)]
pub enum Message<'a> {
    /// It asks for something, and is answered by its id.
    Request(Id<'a>, Request<'a>),
    /// It tells something, and isn't answered.
    Notification(Notification<'a>),
    /// It can't be understood, for a reason, and is answered by an error, by its id if it has one.
    Wrong(Option<Id<'a>>, ErrorCode),
    /// It isn't answered, and nothing is done.
    Ignored,
}
