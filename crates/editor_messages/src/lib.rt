//! The messages of the Language Server Protocol as plain values: what an editor asks for and tells,
//! and what is answered.
#![tactic(auto)]

mod answer;
mod change;
mod error_code;
mod message;
mod method;
mod symbol_kind;

pub use answer::{
    Answer, CodeAction, Completion, CompletionKind, Completions, Diagnostic, Fold, Highlight,
    Hover, LabelPart, Lens, Link, Related, Rename, Signature, Symbol,
};
pub use change::{Change, changed_text};
pub use error_code::ErrorCode;
pub use message::{Id, Message, Notification, Query, Request};
pub use method::Method;
pub use symbol_kind::SymbolKind;
