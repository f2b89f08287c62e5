//! The leaves of trees: how tokens and literals are compared by content, how they, comments and
//! fixed pieces are written, and which docs comments hold.
#![tactic(auto)]

mod body;
mod comment;
mod content;
mod doc;
mod put;
mod words;

pub use crate::body::write_body_text;
pub use crate::comment::write_comment;
pub use crate::content::{literal_content_cmp, token_content_cmp};
pub use crate::doc::{find_first_doc, find_later_doc};
pub use crate::put::{put_piece, put_piece_if};
pub use crate::words::{Words, after_other, before_other, write_words};
