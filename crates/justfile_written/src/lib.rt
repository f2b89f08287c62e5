//! The names and comments with which attributes were written.
#![tactic(auto)]

pub mod written;

pub use crate::written::{Written, comment_last, with_comments, without_comments};
