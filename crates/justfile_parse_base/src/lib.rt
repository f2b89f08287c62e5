//! What the parsers of attributes, headers and items share: why a construct is refused, numbers of
//! bindings, paths of names, separators, comments and sets of texts.
#![tactic(auto)]

mod comment;
mod namepath;
mod number;
mod parse_error;
mod separator;
pub mod text_sets;

pub use crate::comment::comment_text;
pub use crate::namepath::parse_namepath;
pub use crate::number::next_binding_number;
pub use crate::parse_error::{ParseError, rule_error};
pub use crate::separator::parse_separator;
