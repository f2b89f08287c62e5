//! The public calls that parse files, and parts of texts by themselves.
#![tactic(auto)]

mod parser;
mod part;

pub use crate::parser::Parser;
pub use crate::part::parse_part;
pub use justfile_parse_expression::RECURSION_LIMIT;
