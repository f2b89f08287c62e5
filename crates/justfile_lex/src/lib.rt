//! The lexer of justfiles.
#![tactic(auto)]

mod explain;
mod lexer;
mod place;
mod table;

pub use crate::lexer::Lexer;
pub use crate::table::significant;
