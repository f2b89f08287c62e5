//! Root files and their canonical texts: a text is parsed as the root file of a justfile, and its
//! tree is printed with the file's own indentation.
#![tactic(auto)]

pub mod fault;
pub mod formatting;
pub mod laws;
pub mod parts;
pub mod reading;
pub mod root;

pub use justfile_parse::{Parser, RECURSION_LIMIT, parse_part};
