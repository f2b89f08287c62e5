//! What is done to the text of a literal: its indentation is removed, and its escapes are read.
#![tactic(auto)]

pub mod escape;
pub mod escape_fault;
pub mod unindent;
