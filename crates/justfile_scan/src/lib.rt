//! The next token of a text: the mode that it depends on, its kind and its length, or why there is
//! none.
#![tactic(auto)]

pub mod bytes;
mod lanes;
pub mod layout;
pub mod lexical_fault;
pub mod literal;
pub mod mode;
mod raw_text;
mod scan;
pub mod scan_error;
pub mod white_run;
