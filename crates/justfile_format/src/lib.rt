//! Formats a justfile: what the program `justfmt` does with its arguments and its input.
#![tactic(auto)]

mod buffer;
pub mod failure;
pub mod formatting;
mod input;
pub mod run;
pub mod system;
