//! What is called where an argument of a justfile is written, and its parameters.
#![tactic(auto)]

mod known;
mod label;
mod signature;

pub use crate::signature::signature_at;
