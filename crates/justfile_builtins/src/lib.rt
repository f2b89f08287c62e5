//! The built-in functions and constants of `just`, as data. Whether a file defines a function or a
//! variable of the same name isn't asked.
#![tactic(auto)]

pub mod constants;
pub mod functions;
pub mod laws;

pub use crate::constants::{CONSTANTS, is_constant};
pub use crate::functions::{Arguments, FUNCTIONS, function_arguments};
