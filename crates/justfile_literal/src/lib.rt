//! The texts of literals, with their indentation removed and their escapes replaced.
#![tactic(auto)]

pub mod cook;
pub mod examples;
pub mod format;
pub mod laws;
pub mod literal;

pub use crate::cook::cook_string;
pub use crate::format::format_part;
pub use crate::literal::{command, string_literal, verbatim_text};
