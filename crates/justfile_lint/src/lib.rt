//! What is wrong with the names and the settings of a justfile.
#![tactic(auto)]

mod file;
mod module;
mod name;

pub use crate::file::{Findings, lint, lint_with_circles};
pub use crate::module::{FileFacts, FileLinks, file_facts, file_links};
pub use crate::name::may_be_imported;
