//! The lines that tell problems, as `just` writes them.
#![tactic(auto)]

mod cursor;
mod files;
mod groups;
mod lines;
mod links;
mod members;
mod module;
mod overridden;
mod rings;

pub use crate::files::lines_of_files;
pub use crate::lines::{all_lines, circle_lines, problem_lines};
pub use crate::links::import_paths;
