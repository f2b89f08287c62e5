//! The files that `just` loads for modules, and the justfiles of a folder.
#![tactic(auto)]

mod justfiles;
mod modules;

pub use crate::justfiles::justfiles_in;
pub use crate::modules::{Folders, module_path, module_path_in, names_in};
