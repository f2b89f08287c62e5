//! The files of the system as a folder. What the system does isn't proved.
#![tactic(auto)]

pub mod arguments;
mod below;
pub mod file_system;
mod held_folder;
mod in_place;
mod mounts;
mod new_file;
mod opened;
mod replace;
mod search;
pub mod stream;

pub use search::{SearchError, find_justfile};
