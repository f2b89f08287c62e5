//! Where names are defined and used in the items of a justfile, what they mean there, and what a name
//! is.
#![tactic(auto)]

mod arguments;
mod items;
mod meaning;
mod names;

pub use items::mentions;
pub use names::is_name;
