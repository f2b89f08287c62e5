//! What is wrong with a justfile that can be parsed, as an editor is told it.
#![tactic(auto)]

mod codes;
mod fixing;
mod known;
mod listing;
mod near;
mod settings;
mod told;

pub use crate::fixing::fixes;
pub use crate::listing::findings;
