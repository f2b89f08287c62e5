//! What an editor is answered about a text in any language, as plain values.
#![tactic(auto)]

mod addresses;
mod answers;
mod asked;
mod colors;
mod explained;
mod failure;
mod fixes;
mod formats;
mod lenses;
mod names;
mod problems;
mod renames;
mod shown;
mod signatures;

pub use answers::{answer, diagnostics};
pub use failure::Failure;
