//! The symbols of a file: what a list of its items, or an editor, shows of each.
#![tactic(auto)]

mod parts;
pub mod symbol;
pub mod symbols;

pub use crate::symbol::Symbol;
pub use crate::symbols::outline;
