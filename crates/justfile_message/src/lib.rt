//! Phrases of messages that don't depend on tokens: counts, cycles and the longer ones.
#![tactic(auto)]

pub mod columns;
pub mod counts;
pub mod cycles;
pub mod list;
pub mod parts;
pub mod shown;

pub use crate::list::List;
