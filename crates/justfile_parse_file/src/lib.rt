//! From tokens and texts to files of items.
#![tactic(auto)]

mod file;
mod unstable;

pub use crate::file::{parse, parse_significant, parse_source};
