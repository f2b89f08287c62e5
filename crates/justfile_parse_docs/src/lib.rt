//! From tokens to the items of a file, each with its doc: the comment before it.
#![tactic(auto)]

mod docs;
mod items;

pub use crate::items::parse_items;
