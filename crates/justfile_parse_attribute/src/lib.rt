//! From tokens to attributes: parses the lines of attributes before a construct.
#![tactic(auto)]

mod arguments;
mod attributes;
mod labels;
mod new_attribute;
mod read_attributes;
mod repeated;

pub use crate::attributes::parse_attributes;
