//! From tokens to the items of a line, without docs.
#![tactic(auto)]

mod accept;
mod assignment;
mod attribute_checks;
mod construct;
mod function;
mod items;
mod recipe;
mod short_item;
mod source;

pub use crate::items::{expect_nothing, parse_line};
