//! From tokens to headers of recipes: their parameters, with what `arg` attributes set for them,
//! and their dependencies.
#![tactic(auto)]

mod arg_attribute;
mod arg_names;
mod arguments;
mod dependency;
mod header;
mod options;
mod parameter;
mod read_parameters;

pub use crate::header::{Header, parse_header};
