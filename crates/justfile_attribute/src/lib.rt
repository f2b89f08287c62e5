//! Attributes: their types, and how they are made from arguments, compared by content, and printed.
#![tactic(auto)]

pub mod attribute;
mod boxes;
mod cache_values;
mod copy;
mod expressions;
mod interpreter;
mod interpreters;
pub mod laws;
mod new;
mod order;
mod part;
mod parts_order;
mod print;
mod resolve;

pub use crate::attribute::Attribute;
pub use crate::expressions::push_attribute;
pub use crate::interpreter::Interpreter;
pub use crate::new::{plain_attribute, takes_no_arguments};
pub use crate::order::attribute_content_cmp;
pub use crate::print::{write_attribute, write_literal};
pub use justfile_vocabulary::{AttributeKind, Signal};
