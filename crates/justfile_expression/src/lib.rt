//! Expressions: their type, and how they are printed, compared, copied and resolved.
#![tactic(auto)]

mod children;
pub mod expression;
pub mod laws;
mod leaf_order;
mod list_operator;
mod order;
mod parts;
mod print;
mod resolve;

pub use crate::children::child;
pub use crate::expression::{Expression, copy_boxed, copy_optional};
pub use crate::list_operator::ListOperator;
pub use crate::print::write_expression;
pub use justfile_model::{ConditionalOperator, ListFeature};
