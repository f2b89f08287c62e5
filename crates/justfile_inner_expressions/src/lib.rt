//! What constructs do with the expressions in them: they write them, collect them, and resolve
//! their variables.
#![tactic(auto)]

mod has_expressions;
mod has_variables;
mod write;

pub use crate::has_expressions::{
    HasExpressions, push_all, push_each, push_expression, push_optional,
};
pub use crate::has_variables::{HasVariables, resolve_each, resolve_optional};
pub use crate::write::write_expression;
