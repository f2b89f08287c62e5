//! The model of the syntax of justfiles: its definitions and their laws.
#![tactic(auto)]

pub mod attribute_laws;
mod conditional_operator;
pub mod examples;
mod expression_case;
pub mod grammar_laws;
pub mod laws;
mod level;
pub mod lexing_laws;
mod open_delimiter;
mod operator;
mod parameter_kind;
pub mod printed_examples;
mod raw_text;

pub use crate::conditional_operator::ConditionalOperator;
pub use crate::expression_case::ExpressionCase;
pub use crate::level::Level;
pub use crate::open_delimiter::OpenDelimiter;
pub use crate::operator::Operator;
pub use crate::parameter_kind::ParameterKind;
pub use crate::raw_text::RawText;
pub use justfile_vocabulary::ListFeature;
