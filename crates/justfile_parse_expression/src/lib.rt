//! From tokens to expressions: how tokens are taken from the table of significant tokens, and how
//! expressions are parsed.
#![tactic(auto)]

mod conditional;
mod expected_tokens;
mod expression;
mod expression_error;
mod feature;
mod literal;
mod operator;
mod parser_state;
pub mod significant;
mod value;

pub use crate::expected_tokens::ExpectedTokens;
pub use crate::expression::RECURSION_LIMIT;
pub use crate::expression_error::{ExpressionError, LiteralError, SyntaxError};
pub use crate::parser_state::{ParserState, is_word};
