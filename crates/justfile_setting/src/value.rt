//! The type of the values of settings.

use justfile_attribute::Interpreter;
use justfile_expression::Expression;
use justfile_token::StringLiteral;

/// The value of a setting, as it is written after `:=`.
#[derive(Clone, Copy)]
pub enum Value<'a, 'src> {
    /// `true`, `false`, or nothing, which is `true`.
    Truth(&'a bool),
    /// An expression.
    Expression(&'a Expression<'src>),
    /// A plain string.
    Literal(&'a StringLiteral<'src>),
    /// A command and its arguments in brackets.
    Interpreter(&'a Interpreter<Expression<'src>>),
}
