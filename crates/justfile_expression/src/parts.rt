//! The parts of an expression: the expressions in it, its literal, and the token that it begins
//! with.
ghost use Rattle.std.specs.Prelude.{◌≡◌, ◌<◌, IfSome, IsSome};
ghost use Rattle.std.specs.List.{slice_get};
ghost use Rattle.std.specs.Option.{option_copied};
ghost use Rattle.justfile_expression.specs.Nodes.{nodes};
ghost use Rattle.justfile_expression.specs.Parts.{IsWithin, first_token, parts_of, string_literal_of, token_of};

use crate::children::child;
use crate::expression::Expression;
use justfile_token::{StringLiteral, Token};

impl<'src> Expression<'src> {
    /// Returns the expression with this index among those that are directly in this one,
    /// counted from 0 in the order in which they are written. Returns `None` if there is no such
    /// expression.
    pub fn child(&self, index: usize) -> Option<&Expression<'src>>
        ensures child { option_copied result ≡ slice_get (parts_of self.now) index }
        ensures smaller { IfSome result (λ part. nodes part.now < nodes self.now) }
        ensures bounded { IsSome result → index < usize.MAX }
    {
        match child(self, index) {
            Some((part, _)) => Some(part),
            None => None,
        }
    }

    /// Returns the literal if the expression is one, and otherwise `None`.
    pub fn as_string_literal(&self) -> Option<&StringLiteral<'src>>
        ensures { option_copied result ≡ string_literal_of self.now }
    {
        match self {
            Expression::StringLiteral { string_literal } => Some(string_literal),
            _ => None,
        }
    }

    /// Returns the first token of the expression that the tree keeps. Signs such as `(`, `!` and
    /// `if` are not kept: an expression that begins with one has the first token after it. Left
    /// sides nest without a limit, so a loop follows them.
    pub fn token(&self) -> Token<'src>
        ensures { result ≡ first_token self.now }
    {
        let mut start = start_of(self);
        loop {
            match start {
                Start::Token(token) => return token,
                Start::Expression(expression) => start = start_of(expression),
            }
        }
    }
}

/// What an expression begins with.
#[derive(Clone, Copy)]
enum Start<'a, 'src> {
    /// A token.
    Token(Token<'src>),
    /// Another expression.
    Expression(&'a Expression<'src>),
}

/// Returns what an expression begins with, without the signs that the tree doesn't keep.
fn start_of<'a, 'src>(expression: &'a Expression<'src>) -> Start<'a, 'src>
    ensures token { token_of result ≡ first_token expression.now }
    ensures smaller { IsWithin expression.now result }
{
    match expression {
        Expression::And { lhs, .. } => Start::Expression(lhs),
        Expression::Assert { name, .. } => Start::Token(name.token),
        Expression::Backtick { token, .. } => Start::Token(*token),
        Expression::Call { name, .. } => Start::Token(name.token),
        Expression::Comparison { lhs, .. } => Start::Expression(lhs),
        Expression::Concatenation { lhs, .. } => Start::Expression(lhs),
        Expression::Conditional { condition, .. } => Start::Expression(condition),
        Expression::FormatString { start, .. } => Start::Token(start.token),
        Expression::Group { contents } => Start::Expression(contents),
        Expression::Join {
            lhs: None,
            operator,
            ..
        } => Start::Token(*operator),
        Expression::Join { lhs: Some(lhs), .. } => Start::Expression(lhs),
        Expression::List { opener, .. } => Start::Token(*opener),
        Expression::ListConcatenation { lhs, .. } => Start::Expression(lhs),
        Expression::Not { operand } => Start::Expression(operand),
        Expression::Or { lhs, .. } => Start::Expression(lhs),
        Expression::StringLiteral { string_literal } => Start::Token(string_literal.token),
        Expression::Variable { name, .. } => Start::Token(name.token),
    }
}
