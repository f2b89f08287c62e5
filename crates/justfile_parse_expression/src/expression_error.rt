//! Why the next token is refused, and why an expression can't be parsed.
ghost use Rattle.std.specs.Prelude.{IsTrue};
ghost use Rattle.justfile_parse_expression.specs.Fault.{is_literal_kind};

use justfile_token::CompileError;
use std::alloc::{AllocError, AllocFailed};

/// Why the next token is refused.
#[derive(Clone, Copy)]
pub enum SyntaxError {
    /// No rule of the grammar allows it here.
    Unexpected,
    /// Too many expressions are open.
    TooDeep,
}

/// A literal that has no text, with the error that tells why.
#[derive(Drop)]
pub struct LiteralError<'src> {
    /// The error.
    pub error: CompileError<'src>,
    pub ghost is_literal: { IsTrue (is_literal_kind error.kind) },
}

/// Why an expression can't be parsed.
#[derive(Drop)]
pub enum ExpressionError<'src> {
    /// The next token is refused.
    Refused(SyntaxError),
    /// A literal has no text.
    Literal(Box<LiteralError<'src>>),
    /// Memory ran out.
    Memory,
    /// No number is left for a binding or a recipe: the counter has reached its maximum.
    Numbers,
}

impl From<AllocError> for ExpressionError<'_> {
    ghost use Rattle.std.specs.Prelude.{◌≡◌};
    ghost use Rattle.justfile_parse_expression.specs.declared.expression_error.ExpressionError.TheVariants.{Memory};

    ghost from_gives = { λ _ cause. cause ≡ Memory };

    fn from(_: AllocError) -> Self {
        ExpressionError::Memory
    }
}

impl<T: Drop> From<AllocFailed<T>> for ExpressionError<'_> {
    ghost use Rattle.std.specs.Prelude.{◌≡◌};
    ghost use Rattle.justfile_parse_expression.specs.declared.expression_error.ExpressionError.TheVariants.{Memory};

    ghost from_gives = { λ _ cause. cause ≡ Memory };

    fn from(_: AllocFailed<T>) -> Self {
        ExpressionError::Memory
    }
}
