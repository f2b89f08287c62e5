//! Why attributes, headers and items can't be parsed.
ghost use Rattle.justfile_parse_base.specs.ParseErrors.{IsErrorOfFault};

use justfile_parse_expression::ExpressionError;
use justfile_token::{CompileError, Fault};
use std::alloc::{AllocError, AllocFailed, Global};

/// Why an attribute, a header or an item can't be parsed.
#[derive(Drop)]
pub enum ParseError<'src> {
    /// The grammar doesn't allow the tokens, a literal has no text, or memory or numbers ran out.
    Expression(ExpressionError<'src>),
    /// The tokens can be parsed, but break a rule, which the error tells; or a blank line or a
    /// comment follows attributes, a name follows a variadic parameter, a setting doesn't exist,
    /// or a word isn't one of the keywords that are allowed in its place.
    Compile(Box<CompileError<'src>>),
}

impl<'src> From<ExpressionError<'src>> for ParseError<'src> {
    ghost use Rattle.std.specs.Prelude.{◌≡◌};
    ghost use Rattle.justfile_parse_base.specs.declared.parse_error.ParseError.TheVariants.{Expression};

    ghost from_gives = { λ cause error. error ≡ Expression cause };

    fn from(cause: ExpressionError<'src>) -> Self {
        ParseError::Expression(cause)
    }
}

impl From<AllocError> for ParseError<'_> {
    ghost use Rattle.std.specs.Prelude.{◌≡◌};
    ghost use Rattle.justfile_parse_base.specs.declared.parse_error.ParseError.TheVariants.{Expression};
    ghost use Rattle.justfile_parse_expression.specs.declared.expression_error.ExpressionError.TheVariants.{Memory};

    ghost from_gives = { λ _ error. error ≡ Expression Memory };

    fn from(_: AllocError) -> Self {
        ParseError::Expression(ExpressionError::Memory)
    }
}

impl<T: Drop> From<AllocFailed<T>> for ParseError<'_> {
    ghost use Rattle.std.specs.Prelude.{◌≡◌};
    ghost use Rattle.justfile_parse_base.specs.declared.parse_error.ParseError.TheVariants.{Expression};
    ghost use Rattle.justfile_parse_expression.specs.declared.expression_error.ExpressionError.TheVariants.{Memory};

    ghost from_gives = { λ _ error. error ≡ Expression Memory };

    fn from(_: AllocFailed<T>) -> Self {
        ParseError::Expression(ExpressionError::Memory)
    }
}

/// Makes the parse error for the fault of an attribute, a header or an item. It is `Memory` if
/// there is no memory for the box of a compile error.
pub fn rule_error<'src>(alloc: Global, fault: Fault<'src>) -> ParseError<'src>
    ensures { IsErrorOfFault result fault.entry }
{
    match fault {
        Fault::Compile(error) => match Box::new(alloc, error) {
            Ok(error) => ParseError::Compile(error),
            Err(_failed) => ParseError::Expression(ExpressionError::Memory),
        },
        Fault::Memory => ParseError::Expression(ExpressionError::Memory),
        Fault::Numbers => ParseError::Expression(ExpressionError::Numbers),
    }
}
