//! The operators of comparisons.
ghost use Rattle.std.specs.Prelude.{◌≡◌};
ghost use Rattle.justfile_model.specs.Trees.ConditionalOperator.{operator_sign};

use std::fmt;

/// The operator of a comparison.
#[derive(Clone, Copy, Debug, PartialEq, Eq, PartialOrd, Ord)]
pub enum ConditionalOperator {
    /// `==`
    Equality,
    /// `!=`
    Inequality,
    /// `=~`
    RegexMatch,
    /// `!~`
    RegexMismatch,
}

impl ConditionalOperator {
    /// Returns the operator's symbol.
    fn sign(self) -> &'static str
        ensures { result.now ≡ operator_sign self }
    {
        match self {
            ConditionalOperator::Equality => "==",
            ConditionalOperator::Inequality => "!=",
            ConditionalOperator::RegexMatch => "=~",
            ConditionalOperator::RegexMismatch => "!~",
        }
    }
}

/// Ignores width and alignment: the symbol is written as it is.
impl fmt::Display for ConditionalOperator {
    ghost use Rattle.std.specs.Prelude.{Some};

    ghost output = { λ operator. Some (operator_sign operator) };

    ghost styled_output = { λ operator spec. Some (operator_sign operator) };

    fn fmt<W: fmt::Write>(&self, f: &mut fmt::Formatter<W>) -> fmt::Result {
        f.write_str(self.sign())
    }
}
