//! Fragments of body lines: texts and interpolations.
ghost use Rattle.std.specs.Prelude.{◌++◌, codes};
ghost use Rattle.justfile_model.specs.Printed.Printing.{fixed_text, fragment_text};
ghost use Rattle.justfile_token.specs.Sink.{Puts};
ghost use Rattle.justfile_line.specs.Body.{fragment_shape};

use justfile_expression::Expression;
use justfile_inner_expressions::write_expression;
use justfile_leaves::{put_piece, write_body_text};
use justfile_token::{Sink, Token, TryClone};
use std::alloc::{AllocError, Global};
use std::fmt;

/// A part of a line in a recipe's body.
#[derive(Drop, PartialEq)]
pub enum Fragment<'src> {
    /// An expression between `{{` and `}}`.
    Interpolation { expression: Expression<'src> },
    /// Text without interpolations.
    Text { token: Token<'src> },
}

impl<'src> Fragment<'src> {
    ghost use Rattle.std.specs.Prelude.{◌≡◌, IfOk};
    ghost use Rattle.std.specs.Option.{option_copied};
    ghost use Rattle.justfile_line.specs.Copies.{IsSameFragment};
    ghost use Rattle.justfile_line.specs.Line.{text_of_fragment};

    /// Returns a copy of the fragment, or an error if out of memory.
    pub fn clone(&self, alloc: Global) -> Result<Self, AllocError>
        ensures { IfOk result (λ copy. IsSameFragment copy self.now) }
    {
        match self {
            Fragment::Interpolation { expression } => {
                Ok(Fragment::Interpolation {
                    expression: expression.clone(alloc)?,
                })
            }
            Fragment::Text { token } => Ok(Fragment::Text { token: *token }),
        }
    }

    /// Returns the text if the fragment is one, and otherwise `None`.
    pub(crate) fn text(&self) -> Option<&'src str>
        ensures { option_copied result ≡ text_of_fragment self.now }
    {
        match self {
            Fragment::Interpolation { .. } => None,
            Fragment::Text { token } => Some(token.lexeme()),
        }
    }
}

impl TryClone for Fragment<'_> {
    ghost use Rattle.justfile_line.specs.Copies.{IsSameFragment};

    ghost is_copy = { IsSameFragment };

    fn try_clone(&self, alloc: Global) -> Result<Self, AllocError> {
        self.clone(alloc)
    }
}

/// Writes the text of the fragment, as it is printed.
impl fmt::Debug for Fragment<'_> {
    fn fmt<W: fmt::Write>(&self, f: &mut fmt::Formatter<W>) -> fmt::Result {
        write_fragment(self, f)
    }
}

/// Writes the text of a fragment.
pub(crate) fn write_fragment<S: Sink>(fragment: &Fragment<'_>, sink: &mut S) -> Result<(), S::Fault>
    ensures { Puts S.took S.failed sink.old result
        (fragment_text (fragment_shape fragment.now)) sink.new }
{
    match fragment {
        Fragment::Interpolation { expression } => {
            write_interpolation_start(sink)?;
            write_expression(expression, sink)?;
            write_interpolation_end(sink)
        }
        Fragment::Text { token } => write_body_text(token, sink),
    }
}

/// Writes `{{` and a space.
#[tactic(auto, unfolding(justfile_model::specs::Printed::Printing::fixed_text))]
fn write_interpolation_start<S: Sink>(sink: &mut S) -> Result<(), S::Fault>
    ensures { Puts S.took S.failed sink.old result (fixed_text (codes "{{ ")) sink.new }
{
    put_piece("{{ ", sink)
}

/// Writes a space and `}}`.
#[tactic(auto, unfolding(justfile_model::specs::Printed::Printing::fixed_text))]
fn write_interpolation_end<S: Sink>(sink: &mut S) -> Result<(), S::Fault>
    ensures { Puts S.took S.failed sink.old result (fixed_text (codes " }}")) sink.new }
{
    put_piece(" }}", sink)
}
