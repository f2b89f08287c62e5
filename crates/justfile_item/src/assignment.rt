//! Assignments to variables.
ghost use Rattle.std.specs.Prelude.{IfOk};
ghost use Rattle.justfile_token.specs.Sink.{Puts};
ghost use Rattle.justfile_item.specs.Assignment.{binding_text};
ghost use Rattle.justfile_item.specs.Copies.{IsSameAssignment};

use crate::binding::Binding;
use justfile_expression::Expression;
use justfile_inner_expressions::write_expression;
use justfile_leaves::{put_piece, put_piece_if};
use justfile_token::Sink;
use std::alloc::{AllocError, Global};
use std::fmt;

/// An assignment of an expression to a variable.
pub type Assignment<'src> = Binding<'src, Expression<'src>>;

impl<'src> Binding<'src, Expression<'src>> {
    /// Returns a copy of the assignment, or an error if out of memory.
    pub fn clone(&self, alloc: Global) -> Result<Self, AllocError>
        ensures { IfOk result (λ copy. IsSameAssignment copy self.now) }
    {
        let attributes = self.attributes.clone(alloc)?;
        match self.value.clone(alloc) {
            Ok(value) => Ok(Binding {
                attributes,
                eager: self.eager,
                export: self.export,
                file_depth: self.file_depth,
                name: self.name,
                number: self.number,
                prelude: self.prelude,
                private: self.private,
                value,
            }),
            Err(fault) => Err(fault),
        }
    }
}

impl<'src> fmt::Display for Binding<'src, Expression<'src>> {
    ghost use Rattle.std.specs.Prelude.{Some};

    ghost output = { λ assignment. Some (binding_text assignment) };

    fn fmt<W: fmt::Write>(&self, f: &mut fmt::Formatter<W>) -> fmt::Result {
        write_assignment(self, f)
    }
}

/// Writes the text of an assignment, without its attributes.
pub(crate) fn write_assignment<S: Sink>(
    assignment: &Assignment<'_>,
    sink: &mut S,
) -> Result<(), S::Fault>
    ensures { Puts S.took S.failed sink.old result (binding_text assignment.now) sink.new }
{
    put_piece_if(assignment.eager, "eager ", sink)?;
    put_piece_if(assignment.export, "export ", sink)?;
    sink.put(assignment.name.lexeme())?;
    put_piece(" := ", sink)?;
    write_expression(&assignment.value, sink)?;
    Ok(())
}
