//! The indentation of body lines that the canonical text of a file has.
#![tactic(auto)]

ghost use Rattle.justfile_vocabulary.specs.Indentation.{indentation_text};
ghost use Rattle.justfile_model.specs.Meanings.Enabled.{indentation_of};
ghost use Rattle.justfile_ast.specs.Ast.{tree_of};
ghost use Rattle.justfile_indentation.specs.OwnIndentation.{HasCookedIndentation, IsIndentedBy};

use justfile_ast::Ast;
use justfile_vocabulary::Indentation;

/// Returns the indentation of body lines that the canonical text has: that of the setting
/// `indentation`, or four spaces.
#[tactic(auto, using(crate::proofs::Indented::indented_by_literal, crate::proofs::Indented::indented_by_default))]
pub fn own_indentation(ast: &Ast<'_>) -> Indentation
    ensures { HasCookedIndentation ast.now
        → IsIndentedBy (indentation_of (tree_of ast.now)) (indentation_text result) }
{
    match ast.indentation() {
        Some(indentation) => indentation,
        None => Indentation::default(),
    }
}
