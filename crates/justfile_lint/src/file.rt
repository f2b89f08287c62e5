//! The problems of a file.
ghost use Rattle.std.specs.Prelude.{IfOk, IsPermutation};
ghost use Rattle.std.specs.List.Sorted.{IsNonDecreasingBy};
ghost use Rattle.justfile_lint.specs.Lint.{AreFindingsOf, problems_of};

use justfile_ast::Ast;
use justfile_facts::facts_of;
use justfile_problems::{Circle, Facts, Problem, circles_of, problems};
use std::alloc::{AllocError, Global};

/// Returns the problems of a file, in the order of the text. `imported` is whether another file may
/// import it: then names that it lacks aren't wrong. The file is passed as `&mut`, and isn't changed
/// (`docs/LIBRARY.md`, "What a check of a caller takes").
///
/// # Errors
///
/// `AllocError` if memory runs out.
pub fn lint<'src>(
    ast: &mut Ast<'src>,
    imported: bool,
    alloc: Global,
) -> Result<Vec<Problem<'src>>, AllocError>
    ensures all { IfOk result
        (λ found. IsPermutation (problems_of imported ast.old) found.items) }
    ensures in_order { IfOk result
        (λ found. IsNonDecreasingBy (λ p. p.token.offset) found.items) }
{
    let facts = facts_of(&ast.items, &ast.list_features, imported, alloc)?;
    problems(
        alloc,
        facts.rules,
        &facts.definitions,
        &facts.uses,
        &facts.suspects,
    )
}

/// All that is wrong with a file.
#[derive(Drop)]
pub struct Findings<'src> {
    /// What it says of names.
    pub facts: Facts<'src>,
    /// Its problems, in the order of the text.
    pub problems: Vec<Problem<'src>>,
    /// Its recipes that depend on themselves, and its variables that are defined in terms of
    /// themselves.
    pub circles: Vec<Circle<'src>>,
}

/// Returns the problems of a file, as `lint` does, its circles, and what it says of names.
///
/// # Errors
///
/// `AllocError` if memory runs out.
pub fn lint_with_circles<'src>(
    ast: &mut Ast<'src>,
    imported: bool,
    alloc: Global,
) -> Result<Findings<'src>, AllocError>
    ensures { IfOk result (AreFindingsOf imported ast.old) }
{
    let facts = facts_of(&ast.items, &ast.list_features, imported, alloc)?;
    let problems = problems(
        alloc,
        facts.rules,
        &facts.definitions,
        &facts.uses,
        &facts.suspects,
    )?;
    let circles = circles_of(alloc, &facts.definitions, &facts.uses)?;
    Ok(Findings {
        facts,
        problems,
        circles,
    })
}
