//! How what is wrong with a justfile is set right.
ghost use Rattle.std.specs.Prelude.{◌≡◌, [], IfOk, length, nat_lt};
ghost use Rattle.justfile_server.specs.Fixes.{AreFixesFor, AreFixesIn, AreFixesOf, AreShortFixes};
ghost use Rattle.justfile_server.specs.Findings.{limit};

use crate::findings::LIMIT;
use crate::signs::sign_fixes;
use editor_language::{Problem, QuickFix};
use justfile_ast::Ast;
use justfile_canonical::reading::{Query, query_root};
use justfile_findings::fixes;
use justfile_lint::{lint_with_circles, may_be_imported};
use justfile_token::Fault;
use std::alloc::{AllocError, Global};

/// Asks a justfile how what is wrong with what it says is set right.
#[derive(Drop)]
struct FixQuery {
    /// Whether another file may import it.
    imported: bool,
}

impl Query for FixQuery {
    type Answer = Vec<QuickFix>;

    ghost answers = { λ query ast found. AreFixesOf query.imported ast found.items };

    fn answer(ast: &mut Ast<'_>, alloc: Global, query: &Self) -> Result<Vec<QuickFix>, AllocError> {
        file_fixes(ast, alloc, query.imported)
    }
}

/// Returns how what is wrong with what a file says is set right. `imported` is whether another file may
/// import it.
fn file_fixes(ast: &mut Ast<'_>, alloc: Global, imported: bool) -> Result<Vec<QuickFix>, AllocError>
    ensures { IfOk result (λ found. AreFixesOf imported ast.old found.items) }
{
    let found = lint_with_circles(ast, imported, alloc)?;
    let facts = &found.facts;
    fixes(alloc, &found.problems, &facts.definitions, &facts.uses)
}

/// Returns how what is wrong in a text is set right, in which there are these problems: if there are, they
/// alone, since nothing that can be set right is told beside them. It is the text of the document with an
/// address.
#[tactic(auto, using(crate::proofs::FixesOfFile::by_signs))]
pub(crate) fn fixes_of(
    alloc: Global,
    uri: &str,
    text: &str,
    problems: &[Problem],
) -> Result<Vec<QuickFix>, AllocError>
    ensures { IfOk result (λ found. AreFixesFor uri.now text.now problems.now found.items) }
{
    match problems {
        [] => short_fixes(alloc, uri, text),
        [_, ..] => sign_fixes(alloc, text.as_bytes(), problems),
    }
}

/// Returns how what is wrong with what a text says is set right, if it isn't too long.
fn short_fixes(alloc: Global, uri: &str, text: &str) -> Result<Vec<QuickFix>, AllocError>
    ensures { IfOk result (λ found.
        AreShortFixes uri.now text.now (nat_lt limit (length text.now)) found.items) }
{
    if LIMIT < text.len() {
        no_fixes(alloc)
    } else {
        fixes_in(alloc, uri, text)
    }
}

/// Returns how what is wrong with what a text says is set right, if it is a justfile.
fn fixes_in(alloc: Global, uri: &str, text: &str) -> Result<Vec<QuickFix>, AllocError>
    ensures { IfOk result (λ found. AreFixesIn uri.now text.now found.items) }
{
    let imported = may_be_imported(uri);
    match query_root(alloc, "justfile", text, &FixQuery { imported }) {
        Ok(found) => Ok(found),
        Err(Fault::Memory) => Err(AllocError),
        Err(_) => no_fixes(alloc),
    }
}

/// Returns no fixes.
fn no_fixes(alloc: Global) -> Result<Vec<QuickFix>, AllocError>
    ensures { IfOk result (λ found. found.items ≡ []) }
{
    Ok(Vec::new(alloc))
}
