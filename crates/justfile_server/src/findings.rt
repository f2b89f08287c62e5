//! What is wrong with what a justfile says.
ghost use Rattle.std.specs.Prelude.{◌≡◌, [], IfOk};
ghost use Rattle.justfile_server.specs.Blanks.{without_wrong};
ghost use Rattle.justfile_server.specs.Findings.{AreBeside, AreFindingsOf, AreFound, AreInText};

use crate::blanks::without_wrong;
use editor_language::{Analysis, Finding, Known};
use justfile_ast::Ast;
use justfile_canonical::reading::{Query, query_root};
use justfile_findings::findings;
use justfile_lint::{lint_with_circles, may_be_imported};
use justfile_token::Fault;
use std::alloc::{AllocError, Global};
use text_parts::Part;

/// The longest text, in bytes, that is looked at: at each change it is parsed as a whole, and what it
/// says is looked at, which takes less time than one notices when typing. What is written by hand is
/// shorter.
pub(crate) const LIMIT: usize = 131_072;

/// Asks a justfile for what is wrong with what it says.
#[derive(Drop)]
struct FindingQuery {
    /// Whether another file may import it.
    imported: bool,
}

impl Query for FindingQuery {
    type Answer = Vec<Finding>;

    ghost answers = { λ query ast found. AreFindingsOf query.imported ast found.items };

    fn answer(ast: &mut Ast<'_>, alloc: Global, query: &Self) -> Result<Vec<Finding>, AllocError> {
        file_findings(ast, alloc, query.imported)
    }
}

/// Returns what is wrong with what a file says. `imported` is whether another file may import it.
fn file_findings(
    ast: &mut Ast<'_>,
    alloc: Global,
    imported: bool,
) -> Result<Vec<Finding>, AllocError>
    ensures { IfOk result (λ found. AreFindingsOf imported ast.old found.items) }
{
    let found = lint_with_circles(ast, imported, alloc)?;
    let facts = &found.facts;
    findings(
        alloc,
        &found.problems,
        &found.circles,
        &facts.definitions,
        &facts.uses,
    )
}

/// Returns what is wrong with what a text says. It is the text of the document with an address.
pub(crate) fn findings_of(
    alloc: Global,
    uri: &str,
    text: &str,
    analysis: &Analysis,
) -> Result<Vec<Finding>, AllocError>
    ensures { IfOk result (λ found. AreFound uri.now text.now analysis.now found.items) }
{
    if LIMIT < text.len() {
        return no_findings(alloc);
    }
    match analysis.problems.as_slice() {
        [] => findings_in(alloc, may_be_imported(uri), text),
        [_, ..] => findings_beside(alloc, text, &analysis.parts),
    }
}

/// Returns what is wrong with what a text says beside what is wrong in its parts. Names that it lacks may
/// be there.
fn findings_beside(
    alloc: Global,
    text: &str,
    parts: &[Part<Known>],
) -> Result<Vec<Finding>, AllocError>
    ensures { IfOk result (λ found. AreBeside (without_wrong 0 parts.now text.now) found.items) }
{
    let bytes = without_wrong(alloc, text.as_bytes(), parts)?;
    match str::from_utf8(&bytes) {
        Ok(others) => findings_in(alloc, true, others),
        Err(_) => no_findings(alloc),
    }
}

/// Returns what is wrong with what a text says, if it is a justfile. `imported` is whether another file
/// may import it.
fn findings_in(alloc: Global, imported: bool, text: &str) -> Result<Vec<Finding>, AllocError>
    ensures { IfOk result (λ found. AreInText imported text.now found.items) }
{
    match query_root(alloc, "justfile", text, &FindingQuery { imported }) {
        Ok(found) => Ok(found),
        Err(Fault::Memory) => Err(AllocError),
        Err(_) => no_findings(alloc),
    }
}

/// Returns no findings.
fn no_findings(alloc: Global) -> Result<Vec<Finding>, AllocError>
    ensures { IfOk result (λ found. found.items ≡ []) }
{
    Ok(Vec::new(alloc))
}
