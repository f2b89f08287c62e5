//! Calls that parse a file, lend it and free it again, so that a caller never holds an `Ast`.
ghost use Rattle.std.specs.Prelude.{◌≡◌, IfErr, IfOk, OnErr, OnOk, map};
ghost use Rattle.justfile_ast.specs.declared.ast.Ast.{Ast};
ghost use Rattle.justfile_outline.specs.Shown.{shown};
ghost use Rattle.justfile_canonical.specs.Reading.{HasSymbols, symbols_of};
ghost use Rattle.justfile_canonical.specs.Root.{HasNoRoot, IsRoot};

use crate::root::parse_root;
use justfile_ast::Ast;
use justfile_outline::{Symbol, outline};
use justfile_token::CompileResult;
use std::alloc::{AllocError, Global};

/// What is done with a file.
pub trait Inspector {
    /// Inspecting the file changed the first inspector into the second.
    ghost inspects: { Self → Ast → Self → Type 0 };

    /// Inspects the file.
    fn inspect(ast: &Ast<'_>, inspector: &mut Self)
        ensures { inspects inspector.old ast.now inspector.new };
}

/// Parses a text as the root file at this path, and lends it to the inspector.
///
/// # Errors
///
/// As for `parse_root`. Then the inspector is unchanged.
pub fn inspect_root<'src, I: Inspector>(
    alloc: Global,
    path: &'src str,
    source: &'src str,
    inspector: &mut I,
) -> CompileResult<'src, ()>
    ensures ok { OnOk result
        ((ast : Ast) × IsRoot path.now source.now ast × I.inspects inspector.old ast inspector.new) }
    ensures err { IfErr result (HasNoRoot path.now source.now) }
    ensures unchanged { OnErr result (inspector.new ≡ inspector.old) }
{
    match parse_root(alloc, path, source) {
        Ok(mut ast) => {
            lend(&mut ast, inspector);
            Ok(())
        }
        Err(fault) => Err(fault),
    }
}

/// Lends a file to an inspector. The file is passed as `&mut` for the same reason as in
/// `formatting.rt`.
fn lend<I: Inspector>(ast: &mut Ast<'_>, inspector: &mut I)
    ensures { I.inspects inspector.old ast.old inspector.new }
{
    I::inspect(ast, inspector);
}

/// What is asked of a file. The answer can't borrow the text.
pub trait Query {
    /// What answers it.
    type Answer;

    /// This answers the query for the file.
    ghost answers: { Self → Ast → Self.Answer → Type 0 };

    /// Answers the query. The file is passed as `&mut` for the same reason as in `formatting.rt`,
    /// and isn't used any more.
    ///
    /// # Errors
    ///
    /// `AllocError` if memory runs out.
    fn answer(ast: &mut Ast<'_>, alloc: Global, query: &Self) -> Result<Self::Answer, AllocError>
        ensures { IfOk result (λ answer. answers query.now ast.old answer) };
}

/// Parses a text as the root file at this path, and returns the answer to a query of it.
///
/// # Errors
///
/// As for `parse_root`.
pub fn query_root<'src, Q: Query>(
    alloc: Global,
    path: &'src str,
    source: &'src str,
    query: &Q,
) -> CompileResult<'src, Q::Answer>
    ensures ok { IfOk result (λ answer.
        (ast : Ast) × IsRoot path.now source.now ast × Q.answers query.now ast answer) }
    ensures err { IfErr result (HasNoRoot path.now source.now) }
{
    let mut ast = parse_root(alloc, path, source)?;
    Ok(Q::answer(&mut ast, alloc, query)?)
}

/// Parses a text as the root file at this path, and returns its symbols.
///
/// # Errors
///
/// As for `parse_root`.
pub fn symbols<'src>(
    alloc: Global,
    path: &'src str,
    source: &'src str,
) -> CompileResult<'src, Vec<Symbol<'src>>>
    ensures ok { IfOk result
        (λ symbols. HasSymbols path.now source.now (map shown symbols.items)) }
    ensures err { IfErr result (HasNoRoot path.now source.now) }
{
    let mut ast = parse_root(alloc, path, source)?;
    Ok(outline_file(&mut ast, alloc)?)
}

/// Returns the symbols of a file. The file is passed as `&mut` for the same reason as in
/// `formatting.rt`.
fn outline_file<'src>(ast: &mut Ast<'src>, alloc: Global) -> Result<Vec<Symbol<'src>>, AllocError>
    ensures { IfOk result (λ symbols. map shown symbols.items ≡ symbols_of ast.old) }
{
    outline(&ast.items, alloc)
}

/// Frees a file.
pub fn release(ast: Ast<'_>) {
    drop(ast);
}
