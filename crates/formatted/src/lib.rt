//! Callers with contracts: from a text to the printed text of its tree.
#![tactic(auto)]

ghost use Rattle.std.specs.Prelude.{◌≡◌, IfOk, string_bytes};
ghost use Rattle.justfile_syntax.specs.Files.{ast_shape};
ghost use Rattle.justfile_syntax.specs.Formatting.{HasCookedIndentation};
ghost use Rattle.justfile_syntax.specs.Printing.{printed};
ghost use Rattle.justfile_syntax.specs.Words.{indentation_text};
ghost use Rattle.formatted.specs.Formatted.{IsFormattedAsSet, IsFormattedAt, IsPrintedAsSet};

use justfile_syntax::ast::Ast;
use justfile_syntax::fault::CompileResult;
use justfile_syntax::format::own_indentation;
use justfile_syntax::indentation::Indentation;
use justfile_syntax::parser::{parse_root, release};
use std::alloc::{AllocError, Global};

/// Returns the formatted text of a justfile, at this indentation.
///
/// # Errors
///
/// `Compile` if the text isn't a justfile, `Memory` or `Numbers` if memory or numbers run out.
pub fn formatted(alloc: Global, text: &str, indentation: Indentation) -> CompileResult<'_, String>
    ensures { IfOk result (λ formatted. IsFormattedAt text.now (indentation_text indentation)
        (string_bytes formatted)) }
{
    let mut ast = parse_root(alloc, "justfile", text)?;
    let formatted = print(&mut ast, alloc, indentation);
    release(ast);
    Ok(formatted?)
}

/// Returns the formatted text of a justfile, at the indentation that it sets.
///
/// # Errors
///
/// `Compile` if the text isn't a justfile, `Memory` or `Numbers` if memory or numbers run out.
pub fn formatted_as_set(alloc: Global, text: &str) -> CompileResult<'_, String>
    ensures { IfOk result
        (λ formatted. IsFormattedAsSet text.now (string_bytes formatted)) }
{
    let mut ast = parse_root(alloc, "justfile", text)?;
    let formatted = print_as_set(&mut ast, alloc);
    release(ast);
    Ok(formatted?)
}

/// Returns the printed text of a file.
fn print(ast: &mut Ast<'_>, alloc: Global, indentation: Indentation) -> Result<String, AllocError>
    ensures { IfOk result (λ text. string_bytes text
        ≡ printed (ast_shape ast.old) (indentation_text indentation)) }
{
    ast.print(alloc, indentation)
}

/// Returns the printed text of a file, at the indentation that it sets.
fn print_as_set(ast: &mut Ast<'_>, alloc: Global) -> Result<String, AllocError>
    ensures { HasCookedIndentation ast.old
        → IfOk result (λ text. IsPrintedAsSet ast.old (string_bytes text)) }
{
    let indentation = own_indentation(ast);
    ast.print(alloc, indentation)
}
