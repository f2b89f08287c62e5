//! From a text to its canonical text.
ghost use Rattle.std.specs.Prelude.{◌≡◌, IfErr, IfOk, OnOk, false, string_bytes, true};
ghost use Rattle.justfile_canonical.specs.declared.fault.FormatFault.TheVariants as faults;
ghost use Rattle.justfile_canonical.specs.Fault.{IsFormatFaultOf, IsFaultOfPrinting, IsPlaceOf, IsRejectionFor};
ghost use Rattle.justfile_canonical.specs.Formatting.{IsFileOf, IsFormatted, IsPrinted};
ghost use Rattle.justfile_indentation.specs.OwnIndentation.{HasCookedIndentation, IsIndentedBy};
ghost use Rattle.justfile_vocabulary.specs.Indentation.{indentation_text};
ghost use Rattle.justfile_ast.specs.Ast.{ast_shape, tree_of};
ghost use Rattle.justfile_model.specs.Meanings.Enabled.{indentation_of};
ghost use Rattle.justfile_model.specs.Printed.Printing.{printable};

use crate::fault::{FormatFault, Rejection};
use crate::parts::format_long;
use crate::root::parse_root;
use justfile_ast::Ast;
use justfile_indentation::own_indentation;
use justfile_token::{CompileError, Fault};
use justfile_vocabulary::Indentation;
use std::alloc::Global;
use std::mem;

/// Returns the canonical text of a justfile, at the indentation that it sets or four spaces. Errors
/// name this path.
///
/// # Errors
///
/// The text isn't a justfile or can't be printed, or memory or numbers run out.
pub fn format_text(alloc: Global, path: &str, source: &str) -> Result<String, FormatFault>
    ensures ok { IfOk result (λ text. IsFormatted source.now (string_bytes text)) }
    ensures err { IfErr result (IsFormatFaultOf path.now source.now) }
{
    match format_long(alloc, source) {
        Some(text) => Ok(text),
        None => format_whole(alloc, path, source),
    }
}

/// Does the same as `format_text`, with the tree of the whole text.
fn format_whole(alloc: Global, path: &str, source: &str) -> Result<String, FormatFault>
    ensures ok { IfOk result (λ text. IsFormatted source.now (string_bytes text)) }
    ensures err { IfErr result (IsFormatFaultOf path.now source.now) }
{
    let mut ast = parse(alloc, path, source)?;
    print(&mut ast, alloc)
}

/// Does the same as `format_text`, but doesn't free the tree: for a program that ends soon, whose
/// memory the system takes back at once.
///
/// # Errors
///
/// As for `format_text`.
pub fn format_and_forget(alloc: Global, path: &str, source: &str) -> Result<String, FormatFault>
    ensures ok { IfOk result (λ text. IsFormatted source.now (string_bytes text)) }
    ensures err { IfErr result (IsFormatFaultOf path.now source.now) }
{
    match format_long(alloc, source) {
        Some(text) => Ok(text),
        None => format_whole_and_forget(alloc, path, source),
    }
}

/// Does the same as `format_and_forget`, with the tree of the whole text.
fn format_whole_and_forget(alloc: Global, path: &str, source: &str) -> Result<String, FormatFault>
    ensures ok { IfOk result (λ text. IsFormatted source.now (string_bytes text)) }
    ensures err { IfErr result (IsFormatFaultOf path.now source.now) }
{
    let mut ast = parse(alloc, path, source)?;
    let text = print(&mut ast, alloc)?;
    mem::forget(ast);
    Ok(text)
}

/// Parses a text as the root file at this path, to format it.
///
/// # Errors
///
/// The text isn't a justfile, or memory or numbers run out.
pub fn parse<'src>(
    alloc: Global,
    path: &'src str,
    source: &'src str,
) -> Result<Ast<'src>, FormatFault>
    ensures ok { IfOk result (IsFileOf source.now) }
    ensures err { IfErr result (IsFormatFaultOf path.now source.now) }
{
    match parse_root(alloc, path, source) {
        Ok(ast) => Ok(ast),
        Err(Fault::Compile(error)) => Err(rejected_fault(alloc, &error)),
        Err(Fault::Memory) => Err(FormatFault::Memory),
        Err(Fault::Numbers) => Err(FormatFault::Numbers),
    }
}

/// Makes the fault for an error: its message, and the excerpt of the line that it is on.
fn rejected_fault(alloc: Global, error: &CompileError<'_>) -> FormatFault
    ensures { IsRejectionFor error.now result }
{
    match format!(in alloc; "error: {error}\n{}\n", error.token) {
        Ok(lines) => FormatFault::Rejected(rejection(lines, error)),
        Err(_) => FormatFault::Memory,
    }
}

/// Makes a rejection of the lines for an error, and of its place.
fn rejection(lines: String, error: &CompileError<'_>) -> Rejection
    ensures lines { string_bytes result.lines ≡ string_bytes lines }
    ensures place { IsPlaceOf error.now.token result }
{
    Rejection {
        lines,
        offset: error.token.offset,
        length: error.token.length,
        line: error.token.line,
        column: error.token.column,
    }
}

/// Returns the canonical text of a file. It is passed as `&mut`, since the checker reaches its
/// limit where a caller that holds a file passes a shared reference (`docs/TOOLCHAIN.md`, "could
/// not tell").
fn print(ast: &mut Ast<'_>, alloc: Global) -> Result<String, FormatFault>
    requires { HasCookedIndentation ast.old }
    ensures ok { IfOk result (λ text. IsPrinted ast.old (string_bytes text)) }
    ensures err { IfErr result (IsFaultOfPrinting ast.old) }
{
    let indentation = printing_indentation(ast)?;
    Ok(ast.print(alloc, indentation)?)
}

/// Returns the `own_indentation` of a file that can be printed. Requires that the indentation that
/// the file sets, if it sets one, is the text of its literal.
///
/// # Errors
///
/// `NotPrintable` if the file can't be printed.
pub fn printing_indentation(ast: &Ast<'_>) -> Result<Indentation, FormatFault>
    requires { HasCookedIndentation ast.now }
    ensures printable { OnOk result (printable (ast_shape ast.now) ≡ true) }
    ensures indented { IfOk result (λ indentation. IsIndentedBy (indentation_of (tree_of ast.now))
        (indentation_text indentation)) }
    ensures unprintable { IfErr result (λ e. (e ≡ faults.NotPrintable)
        × (printable (ast_shape ast.now) ≡ false)) }
{
    if !ast.printable() {
        return Err(FormatFault::NotPrintable);
    }
    Ok(own_indentation(ast))
}
