//! The paths of imports and modules, and how these items are printed.
ghost use Rattle.std.specs.Prelude.{◌++◌, IfOk};
ghost use Rattle.justfile_token.specs.StringLiteral.{IsSameLiteral};
ghost use Rattle.justfile_model.specs.Printed.Printing.{mark_text};
ghost use Rattle.justfile_token.specs.Sink.{Puts};
ghost use Rattle.justfile_token.specs.Copies.{IsSameIfPresent};
ghost use Rattle.justfile_item.specs.ItemText.{import_text_of, later_path_text, module_text_of, path_text_of, unexport_text_of};

use justfile_leaves::{put_piece, put_piece_if};
use justfile_token::{Name, Sink, StringLiteral};
use std::alloc::{AllocError, Global};

/// Returns a copy of an optional path.
pub(crate) fn copy_path<'src>(
    alloc: Global,
    path: &Option<StringLiteral<'src>>,
) -> Result<Option<StringLiteral<'src>>, AllocError>
    ensures { IfOk result (λ copy. IsSameIfPresent IsSameLiteral copy path.now) }
{
    match path {
        None => Ok(None),
        Some(path) => Ok(Some(path.clone(alloc)?)),
    }
}

/// Writes the text of an import, without its attributes.
pub(crate) fn write_import<S: Sink>(
    optional: bool,
    relative: &StringLiteral<'_>,
    sink: &mut S,
) -> Result<(), S::Fault>
    ensures { Puts S.took S.failed sink.old result (import_text_of optional relative.now) sink.new }
{
    put_piece("import", sink)?;
    put_piece_if(optional, "?", sink)?;
    put_piece(" ", sink)?;
    write_path(relative, sink)
}

/// Writes the text of a module, without its doc and its attributes.
#[tactic(auto, using(crate::proofs::ItemTexts::module_parts))]
pub(crate) fn write_module<S: Sink>(
    name: &Name<'_>,
    optional: bool,
    relative: &Option<StringLiteral<'_>>,
    sink: &mut S,
) -> Result<(), S::Fault>
    ensures { Puts S.took S.failed sink.old result
        (module_text_of name.now optional relative.now) sink.new }
{
    put_piece("mod", sink)?;
    put_piece_if(optional, "?", sink)?;
    put_piece(" ", sink)?;
    sink.put(name.lexeme())?;
    write_later_path(relative, sink)
}

/// Writes a space and a path, or nothing if there is none.
fn write_later_path<S: Sink>(path: &Option<StringLiteral<'_>>, sink: &mut S) -> Result<(), S::Fault>
    ensures { Puts S.took S.failed sink.old result (later_path_text path.now) sink.new }
{
    match path {
        None => Ok(()),
        Some(path) => {
            put_piece(" ", sink)?;
            write_path(path, sink)
        }
    }
}

/// Writes the path of a file.
#[tactic(auto, using(crate::proofs::ItemTexts::path_parts))]
fn write_path<S: Sink>(path: &StringLiteral<'_>, sink: &mut S) -> Result<(), S::Fault>
    ensures { Puts S.took S.failed sink.old result (path_text_of path.now) sink.new }
{
    write_mark(path.expand, sink)?;
    sink.put(path.format_mark())?;
    sink.put(path.token.lexeme())
}

/// Writes the mark `x` of a literal that is expanded.
fn write_mark<S: Sink>(expanded: bool, sink: &mut S) -> Result<(), S::Fault>
    ensures { Puts S.took S.failed sink.old result (mark_text expanded) sink.new }
{
    if expanded {
        put_piece("x", sink)
    } else {
        Ok(())
    }
}

/// Writes the text of an `unexport` item, without its attributes.
pub(crate) fn write_unexport<S: Sink>(name: &Name<'_>, sink: &mut S) -> Result<(), S::Fault>
    ensures { Puts S.took S.failed sink.old result (unexport_text_of name.now) sink.new }
{
    put_piece("unexport ", sink)?;
    sink.put(name.lexeme())
}
