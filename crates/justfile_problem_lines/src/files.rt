//! The lines that tell what is wrong with a file and those that it leads to.
ghost use Rattle.std.specs.Prelude.{◌≡◌, ◌++◌, ◌&&◌, IfOk, OnOk, nat_eq, string_bytes};
ghost use Rattle.std.specs.List.{flat_map};
ghost use Rattle.justfile_problem_lines.specs.Modules.{TellFilesOf, TellLinked, TellModule, TellModules, link_lines, no_file_text, no_import_text, no_module_text};

use crate::groups::first_files;
use crate::lines::append;
use crate::links::all_links;
use crate::module::module_lines;
use crate::rings::import_circles;
use justfile_problems::{Link, ModuleFile, Target};
use justfile_token::Token;
use std::alloc::{AllocError, Global};

/// Returns the lines that tell what is wrong with a file, the first one, and those that it leads to:
/// first the imports and the modules that lead to no file, then for each module the problems of its
/// files and of their uses of what modules define, and the circles of its first file; then the circles
/// of files. `imported` is whether yet another file may import the first one, and at the paths
/// `missing` there is no file. If it may be imported, or if an import leads to none of the files, then
/// names that they lack aren't wrong.
///
/// # Errors
///
/// `AllocError` if memory runs out.
pub fn lines_of_files(
    alloc: Global,
    imported: bool,
    files: &[ModuleFile<'_>],
    missing: &[String],
) -> Result<String, AllocError>
    ensures { IfOk result
        (λ lines. TellFilesOf imported files.now missing.now (string_bytes lines)) }
{
    let links = all_links(alloc, files, missing)?;
    linked_lines(alloc, imported, files, &links)
}

/// Returns these lines, where imports and modules lead so.
fn linked_lines(
    alloc: Global,
    imported: bool,
    files: &[ModuleFile<'_>],
    links: &[Link<'_>],
) -> Result<String, AllocError>
    ensures { IfOk result
        (λ lines. TellLinked imported files.now links.now (string_bytes lines)) }
{
    let mut lines = missing_lines(alloc, links)?;
    let first = first_files(alloc, links)?;
    let modules = modules_lines(alloc, imported, files, links, &first)?;
    append(&modules, &mut lines)?;
    let imports = import_circles(alloc, files, links)?;
    append(&imports, &mut lines)?;
    Ok(lines)
}

/// Returns the lines that tell what is wrong with the modules that begin with these files.
fn modules_lines(
    alloc: Global,
    imported: bool,
    files: &[ModuleFile<'_>],
    links: &[Link<'_>],
    first: &[usize],
) -> Result<String, AllocError>
    ensures { IfOk result (λ lines.
        TellModules imported files.now links.now first.now (string_bytes lines)) }
{
    let mut lines = String::new(alloc);
    for index in first {
        let part = lines_at(alloc, imported, files, links, *index)?;
        append(&part, &mut lines)?;
    }
    Ok(lines)
}

/// Returns the lines that tell what is wrong with the module that begins with the file with this
/// index. Only the first file of all may be imported by yet another one.
fn lines_at(
    alloc: Global,
    imported: bool,
    files: &[ModuleFile<'_>],
    links: &[Link<'_>],
    index: usize,
) -> Result<String, AllocError>
    ensures { IfOk result (λ lines. TellModule (imported && nat_eq index 0) files.now links.now
        index (string_bytes lines)) }
{
    module_lines(alloc, imported && index == 0, files, links, index)
}

/// Returns the lines that tell imports and modules that should lead to a file and don't.
#[tactic(auto, using(std::proofs::lemmas::List::flat_map_more, std::proofs::lemmas::List::take_more))]
fn missing_lines(alloc: Global, links: &[Link<'_>]) -> Result<String, AllocError>
    ensures { IfOk result (λ lines. string_bytes lines ≡ flat_map link_lines links.now) }
{
    let mut lines = String::new(alloc);
    for link in links {
        push_missing(alloc, link, &mut lines)?;
    }
    Ok(lines)
}

/// Appends the lines that tell an import or a module, if it should lead to a file and doesn't.
fn push_missing(alloc: Global, link: &Link<'_>, lines: &mut String) -> Result<(), AllocError>
    ensures { OnOk result (string_bytes lines.new ≡ string_bytes lines.old ++ link_lines link.now) }
{
    if link.optional {
        return Ok(());
    }
    match link.target {
        Target::Nothing => push_no_file(alloc, link, lines),
        Target::File(_) | Target::Unknown => Ok(()),
    }
}

/// Appends the lines that tell that there is no file for an import or a module.
fn push_no_file(alloc: Global, link: &Link<'_>, lines: &mut String) -> Result<(), AllocError>
    ensures { OnOk result (string_bytes lines.new
        ≡ string_bytes lines.old ++ no_file_text link.now.submodule link.now.token) }
{
    match link.submodule {
        Some(name) => push_no_module(alloc, name.lexeme(), name.token, lines),
        None => push_no_import(alloc, link.token, lines),
    }
}

/// Appends the lines that tell that there is no file at the path with this token.
fn push_no_import(alloc: Global, token: Token<'_>, lines: &mut String) -> Result<(), AllocError>
    ensures { OnOk result
        (string_bytes lines.new ≡ string_bytes lines.old ++ no_import_text token.entry) }
{
    let text = format!(in alloc; "error: could not find source file for import\n{token}\n")?;
    append(&text, lines)
}

/// Appends the lines that tell that there is no file for the module with this name, which has this
/// token.
fn push_no_module(
    alloc: Global,
    name: &str,
    token: Token<'_>,
    lines: &mut String,
) -> Result<(), AllocError>
    ensures { OnOk result (string_bytes lines.new
        ≡ string_bytes lines.old ++ no_module_text name.now token.entry) }
{
    let text = format!(in alloc;
        "error: could not find source file for module `{name}`\n{token}\n"
    )?;
    append(&text, lines)
}
