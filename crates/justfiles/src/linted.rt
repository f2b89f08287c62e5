//! The lines that tell what is wrong with files.
ghost use Rattle.std.specs.Prelude.{◌≡◌, ◌++◌, ◌∷◌, [], IfErr, IfOk, OnOk, map, string_bytes};
ghost use Rattle.std.specs.List.{AllZip};
ghost use Rattle.justfile_files.specs.Formatter.{IfRejected, IsExhausted};
ghost use Rattle.justfile_files.specs.Sources.{source_of, sources};
ghost use Rattle.justfiles.specs.Justfile.{IsRejected};
ghost use Rattle.justfiles.specs.Linted.{AreRejected, IsPart, LeadTo, NamesPaths, SaysSo, TellFiles, may_first_be_imported};

use crate::located::{locate_all, push_paths};
use crate::refusal::refusal;
use justfile_ast::Ast;
use justfile_canonical::fault::FormatFault;
use justfile_canonical::formatting::parse;
use justfile_files::formatter::Refusal;
use justfile_files::sources::SourceFile;
use justfile_lint::{FileFacts, file_facts, file_links, may_be_imported};
use justfile_problem_lines::{import_paths, lines_of_files};
use justfile_problems::ModuleFile;
use module_paths::Folders;
use std::alloc::{AllocError, Global};

/// Returns the paths of the files that a text imports and of those of its modules, which is that of the
/// file at a path. There are none if it is no justfile.
///
/// # Errors
///
/// Memory ran out.
pub(crate) fn paths_in<F: Folders>(
    alloc: Global,
    folders: &F,
    path: &str,
    source: &str,
) -> Result<Vec<String>, AllocError>
    ensures { IfOk result
        (λ paths. LeadTo F.has path.now source.now (map string_bytes paths.items)) }
{
    if !may_lead(source) {
        return Ok(Vec::new(alloc));
    }
    match parse(alloc, path, source) {
        Ok(ast) => {
            let mut ast = ast;
            paths_of(alloc, folders, path, &mut ast)
        }
        Err(FormatFault::Memory) => Err(AllocError),
        Err(_) => Ok(Vec::new(alloc)),
    }
}

/// Whether a text may have an import or a module. Its items begin where a line does, or in a line that
/// begins with a byte order mark or continues a blank one.
fn may_lead(source: &str) -> bool {
    source.lines().any(|line| {
        line.starts_with("import")
            || line.starts_with("mod")
            || line.starts_with('\u{feff}')
            || line.starts_with('\\')
    })
}

/// Returns the paths of the files that a file imports and of those of its modules, which is at a path.
fn paths_of<F: Folders>(
    alloc: Global,
    folders: &F,
    path: &str,
    ast: &mut Ast<'_>,
) -> Result<Vec<String>, AllocError>
    ensures { IfOk result
        (λ paths. NamesPaths F.has path.now ast.old (map string_bytes paths.items)) }
{
    let links = file_links(ast, alloc)?;
    let mut paths = import_paths(alloc, path, &links.imports)?;
    let modules = locate_all(alloc, folders, path, &links.submodules)?;
    push_paths(&modules, &mut paths)?;
    Ok(paths)
}

/// Returns the lines that tell what is wrong with the first of the files and those that it leads to. At
/// the paths `missing` there is no file.
///
/// # Errors
///
/// One of the texts isn't a justfile, or memory or numbers run out.
pub(crate) fn lines_of<F: Folders>(
    alloc: Global,
    folders: &F,
    files: &[SourceFile],
    missing: &[String],
) -> Result<String, Refusal>
    ensures ok { IfOk result
        (λ lines. TellFiles F.has (sources files.now) missing.now (string_bytes lines)) }
    ensures err { IfErr result (IfRejected (AreRejected (sources files.now))) }
{
    let parts = parts_of(alloc, folders, files)?;
    match lines_of_files(alloc, may_first_be_imported(files), &parts, missing) {
        Ok(lines) => Ok(lines),
        Err(_) => Err(Refusal::Exhausted("out of memory")),
    }
}

/// Whether another file may import the first one.
fn may_first_be_imported(files: &[SourceFile]) -> bool
    ensures { result ≡ may_first_be_imported (sources files.now) }
{
    match files {
        [] => false,
        [file, ..] => may_be_imported(file.name.as_str()),
    }
}

/// Returns what the files say.
#[tactic(auto, using(crate::proofs::Told::one_part, crate::proofs::Told::rejected_at))]
fn parts_of<'src, F: Folders>(
    alloc: Global,
    folders: &F,
    files: &'src [SourceFile],
) -> Result<Vec<ModuleFile<'src>>, Refusal>
    ensures ok { IfOk result (λ parts. AllZip (IsPart F.has) (sources files.now) parts.items) }
    ensures err { IfErr result (IfRejected (AreRejected (sources files.now))) }
{
    let mut parts = Vec::new(alloc);
    for file in files {
        match part_of(alloc, folders, file) {
            Ok(part) => push_part(part, &mut parts)?,
            Err(refusal) => return Err(refusal),
        }
    }
    Ok(parts)
}

/// Appends what a file says.
fn push_part<'src>(
    part: ModuleFile<'src>,
    parts: &mut Vec<ModuleFile<'src>>,
) -> Result<(), AllocError>
    ensures { OnOk result (parts.new.items ≡ parts.old.items ++ part.entry ∷ []) }
{
    parts.push(part)?;
    Ok(())
}

/// Returns what a file says.
#[tactic(auto, using(crate::proofs::Refusals::refused))]
fn part_of<'src, F: Folders>(
    alloc: Global,
    folders: &F,
    file: &'src SourceFile,
) -> Result<ModuleFile<'src>, Refusal>
    ensures ok { IfOk result (IsPart F.has (source_of file.now)) }
    ensures err { IfErr result
        (IfRejected (IsRejected (string_bytes file.now.name) (string_bytes file.now.text))) }
{
    let (name, source) = (file.name.as_str(), file.text.as_str());
    match parse(alloc, name, source) {
        Ok(ast) => {
            let mut ast = ast;
            part_in(alloc, folders, name, file.path.as_str(), source, &mut ast)
        }
        Err(fault) => Err(refusal(alloc, name, source, fault)),
    }
}

/// Returns what the file of a text says.
fn part_in<'src, F: Folders>(
    alloc: Global,
    folders: &F,
    name: &'src str,
    path: &'src str,
    source: &'src str,
    ast: &mut Ast<'src>,
) -> Result<ModuleFile<'src>, Refusal>
    ensures ok { IfOk result (SaysSo F.has ast.old name.now path.now source.now) }
    ensures err { IfErr result IsExhausted }
{
    match module_file(alloc, folders, name, path, source, ast) {
        Ok(part) => Ok(part),
        Err(_) => Err(Refusal::Exhausted("out of memory")),
    }
}

/// Returns what the file at a path says, which has this name in messages and this text.
fn module_file<'src, F: Folders>(
    alloc: Global,
    folders: &F,
    name: &'src str,
    path: &'src str,
    source: &'src str,
    ast: &mut Ast<'src>,
) -> Result<ModuleFile<'src>, AllocError>
    ensures { IfOk result (SaysSo F.has ast.old name.now path.now source.now) }
{
    let FileFacts {
        facts,
        imports,
        submodules,
    } = file_facts(ast, alloc)?;
    let modules = locate_all(alloc, folders, path, &submodules)?;
    Ok(ModuleFile {
        name,
        path,
        source,
        facts,
        imports,
        modules,
    })
}
