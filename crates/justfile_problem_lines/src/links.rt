//! Where imports and modules lead.
ghost use Rattle.std.specs.Prelude.{◌≡◌, ◌++◌, IfOk, OnOk, map, string_bytes};
ghost use Rattle.std.specs.List.{flat_map, list_any, position};
ghost use Rattle.justfile_problem_lines.specs.Links.{all_links, file_links, is_at, is_text, link_of, links_from, located, module_link, paths_at, target_at, target_of, without_file};

use justfile_files::path::path_beside;
use justfile_problems::{Import, Link, Located, LocatedModule, ModuleFile, Target};
use std::alloc::{AllocError, Global};

/// Returns the paths of the files to which the imports lead of the file at a path, where that is known.
///
/// # Errors
///
/// `AllocError` if memory runs out.
#[tactic(auto, using(std::proofs::lemmas::List::flat_map_more, std::proofs::lemmas::List::take_more))]
pub fn import_paths(
    alloc: Global,
    path: &str,
    imports: &[Import<'_>],
) -> Result<Vec<String>, AllocError>
    ensures { IfOk result (λ paths.
        map string_bytes paths.items ≡ flat_map (paths_at path.now) imports.now) }
{
    let mut paths = Vec::new(alloc);
    for import in imports {
        push_path(alloc, path, import, &mut paths)?;
    }
    Ok(paths)
}

/// Appends the path of the file to which an import leads, if that is known.
#[tactic(auto, using(crate::proofs::Paths::one_more))]
fn push_path(
    alloc: Global,
    path: &str,
    import: &Import<'_>,
    paths: &mut Vec<String>,
) -> Result<(), AllocError>
    ensures { OnOk result (map string_bytes paths.new.items
        ≡ map string_bytes paths.old.items ++ paths_at path.now import.now) }
{
    if import.plain {
        paths.push(path_beside(alloc, path, import.path.as_str())?)?;
    }
    Ok(())
}

/// Returns where the imports and the modules of files lead, one file after the other. At the paths
/// `missing` there is no file.
#[tactic(auto, using(std::proofs::lemmas::List::flat_map_more, std::proofs::lemmas::List::take_more))]
pub(crate) fn all_links<'src>(
    alloc: Global,
    files: &[ModuleFile<'src>],
    missing: &[String],
) -> Result<Vec<Link<'src>>, AllocError>
    ensures { IfOk result (λ links. links.items ≡ all_links files.now missing.now) }
{
    let mut links = Vec::new(alloc);
    for file in files {
        push_links(alloc, files, missing, file, &mut links)?;
    }
    Ok(links)
}

/// Appends where the imports and the modules of a file lead.
fn push_links<'src>(
    alloc: Global,
    files: &[ModuleFile<'src>],
    missing: &[String],
    file: &ModuleFile<'src>,
    links: &mut Vec<Link<'src>>,
) -> Result<(), AllocError>
    ensures { OnOk result
        (links.new.items ≡ links.old.items ++ file_links files.now missing.now file.now) }
{
    let from = index_in(files, file.path).unwrap_or(0);
    push_links_from(alloc, files, missing, from, file, links)
}

/// Appends where the imports and the modules of a file lead that has this index.
fn push_links_from<'src>(
    alloc: Global,
    files: &[ModuleFile<'src>],
    missing: &[String],
    from: usize,
    file: &ModuleFile<'src>,
    links: &mut Vec<Link<'src>>,
) -> Result<(), AllocError>
    ensures { OnOk result (links.new.items
        ≡ links.old.items ++ links_from files.now missing.now from file.now) }
{
    push_imports(alloc, files, missing, from, file.path, &file.imports, links)?;
    push_modules(files, missing, from, &file.modules, links)
}

/// Appends where these modules lead of the file with this index.
#[tactic(auto, using(std::proofs::lemmas::List::flat_map_more, std::proofs::lemmas::List::take_more))]
fn push_modules<'src>(
    files: &[ModuleFile<'src>],
    missing: &[String],
    from: usize,
    modules: &[LocatedModule<'src>],
    links: &mut Vec<Link<'src>>,
) -> Result<(), AllocError>
    ensures { OnOk result (links.new.items
        ≡ links.old.items ++ flat_map (module_link files.now missing.now from) modules.now) }
{
    for submodule in modules {
        push_module(files, missing, from, submodule, links)?;
    }
    Ok(())
}

/// Appends where a module leads of the file with this index.
fn push_module<'src>(
    files: &[ModuleFile<'src>],
    missing: &[String],
    from: usize,
    submodule: &LocatedModule<'src>,
    links: &mut Vec<Link<'src>>,
) -> Result<(), AllocError>
    ensures { OnOk result (links.new.items
        ≡ links.old.items ++ module_link files.now missing.now from submodule.now) }
{
    links.push(Link {
        from,
        target: located(files, missing, &submodule.file),
        optional: submodule.optional,
        submodule: Some(submodule.name),
        token: submodule.name.token,
    })?;
    Ok(())
}

/// Returns where the file of a module is.
fn located(files: &[ModuleFile<'_>], missing: &[String], file: &Located) -> Target
    ensures { result ≡ located files.now missing.now file.now }
{
    match file {
        Located::At(path) => target_at(files, missing, path.as_str()),
        Located::Nowhere => Target::Nothing,
        Located::Unknown => Target::Unknown,
    }
}

/// Appends where these imports lead of the file with this index and path.
#[tactic(auto, using(std::proofs::lemmas::List::flat_map_more, std::proofs::lemmas::List::take_more))]
fn push_imports<'src>(
    alloc: Global,
    files: &[ModuleFile<'src>],
    missing: &[String],
    from: usize,
    path: &str,
    imports: &[Import<'src>],
    links: &mut Vec<Link<'src>>,
) -> Result<(), AllocError>
    ensures { OnOk result (links.new.items
        ≡ links.old.items ++ flat_map (link_of files.now missing.now from path.now) imports.now) }
{
    for import in imports {
        push_link(alloc, files, missing, from, path, import, links)?;
    }
    Ok(())
}

/// Appends where an import leads of the file with this index and path.
fn push_link<'src>(
    alloc: Global,
    files: &[ModuleFile<'src>],
    missing: &[String],
    from: usize,
    path: &str,
    import: &Import<'src>,
    links: &mut Vec<Link<'src>>,
) -> Result<(), AllocError>
    ensures { OnOk result (links.new.items
        ≡ links.old.items ++ link_of files.now missing.now from path.now import.now) }
{
    links.push(Link {
        from,
        target: target_of(alloc, files, missing, path, import)?,
        optional: import.optional,
        submodule: None,
        token: import.token,
    })?;
    Ok(())
}

/// Returns where an import leads of the file at this path.
fn target_of(
    alloc: Global,
    files: &[ModuleFile<'_>],
    missing: &[String],
    path: &str,
    import: &Import<'_>,
) -> Result<Target, AllocError>
    ensures { IfOk result
        (λ target. target ≡ target_of files.now missing.now path.now import.now) }
{
    if !import.plain {
        return Ok(Target::Unknown);
    }
    let path = path_beside(alloc, path, import.path.as_str())?;
    Ok(target_at(files, missing, path.as_str()))
}

/// Returns what is at a path.
fn target_at(files: &[ModuleFile<'_>], missing: &[String], path: &str) -> Target
    ensures { result ≡ target_at files.now missing.now path.now }
{
    match index_in(files, path) {
        Some(index) => Target::File(index),
        None => without_file(missing, path),
    }
}

/// Returns what is at a path, if none of the files is.
fn without_file(missing: &[String], path: &str) -> Target
    ensures { result ≡ without_file missing.now path.now }
{
    if has_text(missing, path) {
        Target::Nothing
    } else {
        Target::Unknown
    }
}

/// Returns the index of the first file at a path.
fn index_in(files: &[ModuleFile<'_>], path: &str) -> Option<usize>
    ensures { result ≡ position (is_at path.now) files.now }
{
    files.iter().position(|file| file.path == path)
}

/// Whether a text is one of some texts.
fn has_text(texts: &[String], text: &str) -> bool
    ensures { result ≡ list_any (is_text text.now) texts.now }
{
    texts.iter().any(|other| other.as_str() == text)
}
