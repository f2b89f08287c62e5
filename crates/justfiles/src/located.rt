//! Where the files of modules are.
ghost use Rattle.std.specs.Prelude.{◌≡◌, ◌++◌, IfOk, OnOk, map, option_map, string_bytes};
ghost use Rattle.std.specs.List.{AllZip, flat_map};
ghost use Rattle.justfiles.specs.Located.{IsAt, IsFound, IsLocated, IsPlaced, folder_of, path_of};

use justfile_files::path::path_beside;
use justfile_problems::{Located, LocatedModule, Submodule};
use module_paths::{Folders, module_path_in};
use std::alloc::{AllocError, Global};

/// Returns the folder in which the file at a path is.
fn folder_of(alloc: Global, path: &str) -> Result<String, AllocError>
    ensures { IfOk result (λ folder. string_bytes folder ≡ folder_of path.now) }
{
    let folder = path_beside(alloc, path, ".")?;
    if folder.is_empty() {
        return ".".to_string(alloc);
    }
    Ok(folder)
}

/// Returns the place that is at a path, which is seen from the folder of the file at another one.
fn place_at(alloc: Global, path: &str, found: &Option<String>) -> Result<Located, AllocError>
    ensures { IfOk result (IsAt path.now (option_map string_bytes found.now)) }
{
    match found {
        Some(found) => {
            let at = path_beside(alloc, path, found.as_str())?;
            Ok(Located::At(at))
        }
        None => Ok(Located::Nowhere),
    }
}

/// Returns where the file of a module is which the file at a path has.
fn find_module<F: Folders>(
    alloc: Global,
    folders: &F,
    path: &str,
    submodule: &Submodule<'_>,
) -> Result<Located, AllocError>
    ensures { IfOk result (IsFound F.has path.now submodule.now) }
{
    let folder = folder_of(alloc, path)?;
    let name = submodule.name.token;
    let found = module_path_in(
        alloc,
        folders,
        folder.as_str(),
        name.lexeme(),
        &submodule.path,
    )?;
    place_at(alloc, path, &found)
}

/// Returns the same, or that it isn't known if its path has to be expanded.
fn locate<F: Folders>(
    alloc: Global,
    folders: &F,
    path: &str,
    submodule: &Submodule<'_>,
) -> Result<Located, AllocError>
    ensures { IfOk result (IsLocated F.has path.now submodule.now) }
{
    if submodule.plain {
        find_module(alloc, folders, path, submodule)
    } else {
        Ok(Located::Unknown)
    }
}

/// Returns a module which the file at a path has, with the place of its file.
fn place<'src, F: Folders>(
    alloc: Global,
    folders: &F,
    path: &str,
    submodule: &Submodule<'src>,
) -> Result<LocatedModule<'src>, AllocError>
    ensures { IfOk result (IsPlaced F.has path.now submodule.now) }
{
    let file = locate(alloc, folders, path, submodule)?;
    Ok(LocatedModule {
        name: submodule.name,
        optional: submodule.optional,
        file,
    })
}

/// Returns modules which the file at a path has, with the places of their files.
pub(crate) fn locate_all<'src, F: Folders>(
    alloc: Global,
    folders: &F,
    path: &str,
    submodules: &[Submodule<'src>],
) -> Result<Vec<LocatedModule<'src>>, AllocError>
    ensures { IfOk result (λ modules.
        AllZip (IsPlaced F.has path.now) submodules.now modules.items) }
{
    let mut modules = Vec::new(alloc);
    for submodule in submodules {
        let placed = place(alloc, folders, path, submodule)?;
        modules.push(placed)?;
    }
    Ok(modules)
}

/// Appends the paths of the files of modules, where they are known.
#[tactic(auto, using(std::proofs::lemmas::List::flat_map_more, std::proofs::lemmas::List::take_more))]
pub(crate) fn push_paths(
    modules: &[LocatedModule<'_>],
    paths: &mut Vec<String>,
) -> Result<(), AllocError>
    ensures { OnOk result (map string_bytes paths.new.items
        ≡ map string_bytes paths.old.items ++ flat_map path_of modules.now) }
{
    for located in modules {
        push_path(located, paths)?;
    }
    Ok(())
}

/// Appends the path of the file of a module, if it is known.
#[tactic(auto, using(crate::proofs::Told::one_path))]
fn push_path(located: &LocatedModule<'_>, paths: &mut Vec<String>) -> Result<(), AllocError>
    ensures { OnOk result (map string_bytes paths.new.items
        ≡ map string_bytes paths.old.items ++ path_of located.now) }
{
    match &located.file {
        Located::At(path) => {
            paths.push(path.clone()?)?;
            Ok(())
        }
        Located::Nowhere | Located::Unknown => Ok(()),
    }
}
