//! The files that names lead to.
ghost use Rattle.std.specs.Prelude.{◌≡◌, [], ◌∷◌, List, ℕ, Option, Some, IfOk};
ghost use Rattle.justfile_files.specs.Found.{LeadTo, names_at};
ghost use Rattle.justfile_files.specs.Request.{texts};

use crate::folder::Folder;
use module_paths::justfiles_in;
use std::alloc::{AllocError, Global};

/// Returns the names of the files that names lead to: of a folder those of the justfiles in it and
/// below, and of folders there that can't be searched, or its own name if there are none; of
/// anything else its own name.
///
/// # Errors
///
/// Memory ran out.
pub(crate) fn find_files<D: Folder>(
    alloc: Global,
    folder: &D,
    names: &[String],
) -> Result<Vec<String>, AllocError>
    ensures { IfOk result (λ found. LeadTo D.lists folder.now (texts names.now)
        (texts found.items)) }
{
    let mut found = Vec::new(alloc);
    for name in names {
        found.append(&mut found_at(alloc, folder, name.as_str())?)?;
    }
    Ok(found)
}

/// Returns the names of the files that a name leads to.
fn found_at<D: Folder>(alloc: Global, folder: &D, name: &str) -> Result<Vec<String>, AllocError>
    ensures { IfOk result (λ found. (inside : Option (List (List ℕ)))
        × D.lists folder.now name.now inside
        × (texts found.items ≡ names_at name.now inside)) }
{
    match folder.files_in(alloc, name)? {
        Some(inside) => names_inside(alloc, name, &inside),
        None => own_name(alloc, name),
    }
}

/// Returns the names of the justfiles among the files in a folder and below, of which it is passed
/// the names within the folder. If there are none, it returns the folder's own name.
fn names_inside(alloc: Global, name: &str, inside: &[String]) -> Result<Vec<String>, AllocError>
    ensures { IfOk result (λ found. texts found.items
        ≡ names_at name.now (Some (texts inside.now))) }
{
    let found = justfiles_in(alloc, name, inside)?;
    if found.is_empty() {
        return own_name(alloc, name);
    }
    Ok(found)
}

/// Returns a name alone.
fn own_name(alloc: Global, name: &str) -> Result<Vec<String>, AllocError>
    ensures { IfOk result (λ names. texts names.items ≡ name.now ∷ []) }
{
    let mut names = Vec::new(alloc);
    names.push(name.to_string(alloc)?)?;
    Ok(names)
}
