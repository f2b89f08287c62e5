//! The file that `just` loads for a module.
ghost use Rattle.std.specs.Prelude.{◌≡◌, ℕ, List, [], IfOk, String, option_copied, option_map, string_bytes, unwrap_or};
ghost use Rattle.std.specs.List.{find, list_any};
ghost use Rattle.std.specs.declared.alloc.Global.{Global};
ghost use Rattle.module_paths.specs.Modules.{found_path, is, is_like, joined, own_file, path_within, IsModulePath};

use std::alloc::{AllocError, Global};
use std::fs;

/// What is in folders.
pub trait Folders {
    /// The folder at a path has these names.
    ghost has: { List ℕ → List (String Global) → Type 0 };

    /// Returns the names in the folder at a path, or none if it can't be read.
    ///
    /// # Errors
    ///
    /// Memory ran out.
    fn names(&self, alloc: Global, path: &str) -> Result<Vec<String>, AllocError>
        ensures { IfOk result (λ names. has path.now names.items) };
}

impl Folders for HostRuntime {
    // nothing is known of the system's folders
    ghost has = { λ path names. Unit {0} };

    fn names(&self, alloc: Global, path: &str) -> Result<Vec<String>, AllocError> {
        let mut names = Vec::new(alloc);
        let Ok(entries) = fs::read_dir(self, path) else {
            return Ok(names);
        };
        for entry in entries {
            // a name that isn't UTF-8 is no module's
            let Ok(entry) = entry else { continue };
            names.push(entry.file_name().to_string(alloc)?)?;
        }
        Ok(names)
    }
}

/// Returns a path that is seen from a folder, as the folder's path is seen.
fn joined(alloc: Global, folder: &str, path: &str) -> Result<String, AllocError>
    ensures { IfOk result (λ made. string_bytes made ≡ joined folder.now path.now) }
{
    if path.starts_with('/') {
        return String::from_str(alloc, path);
    }
    format!(in alloc; "{folder}/{path}")
}

/// Whether this is one of the names.
fn has_name(names: &[String], wanted: &str) -> bool
    ensures { result ≡ list_any (is wanted.now) names.now }
{
    names.iter().any(|name| name.as_str() == wanted)
}

/// Returns the first name that is this one.
fn first_that_is<'a>(names: &'a [String], wanted: &str) -> Option<&'a String>
    ensures { option_copied result ≡ find (is wanted.now) names.now }
{
    names.iter().find(|name| name.as_str() == wanted)
}

/// Returns the first name that is this one in any capitalization.
fn first_like<'a>(names: &'a [String], wanted: &str) -> Option<&'a String>
    ensures { option_copied result ≡ find (is_like wanted.now) names.now }
{
    names
        .iter()
        .find(|name| name.as_str().eq_ignore_ascii_case(wanted))
}

/// Returns the name of a module's file among the names in the module's own folder.
#[tactic(auto, using(crate::proofs::Firsts::copied_or))]
fn own_file(names: &[String]) -> Option<&String>
    ensures { option_copied result ≡ own_file names.now }
{
    let exact = first_that_is(names, "mod.just");
    let shown = first_like(names, "justfile");
    let hidden = first_like(names, ".justfile");
    exact.or(shown).or(hidden)
}

/// Returns the path of a module's file by the path of the module's own folder and the names in it.
fn path_within(alloc: Global, folder: &str, names: &[String]) -> Result<Option<String>, AllocError>
    ensures { IfOk result (λ made.
        option_map string_bytes made ≡ path_within folder.now names.now) }
{
    match own_file(names) {
        Some(name) => Ok(Some(format!(in alloc; "{folder}/{name}")?)),
        None => Ok(None),
    }
}

/// Returns the path of the file of a module without a path, by the names beside the justfile and those
/// in the folder that has the module's name.
fn found_path(
    alloc: Global,
    name: &str,
    beside: &[String],
    inside: &[String],
) -> Result<Option<String>, AllocError>
    ensures { IfOk result (λ made.
        option_map string_bytes made ≡ found_path name.now beside.now inside.now) }
{
    let file = format!(in alloc; "{name}.just")?;
    if has_name(beside, file.as_str()) {
        return Ok(Some(file));
    }
    path_within(alloc, name, inside)
}

/// Returns the path of the file of a module with a path, by the names in the folder at the path if it is
/// one.
fn given_path(alloc: Global, given: &str, inside: &[String]) -> Result<String, AllocError>
    ensures { IfOk result (λ made.
        string_bytes made ≡ unwrap_or (path_within given.now inside.now) given.now) }
{
    match path_within(alloc, given, inside)? {
        Some(path) => Ok(path),
        None => String::from_str(alloc, given),
    }
}

/// Returns the names in the folder at a path that is seen from a folder.
///
/// # Errors
///
/// Memory ran out.
pub fn names_in<F: Folders>(
    alloc: Global,
    folders: &F,
    folder: &str,
    path: &str,
) -> Result<Vec<String>, AllocError>
    ensures { IfOk result (λ names. F.has (joined folder.now path.now) names.items) }
{
    let path = joined(alloc, folder, path)?;
    folders.names(alloc, path.as_str())
}

/// Returns the path of the file that `just` loads for a module of a justfile in a folder with these names,
/// as it is seen from there, if there is one. The module is given a path, or has its name alone.
///
/// # Errors
///
/// Memory ran out.
pub fn module_path<F: Folders>(
    alloc: Global,
    folders: &F,
    folder: &str,
    beside: &[String],
    name: &str,
    given: &Option<String>,
) -> Result<Option<String>, AllocError>
    requires { F.has (joined folder.now []) beside.now }
    ensures { IfOk result (λ made. IsModulePath F.has folder.now name.now
        (option_map string_bytes given.now) (option_map string_bytes made)) }
{
    match given {
        Some(given) => {
            let inside = names_in(alloc, folders, folder, given.as_str())?;
            Ok(Some(given_path(alloc, given.as_str(), &inside)?))
        }
        None => {
            let inside = names_in(alloc, folders, folder, name)?;
            found_path(alloc, name, beside, &inside)
        }
    }
}

/// Returns the path of the file that `just` loads for a module of a justfile in a folder, as it is seen
/// from there, if there is one. It reads the names in that folder, which `module_path` is passed.
///
/// # Errors
///
/// Memory ran out.
pub fn module_path_in<F: Folders>(
    alloc: Global,
    folders: &F,
    folder: &str,
    name: &str,
    given: &Option<String>,
) -> Result<Option<String>, AllocError>
    ensures { IfOk result (λ made. IsModulePath F.has folder.now name.now
        (option_map string_bytes given.now) (option_map string_bytes made)) }
{
    let beside = names_in(alloc, folders, folder, "")?;
    module_path(alloc, folders, folder, &beside, name, given)
}
