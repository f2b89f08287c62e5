//! The justfiles of a folder.
ghost use Rattle.std.specs.Prelude.{◌≡◌, [], ◌∷◌, ◌++◌, IfOk, OnOk, map, string_bytes};
ghost use Rattle.std.specs.List.{filter};
ghost use Rattle.module_paths.specs.Justfiles.{ends_alike, is_sought, justfiles_in, path_in};

use std::alloc::{AllocError, Global};

/// Returns the paths of the justfiles among the files in a folder and below, of which it is passed
/// the names within the folder, and of the folders there that can't be searched.
///
/// # Errors
///
/// Memory ran out.
pub fn justfiles_in(
    alloc: Global,
    folder: &str,
    inside: &[String],
) -> Result<Vec<String>, AllocError>
    ensures { IfOk result (λ found. map string_bytes found.items
        ≡ justfiles_in folder.now (map string_bytes inside.now)) }
{
    let mut found = Vec::new(alloc);
    for name in inside {
        push_sought(path_in(alloc, folder, name.as_str())?, &mut found)?;
    }
    Ok(found)
}

/// Adds a path, if it is that of a justfile, or of a folder.
fn push_sought(path: String, found: &mut Vec<String>) -> Result<(), AllocError>
    ensures { OnOk result (map string_bytes found.new.items
        ≡ map string_bytes found.old.items ++ filter is_sought (string_bytes path ∷ [])) }
{
    if !is_sought(path.as_str()) {
        return Ok(());
    }
    found.push(path)?;
    Ok(())
}

/// Returns the path of a name in a folder.
fn path_in(alloc: Global, folder: &str, name: &str) -> Result<String, AllocError>
    ensures { IfOk result (λ path. string_bytes path ≡ path_in folder.now name.now) }
{
    let mut path = folder.to_string(alloc)?;
    if !ends_alike(folder, "/") {
        path.push_str("/")?;
    }
    path.push_str(name)?;
    Ok(path)
}

/// Whether a path in a folder is that of a justfile, or of a folder.
fn is_sought(path: &str) -> bool
    ensures { result ≡ is_sought path.now }
{
    ends_alike(path, ".just")
        || ends_alike(path, "/justfile")
        || ends_alike(path, "/.justfile")
        || ends_alike(path, "/")
}

/// Whether a text ends in this one, in any case of its letters.
fn ends_alike(text: &str, ending: &str) -> bool
    ensures { result ≡ ends_alike text.now ending.now }
{
    let (text, ending) = (text.as_bytes(), ending.as_bytes());
    let (_, last) = text.split_at(text.len().saturating_sub(ending.len()));
    last.eq_ignore_ascii_case(ending)
}
