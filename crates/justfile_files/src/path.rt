//! The paths of files that other files name.
ghost use Rattle.std.specs.Prelude.{◌≡◌, ◌++◌, IfOk, OnOk, codes, string_bytes};
ghost use Rattle.justfile_files.specs.Path.{begun, parts_of, path_beside, plain, plain_of, plain_path, seen_from, shown, text_of, up, with_part};

use std::alloc::{AllocError, Global};

/// Returns the path of a file, as another file names it: `named` is seen from the folder in which
/// the file at `path` is.
///
/// # Errors
///
/// Memory ran out.
pub fn path_beside(alloc: Global, path: &str, named: &str) -> Result<String, AllocError>
    ensures { IfOk result (λ made. string_bytes made ≡ path_beside path.now named.now) }
{
    let path = seen_from(alloc, path, named)?;
    plain_path(alloc, path.as_str())
}

/// Returns the path of a file that is seen from the folder in which the file at `path` is.
fn seen_from(alloc: Global, path: &str, named: &str) -> Result<String, AllocError>
    ensures { IfOk result (λ made. string_bytes made ≡ seen_from path.now named.now) }
{
    if named.starts_with('/') {
        named.to_string(alloc)
    } else {
        seen_beside(alloc, path, named)
    }
}

/// Returns the same of a path that isn't seen from the top.
fn seen_beside(alloc: Global, path: &str, named: &str) -> Result<String, AllocError>
    ensures { IfOk result (λ made. string_bytes made ≡ path.now ++ codes "/../" ++ named.now) }
{
    format!(in alloc; "{path}/../{named}")
}

/// Returns a path without parts that say nothing: empty ones, `.`, and names with a `..` after them.
/// Links aren't followed.
///
/// # Errors
///
/// Memory ran out.
pub(crate) fn plain_path(alloc: Global, path: &str) -> Result<String, AllocError>
    ensures { IfOk result (λ made. string_bytes made ≡ plain_path path.now) }
{
    let parts = parts_of(alloc, path)?;
    plain_of(alloc, path.starts_with('/'), &parts)
}

/// Returns the parts of a path.
fn parts_of(alloc: Global, path: &str) -> Result<Vec<&str>, AllocError>
    ensures { IfOk result (λ parts. shown parts.items ≡ parts_of path.now) }
{
    path.split('/').collect(alloc)
}

/// Returns the plain path of these parts. It is one from the top, or not.
fn plain_of(alloc: Global, absolute: bool, parts: &[&str]) -> Result<String, AllocError>
    ensures { IfOk result (λ made. string_bytes made ≡ plain_of absolute (shown parts.now)) }
{
    let mut front = front_of(alloc, absolute)?;
    let mut names = Vec::new(alloc);
    for part in parts {
        take_part(absolute, *part, &mut front, &mut names)?;
    }
    with_names(alloc, front, &names)
}

/// Returns what a path begins with.
fn front_of(alloc: Global, absolute: bool) -> Result<String, AllocError>
    ensures { IfOk result (λ front. string_bytes front ≡ (begun absolute).front) }
{
    if absolute {
        "/".to_string(alloc)
    } else {
        Ok(String::new(alloc))
    }
}

/// Returns the path that begins so and goes on with these names.
fn with_names(alloc: Global, front: String, names: &[&str]) -> Result<String, AllocError>
    ensures { IfOk result (λ made. string_bytes made
        ≡ text_of (plain (string_bytes front) names.now)) }
{
    let mut front = front;
    let names = names.join(alloc, "/")?;
    front.push_str(names.as_str())?;
    Ok(front)
}

/// Takes one more part of a path.
fn take_part<'a>(
    absolute: bool,
    part: &'a str,
    front: &mut String,
    names: &mut Vec<&'a str>,
) -> Result<(), AllocError>
    ensures { OnOk result (plain (string_bytes front.new) names.new.items
        ≡ with_part absolute (plain (string_bytes front.old) names.old.items) part.now) }
{
    if part.is_empty() || part == "." {
        Ok(())
    } else if part == ".." {
        go_up(absolute, front, names)
    } else {
        names.push(part)?;
        Ok(())
    }
}

/// Takes a part that leads to the folder above.
fn go_up(absolute: bool, front: &mut String, names: &mut Vec<&str>) -> Result<(), AllocError>
    ensures { OnOk result (plain (string_bytes front.new) names.new.items
        ≡ up absolute (plain (string_bytes front.old) names.old.items)) }
{
    if names.pop().is_none() && !absolute {
        front.push_str("../")?;
    }
    Ok(())
}
