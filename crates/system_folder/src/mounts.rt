//! Where other file systems and other folders are mounted.

use std::alloc::{AllocError, Global};
use std::{fs, io};

/// Where the system tells what is mounted, a line for each.
const MOUNTS: &str = "/proc/self/mountinfo";

/// Which word of a line is the path.
const PATH_WORD: usize = 4;

/// How many digits of an octal number are after a backslash in a path.
const DIGITS: usize = 3;

/// Returns the paths of mounts below a folder, within it. It finds none without `/proc`.
///
/// # Errors
///
/// Memory ran out.
pub(crate) fn mounts_below(rt: &HostRuntime, folder: &str) -> Result<Vec<String>, AllocError> {
    let mut mounts = Vec::new(rt.alloc());
    let Ok(top) = fs::canonicalize(rt, folder) else {
        return Ok(mounts);
    };
    let Ok(lines) = fs::read(rt, MOUNTS) else {
        return Ok(mounts);
    };
    let lines = String::from_utf8_lossy(rt.alloc(), &lines)?;
    for line in lines.as_str().lines() {
        let Some(word) = line.split(' ').nth(PATH_WORD) else {
            continue;
        };
        let path = unescaped(rt.alloc(), word)?;
        if let Some(inside) = inside_of(top.as_str(), path.as_str()) {
            mounts.push(inside.to_string(rt.alloc())?)?;
        }
    }
    Ok(mounts)
}

/// Returns a path as it is, of how it is written in a line: blanks and backslashes are numbers there.
fn unescaped(alloc: Global, word: &str) -> Result<String, AllocError> {
    let mut parts = word.split('\\');
    let mut path = parts.next().unwrap_or("").to_string(alloc)?;
    for part in parts {
        let (digits, rest) = part.split_at_checked(DIGITS).unwrap_or((part, ""));
        match u8::from_str_radix(digits, 8) {
            Ok(code) => path.push(char::from(code))?,
            Err(_) => path.push_str(digits)?,
        }
        path.push_str(rest)?;
    }
    Ok(path)
}

/// Returns the path within a folder of what is below it.
fn inside_of<'a>(folder: &str, path: &'a str) -> Option<&'a str> {
    path.strip_prefix(folder.trim_end_matches('/'))?
        .strip_prefix('/')
}
