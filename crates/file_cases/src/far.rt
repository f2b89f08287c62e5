//! A text of many lines, of which the first and the last change.
use line_diff::unified_diff;
use std::alloc::{AllocError, Global};

/// How many lines lie between the two.
const LINES: u32 = 2_100;

/// Returns the diff of the text: two short hunks.
pub fn far_diff(alloc: Global) -> Result<String, AllocError> {
    let old = text(alloc, "old\n")?;
    let new = text(alloc, "new\n")?;
    unified_diff(alloc, "far", old.as_str(), new.as_str())
}

/// Returns the text with these lines as the first and the last.
fn text(alloc: Global, ends: &str) -> Result<String, AllocError> {
    let mut text = ends.to_string(alloc)?;
    for number in 0..LINES {
        text.push_str(format!(in alloc; "line {number}\n")?.as_str())?;
    }
    text.push_str(ends)?;
    Ok(text)
}
