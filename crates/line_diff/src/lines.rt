//! The lines of a text.
ghost use Rattle.std.specs.Prelude.{◌≡◌, ◌<◌, ◌∷◌, IfOk, length, take, drop};
ghost use Rattle.std.specs.Str.{IsCharBoundary};
ghost use Rattle.line_diff.specs.Lines.{text_lines, texts_of};

use std::alloc::{AllocError, Global};

/// Returns the lines of a text, each with its line feed. The last line has none if the text doesn't
/// end in one.
///
/// # Errors
///
/// Memory ran out.
pub fn lines_of<'a>(alloc: Global, text: &'a str) -> Result<Vec<&'a str>, AllocError>
    ensures { IfOk result (λ lines. texts_of lines.items ≡ text_lines text.now) }
{
    let mut lines = Vec::new(alloc);
    let mut rest = text;
    'lines: while !rest.is_empty() {
        let (line, after) = rest.split_at(first_line_length(rest));
        lines.push(line)?;
        rest = after;
    }
    Ok(lines)
}

/// Returns the number of bytes of the first line, with its line feed.
fn first_line_length(text: &str) -> usize
    requires { 0 < length text.now }
    ensures boundary { IsCharBoundary text.now result }
    ensures some { 0 < result }
    ensures first { text_lines text.now
        ≡ take result text.now ∷ text_lines (drop result text.now) }
{
    let length = text.len();
    match text.find('\n') {
        Some(feed) => feed + 1,
        None => length,
    }
}
