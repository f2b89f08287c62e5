//! Kinds of tokens, as the protocol writes them: five numbers for each token, of which the first two
//! are how far it is after the one before, in lines, and in columns if it is in the same line.

use crate::shown::Shown;
use editor_language::Colored;
use justfile_lines::{Place, Position};
use std::alloc::{AllocError, Global};
use text_edits::Range;

/// Returns the numbers of tokens. A token over several lines is one for each line.
pub(crate) fn token_numbers(
    alloc: Global,
    shown: &Shown<'_>,
    tokens: &[Colored],
) -> Result<Vec<usize>, AllocError> {
    let mut numbers = Vec::new(alloc);
    let mut before = Position { line: 0, column: 0 };
    let mut known = Place::start();
    for token in tokens {
        let (range, end) = shown.range_after(known, token.span);
        before = push_token(&mut numbers, shown, range, token.kind.index(), before)?;
        known = end;
    }
    Ok(numbers)
}

/// Adds the numbers of a token after a position. Returns where its last part begins.
fn push_token(
    numbers: &mut Vec<usize>,
    shown: &Shown<'_>,
    range: Range,
    kind: usize,
    before: Position,
) -> Result<Position, AllocError> {
    let mut last = before;
    for line in range.start.line..range.end.line.saturating_add(1) {
        let start = if line == range.start.line {
            range.start.column
        } else {
            0
        };
        let end = if line == range.end.line {
            range.end.column
        } else {
            shown.line_width(line)
        };
        if start < end {
            let part = Position {
                line,
                column: start,
            };
            push_part(numbers, last, part, end - start, kind)?;
            last = part;
        }
    }
    Ok(last)
}

/// Adds the numbers of a part of a token in one line.
fn push_part(
    numbers: &mut Vec<usize>,
    before: Position,
    part: Position,
    width: usize,
    kind: usize,
) -> Result<(), AllocError> {
    let column = if part.line == before.line {
        part.column.saturating_sub(before.column)
    } else {
        part.column
    };
    numbers.push(part.line.saturating_sub(before.line))?;
    numbers.push(column)?;
    numbers.push(width)?;
    numbers.push(kind)?;
    numbers.push(0)?;
    Ok(())
}
