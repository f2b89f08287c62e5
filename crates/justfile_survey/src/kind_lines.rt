//! The lines that errors name.
ghost use Rattle.std.specs.Prelude.{◌≡◌};
ghost use Rattle.justfile_survey.specs.Errors.{names_lines};

use justfile_token::CompileErrorKind;

/// Whether an error names lines.
pub fn names_lines(kind: &CompileErrorKind<'_>) -> bool
    ensures { result ≡ names_lines kind.now }
{
    matches!(
        kind,
        CompileErrorKind::DuplicateArgAttribute { .. }
            | CompileErrorKind::DuplicateAttribute { .. }
            | CompileErrorKind::DuplicateGroupAttribute { .. }
            | CompileErrorKind::MismatchedClosingDelimiter { .. }
    )
}

/// Moves the lines that an error names.
pub(crate) fn move_lines(kind: &mut CompileErrorKind<'_>, by: usize) {
    match kind {
        CompileErrorKind::DuplicateArgAttribute { first, .. } => move_line(first, by),
        CompileErrorKind::DuplicateAttribute { first, .. } => move_line(first, by),
        CompileErrorKind::DuplicateGroupAttribute { first, .. } => move_line(first, by),
        CompileErrorKind::MismatchedClosingDelimiter { open_line, .. } => move_line(open_line, by),
        _ => {}
    }
}

/// Moves a line.
fn move_line(line: &mut usize, by: usize) {
    *line = line.saturating_add(by);
}
