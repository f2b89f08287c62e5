//! Spans and lines.
ghost use Rattle.std.specs.Prelude.{◌≡◌, ◌≤◌, count_by, length};
ghost use Rattle.justfile_chunks.specs.Spans.{span};
ghost use Rattle.justfile_recovery.specs.Places.{LiesIn};

use justfile_chunks::Span;

/// Returns the span from one offset up to another one, or as much of it as lies in a text of this
/// length.
pub fn span_in(length: usize, start: usize, end: usize) -> Span
    ensures inside { LiesIn length result }
    ensures whole { start ≤ end → end ≤ length → result ≡ span start end }
{
    let end = end.min(length);
    Span {
        start: start.min(end),
        end,
    }
}

/// Returns the number of line feeds.
pub fn line_feeds(bytes: &[u8]) -> usize
    ensures { result ≤ length bytes.now }
{
    bytes.iter().filter(|byte| **byte == b'\n').count()
}
