//! The lines of a text, found one after the other.
ghost use Rattle.std.specs.Prelude.{◌≡◌, ◌<◌, drop, length};
ghost use Rattle.std.specs.Str.Lines.{lines};
ghost use Rattle.justfile_message.specs.Columns.{line_at};

use justfile_message::columns::line_at;

/// Returns what follows the first line of a text.
fn after_line(text: &str) -> &str
    ensures lines { lines result.now ≡ drop 1 (lines text.now) }
    ensures shorter { 0 < length text.now → length result.now < length text.now }
{
    match text.split_once('\n') {
        Some((_, rest)) => rest,
        None => "",
    }
}

/// Returns what follows so many lines of a text.
fn after_lines(text: &str, count: usize) -> &str
    ensures { lines result.now ≡ drop count (lines text.now) }
{
    let mut rest = text;
    let mut left = count;
    while left > 0 && !rest.is_empty() {
        rest = after_line(rest);
        left -= 1;
    }
    rest
}

/// A place in a text, at the beginning of a line. It moves from line to line, so that lines that are
/// asked for in their order take one pass over the text.
#[derive(Drop)]
pub(crate) struct LineCursor<'src> {
    /// The text.
    source: &'src str,
    /// The number of the line, from 0.
    number: usize,
    /// The text from this line on.
    rest: &'src str,
    ghost is_rest: { lines rest.now ≡ drop number (lines source.now) },
}

impl<'src> LineCursor<'src> {
    /// Returns the beginning of a text.
    pub(crate) fn new(source: &'src str) -> Self
        ensures { result.source.now ≡ source.now }
    {
        LineCursor {
            source,
            number: 0,
            rest: source,
        }
    }

    /// Returns the text from the line with this number on.
    fn rest_from(&self, number: usize) -> &'src str
        ensures { lines result.now ≡ drop number (lines self.now.source.now) }
    {
        if number < self.number {
            after_lines(self.source, number)
        } else {
            after_lines(self.rest, number - self.number)
        }
    }

    /// Moves to the line with this number, and returns it without its line end, or the empty text if
    /// there is no such line.
    pub(crate) fn line(&mut self, number: usize) -> &'src str
        ensures line { result.now ≡ line_at self.old.source.now number }
        ensures source { self.new.source.now ≡ self.old.source.now }
    {
        let source = self.source;
        let rest = self.rest_from(number);
        *self = LineCursor {
            source,
            number,
            rest,
        };
        line_at(rest, 0)
    }
}
