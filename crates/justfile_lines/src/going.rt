//! Going along a text, from a place on.
ghost use Rattle.std.specs.Prelude.{◌≡◌, ◌+◌, ◌<◌, ◌≤◌, ◌-◌, ℕ, false, length, take};
ghost use Rattle.std.specs.Str.{IsCharBoundary, IsUtf8};
ghost use Rattle.justfile_lines.specs.declared.encoding.Encoding.{Encoding};
ghost use Rattle.justfile_lines.specs.Positions.{IsPlace};
ghost use Rattle.justfile_lines.specs.Going.{IsBefore, IsInText, IsUpTo, after_byte, after_size, first_place, is_past, longest, place_after, size_between};

use crate::encoding::Encoding;
use crate::position::{Place, Position};
use crate::walk::{last_line, width};
use memchr::memchr;

impl Place {
    /// Whether the place is in a later line than a position, or at a greater column of its line.
    pub fn is_past(self, position: Position) -> bool
        ensures { result ≡ is_past position self }
    {
        position.line < self.position.line
            || (position.line == self.position.line && position.column < self.position.column)
    }

    /// Returns the place after a byte.
    fn after_byte(self, encoding: Encoding, byte: u8) -> Place
        requires short { self.offset < longest }
        requires place { IsInText self }
        ensures { result ≡ after_byte encoding self byte }
    {
        let offset = self.offset + 1;
        let position = if byte == b'\n' {
            Position {
                line: self.position.line + 1,
                column: 0,
            }
        } else {
            Position {
                line: self.position.line,
                column: self.position.column + encoding.byte_units(byte),
            }
        };
        Place { offset, position }
    }

    /// Returns the size of a text: the place after it, if it begins where texts do.
    pub fn size_of(encoding: Encoding, text: &str) -> Place
        requires { length text.now ≤ longest }
        ensures { result ≡ place_after encoding first_place text.now }
    {
        let (line, last) = last_line(text.as_bytes());
        Place {
            offset: text.len(),
            position: Position {
                line,
                column: width(encoding, last),
            },
        }
    }

    /// Returns the place of an offset of a text that isn't before this place: the text between the two is
    /// gone along.
    pub fn on_to(self, encoding: Encoding, text: &str, offset: usize) -> Place
        requires order { self.offset ≤ offset }
        requires within { offset ≤ length text.now }
        requires place { IsPlace encoding text.now self }
        ensures offset { result.offset ≡ offset }
        ensures is { IsPlace encoding text.now result }
    {
        let (before, _) = text.as_bytes().split_at(offset);
        let (_, between) = before.split_at(self.offset);
        let (line, last) = last_line(between);
        let column = width(encoding, last);
        self.after_size(Place {
            offset: between.len(),
            position: Position { line, column },
        })
    }

    /// Returns the place after a text with a size that begins at this one.
    pub fn after_size(self, size: Place) -> Place
        requires short { self.offset + size.offset ≤ longest }
        requires place { IsInText self }
        requires size { IsInText size }
        ensures { result ≡ after_size self size }
    {
        let column = if size.position.line == 0 {
            self.position.column + size.position.column
        } else {
            size.position.column
        };
        let line = self.position.line + size.position.line;
        Place {
            offset: self.offset + size.offset,
            position: Position { line, column },
        }
    }

    /// Returns the size of the text that leads from a place to this one.
    pub fn size_from(self, start: Place) -> Place
        ensures { result ≡ size_between start self }
    {
        let column = if self.position.line == start.position.line {
            self.position.column.saturating_sub(start.position.column)
        } else {
            self.position.column
        };
        let line = self.position.line.saturating_sub(start.position.line);
        Place {
            offset: self.offset.saturating_sub(start.offset),
            position: Position { line, column },
        }
    }

    /// Returns the beginning of the line with this number in a text that begins at this place, or of its
    /// last line if it has fewer: this place itself if it is in that line.
    fn to_line(self, text: &[u8], line: usize) -> Place
        requires utf8 { IsUtf8 text.now }
        requires short { self.offset + length text.now ≤ longest }
        ensures from { self.offset ≤ result.offset }
        ensures boundary { IsCharBoundary text.now (result.offset - self.offset) }
        ensures is { (encoding : Encoding)
            → result ≡ place_after encoding self (take (result.offset - self.offset) text.now) }
        ensures before { IsBefore self line result }
    {
        let mut here = self;
        let mut at = 0;
        'lines: while here.position.line < line {
            let Some(feed) = memchr(b'\n', &text[at..]) else {
                return here;
            };
            at += feed + 1;
            here = Place {
                offset: self.offset + at,
                position: Position {
                    line: here.position.line + 1,
                    column: 0,
                },
            };
        }
        here
    }

    /// Returns the last place that isn't past a position, in a text that begins at this place, which isn't
    /// past it.
    pub fn up_to(self, encoding: Encoding, text: &str, position: Position) -> Place
        requires short { self.offset + length text.now ≤ longest }
        requires place { IsInText self }
        requires up_to { is_past position self ≡ false }
        ensures { (count : ℕ) × IsUpTo encoding self text.now position count
            × (result ≡ place_after encoding self (take count text.now))
            × (result.offset ≡ self.offset + count) }
    {
        let bytes = text.as_bytes();
        let mut here = self.to_line(bytes, position.line);
        let mut last = here;
        let mut at = here.offset - self.offset;
        let mut count = at;
        'bytes: while at < bytes.len() {
            here = here.after_byte(encoding, bytes[at]);
            if here.is_past(position) {
                return last;
            }
            at += 1;
            if text.is_char_boundary(at) {
                count = at;
                last = here;
            }
        }
        last
    }
}
