//! The lines of a text.
ghost use Rattle.std.specs.Prelude.{◌≡◌, ℕ, ◌+◌, ◌-◌, ◌<◌, ◌≤◌, IfOk, length};
ghost use Rattle.std.specs.Str.{IsCharBoundary, IsUtf8};
ghost use Rattle.justfile_lines.specs.Positions.{IsOffset, IsPlace, column_at, feeds, line_at};
ghost use Rattle.justfile_lines.specs.Starts.{AreStarts, IsStart};

use crate::encoding::Encoding;
use crate::position::{Place, Position};
use crate::walk::{last_up_to, width};
use memchr::memchr;
use std::alloc::{AllocError, Global};

/// A text, and where its lines begin.
#[derive(Drop)]
pub struct Lines<'a> {
    text: &'a str,
    starts: Vec<usize>,
    ghost are_starts: { AreStarts text.now starts.items },
}

impl<'a> Lines<'a> {
    /// Finds the lines of a text.
    ///
    /// # Errors
    ///
    /// Memory ran out.
    pub fn new(alloc: Global, text: &'a str) -> Result<Self, AllocError>
        ensures { IfOk result (λ lines. lines.text.now ≡ text.now) }
    {
        let starts = starts_of(alloc, text.as_bytes())?;
        Ok(Lines { text, starts })
    }

    /// Returns the offset of the end of the text.
    pub fn end(&self) -> usize
        ensures { result ≡ length self.now.text.now }
    {
        self.text.len()
    }

    /// Returns the number of the last line, from 0.
    pub fn last_line(&self) -> usize
        ensures { result ≡ feeds self.now.text.now }
    {
        self.starts.len() - 1
    }

    /// Returns the line of an offset.
    pub fn line(&self, offset: usize) -> usize
        requires { offset ≤ length self.now.text.now }
        ensures { result ≡ line_at self.now.text.now offset }
    {
        let mut low = 0;
        let mut high = self.starts.len();
        'halves: while high - low > 1 {
            let middle = low + (high - low) / 2;
            if self.starts[middle] <= offset {
                low = middle;
            } else {
                high = middle;
            }
        }
        low
    }

    /// Returns the position of an offset.
    pub fn position(&self, encoding: Encoding, offset: usize) -> Position
        requires { offset ≤ length self.now.text.now }
        ensures line { result.line ≡ line_at self.now.text.now offset }
        ensures column { result.column ≡ column_at encoding self.now.text.now offset }
        ensures back { IsCharBoundary self.now.text.now offset
            → IsOffset encoding self.now.text.now result offset }
    {
        let line = self.line(offset);
        let start = self.start(line);
        let (before, _) = self.text.as_bytes().split_at(offset);
        let (_, last) = before.split_at(start);
        let column = width(encoding, last);
        Position { line, column }
    }

    /// Returns the offset of a position. Of a position after the end of its line it is that end,
    /// before the line feed; of one in a character, where that begins; of one after the last line,
    /// the end of the text.
    pub fn offset(&self, encoding: Encoding, position: Position) -> usize
        ensures is { IsOffset encoding self.now.text.now position result }
        ensures back { (offset : ℕ) → IsCharBoundary self.now.text.now offset
            → line_at self.now.text.now offset ≡ position.line
            → column_at encoding self.now.text.now offset ≡ position.column → result ≡ offset }
    {
        let text = self.text;
        if position.line >= self.starts.len() {
            return text.len();
        }
        let start = self.start(position.line);
        let end = self.line_end(position.line);
        last_up_to(encoding, text, start, end, position.column)
    }

    /// Returns the positions of two offsets, at which a part of the text begins and ends.
    pub fn positions(&self, encoding: Encoding, start: usize, end: usize) -> (Position, Position)
        requires starts { IsCharBoundary self.now.text.now start }
        requires ends { IsCharBoundary self.now.text.now end }
        ensures starts { IsOffset encoding self.now.text.now result.0 start }
        ensures ends { IsOffset encoding self.now.text.now result.1 end }
    {
        (self.position(encoding, start), self.position(encoding, end))
    }

    /// Returns the place of an offset. If it follows a known place in a line, the text between the two
    /// is gone along, and otherwise the line from where it begins.
    pub fn place(&self, encoding: Encoding, known: Place, offset: usize) -> Place
        requires within { offset ≤ length self.now.text.now }
        requires place { IsPlace encoding self.now.text.now known }
        ensures is { IsPlace encoding self.now.text.now result }
        ensures offset { result.offset ≡ offset }
        ensures back { IsCharBoundary self.now.text.now offset
            → IsOffset encoding self.now.text.now result.position offset }
    {
        if known.offset <= offset && self.line(offset) == known.position.line {
            let line = known.position.line;
            let column = self.column_after(encoding, known, offset);
            let position = Position { line, column };
            Place { offset, position }
        } else {
            let position = self.position(encoding, offset);
            Place { offset, position }
        }
    }

    /// Returns the column of an offset that follows a known place in its line.
    fn column_after(&self, encoding: Encoding, known: Place, offset: usize) -> usize
        requires within { offset ≤ length self.now.text.now }
        requires place { IsPlace encoding self.now.text.now known }
        requires order { known.offset ≤ offset }
        requires line { line_at self.now.text.now offset ≡ known.position.line }
        ensures { result ≡ column_at encoding self.now.text.now offset }
    {
        let (before, _) = self.text.as_bytes().split_at(offset);
        let (_, between) = before.split_at(known.offset);
        known.position.column + width(encoding, between)
    }

    /// Returns the place of the offset of a position. If it follows a known place in a line, the text
    /// between the two is gone along, and otherwise the line from where it begins.
    pub fn place_of(&self, encoding: Encoding, known: Place, position: Position) -> Place
        requires place { IsPlace encoding self.now.text.now known }
        requires boundary { IsCharBoundary self.now.text.now known.offset }
        ensures is { IsPlace encoding self.now.text.now result }
        ensures offset { IsOffset encoding self.now.text.now position result.offset }
    {
        let offset = self.offset_after(encoding, known, position);
        self.place(encoding, known, offset)
    }

    /// Returns the offset of a position, by a known place.
    fn offset_after(&self, encoding: Encoding, known: Place, position: Position) -> usize
        requires place { IsPlace encoding self.now.text.now known }
        requires boundary { IsCharBoundary self.now.text.now known.offset }
        ensures { IsOffset encoding self.now.text.now position result }
    {
        if position.line != known.position.line || position.column < known.position.column {
            return self.offset(encoding, position);
        }
        let text = self.text;
        let end = self.line_end(position.line);
        let column = position.column - known.position.column;
        last_up_to(encoding, text, known.offset, end, column)
    }

    /// Returns where a line begins.
    fn start(&self, line: usize) -> usize
        requires { line ≤ feeds self.now.text.now }
        ensures { IsStart self.now.text.now line result }
    {
        self.starts[line]
    }

    /// Returns the end of a line, before its line feed.
    fn line_end(&self, line: usize) -> usize
        requires { line ≤ feeds self.now.text.now }
        ensures within { result ≤ length self.now.text.now }
        ensures last { (offset : ℕ) → offset ≤ length self.now.text.now
            → line_at self.now.text.now offset ≡ line → offset ≤ result }
        ensures in_line { (offset : ℕ) → offset ≤ result
            → line_at self.now.text.now offset ≤ line }
    {
        if line + 1 < self.starts.len() {
            self.starts[line + 1] - 1
        } else {
            self.text.len()
        }
    }
}

/// Returns the offsets at which the lines of a text begin.
#[tactic(auto, using(crate::proofs::Columns::first_start))]
fn starts_of(alloc: Global, text: &[u8]) -> Result<Vec<usize>, AllocError>
    requires { IsUtf8 text.now }
    ensures { IfOk result (λ starts. AreStarts text.now starts.items) }
{
    let mut starts = Vec::new(alloc);
    starts.push(0)?;
    let mut at = 0;
    while let Some(before) = memchr(b'\n', &text[at..]) {
        at += before + 1;
        starts.push(at)?;
    }
    Ok(starts)
}
