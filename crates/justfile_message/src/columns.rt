//! Lines of a text as messages show them, and the screen columns of their characters.
ghost use Rattle.std.specs.Prelude.{◌≡◌, ◌+◌, ◌<◌, ◌≤◌, ◌↔◌, IsTrue, IfOk, IsUtf8, Some, chars, codes, length, max};
ghost use Rattle.std.specs.Fmt.{DisplaysOnOk, decimal};
ghost use Rattle.std.specs.List.{repeat, slice_get};
ghost use Rattle.std.specs.Option.{option_map};
ghost use Rattle.std.specs.Str.Lines.{lines};
ghost use Rattle.justfile_message.specs.Columns.{WritesFront, is_among, line_at, shown_line, width_in, width_of};

use std::fmt;
use unicode_width::UnicodeWidthChar;

/// Returns the number, counted from 1, of the element with this index.
pub fn ordinal(index: usize) -> u128
    ensures { result ≡ index + 1 }
{
    index as u128 + 1
}

/// Returns the number of decimal digits of a number.
pub fn digit_count(number: u128) -> usize
    ensures { result ≡ length (decimal number) }
{
    let mut count = 1;
    let mut rest = number;
    while rest >= 10 {
        rest /= 10;
        count += 1;
    }
    count
}

/// Returns the line with this number, from 0, without its line end, or the empty text if there is
/// no such line.
pub fn line_at(text: &str, number: usize) -> &str
    ensures { result.now ≡ line_at text.now number }
{
    match find_line(text, number) {
        Some(line) => line,
        None => "",
    }
}

/// Returns the line with this number, from 0, without its line end, if there is such a line.
fn find_line(text: &str, number: usize) -> Option<&str>
    ensures { option_map (λ line. line.now) result ≡ slice_get (lines text.now) number }
{
    text.lines().nth(number)
}

/// Returns the number of columns that a character takes on the screen.
fn width_of(character: char) -> usize
    ensures { result ≡ width_of character }
{
    if character == '\t' {
        4
    } else {
        character.width().unwrap_or(0)
    }
}

/// Whether a byte position is one of the `count` positions from `start` on.
fn is_among(place: usize, start: usize, count: usize) -> bool
    ensures { result ≡ is_among start count place }
{
    start <= place && place - start < count
}

/// Whether a byte position is after the `count` positions from `start` on.
fn is_past(place: usize, start: usize, count: usize) -> bool
    ensures { IsTrue result ↔ (start + count ≤ place) }
{
    start <= place && place - start >= count
}

/// Whether a character takes a column and begins in the `count` bytes of the line from `start` on.
fn has_width(line: &str, start: usize, count: usize) -> bool
    ensures { IsTrue result ↔ (0 < width_in line.now start count) }
{
    for (place, character) in line.char_indices() {
        if is_among(place, start, count) && width_of(character) > 0 {
            return true;
        }
    }
    false
}

/// Writes a text once for each column of the characters that begin in the `count` bytes of the line
/// from `start` on.
pub fn write_columns<W: fmt::Write>(
    line: &str,
    start: usize,
    count: usize,
    text: &str,
    f: &mut fmt::Formatter<W>,
) -> fmt::Result
    ensures { DisplaysOnOk W.write_str_gives f.old result
        (Some (repeat (width_in line.now start count) text.now)) f.new }
{
    for (place, character) in line.char_indices() {
        if is_past(place, start, count) {
            return Ok(());
        }
        if is_among(place, start, count) {
            f.write_repeated(text, width_of(character))?;
        }
    }
    Ok(())
}

/// How many tabs, at most, are written as one text.
const TABS_AT_ONCE: usize = 8;
/// The spaces for so many tabs.
const SPACES: &str = "                                ";

/// Writes four spaces for each tab at the front of a line, and returns what follows these tabs.
fn write_tabs<'a, W: fmt::Write>(
    line: &'a str,
    f: &mut fmt::Formatter<W>,
) -> Result<&'a str, fmt::Error>
    ensures rest { IfOk result (λ rest. IsUtf8 rest.now × (length rest.now ≤ length line.now)) }
    ensures front { IfOk result
        (λ rest. WritesFront W.write_str_gives f.old line.now rest.now f.new) }
{
    let mut rest = line;
    let mut tabs = 0;
    while let Some(after) = rest.strip_prefix('\t') {
        rest = after;
        tabs += 1;
        if tabs == TABS_AT_ONCE {
            f.write_str(SPACES)?;
            tabs = 0;
        }
    }
    f.write_repeated("    ", tabs)?;
    Ok(rest)
}

/// Writes a line, with four spaces for each tab.
pub fn write_line<W: fmt::Write>(line: &str, f: &mut fmt::Formatter<W>) -> fmt::Result
    ensures { DisplaysOnOk W.write_str_gives f.old result (Some (shown_line line.now)) f.new }
{
    let mut rest = line;
    loop {
        let text = write_tabs(rest, f)?;
        let Some((before, after)) = text.split_once('\t') else {
            return f.write_str(text);
        };
        f.write_str(before)?;
        f.write_str("    ")?;
        rest = after;
    }
}

/// Writes a caret for each column of the characters that begin in the `count` bytes of the line
/// from `start` on, but at least one caret.
pub fn write_carets<W: fmt::Write>(
    line: &str,
    start: usize,
    count: usize,
    f: &mut fmt::Formatter<W>,
) -> fmt::Result
    ensures { DisplaysOnOk W.write_str_gives f.old result
        (Some (repeat (max 1 (width_in line.now start count)) (codes "^"))) f.new }
{
    if has_width(line, start, count) {
        write_columns(line, start, count, "^", f)
    } else {
        f.write_str("^")
    }
}
