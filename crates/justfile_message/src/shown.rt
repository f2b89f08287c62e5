//! How messages show line numbers, blanks and characters.
ghost use Rattle.std.specs.Prelude.{Some};
ghost use Rattle.std.specs.Fmt.{DisplaysOnOk};
ghost use Rattle.justfile_message.specs.Shown.{blank_text, blanks_text, four_digits};

use std::fmt;

/// A line of a source, counted from 0. It is written as counted from 1.
#[derive(Clone, Copy)]
pub struct LineNumber(pub usize);

impl fmt::Display for LineNumber {
    ghost use Rattle.justfile_message.specs.Shown.{line_text};

    ghost output = { λ line. Some (line_text line.0) };

    fn fmt<W: fmt::Write>(&self, f: &mut fmt::Formatter<W>) -> fmt::Result {
        // An `u128` can hold the successor of any `usize`.
        let number = self.0 as u128 + 1;
        write!(f, "{number}")
    }
}

/// A text with visible blanks: a space is written as `␠`, and a tab as `␉`.
#[derive(Clone, Copy)]
pub struct Blanks<'a>(pub &'a str);

/// Writes a character with visible blanks.
fn write_blank<W: fmt::Write>(character: char, f: &mut fmt::Formatter<W>) -> fmt::Result
    ensures { DisplaysOnOk W.write_str_gives f.old result (Some (blank_text character)) f.new }
{
    if character == ' ' {
        f.write_char('␠')
    } else if character == '\t' {
        f.write_char('␉')
    } else {
        f.write_char(character)
    }
}

/// Writes a text with visible blanks.
fn write_blanks<W: fmt::Write>(text: &str, f: &mut fmt::Formatter<W>) -> fmt::Result
    ensures { DisplaysOnOk W.write_str_gives f.old result (Some (blanks_text text.now)) f.new }
{
    for character in text.chars() {
        write_blank(character, f)?;
    }
    Ok(())
}

impl fmt::Display for Blanks<'_> {
    ghost output = { λ blanks. Some (blanks_text blanks.0.now) };

    fn fmt<W: fmt::Write>(&self, f: &mut fmt::Formatter<W>) -> fmt::Result {
        write_blanks(self.0, f)
    }
}

/// A character that may not follow a backslash, as messages show it: a backtick after a backslash,
/// a space and the other graphic characters of ASCII as they are, and any other one as an escape.
#[derive(Clone, Copy)]
pub struct Escaped(pub char);

impl fmt::Display for Escaped {
    ghost use Rattle.justfile_message.specs.Shown.{escaped_text};

    ghost output = { λ escaped. Some (escaped_text escaped.0) };

    fn fmt<W: fmt::Write>(&self, f: &mut fmt::Formatter<W>) -> fmt::Result {
        let character = self.0;
        if character == '`' {
            f.write_str("\\`")
        } else if character == '\t' {
            f.write_str("\\t")
        } else if character == '\r' {
            f.write_str("\\r")
        } else if character == '\n' {
            f.write_str("\\n")
        } else if character == ' ' || character.is_ascii_graphic() {
            f.write_char(character)
        } else {
            let number = character as u32;
            write!(f, "\\u{{{number:x}}}")
        }
    }
}

/// Writes a number with at least four uppercase hexadecimal digits.
fn write_four_digits<W: fmt::Write>(number: u32, f: &mut fmt::Formatter<W>) -> fmt::Result
    ensures { DisplaysOnOk W.write_str_gives f.old result (Some (four_digits number)) f.new }
{
    write!(f, "{number:04X}")
}

/// A character in quotes, with its code point unless it is a graphic character of ASCII.
#[derive(Clone, Copy)]
pub struct Start(pub char);

impl fmt::Display for Start {
    ghost use Rattle.justfile_message.specs.Shown.{start_text};

    ghost output = { λ start. Some (start_text start.0) };

    fn fmt<W: fmt::Write>(&self, f: &mut fmt::Formatter<W>) -> fmt::Result {
        let character = self.0;
        write!(f, "'{character}'")?;
        if character.is_ascii_graphic() {
            return Ok(());
        }
        f.write_str(" (U+")?;
        write_four_digits(character as u32, f)?;
        f.write_str(")")
    }
}
