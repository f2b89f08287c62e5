//! The longer messages and their parts.
ghost use Rattle.std.specs.Prelude.{Some, codes, string_bytes};
ghost use Rattle.std.specs.Fmt.{DisplaysOnOk, ◌++?◌};
ghost use Rattle.justfile_vocabulary.specs.AttributeKind.{attribute_name};
ghost use Rattle.justfile_vocabulary.specs.ItemKind.{item_kind_text};
ghost use Rattle.justfile_vocabulary.specs.Keyword.{keyword_text};
ghost use Rattle.justfile_message.specs.Parts.{duplicate_text, expected_characters, expected_tokens, indefinite_text, redefinition_text};
ghost use Rattle.justfile_message.specs.Shown.{blanks_text, line_text};
ghost use Rattle.justfile_vocabulary.specs.Text.{◌&◌};
ghost use Rattle.justfile_vocabulary.specs.TokenKind.{kind_text};
ghost use Rattle.justfile_numbers.specs.Version.{version_text};

use crate::List;
use crate::shown::{Blanks, LineNumber};
use justfile_numbers::Version;
use justfile_vocabulary::{AttributeKind, ItemKind, Keyword, TokenKind};
use std::fmt;

/// An item kind with its indefinite article.
#[derive(Clone, Copy)]
struct Indefinite(ItemKind);

impl fmt::Display for Indefinite {
    ghost output = { λ indefinite. Some (indefinite_text indefinite.0) };

    fn fmt<W: fmt::Write>(&self, f: &mut fmt::Formatter<W>) -> fmt::Result {
        let kind = self.0;
        write!(f, "{} {kind}", kind.article())
    }
}

/// Writes that an item has the name of an earlier one.
pub fn write_redefinition<W: fmt::Write>(
    first_type: ItemKind,
    name: &str,
    first: usize,
    second_type: ItemKind,
    line: usize,
    f: &mut fmt::Formatter<W>,
) -> fmt::Result
    ensures { DisplaysOnOk W.write_str_gives f.old result
        (Some (redefinition_text first_type name.now first second_type line)) f.new }
{
    let (first, line) = (LineNumber(first), LineNumber(line));
    if first_type == second_type {
        write!(
            f,
            "{first_type} `{name}` first defined on line {first} is redefined on line {line}"
        )
    } else {
        let second_type = Indefinite(second_type);
        write!(
            f,
            "{first_type} `{name}` defined on line {first} is redefined as {second_type} on line {line}"
        )
    }
}

/// Writes a value between two texts.
pub fn write_around<A: fmt::Display, W: fmt::Write>(
    before: &str,
    value: &A,
    after: &str,
    f: &mut fmt::Formatter<W>,
) -> fmt::Result
    ensures { DisplaysOnOk W.write_str_gives f.old result
        (Some before.now ++? A.output value.now ++? Some after.now) f.new }
{
    write!(f, "{before}{value}{after}")
}

/// Writes two values, with texts before, between and after them.
pub fn write_both<A: fmt::Display, B: fmt::Display, W: fmt::Write>(
    before: &str,
    first: &A,
    between: &str,
    second: &B,
    after: &str,
    f: &mut fmt::Formatter<W>,
) -> fmt::Result
    ensures { DisplaysOnOk W.write_str_gives f.old result
        (Some before.now ++? A.output first.now ++? Some between.now ++? B.output second.now
        ++? Some after.now) f.new }
{
    write!(f, "{before}{first}{between}{second}{after}")
}

/// Writes that something first used on one line is duplicated on another line. Lines count from 0.
pub fn write_duplicate<A: fmt::Display, W: fmt::Write>(
    before: &str,
    value: &A,
    after: &str,
    first: usize,
    line: usize,
    f: &mut fmt::Formatter<W>,
) -> fmt::Result
    ensures { DisplaysOnOk W.write_str_gives f.old result
        (Some before.now ++? A.output value.now ++? Some after.now
        ++? Some (duplicate_text first line)) f.new }
{
    let (first, line) = (LineNumber(first), LineNumber(line));
    write!(
        f,
        "{before}{value}{after} first used on line {first} is duplicated on line {line}"
    )
}

/// Writes that a setting is set on two lines. Lines count from 0.
pub fn write_duplicate_set<W: fmt::Write>(
    setting: &str,
    first: usize,
    line: usize,
    f: &mut fmt::Formatter<W>,
) -> fmt::Result
    ensures { DisplaysOnOk W.write_str_gives f.old result
        (Some (codes "setting `" & setting.now & codes "` first set on line " & line_text first
        & codes " is redefined on line " & line_text line)) f.new }
{
    let (first, line) = (LineNumber(first), LineNumber(line));
    write!(
        f,
        "setting `{setting}` first set on line {first} is redefined on line {line}"
    )
}

/// Writes that two settings are incompatible.
pub fn write_incompatible<W: fmt::Write>(
    first: Keyword,
    first_line: usize,
    second: Keyword,
    f: &mut fmt::Formatter<W>,
) -> fmt::Result
    ensures { DisplaysOnOk W.write_str_gives f.old result
        (Some (codes "`" & keyword_text first & codes "` set on line " & line_text first_line
        & codes " is incompatible with `" & keyword_text second & codes "`")) f.new }
{
    let first_line = LineNumber(first_line);
    write!(
        f,
        "`{first}` set on line {first_line} is incompatible with `{second}`"
    )
}

/// Writes that a line of a body isn't indented like the lines before it.
pub fn write_inconsistent<W: fmt::Write>(
    expected: &str,
    found: &str,
    f: &mut fmt::Formatter<W>,
) -> fmt::Result
    ensures { DisplaysOnOk W.write_str_gives f.old result
        (Some (codes "recipe line has inconsistent leading whitespace, started with `"
        & blanks_text expected.now
        & codes "` but found line with `" & blanks_text found.now & codes "`")) f.new }
{
    let (expected, found) = (Blanks(expected), Blanks(found));
    write!(
        f,
        "recipe line has inconsistent leading whitespace, started with `{expected}` but found line with `{found}`"
    )
}

/// Writes that an item of this kind doesn't accept the attribute.
pub fn write_invalid_attribute<W: fmt::Write>(
    item_kind: ItemKind,
    item_name: &str,
    attribute: AttributeKind,
    f: &mut fmt::Formatter<W>,
) -> fmt::Result
    ensures { DisplaysOnOk W.write_str_gives f.old result
        (Some (item_kind_text item_kind & codes " `" & item_name.now
        & codes "` has invalid attribute `"
        & attribute_name attribute & codes "`")) f.new }
{
    let attribute = attribute.name();
    write!(
        f,
        "{item_kind} `{item_name}` has invalid attribute `{attribute}`"
    )
}

/// Writes that the value of a key isn't a number, and why.
pub fn write_invalid_count<A: fmt::Display, W: fmt::Write>(
    key: &A,
    value: &String,
    source: &str,
    f: &mut fmt::Formatter<W>,
) -> fmt::Result
    ensures { DisplaysOnOk W.write_str_gives f.old result
        (Some (codes "invalid `") ++? A.output key.now
        ++? Some (codes "` value `" & string_bytes value.now
        & codes "`: " & source.now)) f.new }
{
    write!(f, "invalid `{key}` value `{value}`: {source}")
}

/// Writes that a text isn't a version, and why.
pub fn write_invalid_version<W: fmt::Write>(
    version: &String,
    source: &str,
    f: &mut fmt::Formatter<W>,
) -> fmt::Result
    ensures { DisplaysOnOk W.write_str_gives f.old result
        (Some (codes "`minimum-version` setting has invalid version `" & string_bytes version.now
        & codes "`: "
        & source.now)) f.new }
{
    write!(
        f,
        "`minimum-version` setting has invalid version `{version}`: {source}"
    )
}

/// Writes that the justfile requires a later version than the current one.
pub fn write_minimum_version<W: fmt::Write>(
    minimum: &Version,
    current: &Version,
    f: &mut fmt::Formatter<W>,
) -> fmt::Result
    ensures { DisplaysOnOk W.write_str_gives f.old result
        (Some (codes "justfile requires just " & version_text minimum.now
        & codes " or later, but using "
        & version_text current.now)) f.new }
{
    write!(
        f,
        "justfile requires just {minimum} or later, but using {current}"
    )
}

/// Writes that the indentation of a body mixes tabs and spaces.
pub fn write_mixed<W: fmt::Write>(whitespace: &str, f: &mut fmt::Formatter<W>) -> fmt::Result
    ensures { DisplaysOnOk W.write_str_gives f.old result
        (Some (codes "found a mix of tabs and spaces in leading whitespace: `"
        & blanks_text whitespace.now
        & codes "`\nleading whitespace may consist of tabs or spaces, but not both")) f.new }
{
    let whitespace = Blanks(whitespace);
    write!(
        f,
        "found a mix of tabs and spaces in leading whitespace: `{whitespace}`\nleading whitespace may consist of tabs or spaces, but not both"
    )
}

/// Writes which characters are expected next.
pub fn write_expected_character<W: fmt::Write>(
    expected: &[char],
    f: &mut fmt::Formatter<W>,
) -> fmt::Result
    ensures { DisplaysOnOk W.write_str_gives f.old result
        (Some (codes "expected character " & expected_characters expected.now)) f.new }
{
    write!(f, "expected character {}", List::or_ticked(expected))
}

/// Writes which characters are expected where the text ends.
pub fn write_expected_end<W: fmt::Write>(
    expected: &[char],
    f: &mut fmt::Formatter<W>,
) -> fmt::Result
    ensures { DisplaysOnOk W.write_str_gives f.old result
        (Some (codes "expected character " & expected_characters expected.now
        & codes " but found end-of-file")) f.new }
{
    let expected = List::or_ticked(expected);
    write!(f, "expected character {expected} but found end-of-file")
}

/// Writes which tokens are expected, and which token was found.
pub fn write_unexpected_token<W: fmt::Write>(
    expected: &[TokenKind],
    found: TokenKind,
    f: &mut fmt::Formatter<W>,
) -> fmt::Result
    ensures { DisplaysOnOk W.write_str_gives f.old result
        (Some (codes "expected " & expected_tokens expected.now & codes ", but found "
        & kind_text found)) f.new }
{
    let expected = List::or(expected);
    write!(f, "expected {expected}, but found {found}")
}
