//! One piece of a text with escapes: a character or an escape.
ghost use Rattle.std.specs.Prelude.{◌≡◌, ◌<◌, [], ◌∷◌, IfOk, IfSome, IsUtf8, MatchOption, SomeIff, chars, length};
ghost use Rattle.std.specs.Char.{IsScalar};
ghost use Rattle.std.specs.Str.Parse.{digits_value};
ghost use Rattle.justfile_model.specs.LiteralTexts.Cook.{AreHex, named};
ghost use Rattle.justfile_model.specs.LiteralTexts.FirstPiece.{closing_brace, digits, escape_piece, hex_len, line_feed_piece, number, first_escaped_piece, unicode};
ghost use Rattle.justfile_literal_parts.specs.Pieces.{piece_answer};

use crate::escape_fault::EscapeFault;

/// The character of a piece, if it has one, and the text after the piece.
pub type PieceRead<'a> = Result<(Option<char>, &'a str), EscapeFault<'a>>;

/// The greatest number of hexadecimal digits in an escape.
const MOST_DIGITS: usize = 6;

/// Parses the piece that begins with the character.
pub fn read_piece(character: char, rest: &str) -> PieceRead<'_>
    ensures found { piece_answer result ≡ first_escaped_piece character (chars rest.now) }
    ensures utf8 { IfOk result (λ x. IsUtf8 x.1.now) }
{
    match character {
        '\\' => read_escape(rest),
        _ => Ok((Some(character), rest)),
    }
}

/// Parses the rest of an escape after its backslash.
fn read_escape(text: &str) -> PieceRead<'_>
    ensures found { piece_answer result ≡ escape_piece (chars text.now) }
    ensures utf8 { IfOk result (λ x. IsUtf8 x.1.now) }
{
    let Some((character, rest)) = split_first(text) else {
        return Err(EscapeFault::UnicodeEscapeUnterminated);
    };
    match character {
        'u' => read_unicode_escape(rest),
        '\r' => read_line_feed(rest),
        '\n' => Ok((None, rest)),
        _ => match named_character(character) {
            Some(value) => Ok((Some(value), rest)),
            None => Err(EscapeFault::InvalidEscapeSequence { character }),
        },
    }
}

/// Returns the character that this one stands for after a backslash.
fn named_character(character: char) -> Option<char>
    ensures { result ≡ named character }
{
    match character {
        'n' => Some('\n'),
        'r' => Some('\r'),
        't' => Some('\t'),
        '\\' => Some('\\'),
        '"' => Some('"'),
        _ => None,
    }
}

/// Parses the rest of an escaped line end after its carriage return.
fn read_line_feed(text: &str) -> PieceRead<'_>
    ensures found { piece_answer result ≡ line_feed_piece (chars text.now) }
    ensures utf8 { IfOk result (λ x. IsUtf8 x.1.now) }
{
    match split_first(text) {
        Some(('\n', rest)) => Ok((None, rest)),
        _ => Err(EscapeFault::InvalidEscapeSequence { character: '\r' }),
    }
}

/// Parses the rest of an escape after its `u`.
fn read_unicode_escape(text: &str) -> PieceRead<'_>
    ensures found { piece_answer result ≡ unicode (chars text.now) }
    ensures utf8 { IfOk result (λ x. IsUtf8 x.1.now) }
{
    match split_first(text) {
        None => Err(EscapeFault::UnicodeEscapeUnterminated),
        Some(('{', rest)) => read_digits(rest),
        Some((character, _)) => Err(EscapeFault::UnicodeEscapeDelimiter { character }),
    }
}

/// Parses the rest of an escape after its opening brace.
fn read_digits(text: &str) -> PieceRead<'_>
    ensures found { piece_answer result ≡ digits (chars text.now) }
    ensures utf8 { IfOk result (λ x. IsUtf8 x.1.now) }
{
    let count = hex_len(text);
    let (hex, rest) = text.split_at(count);
    if count > MOST_DIGITS {
        return Err(EscapeFault::UnicodeEscapeLength { hex });
    }
    read_closing_brace(hex, rest)
}

/// Returns the number of hexadecimal digits at the start of the text, at most seven.
fn hex_len(text: &str) -> usize
    ensures { result ≡ hex_len (chars text.now) }
{
    let mut count = 0;
    for character in text.chars() {
        if count > MOST_DIGITS || !character.is_ascii_hexdigit() {
            return count;
        }
        count += 1;
    }
    count
}

/// Parses the rest of an escape after its digits.
fn read_closing_brace<'a>(hex: &'a str, text: &'a str) -> PieceRead<'a>
    requires { AreHex hex.now }
    ensures found { piece_answer result ≡ closing_brace hex.now (chars text.now) }
    ensures utf8 { IfOk result (λ x. IsUtf8 x.1.now) }
{
    match split_first(text) {
        None => Err(EscapeFault::UnicodeEscapeUnterminated),
        Some(('}', rest)) => read_number(hex, rest),
        Some((character, _)) => Err(EscapeFault::UnicodeEscapeCharacter { character }),
    }
}

/// Returns the first character and the text after it, or `None` for the empty text.
pub fn split_first(text: &str) -> Option<(char, &str)>
    ensures value { MatchOption result (chars text.now ≡ []) (λ x. chars text.now
        ≡ x.0 ∷ chars x.1.now) }
    ensures utf8 { IfSome result (λ x. IsUtf8 x.1.now) }
{
    let mut characters = text.chars();
    let character = characters.next()?;
    Some((character, characters.as_str()))
}

/// Returns the character with this number, and the text after the closing brace.
fn read_number<'a>(hex: &'a str, rest: &'a str) -> PieceRead<'a>
    requires { AreHex hex.now }
    ensures found { piece_answer result ≡ number hex.now (chars rest.now) }
    ensures utf8 { IfOk result (λ x. IsUtf8 x.1.now) }
{
    if hex.is_empty() {
        return Err(EscapeFault::UnicodeEscapeEmpty);
    }
    match parse_character(hex) {
        Some(character) => Ok((Some(character), rest)),
        None => Err(EscapeFault::UnicodeEscapeRange { hex }),
    }
}

/// Returns the character with this number, or `None` if the number isn't a code point.
fn parse_character(hex: &str) -> Option<char>
    requires hex { AreHex hex.now }
    requires some { 0 < length hex.now }
    ensures { SomeIff result (IsScalar (digits_value 16 hex.now)) (digits_value 16 hex.now) }
{
    match u32::from_str_radix(hex, 16) {
        Ok(number) => char::from_u32(number),
        Err(_) => None,
    }
}
