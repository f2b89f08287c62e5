//! The texts of parts of format strings.
ghost use Rattle.std.specs.Prelude.{◌≡◌, IfErr, IfOk, IsTrue, Ok, string_bytes};
ghost use Rattle.justfile_token.specs.Token.{lexeme_of};
ghost use Rattle.justfile_model.specs.LiteralTexts.Literals.{between, end_len, cooked_format_text, front_len, unescaped_braces};
ghost use Rattle.justfile_literal.specs.Literal.{IsPartOf, IsTextFault, is_part};

use crate::cook::replace_escapes;
use justfile_token::{CompileResult, Fault, StringKind, StringLiteral, Token};
use justfile_vocabulary::FormatStringPart;
use justfile_vocabulary::interpolation::{
    INTERPOLATION_END, INTERPOLATION_ESCAPE, INTERPOLATION_START,
};
use std::alloc::{AllocError, Global};

/// Returns the literal for a part of a format string. `kind` is the kind of the whole format
/// string. The lexeme must have the delimiters and braces of this part around its text, as that of
/// each lexed part does.
///
/// # Errors
///
/// `Compile` at the token for the first invalid escape, `Memory` if memory runs out.
pub fn format_part<'src>(
    alloc: Global,
    token: Token<'src>,
    kind: StringKind,
    part: FormatStringPart,
) -> CompileResult<'src, StringLiteral<'src>>
    requires { IsTrue (is_part kind part (lexeme_of token)) }
    ensures ok { IfOk result (IsPartOf kind part token.entry) }
    ensures err { IfErr result
        (IsTextFault (cooked_format_text kind part (lexeme_of token.entry)) token.entry) }
{
    match read_part_text(alloc, token, kind, part) {
        Ok(cooked) => Ok(StringLiteral {
            cooked,
            expand: false,
            kind,
            part: Some(part),
            token,
        }),
        Err(fault) => Err(fault),
    }
}

/// Returns the text of the part, with its braces unescaped and, if the quotes are double, its
/// escapes replaced.
fn read_part_text<'src>(
    alloc: Global,
    token: Token<'src>,
    kind: StringKind,
    part: FormatStringPart,
) -> CompileResult<'src, String>
    requires { IsTrue (is_part kind part (lexeme_of token)) }
    ensures ok { IfOk result (λ text. cooked_format_text kind part (lexeme_of token.entry)
        ≡ Ok (string_bytes text)) }
    ensures err { IfErr result
        (IsTextFault (cooked_format_text kind part (lexeme_of token.entry)) token.entry) }
{
    match unescape_braces(alloc, strip_delimiters(token.lexeme(), kind, part)) {
        Ok(text) => replace_escapes(alloc, token, kind, text),
        Err(_) => Err(Fault::Memory),
    }
}

/// Returns the text with each `{{{{` replaced by `{{`, from left to right.
fn unescape_braces(alloc: Global, text: &str) -> Result<String, AllocError>
    ensures { IfOk result (λ unescaped. string_bytes unescaped ≡ unescaped_braces text.now) }
{
    text.replace(alloc, INTERPOLATION_ESCAPE, INTERPOLATION_START)
}

/// Returns the text between the delimiters of the string or the braces of interpolations.
fn strip_delimiters(lexeme: &str, kind: StringKind, part: FormatStringPart) -> &str
    requires { IsTrue (is_part kind part lexeme.now) }
    ensures { result.now ≡ between (front_len kind part) (end_len kind part) lexeme.now }
{
    let front = front_len(kind, part);
    let end = end_len(kind, part);
    &lexeme[front..lexeme.len() - end]
}

/// Returns the number of bytes before the text of the part.
fn front_len(kind: StringKind, part: FormatStringPart) -> usize
    ensures { result ≡ front_len kind part }
{
    match part {
        FormatStringPart::Continue | FormatStringPart::End => INTERPOLATION_END.len(),
        FormatStringPart::Single | FormatStringPart::Start => kind.delimiter_len(),
    }
}

/// Returns the number of bytes after the text of the part.
fn end_len(kind: StringKind, part: FormatStringPart) -> usize
    ensures { result ≡ end_len kind part }
{
    match part {
        FormatStringPart::Continue | FormatStringPart::Start => INTERPOLATION_START.len(),
        FormatStringPart::End | FormatStringPart::Single => kind.delimiter_len(),
    }
}
