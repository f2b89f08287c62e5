//! Texts that aren't justfiles: literals, versions, indentations, keywords, bytes and characters.

use justfile_lex::Lexer;
use justfile_literal::cook_string;
use justfile_literal_parts::unindent::unindent;
use justfile_numbers::Version;
use justfile_token::{StringKind, Token};
use justfile_vocabulary::byte_class::byte_class;
use justfile_vocabulary::{Indentation, Keyword, TokenKind};
use row_notation::{Answer, Text, number_at, push_fault, push_string_kind};

/// The token at which texts with bad escapes are rejected.
const LITERAL: Token<'static> = Token {
    column: 5,
    kind: TokenKind::StringToken,
    length: 2,
    line: 0,
    offset: 5,
    path: "justfile",
    src: "a := \"\"\n",
};

/// Writes the text that a text with escapes stands for, or why it is rejected.
pub(crate) fn cooks(answer: &mut Answer, text: &str) {
    match cook_string(answer.alloc(), LITERAL, text) {
        Ok(cooked) => answer.push(cooked.as_str()),
        Err(fault) => push_fault(answer, LITERAL.src, &fault),
    }
}

/// Writes a text without the indentation that its lines share.
pub(crate) fn unindents(answer: &mut Answer, text: &str) {
    answer.push_made(unindent(answer.alloc(), text));
}

/// Writes the version in a text, and its three numbers, or why it isn't one.
pub(crate) fn version(answer: &mut Answer, text: &str) {
    match text.parse::<Version>() {
        Ok(version) => {
            answer.push_display(&version);
            answer.push_display(&version.major);
            answer.push_display(&version.minor);
            answer.push_display(&version.patch)
        }
        Err(message) => answer.push(message),
    }
}

/// Writes the indentation in a text, or why it isn't one.
pub(crate) fn indentation(answer: &mut Answer, text: &str) {
    match text.parse::<Indentation>() {
        Ok(indentation) => answer.push_display(&indentation),
        Err(message) => answer.push(message),
    }
}

/// Writes the keyword in a text, or `none`. Writes its own texts after it if they differ.
pub(crate) fn keyword(answer: &mut Answer, text: &str) {
    let Some(keyword) = Keyword::from_lexeme(text) else {
        return answer.push("none");
    };
    answer.push_debug(&keyword);
    answer.push_display(&keyword);
    answer.push_if(
        "unspelled",
        keyword.lexeme() != text || !keyword.spells(text),
    )
}

/// Writes the class of a byte.
pub(crate) fn class(answer: &mut Answer, text: &str) {
    match text.parse::<u8>() {
        Ok(byte) => answer.push_debug(&byte_class(byte)),
        Err(_) => answer.push("none"),
    }
}

/// Appends a character if `is_wanted`.
fn put_wanted(wanted: &mut Text, character: char, is_wanted: bool) {
    if is_wanted {
        wanted.put_character(character);
    }
}

/// Writes which of the characters from one number up to another an identifier can begin with, and
/// which it can go on with.
pub(crate) fn identifier(answer: &mut Answer, fields: &[String]) {
    let mut first = Text::new(answer.alloc());
    let mut later = Text::new(answer.alloc());
    for number in number_at(fields, 0)..number_at(fields, 1) {
        if let Some(character) = char::from_u32(number) {
            put_wanted(&mut first, character, Lexer::is_identifier_start(character));
            put_wanted(
                &mut later,
                character,
                Lexer::is_identifier_continue(character),
            );
        }
    }
    answer.push_text(first);
    answer.push_text(later)
}

/// Writes the kind of the literal that a text begins with, or `none`: its kind, its delimiter, its
/// token's kind, the error if it doesn't end, and whether it has escapes.
pub(crate) fn opens(answer: &mut Answer, text: &str) {
    let Some(kind) = StringKind::from_token_start(text) else {
        return answer.push("none");
    };
    push_string_kind(answer, kind);
    answer.push(kind.delimiter());
    answer.push_debug(&kind.token_kind());
    answer.push_debug(&kind.unterminated_error_kind());
    answer.push_if("escapes", kind.processes_escape_sequences());
    answer.push_if("length", kind.delimiter_len() != kind.delimiter().len());
    answer.push_if("opening", StringKind::of_opening(text.as_bytes()) != kind);
    answer.push_if("indented", kind.indented() != kind.indented)
}
