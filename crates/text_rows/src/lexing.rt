//! Tokens of texts, as rows show them.

use crate::token_count::token_count;
use crate::word::Word;
use justfile_chunks::{Span, chunks};
use justfile_lex::{Lexer, significant};
use justfile_token::{CompileError, Fault, StringKind, Token};
use justfile_vocabulary::TokenKind;
use row_notation::{Answer, Text, field_at, place_after, push_fault, push_kind, push_string_kind};

/// The lexemes that results leave out.
static USUAL_LEXEMES: &[(TokenKind, &str)] = &[
    (TokenKind::AmpersandAmpersand, "&&"),
    (TokenKind::Asterisk, "*"),
    (TokenKind::At, "@"),
    (TokenKind::Bang, "!"),
    (TokenKind::BangEquals, "!="),
    (TokenKind::BangTilde, "!~"),
    (TokenKind::BarBar, "||"),
    (TokenKind::BraceL, "{"),
    (TokenKind::BraceR, "}"),
    (TokenKind::BracketL, "["),
    (TokenKind::BracketR, "]"),
    (TokenKind::ByteOrderMark, "\u{FEFF}"),
    (TokenKind::Colon, ":"),
    (TokenKind::ColonColon, "::"),
    (TokenKind::ColonEquals, ":="),
    (TokenKind::Comma, ","),
    (TokenKind::Dedent, ""),
    (TokenKind::Eof, ""),
    (TokenKind::Dollar, "$"),
    (TokenKind::Eol, "\n"),
    (TokenKind::Equals, "="),
    (TokenKind::EqualsEquals, "=="),
    (TokenKind::EqualsTilde, "=~"),
    (TokenKind::Indent, "  "),
    (TokenKind::InterpolationEnd, "}}"),
    (TokenKind::InterpolationStart, "{{"),
    (TokenKind::ParenL, "("),
    (TokenKind::ParenR, ")"),
    (TokenKind::Plus, "+"),
    (TokenKind::PlusPlus, "++"),
    (TokenKind::QuestionMark, "?"),
    (TokenKind::Slash, "/"),
    (TokenKind::Whitespace, " "),
];

/// Whether results leave out this lexeme for tokens of this kind.
fn is_usual(kind: TokenKind, lexeme: &str) -> bool {
    for (usual_kind, usual) in USUAL_LEXEMES {
        if *usual_kind == kind {
            return *usual == lexeme;
        }
    }
    false
}

/// Writes a token: its kind, and its lexeme in ‹› unless that is the usual one.
fn push_token(answer: &mut Answer, token: &Token<'_>) {
    let kind = token.kind;
    let lexeme = token.lexeme();
    let mut shown = Text::new(answer.alloc());
    shown.put_debug(&kind);
    if !is_usual(kind, lexeme) {
        shown.put("‹");
        shown.put(lexeme);
        shown.put("›");
    }
    answer.push_text(shown);
}

/// Whether a token of `text` comes directly after `before`.
fn follows(text: &str, before: &str, token: &Token<'_>) -> bool {
    let (line, column) = place_after(text, before);
    token.offset == before.len()
        && token.line == line
        && token.column == column
        && token.length == token.lexeme().len()
        && token.end() == before.len() + token.length
        && token.path == "justfile"
        && token.src == text
}

/// Writes each token, with `misplaced` after one that doesn't follow those before it. If the
/// lexemes don't join to the text, writes `joined` and what they join to.
fn push_tokens(answer: &mut Answer, text: &str, tokens: &[Token<'_>]) {
    let mut before = Text::new(answer.alloc());
    for token in tokens {
        push_token(answer, token);
        answer.push_if("misplaced", !follows(text, before.as_str(), token));
        before.put(token.lexeme());
    }
    if before.as_str() != text {
        answer.push("joined");
        answer.push_text(before);
    }
}

/// Writes a lexical error: its kind, and the kind, the offset, the line, the column and the length
/// of its token.
fn push_error(answer: &mut Answer, error: &CompileError<'_>) {
    let token = error.token;
    push_kind(answer, &error.kind);
    answer.push_debug(&token.kind);
    answer.push_number(token.offset);
    answer.push_number(token.line);
    answer.push_number(token.column);
    answer.push_number(token.length);
}

/// Writes the texts that the kinds of tokens display in messages.
fn push_kinds(answer: &mut Answer, tokens: &[Token<'_>]) {
    for token in tokens {
        answer.push_display(&token.kind);
    }
}

/// Writes the kinds of the significant tokens, with `glued` after one that directly follows
/// another.
fn push_significant(answer: &mut Answer, tokens: &[Token<'_>]) {
    match significant(answer.alloc(), tokens) {
        Ok(table) => push_table(answer, table.as_slice()),
        Err(_) => answer.fail(),
    }
}

fn push_table(answer: &mut Answer, table: &[(Token<'_>, bool)]) {
    for (token, glued) in table {
        answer.push_debug(&token.kind);
        answer.push_if("glued", *glued);
    }
}

/// Writes the kind of the literal that the first token is, or why it isn't one.
fn push_literal_kind(answer: &mut Answer, tokens: &[Token<'_>]) {
    if let Some(token) = tokens.first() {
        push_kind_of(answer, *token);
    }
}

/// Writes the kind of the literal that a token is, or why it isn't one.
fn push_kind_of(answer: &mut Answer, token: Token<'_>) {
    match StringKind::from_string_or_backtick(token) {
        Ok(kind) => push_string_kind(answer, kind),
        Err(error) => push_error(answer, &error),
    }
}

/// Writes the chunks of the text with these tokens, each by the offsets of its ends.
fn push_chunks(answer: &mut Answer, tokens: &[Token<'_>]) {
    match chunks(answer.alloc(), tokens) {
        Ok(spans) => push_spans(answer, &spans),
        Err(_) => answer.fail(),
    }
}

fn push_spans(answer: &mut Answer, spans: &[Span]) {
    for span in spans {
        answer.push_number(span.start);
        answer.push_number(span.end);
    }
}

/// Writes what a row's word asks for about the tokens of a text.
fn push_lexed(answer: &mut Answer, word: Word, fields: &[String], tokens: &[Token<'_>]) {
    match word {
        Word::Chunks => push_chunks(answer, tokens),
        Word::Excerpt => push_excerpt_in(answer, field_at(fields, 0), tokens),
        Word::KindOf => push_literal_kind(answer, tokens),
        Word::Kinds => push_kinds(answer, tokens),
        Word::Significant => push_significant(answer, tokens),
        _ => push_tokens(answer, field_at(fields, 0), tokens),
    }
}

/// Writes the excerpt of the first or the last token.
fn push_excerpt_in(answer: &mut Answer, which: &str, tokens: &[Token<'_>]) {
    match which {
        "first" => push_excerpt_if(answer, tokens.first()),
        _ => push_excerpt_if(answer, tokens.last()),
    }
}

fn push_excerpt_if(answer: &mut Answer, token: Option<&Token<'_>>) {
    if let Some(token) = token {
        answer.push_display(token);
    }
}

/// Writes why a text has no tokens: of an error its excerpt, or what it is and where.
fn push_lexical_fault(answer: &mut Answer, word: Word, text: &str, fault: &Fault<'_>) {
    match fault {
        Fault::Compile(error) if word == Word::Excerpt => answer.push_display(&error.context()),
        Fault::Compile(error) => push_error(answer, error),
        fault => push_fault(answer, text, fault),
    }
}

/// Lexes a text, and writes what a row's word asks for about it, or why it is rejected.
pub(crate) fn lex(answer: &mut Answer, word: Word, fields: &[String]) {
    let text = field_at(fields, if word == Word::Excerpt { 1 } else { 0 });
    match Lexer::lex(answer.alloc(), "justfile", text) {
        Ok(tokens) => push_lexed(answer, word, fields, tokens.as_slice()),
        Err(fault) => push_lexical_fault(answer, word, text, &fault),
    }
}

/// Writes the number of a text's tokens, or the offset at which it is rejected.
pub(crate) fn push_token_count(answer: &mut Answer, text: &str) {
    match token_count(answer.alloc(), text) {
        Ok(count) => answer.push_display(&count),
        Err(_) => answer.fail(),
    }
}
