//! How the tokens of a justfile are shown.
use crate::blanks::kept_of;
use crate::chunk::{chunk_start, chunk_text};
use editor_language::{Analysis, Colored, Mention, Role, Span, TokenType};
use justfile_lex::Lexer;
use justfile_token::{Fault, Token};
use justfile_vocabulary::{Keyword, TokenKind};
use std::alloc::{AllocError, Global};

/// How often a text without tokens is cut before its fault: an unclosed literal may stand in what isn't
/// closed either.
const CUTS: usize = 8;

/// The text of a part, as it was read.
#[derive(Clone, Copy)]
struct Chunk<'a> {
    /// The text, with the line feed before the part.
    text: &'a str,
    /// Where it begins in the whole text.
    base: usize,
    /// How much of it could be parsed: up to its last item, if something is wrong in it.
    parsed: usize,
}

/// Returns how the tokens of a text are shown: where its parts can be parsed as the parse sees them, and
/// elsewhere as the lexer does.
pub(crate) fn colors_of(
    alloc: Global,
    text: &str,
    analysis: &Analysis,
    mentions: &[Mention],
) -> Result<Vec<Colored>, AllocError> {
    let mut colored = Vec::new(alloc);
    let mut start = 0usize;
    let mut next = 0;
    for part in &analysis.parts {
        let end = start.saturating_add(part.size);
        let span = Span { start, end };
        let text = chunk_text(text, span);
        let chunk = Chunk {
            text,
            base: chunk_start(span),
            parsed: kept_of(&part.known, 0, text.len()),
        };
        next = push_chunk(alloc, &mut colored, chunk, mentions, next)?;
        start = end;
    }
    Ok(colored)
}

/// Adds the tokens of the text of a part. The mentions from an index on aren't before it. Returns the
/// index of the first mention after it.
fn push_chunk(
    alloc: Global,
    colored: &mut Vec<Colored>,
    chunk: Chunk<'_>,
    mentions: &[Mention],
    first: usize,
) -> Result<usize, AllocError> {
    let tokens = tokens_of(alloc, chunk.text)?;
    let mut next = first;
    for token in &tokens {
        let start = chunk.base.saturating_add(token.offset);
        next = first_from(mentions, next, start);
        let kind = kind_of(token, start, chunk.parsed, mentions.get(next));
        push_colored(colored, token, start, kind)?;
    }
    Ok(next)
}

/// Returns the tokens of a text, or those before its fault.
fn tokens_of<'a>(alloc: Global, text: &'a str) -> Result<Vec<Token<'a>>, AllocError> {
    let mut front = text;
    for _cut in 0..CUTS {
        match Lexer::lex(alloc, "justfile", front) {
            Ok(tokens) => return Ok(tokens),
            Err(Fault::Memory) => return Err(AllocError),
            Err(Fault::Numbers) => return Ok(Vec::new(alloc)),
            Err(Fault::Compile(error)) => front = before(front, error.token.offset),
        }
    }
    Ok(Vec::new(alloc))
}

/// Returns the text before an offset.
fn before(text: &str, offset: usize) -> &str {
    match text.get(..offset) {
        Some(front) => front,
        None => "",
    }
}

/// Returns the index of the first mention, from an index on, that isn't before an offset.
fn first_from(mentions: &[Mention], first: usize, offset: usize) -> usize {
    for index in first..mentions.len() {
        if mentions[index].span.start >= offset {
            return index;
        }
    }
    mentions.len()
}

/// Returns how a token at an offset is shown, in a text of which so much could be parsed. The mention
/// isn't before it.
fn kind_of(
    token: &Token<'_>,
    start: usize,
    parsed: usize,
    mention: Option<&Mention>,
) -> Option<TokenType> {
    match mention {
        Some(mention) if mention.span.start == start => Some(mention_type(mention.role)),
        _ => token_type(token, token.offset < parsed),
    }
}

/// Adds a token at an offset, if it is shown.
fn push_colored(
    colored: &mut Vec<Colored>,
    token: &Token<'_>,
    start: usize,
    kind: Option<TokenType>,
) -> Result<(), AllocError> {
    if let Some(kind) = kind {
        let end = start.saturating_add(token.length);
        let span = Span { start, end };
        colored.push(Colored { span, kind })?;
    }
    Ok(())
}

/// Returns how a name is shown.
fn mention_type(role: Role) -> TokenType {
    match role {
        Role::Recipe | Role::Function => TokenType::Function,
        Role::Constant | Role::Variable => TokenType::Variable,
        Role::Parameter => TokenType::Parameter,
    }
}

/// Returns how a token is shown that isn't mentioned, in what could be parsed or elsewhere.
fn token_type(token: &Token<'_>, is_parsed: bool) -> Option<TokenType> {
    match token.kind {
        TokenKind::Identifier => word_type(token.lexeme(), is_parsed),
        TokenKind::Comment => Some(TokenType::Comment),
        TokenKind::Backtick
        | TokenKind::FormatStringContinue
        | TokenKind::FormatStringEnd
        | TokenKind::FormatStringStart
        | TokenKind::StringToken => Some(TokenType::Text),
        TokenKind::AmpersandAmpersand
        | TokenKind::BangEquals
        | TokenKind::BangTilde
        | TokenKind::BarBar
        | TokenKind::ColonEquals
        | TokenKind::EqualsEquals
        | TokenKind::EqualsTilde
        | TokenKind::Plus
        | TokenKind::Slash => Some(TokenType::Operator),
        _ => None,
    }
}

/// Returns how a word is shown that isn't mentioned. Elsewhere than in what could be parsed it may be a
/// name, unless it is a keyword that isn't that of a setting, and has more than a letter.
fn word_type(word: &str, is_parsed: bool) -> Option<TokenType> {
    match Keyword::from_lexeme(word) {
        Some(keyword) if is_parsed || (word.len() > 1 && !keyword.is_setting()) => {
            Some(TokenType::Keyword)
        }
        None if is_parsed => Some(TokenType::Property),
        _ => None,
    }
}
