//! The words before the cursor.
ghost use Rattle.std.specs.Prelude.{◌≡◌, IfOk, filter, nat_lt, not};
ghost use Rattle.std.specs.List.{after_last, before_last, prefix_len, suffix_len};
ghost use Rattle.justfile_completion.specs.Kinds.{ends_line, is_between, is_indent, is_word, opens};
ghost use Rattle.justfile_completion.specs.Words.{closed_before, from_opener, header_of, is_inside, is_spelled, line_of, outline, outside, starts_line, tokens_before, without_end};

use crate::kinds::{
    begins_line, closes, ends_line, is_between, is_identifier, is_indent, is_word, opens,
};
use crate::parameters::push_if;
use justfile_token::Token;
use justfile_vocabulary::TokenKind;
use std::alloc::{AllocError, Global};

/// Returns how many tokens begin before the cursor.
fn count_before(tokens: &[Token<'_>], cursor: usize) -> usize
    ensures { result ≡ prefix_len (λ t. nat_lt t.offset cursor) tokens.now }
{
    tokens
        .iter()
        .take_while(|token| token.offset < cursor)
        .count()
}

/// Returns the tokens that begin before the cursor.
#[tactic(auto, using(std::proofs::lemmas::List::take_min))]
pub(crate) fn tokens_before<'a, 'src>(tokens: &'a [Token<'src>], cursor: usize) -> &'a [Token<'src>]
    ensures { result.now ≡ tokens_before cursor tokens.now }
{
    let count = count_before(tokens, cursor).min(tokens.len());
    &tokens[..count]
}

/// Whether the cursor is inside of a token.
pub(crate) fn is_inside(tokens: &[Token<'_>], cursor: usize) -> bool
    ensures { result ≡ is_inside cursor tokens.now }
{
    tokens.iter().any(|token| cursor < token.end())
}

/// Whether nothing stands on the line after these tokens.
pub(crate) fn starts_line(tokens: &[Token<'_>]) -> bool
    ensures { result ≡ starts_line tokens.now }
{
    match tokens.last() {
        None => true,
        Some(last) => begins_line(last.kind),
    }
}

/// Returns how many tokens the last line has.
fn line_len(tokens: &[Token<'_>]) -> usize
    ensures { result ≡ suffix_len (λ t. not (ends_line t.kind)) tokens.now }
{
    tokens
        .iter()
        .rev()
        .take_while(|token| !ends_line(token.kind))
        .count()
}

/// Returns how many tokens stand after the last indent.
fn body_len(tokens: &[Token<'_>]) -> usize
    ensures { result ≡ suffix_len (λ t. not (is_indent t.kind)) tokens.now }
{
    tokens
        .iter()
        .rev()
        .take_while(|token| !is_indent(token.kind))
        .count()
}

/// Returns how many of the last tokens stand between a header and the text of its body.
fn between_len(tokens: &[Token<'_>]) -> usize
    ensures { result ≡ suffix_len (λ t. is_between t.kind) tokens.now }
{
    tokens
        .iter()
        .rev()
        .take_while(|token| is_between(token.kind))
        .count()
}

/// Returns the words of the line that ends with these tokens.
pub(crate) fn line_of<'src>(
    alloc: Global,
    tokens: &[Token<'src>],
) -> Result<Vec<Token<'src>>, AllocError>
    ensures { IfOk result (λ words. words.items ≡ line_of tokens.now) }
{
    let start = tokens.len().saturating_sub(line_len(tokens));
    words_of(alloc, &tokens[start..])
}

/// Returns the words among tokens.
fn words_of<'src>(alloc: Global, tokens: &[Token<'src>]) -> Result<Vec<Token<'src>>, AllocError>
    ensures { IfOk result (λ words. words.items ≡ filter (λ t. is_word t.kind) tokens.now) }
{
    tokens
        .iter()
        .filter(|token| is_word(token.kind))
        .copied()
        .collect(alloc)
}

/// Returns the words of the header of the recipe whose body ends with these tokens.
pub(crate) fn header_of<'src>(
    alloc: Global,
    tokens: &[Token<'src>],
) -> Result<Vec<Token<'src>>, AllocError>
    ensures { IfOk result (λ words. words.items ≡ header_of tokens.now) }
{
    line_of(alloc, without_between(before_body(tokens)))
}

/// Returns the tokens before the last indent, if there is one.
fn before_body<'a, 'src>(tokens: &'a [Token<'src>]) -> &'a [Token<'src>]
    ensures { result.now ≡ before_last (λ t. is_indent t.kind) tokens.now }
{
    let end = tokens
        .len()
        .saturating_sub(body_len(tokens))
        .saturating_sub(1);
    &tokens[..end]
}

/// Returns tokens without the last ones, as long as these may stand between a header and its body.
fn without_between<'a, 'src>(tokens: &'a [Token<'src>]) -> &'a [Token<'src>]
    ensures { result.now ≡ without_end (λ t. is_between t.kind) tokens.now }
{
    let end = tokens.len().saturating_sub(between_len(tokens));
    &tokens[..end]
}

/// Returns how many brackets are closed after a word, by how many are after the next one.
fn closed_before(closed: usize, kind: TokenKind) -> usize
    ensures { result ≡ closed_before closed kind }
{
    if closes(kind) {
        closed.saturating_add(1)
    } else if opens(kind) {
        closed.saturating_sub(1)
    } else {
        closed
    }
}

/// Returns the words, the last one first, that aren't in brackets that are closed later on. Of these
/// only the closing one is left.
pub(crate) fn outline<'src>(
    alloc: Global,
    words: &[Token<'src>],
) -> Result<Vec<Token<'src>>, AllocError>
    ensures { IfOk result (λ found. found.items ≡ outline words.now) }
{
    let mut rest = Vec::from_slice(alloc, words)?;
    rest.reverse();
    outside(alloc, &rest)
}

/// Returns the words that aren't in brackets that are closed later on, of words with the last one
/// first.
#[tactic(auto, using(crate::proofs::Steps::outside_step, crate::proofs::Steps::outside_end))]
fn outside<'src>(alloc: Global, words: &[Token<'src>]) -> Result<Vec<Token<'src>>, AllocError>
    ensures { IfOk result (λ found. found.items ≡ outside 0 words.now) }
{
    let mut found = Vec::new(alloc);
    let mut closed = 0;
    for word in words {
        push_if(closed == 0, *word, &mut found)?;
        closed = closed_before(closed, word.kind);
    }
    Ok(found)
}

/// Returns how many words stand before the first one that opens a bracket.
fn count_closed(words: &[Token<'_>]) -> usize
    ensures { result ≡ prefix_len (λ w. not (opens w.kind)) words.now }
{
    words.iter().take_while(|word| !opens(word.kind)).count()
}

/// Returns what stands from the last open bracket on, of words with the last one first.
#[tactic(auto, using(std::proofs::lemmas::List::drop_min))]
pub(crate) fn from_opener<'a, 'src>(words: &'a [Token<'src>]) -> &'a [Token<'src>]
    ensures { result.now ≡ from_opener words.now }
{
    let count = count_closed(words).min(words.len());
    &words[count..]
}

/// Whether the word is this name or keyword.
pub(crate) fn is_spelled(word: &Token<'_>, text: &str) -> bool
    ensures { result ≡ is_spelled text.now word.now }
{
    is_identifier(word.kind) && word.lexeme() == text
}
