//! What is called where an argument is written, by the words before it, the last one first.
ghost use Rattle.std.specs.Prelude.{◌≡◌, IfOk, Some, filter, length, not, option_map};
ghost use Rattle.std.specs.List.{prefix_len};
ghost use Rattle.justfile_completion.specs.Calls.{begins_argument, begins_value, begun, begun_after, call_in, call_told, called_after, called_by, comma_count, dependency, dependency_of, ends_value, function, inside, is_joined, is_over, told_called};
ghost use Rattle.justfile_completion.specs.Kinds.{opens};
ghost use Rattle.justfile_completion.specs.Words.{from_opener};

use crate::kinds::{is_bracket, is_comma, is_identifier, is_parenthesis, opens};
use crate::parameters::push_if;
use crate::place::is_header;
use crate::words::{from_opener, is_spelled, line_of, outline};
use justfile_token::Token;
use justfile_vocabulary::TokenKind;
use std::alloc::{AllocError, Global};

/// What is called where an argument is written.
#[derive(Drop)]
pub struct Call {
    /// Its name.
    pub name: String,
    /// Whether it is a recipe that another one depends on.
    pub is_recipe: bool,
    /// How many arguments are before that one.
    pub index: usize,
}

/// The same, with the word that names it.
#[derive(Clone, Copy)]
pub(crate) struct Called<'src> {
    /// The word.
    pub(crate) name: Token<'src>,
    /// Whether it names a recipe.
    pub(crate) is_recipe: bool,
    /// How many arguments are before.
    pub(crate) index: usize,
}

/// Whether a value can begin with it, or with the bracket that it closes.
fn begins_value(kind: TokenKind) -> bool
    ensures { result ≡ begins_value kind }
{
    matches!(
        kind,
        TokenKind::Backtick
            | TokenKind::BracketR
            | TokenKind::Identifier
            | TokenKind::ParenR
            | TokenKind::StringToken
    )
}

/// Whether a value can end with it.
fn ends_value(kind: TokenKind) -> bool
    ensures { result ≡ ends_value kind }
{
    match kind {
        TokenKind::BraceR | TokenKind::FormatStringEnd => true,
        _ => begins_value(kind),
    }
}

/// Whether a word goes on with the value of the name before it: it is a call's, or a marked string.
fn is_joined(before: &Token<'_>, word: &Token<'_>) -> bool
    ensures { result ≡ is_joined before.now word.now }
{
    is_identifier(before.kind)
        && (matches!(word.kind, TokenKind::ParenR) || before.end() == word.offset)
}

/// Whether an argument of a dependency begins with a word.
fn begins_argument(before: &Token<'_>, word: &Token<'_>) -> bool
    ensures { result ≡ begins_argument before.now word.now }
{
    ends_value(before.kind)
        && begins_value(word.kind)
        && !is_joined(before, word)
        && !is_spelled(before, "if")
        && !is_spelled(word, "else")
}

/// Returns the words after a word with which arguments of a dependency begin.
#[tactic(auto, using(crate::proofs::Begun::begun_step, crate::proofs::Begun::begun_end))]
fn begun_after<'src>(
    alloc: Global,
    first: Token<'src>,
    words: &[Token<'src>],
) -> Result<Vec<Token<'src>>, AllocError>
    ensures { IfOk result (λ found. found.items ≡ begun_after first.entry words.now) }
{
    let mut found = Vec::new(alloc);
    let mut before = first;
    for word in words {
        push_if(begins_argument(&before, word), *word, &mut found)?;
        before = *word;
    }
    Ok(found)
}

/// Returns the words with which arguments of a dependency begin, after its name: the first one comes last.
/// A parenthesis after the name is no call's.
fn begun<'src>(alloc: Global, words: &[Token<'src>]) -> Result<Vec<Token<'src>>, AllocError>
    ensures { IfOk result (λ found. found.items ≡ begun words.now) }
{
    let [first, others @ ..] = words else {
        return Ok(Vec::new(alloc));
    };
    let mut found = begun_after(alloc, *first, others)?;
    push_if(begins_value(first.kind), *first, &mut found)?;
    Ok(found)
}

/// Returns the recipe that a dependency names, by the words in its parentheses.
fn dependency<'src>(
    alloc: Global,
    words: &[Token<'src>],
) -> Result<Option<Called<'src>>, AllocError>
    ensures { IfOk result (λ found. found ≡ dependency words.now) }
{
    let [last, ..] = words else {
        return Ok(None);
    };
    let mut ordered = Vec::from_slice(alloc, words)?;
    ordered.reverse();
    dependency_of(alloc, last.kind, &ordered)
}

/// Returns the recipe that a dependency names with the first of these words, of which the last one has
/// this kind.
fn dependency_of<'src>(
    alloc: Global,
    last: TokenKind,
    words: &[Token<'src>],
) -> Result<Option<Called<'src>>, AllocError>
    ensures { IfOk result (λ found. found ≡ dependency_of last words.now) }
{
    let [name, others @ ..] = words else {
        return Ok(None);
    };
    let begun = begun(alloc, others)?;
    let index = if ends_value(last) {
        begun.len()
    } else {
        begun.len().saturating_sub(1)
    };
    Ok(Some(Called {
        name: *name,
        is_recipe: true,
        index,
    }))
}

/// Returns how many commas are among words.
fn comma_count(words: &[Token<'_>]) -> usize
    ensures { result ≡ comma_count words.now }
{
    words.iter().filter(|word| is_comma(word.kind)).count()
}

/// Returns the function that is called in parentheses with these words, after those before them.
fn function<'src>(before: &[Token<'src>], words: &[Token<'src>]) -> Option<Called<'src>>
    ensures { result ≡ function before.now words.now }
{
    let [name, ..] = before else {
        return None;
    };
    if is_identifier(name.kind) {
        Some(Called {
            name: *name,
            is_recipe: false,
            index: comma_count(words),
        })
    } else {
        None
    }
}

/// Returns what is called in parentheses with these words, after those before them.
fn called_after<'src>(
    alloc: Global,
    before: &[Token<'src>],
    words: &[Token<'src>],
) -> Result<Option<Called<'src>>, AllocError>
    ensures { IfOk result
        (λ found. found ≡ called_after (from_opener before.now) before.now words.now) }
{
    match (from_opener(before), before) {
        ([], []) | ([], [_]) => Ok(None),
        ([], [_, _, ..]) => {
            if is_header(before) {
                dependency(alloc, words)
            } else {
                Ok(function(before, words))
            }
        }
        ([opener], _) => {
            if is_bracket(opener.kind) {
                Ok(None)
            } else {
                Ok(function(before, words))
            }
        }
        _ => Ok(function(before, words)),
    }
}

/// Returns how many words stand after the last bracket that is open.
fn inside_len(words: &[Token<'_>]) -> usize
    ensures { result ≡ prefix_len (λ w. not (opens w.kind)) words.now }
{
    words.iter().take_while(|word| !opens(word.kind)).count()
}

/// Returns the words after the last bracket that is open.
#[tactic(auto, using(std::proofs::lemmas::List::take_min))]
fn inside<'a, 'src>(words: &'a [Token<'src>]) -> &'a [Token<'src>]
    ensures { result.now ≡ inside words.now }
{
    let count = inside_len(words).min(words.len());
    &words[..count]
}

/// Returns what is called in the last bracket that is open, if it is a parenthesis.
fn call_in<'src>(alloc: Global, words: &[Token<'src>]) -> Result<Option<Called<'src>>, AllocError>
    ensures { IfOk result (λ found. found ≡ call_in words.now) }
{
    match from_opener(words) {
        [] => Ok(None),
        [opener, before @ ..] => {
            if is_parenthesis(opener.kind) {
                called_after(alloc, before, inside(words))
            } else {
                Ok(None)
            }
        }
    }
}

/// Whether a token ends before the cursor, or at it.
fn is_over(token: &Token<'_>, cursor: usize) -> bool
    ensures { result ≡ is_over cursor token.now }
{
    token.end() <= cursor
}

/// Returns the tokens that the cursor isn't inside of.
fn over<'src>(
    alloc: Global,
    tokens: &[Token<'src>],
    cursor: usize,
) -> Result<Vec<Token<'src>>, AllocError>
    ensures { IfOk result (λ found. found.items ≡ filter (is_over cursor) tokens.now) }
{
    tokens
        .iter()
        .filter(|token| is_over(token, cursor))
        .copied()
        .collect(alloc)
}

/// Returns what is called at the cursor, by the tokens that begin before it.
pub(crate) fn call_at(
    alloc: Global,
    tokens: &[Token<'_>],
    cursor: usize,
) -> Result<Option<Call>, AllocError>
    ensures { IfOk result
        (λ found. option_map call_told found ≡ called_by cursor tokens.now) }
{
    let tokens = over(alloc, tokens, cursor)?;
    let line = line_of(alloc, &tokens)?;
    let words = outline(alloc, &line)?;
    match call_in(alloc, &words)? {
        Some(found) => Ok(Some(call_of(alloc, found)?)),
        None => Ok(None),
    }
}

/// Returns a call with its name.
fn call_of(alloc: Global, found: Called<'_>) -> Result<Call, AllocError>
    ensures { IfOk result (λ made. call_told made ≡ told_called found.entry) }
{
    Ok(Call {
        name: found.name.lexeme().to_string(alloc)?,
        is_recipe: found.is_recipe,
        index: found.index,
    })
}
