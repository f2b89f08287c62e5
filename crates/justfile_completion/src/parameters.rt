//! The parameters that are seen at the cursor.
ghost use Rattle.std.specs.Prelude.{◌≡◌, ◌∷◌, ◌++◌, [], IfOk, OnOk, cond, filter, not};
ghost use Rattle.std.specs.List.{prefix_len};
ghost use Rattle.justfile_completion.specs.Kinds.{closes, is_identifier};
ghost use Rattle.justfile_completion.specs.Parameters.{ends_parameters, function_parameters, is_interpolation, named_in, parameters_by, parameters_in, parameters_seen, named_after, precedes_other, recipe_parameters, without_begun};
ghost use Rattle.justfile_completion.specs.Words.{has};

use crate::kinds::{closes, is_equals, is_identifier, is_parenthesis, opens};
use crate::place::has_assign;
use crate::words::{header_of, line_of, outline};
use justfile_token::Token;
use justfile_vocabulary::TokenKind;
use std::alloc::{AllocError, Global};

/// Whether a name after it isn't that of a parameter: it is a default, or the recipe's name.
fn precedes_other(kind: TokenKind) -> bool
    ensures { result ≡ precedes_other kind }
{
    matches!(kind, TokenKind::At | TokenKind::Equals)
}

/// Whether the parameters of a recipe end here, or with a default that isn't complete.
fn ends_parameters(kind: TokenKind) -> bool
    ensures { result ≡ ends_parameters kind }
{
    match kind {
        TokenKind::Colon => true,
        _ => opens(kind),
    }
}

/// Appends a word, if it is to be kept.
pub(crate) fn push_if<'src>(
    kept: bool,
    word: Token<'src>,
    found: &mut Vec<Token<'src>>,
) -> Result<(), AllocError>
    ensures { OnOk result
        (found.new.items ≡ found.old.items ++ cond kept (word.entry ∷ []) []) }
{
    if kept {
        found.push(word)?;
    }
    Ok(())
}

/// Returns the names that are parameters among words.
fn named_in<'src>(alloc: Global, words: &[Token<'src>]) -> Result<Vec<Token<'src>>, AllocError>
    ensures { IfOk result (λ found. found.items ≡ named_in words.now) }
{
    match words {
        [] => Ok(Vec::new(alloc)),
        [first, others @ ..] => named_after(alloc, *first, others),
    }
}

/// Returns the names that are parameters among the words after a word.
#[tactic(auto, using(crate::proofs::Steps::named_step, crate::proofs::Steps::named_end))]
fn named_after<'src>(
    alloc: Global,
    first: Token<'src>,
    words: &[Token<'src>],
) -> Result<Vec<Token<'src>>, AllocError>
    ensures { IfOk result (λ found. found.items ≡ named_after first.entry words.now) }
{
    let mut found = Vec::new(alloc);
    let mut before = first;
    for word in words {
        let kept = is_identifier(word.kind) && !precedes_other(before.kind);
        push_if(kept, *word, &mut found)?;
        before = *word;
    }
    Ok(found)
}

/// Returns how many words stand before the end of the parameters of a recipe.
fn parameters_len(words: &[Token<'_>]) -> usize
    ensures { result ≡ prefix_len (λ w. not (ends_parameters w.kind)) words.now }
{
    words
        .iter()
        .take_while(|word| !ends_parameters(word.kind))
        .count()
}

/// Returns the words without a parameter at their end whose default isn't written yet.
fn without_begun<'a, 'src>(words: &'a [Token<'src>]) -> &'a [Token<'src>]
    ensures { result.now ≡ without_begun words.now }
{
    match words.last() {
        None => words,
        Some(last) => {
            if is_equals(last.kind) {
                &words[..words.len().saturating_sub(2)]
            } else {
                words
            }
        }
    }
}

/// Returns the parameters of a recipe, by the outline of its header.
#[tactic(auto, using(std::proofs::lemmas::List::take_min))]
fn recipe_parameters<'src>(
    alloc: Global,
    outline: &[Token<'src>],
) -> Result<Vec<Token<'src>>, AllocError>
    ensures { IfOk result (λ found. found.items ≡ recipe_parameters outline.now) }
{
    if has_assign(outline) {
        return Ok(Vec::new(alloc));
    }
    let mut words = Vec::from_slice(alloc, outline)?;
    words.reverse();
    let end = parameters_len(&words).min(words.len());
    named_in(alloc, without_begun(&words[..end]))
}

/// Returns how many words stand before the first one that closes a bracket.
fn count_open(words: &[Token<'_>]) -> usize
    ensures { result ≡ prefix_len (λ w. not (closes w.kind)) words.now }
{
    words.iter().take_while(|word| !closes(word.kind)).count()
}

/// Returns the names among words.
fn names_of<'src>(alloc: Global, words: &[Token<'src>]) -> Result<Vec<Token<'src>>, AllocError>
    ensures { IfOk result (λ found. found.items ≡ filter (λ w. is_identifier w.kind) words.now) }
{
    words
        .iter()
        .filter(|word| is_identifier(word.kind))
        .copied()
        .collect(alloc)
}

/// Returns the names up to a closing parenthesis.
#[tactic(auto, using(std::proofs::lemmas::List::take_min))]
fn function_parameters<'src>(
    alloc: Global,
    words: &[Token<'src>],
) -> Result<Vec<Token<'src>>, AllocError>
    ensures { IfOk result (λ found. found.items ≡ function_parameters words.now) }
{
    let end = count_open(words).min(words.len());
    names_of(alloc, &words[..end])
}

/// Returns the parameters of a function or a recipe, by its words and their outline.
fn parameters_by<'src>(
    alloc: Global,
    outline: &[Token<'src>],
    words: &[Token<'src>],
) -> Result<Vec<Token<'src>>, AllocError>
    ensures { IfOk result (λ found. found.items ≡ parameters_by outline.now words.now) }
{
    match words {
        [] | [_] => Ok(Vec::new(alloc)),
        [_, second, others @ ..] => {
            if is_parenthesis(second.kind) {
                function_parameters(alloc, others)
            } else {
                recipe_parameters(alloc, outline)
            }
        }
    }
}

/// Returns the parameters of a function or a recipe, by its words.
fn parameters_in<'src>(alloc: Global, words: &[Token<'src>]) -> Result<Vec<Token<'src>>, AllocError>
    ensures { IfOk result (λ found. found.items ≡ parameters_in words.now) }
{
    let outline = outline(alloc, words)?;
    parameters_by(alloc, &outline, words)
}

/// Whether it is the beginning of an interpolation.
fn is_interpolation(kind: TokenKind) -> bool
    ensures { result ≡ is_interpolation kind }
{
    matches!(kind, TokenKind::InterpolationStart)
}

/// Whether the beginning of an interpolation is among the words.
fn has_interpolation(words: &[Token<'_>]) -> bool
    ensures { result ≡ has is_interpolation words.now }
{
    words.iter().any(|word| is_interpolation(word.kind))
}

/// Returns the parameters that are seen after tokens.
pub(crate) fn parameters_seen<'src>(
    alloc: Global,
    tokens: &[Token<'src>],
) -> Result<Vec<Token<'src>>, AllocError>
    ensures { IfOk result (λ found. found.items ≡ parameters_seen tokens.now) }
{
    let line = line_of(alloc, tokens)?;
    let outline = outline(alloc, &line)?;
    if has_interpolation(&outline) {
        let header = header_of(alloc, tokens)?;
        parameters_in(alloc, &header)
    } else {
        parameters_by(alloc, &outline, &line)
    }
}
