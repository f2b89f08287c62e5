//! What can be written at a place, not yet in order.
ghost use Rattle.std.specs.Prelude.{◌≡◌, ◌++◌, IfOk, OnOk, filter, map, not, option_copied};
ghost use Rattle.std.specs.List.{list_any, prefix_len};
ghost use Rattle.justfile_completion.specs.Candidates.{candidates, dependencies, is_free, is_own, of_kind, operands, own_name, told_parameter};
ghost use Rattle.justfile_completion.specs.Kinds.{is_colon};
ghost use Rattle.justfile_completion.specs.Offers.{told, told_by};
ghost use Rattle.justfile_completion.specs.Words.{is_spelled};

use crate::kinds::{is_colon, is_identifier};
use crate::offer::{Offer, OfferKind};
use crate::place::Place;
use crate::tables::{BuiltIns, Entry, built_in, table_of};
use crate::words::is_spelled;
use justfile_token::Token;
use std::alloc::{AllocError, Global};

/// Returns the names of a kind.
fn of_kind<'a>(
    alloc: Global,
    names: &[Offer<'a>],
    kind: OfferKind,
) -> Result<Vec<Offer<'a>>, AllocError>
    ensures { IfOk result (λ found. found.items ≡ of_kind kind names.now) }
{
    names
        .iter()
        .filter(|offer| offer.kind.number() == kind.number())
        .copied()
        .collect(alloc)
}

/// Returns the name of the recipe whose header has these words, if it has one.
fn own_name<'a, 'src>(words: &'a [Token<'src>]) -> Option<&'a Token<'src>>
    ensures { option_copied result ≡ own_name words.now }
{
    words.iter().find(|word| is_identifier(word.kind))
}

/// Whether it is the name of this recipe.
fn is_own(own: Option<&Token<'_>>, name: &str) -> bool
    ensures { result ≡ is_own (option_copied own.entry) name.now }
{
    match own {
        None => false,
        Some(word) => word.lexeme() == name,
    }
}

/// Whether the name is among the words.
fn is_used(used: &[Token<'_>], name: &str) -> bool
    ensures { result ≡ list_any (is_spelled name.now) used.now }
{
    used.iter().any(|word| is_spelled(word, name))
}

/// Whether it is a recipe other than its own one and those that are named already.
fn is_free(own: Option<&Token<'_>>, used: &[Token<'_>], offer: &Offer<'_>) -> bool
    ensures { result ≡ is_free (option_copied own.entry) used.now offer.now }
{
    offer.kind.number() == OfferKind::Recipe.number()
        && !is_own(own, offer.name)
        && !is_used(used, offer.name)
}

/// Returns the recipes other than their own one and those that are named already.
fn free_recipes<'a>(
    alloc: Global,
    names: &[Offer<'a>],
    own: Option<&Token<'_>>,
    used: &[Token<'_>],
) -> Result<Vec<Offer<'a>>, AllocError>
    ensures { IfOk result (λ found. found.items
        ≡ filter (is_free (option_copied own.entry) used.now) names.now) }
{
    names
        .iter()
        .filter(|offer| is_free(own, used, offer))
        .copied()
        .collect(alloc)
}

/// Returns how many words stand after the colon.
fn dependencies_len(outline: &[Token<'_>]) -> usize
    ensures { result ≡ prefix_len (λ w. not (is_colon w.kind)) outline.now }
{
    outline
        .iter()
        .take_while(|word| !is_colon(word.kind))
        .count()
}

/// Returns the words after the colon.
#[tactic(auto, using(std::proofs::lemmas::List::take_min))]
fn dependencies<'a, 'src>(outline: &'a [Token<'src>]) -> &'a [Token<'src>]
    ensures { result.now ≡ dependencies outline.now }
{
    let count = dependencies_len(outline).min(outline.len());
    &outline[..count]
}

/// Returns the offer of a parameter.
fn parameter_offer<'a>(word: &Token<'a>) -> Offer<'a>
    ensures { told result ≡ told_parameter word.now }
{
    Offer {
        kind: OfferKind::Parameter,
        name: word.lexeme(),
        detail: "",
        documentation: "",
    }
}

/// Returns offers of parameters.
#[tactic(auto, using(crate::proofs::Mapped::mapped_more))]
fn parameter_offers<'a>(
    alloc: Global,
    parameters: &[Token<'a>],
) -> Result<Vec<Offer<'a>>, AllocError>
    ensures { IfOk result
        (λ found. map told found.items ≡ map told_parameter parameters.now) }
{
    let mut found = Vec::new(alloc);
    for word in parameters {
        found.push(parameter_offer(word))?;
    }
    Ok(found)
}

/// Appends offers.
#[tactic(auto, using(crate::proofs::Mapped::mapped_append))]
fn push_all<'a>(offers: &[Offer<'a>], found: &mut Vec<Offer<'a>>) -> Result<(), AllocError>
    ensures { OnOk result
        (map told found.new.items ≡ map told found.old.items ++ map told offers.now) }
{
    found.extend_from_slice(offers)
}

/// Returns the offer of a word.
fn word_offer(word: &Entry) -> Offer<'static>
    ensures { told result
        ≡ told_by word.now.0 word.now.1.now word.now.2.now word.now.3.now }
{
    Offer {
        kind: word.0,
        name: word.1,
        detail: word.2,
        documentation: word.3,
    }
}

/// Appends offers of words.
#[tactic(auto, using(crate::proofs::Mapped::mapped_onto))]
fn push_words(words: &[Entry], found: &mut Vec<Offer<'_>>) -> Result<(), AllocError>
    ensures { OnOk result
        (map told found.new.items ≡ map told found.old.items
        ++ map (λ w. told_by w.0 w.1.now w.2.now w.3.now) words.now) }
{
    for word in words {
        found.push(word_offer(word))?;
    }
    Ok(())
}

/// Returns offers of words.
fn word_offers<'a>(alloc: Global, words: &[Entry]) -> Result<Vec<Offer<'a>>, AllocError>
    ensures { IfOk result (λ found. map told found.items
        ≡ map (λ w. told_by w.0 w.1.now w.2.now w.3.now) words.now) }
{
    let mut found = Vec::new(alloc);
    push_words(words, &mut found)?;
    Ok(found)
}

/// Returns what can stand for a value.
fn operands<'a>(
    alloc: Global,
    names: &[Offer<'a>],
    parameters: &[Token<'a>],
) -> Result<Vec<Offer<'a>>, AllocError>
    ensures { IfOk result
        (λ found. map told found.items ≡ operands names.now parameters.now) }
{
    let mut found = parameter_offers(alloc, parameters)?;
    let variables = of_kind(alloc, names, OfferKind::Variable)?;
    push_all(&variables, &mut found)?;
    let functions = of_kind(alloc, names, OfferKind::Function)?;
    push_all(&functions, &mut found)?;
    push_words(built_in(BuiltIns::FunctionsToD), &mut found)?;
    push_words(built_in(BuiltIns::FunctionsToJ), &mut found)?;
    push_words(built_in(BuiltIns::FunctionsToR), &mut found)?;
    push_words(built_in(BuiltIns::FunctionsToZ), &mut found)?;
    push_words(built_in(BuiltIns::Constants), &mut found)?;
    push_words(built_in(BuiltIns::Keywords), &mut found)?;
    Ok(found)
}

/// Returns what can be written at a place of a line with these words and this outline, where these
/// parameters are seen.
pub(crate) fn candidates<'a>(
    alloc: Global,
    names: &[Offer<'a>],
    words: &[Token<'_>],
    outline: &[Token<'_>],
    parameters: &[Token<'a>],
    place: Place,
) -> Result<Vec<Offer<'a>>, AllocError>
    ensures { IfOk result (λ found. map told found.items
        ≡ candidates names.now words.now outline.now parameters.now place) }
{
    match place {
        Place::Groups => of_kind(alloc, names, OfferKind::Group),
        Place::Target => of_kind(alloc, names, OfferKind::Recipe),
        Place::Dependencies => {
            free_recipes(alloc, names, own_name(words), dependencies(outline))
        }
        Place::Dependency => free_recipes(alloc, names, own_name(words), &[]),
        Place::Operand => operands(alloc, names, parameters),
        _ => word_offers(alloc, table_of(place)),
    }
}
