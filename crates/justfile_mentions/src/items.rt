//! The mentions of names in items.
ghost use Rattle.std.specs.Prelude.{◌≡◌, IfOk, map};
ghost use Rattle.justfile_mentions.specs.Mentions.{AreByReferences, AreMentions, AreOfItem, scope_of, to_note};
ghost use Rattle.justfile_mentions.specs.Noted.{noted};

use crate::arguments::push_arguments;
use crate::meaning::{meaning, parameters_among};
use editor_language::{Mention, Role, Span};
use justfile_item::Item;
use justfile_references::{Defaults, Reference, references};
use justfile_token::Token;
use std::alloc::{AllocError, Global};

/// Returns where names are defined and used in the items of a file, item by item. A parameter is
/// also used where an attribute `arg` names it without escapes; its scope is the index of its item.
///
/// # Errors
///
/// Memory ran out.
pub fn mentions(items: &[Item<'_>], alloc: Global) -> Result<Vec<Mention>, AllocError>
    ensures { IfOk result (λ found. AreMentions 0 items.now (map noted found.items)) }
{
    let mut mentions = Vec::new(alloc);
    for (index, item) in items.iter().enumerate() {
        let mut own = mentions_in(item, alloc, index)?;
        mentions.append(&mut own)?;
    }
    Ok(mentions)
}

/// Returns the mentions in an item, which has an index, in the order of the text.
#[tactic(auto, using(crate::proofs::Appended::ordered))]
fn mentions_in(item: &Item<'_>, alloc: Global, index: usize) -> Result<Vec<Mention>, AllocError>
    ensures { IfOk result (λ own. AreOfItem index item.now (map noted own.items)) }
{
    let mut own = mentions_by(item, alloc, index)?;
    push_arguments(item, alloc, index, &mut own)?;
    own.sort_by_key(|mention| mention.span.start)?;
    Ok(own)
}

/// Returns the mentions that the references of an item are.
#[tactic(auto, using(crate::proofs::Appended::referring))]
fn mentions_by(item: &Item<'_>, alloc: Global, index: usize) -> Result<Vec<Mention>, AllocError>
    ensures { IfOk result (λ own. AreByReferences index item.now (map noted own.items)) }
{
    let defaults = Defaults::of(item);
    let found = references(item, alloc)?;
    let parameters = parameters_among(alloc, &found)?;
    mentions_of(alloc, index, defaults, &parameters, &found)
}

/// Returns the mentions that references of an item with these parameters are.
fn mentions_of(
    alloc: Global,
    index: usize,
    defaults: Defaults,
    parameters: &[Token<'_>],
    found: &[Reference<'_>],
) -> Result<Vec<Mention>, AllocError>
    ensures { IfOk result (λ own. map noted own.items
        ≡ map (to_note index defaults parameters.now) found.now) }
{
    let mut mentions = Vec::new(alloc);
    for reference in found {
        mentions.push(mention(alloc, index, defaults, parameters, reference)?)?;
    }
    Ok(mentions)
}

/// Returns the mention that a reference is.
#[tactic(auto, using(crate::proofs::Appended::made))]
fn mention(
    alloc: Global,
    index: usize,
    defaults: Defaults,
    parameters: &[Token<'_>],
    reference: &Reference<'_>,
) -> Result<Mention, AllocError>
    ensures { IfOk result
        (λ made. noted made ≡ to_note index defaults parameters.now reference.now) }
{
    let role = meaning(defaults, parameters, reference);
    let name = reference.token.lexeme().to_string(alloc)?;
    Ok(Mention {
        role,
        name,
        scope: scope_of(index, role),
        span: Span {
            start: reference.token.offset,
            end: reference.token.end(),
        },
        defines: reference.defines,
    })
}

/// Returns the item in which alone a name is known, if it is a parameter of that item.
fn scope_of(index: usize, role: Role) -> Option<usize>
    ensures { result ≡ scope_of index role }
{
    match role {
        Role::Parameter => Some(index),
        Role::Constant | Role::Function | Role::Recipe | Role::Variable => None,
    }
}
