//! Where attributes `arg` name parameters.
ghost use Rattle.std.specs.Prelude.{◌≡◌, ◌++◌, IfOk, OnOk, map, true};
ghost use Rattle.std.specs.List.{flat_map};
ghost use Rattle.justfile_mentions.specs.Arguments.{arguments_of, is_plain, named_by, named_in, named_of, noted_in};
ghost use Rattle.justfile_mentions.specs.Noted.{noted};

use editor_language::{Mention, Role, Span};
use justfile_attribute_set::{Attribute, Written};
use justfile_item::Item;
use justfile_token::StringLiteral;
use std::alloc::{AllocError, Global};

/// Adds the mentions of parameters in the attributes of an item, which has an index.
pub(crate) fn push_arguments(
    item: &Item<'_>,
    alloc: Global,
    index: usize,
    mentions: &mut Vec<Mention>,
) -> Result<(), AllocError>
    ensures { OnOk result (map noted mentions.new.items
        ≡ map noted mentions.old.items ++ arguments_of index item.now) }
{
    match item {
        Item::Recipe(recipe) => push_among(recipe.attributes.written(), alloc, index, mentions),
        _ => Ok(()),
    }
}

/// Adds the mentions of parameters in attributes.
fn push_among(
    pairs: &[(Attribute<'_>, Written<'_>)],
    alloc: Global,
    index: usize,
    mentions: &mut Vec<Mention>,
) -> Result<(), AllocError>
    ensures { OnOk result (map noted mentions.new.items
        ≡ map noted mentions.old.items ++ flat_map (named_of index) pairs.now) }
{
    for pair in pairs {
        push_named(&pair.0, alloc, index, mentions)?;
    }
    Ok(())
}

/// Adds the mention of a parameter in an attribute, if there is one.
fn push_named(
    attribute: &Attribute<'_>,
    alloc: Global,
    index: usize,
    mentions: &mut Vec<Mention>,
) -> Result<(), AllocError>
    ensures { OnOk result (map noted mentions.new.items
        ≡ map noted mentions.old.items ++ named_in index attribute.now) }
{
    match attribute {
        Attribute::Arg { name, .. } => push_literal(name, alloc, index, mentions),
        _ => Ok(()),
    }
}

/// Adds the mention of a parameter by a literal, if that is written as what it means.
fn push_literal(
    literal: &StringLiteral<'_>,
    alloc: Global,
    index: usize,
    mentions: &mut Vec<Mention>,
) -> Result<(), AllocError>
    ensures { OnOk result (map noted mentions.new.items
        ≡ map noted mentions.old.items ++ named_by index literal.now) }
{
    if is_plain(literal, alloc)? {
        mentions.push(mention(literal, alloc, index)?)?;
    }
    Ok(())
}

/// Whether a literal is written as what it means, between its delimiters.
fn is_plain(literal: &StringLiteral<'_>, alloc: Global) -> Result<bool, AllocError>
    ensures { IfOk result (λ is. is ≡ is_plain literal.now) }
{
    let quotes = literal.kind.delimiter();
    let text = literal.cooked.as_str();
    let plain = format!(in alloc; "{quotes}{text}{quotes}")?;
    Ok(literal.token.lexeme() == plain.as_str())
}

/// Returns the mention of a parameter between the delimiters of a literal.
fn mention(literal: &StringLiteral<'_>, alloc: Global, index: usize) -> Result<Mention, AllocError>
    requires { is_plain literal.now ≡ true }
    ensures { IfOk result (λ made. noted made ≡ noted_in index literal.now) }
{
    let name = literal.cooked.as_str().to_string(alloc)?;
    let quotes = literal.kind.delimiter_len();
    let end = literal.token.end();
    Ok(Mention {
        role: Role::Parameter,
        name,
        scope: Some(index),
        span: Span {
            start: literal.token.offset + quotes,
            end: end - quotes,
        },
        defines: false,
    })
}
