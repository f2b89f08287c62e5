//! The parameters of what a justfile defines.
ghost use Rattle.std.specs.Prelude.{◌≡◌, ◌++◌, IfOk, OnOk, not, option_copied, option_map};
ghost use Rattle.std.specs.List.{filter_map, prefix_len};
ghost use Rattle.std.specs.Option.{option_to_list};
ghost use Rattle.justfile_signatures.specs.Known.{called_number, from_definition, is_definition, is_other, own, parameter_name, parameters_of, shown};

use editor_language::{Mention, Role};
use std::alloc::{AllocError, Global};

/// Returns the number of what a called name stands for.
fn called_number(is_recipe: bool) -> u8
    ensures { result ≡ called_number is_recipe }
{
    if is_recipe {
        Role::Recipe.number()
    } else {
        Role::Function.number()
    }
}

/// Whether a mention defines what is called so.
fn is_definition(name: &str, is_recipe: bool, mention: &Mention) -> bool
    ensures { result ≡ is_definition name.now is_recipe mention.now }
{
    mention.defines
        && mention.role.number() == called_number(is_recipe)
        && mention.name.as_str() == name
}

/// Returns how many mentions are before the definition of what is called so.
fn before_len(mentions: &[Mention], name: &str, is_recipe: bool) -> usize
    ensures { result ≡ prefix_len (λ m. not (is_definition name.now is_recipe m)) mentions.now }
{
    mentions
        .iter()
        .take_while(|mention| !is_definition(name, is_recipe, mention))
        .count()
}

/// Returns the mentions from the definition of what is called so on.
#[tactic(auto, using(std::proofs::lemmas::List::drop_min))]
fn from_definition<'a>(mentions: &'a [Mention], name: &str, is_recipe: bool) -> &'a [Mention]
    ensures { result.now ≡ from_definition name.now is_recipe mentions.now }
{
    let count = before_len(mentions, name, is_recipe).min(mentions.len());
    &mentions[count..]
}

/// Whether a mention defines something that is no parameter.
fn is_other(mention: &Mention) -> bool
    ensures { result ≡ is_other mention.now }
{
    mention.defines && mention.role.number() != Role::Parameter.number()
}

/// Returns how many mentions are before something else is defined.
fn own_len(mentions: &[Mention]) -> usize
    ensures { result ≡ prefix_len (λ m. not (is_other m)) mentions.now }
{
    mentions
        .iter()
        .take_while(|mention| !is_other(mention))
        .count()
}

/// Returns the mentions before something else is defined.
#[tactic(auto, using(std::proofs::lemmas::List::take_min))]
fn own(mentions: &[Mention]) -> &[Mention]
    ensures { result.now ≡ own mentions.now }
{
    let count = own_len(mentions).min(mentions.len());
    &mentions[..count]
}

/// Returns the name of the parameter that a mention defines, if it defines one.
fn parameter_name(mention: &Mention) -> Option<&str>
    ensures { option_copied result ≡ parameter_name mention.now }
{
    if mention.defines && mention.role.number() == Role::Parameter.number() {
        Some(mention.name.as_str())
    } else {
        None
    }
}

/// Appends the name of the parameter that a mention defines, if it defines one.
fn push_name<'a>(mention: &'a Mention, names: &mut Vec<&'a str>) -> Result<(), AllocError>
    ensures { OnOk result (shown names.new.items
        ≡ shown names.old.items ++ option_to_list (parameter_name mention.now)) }
{
    if let Some(name) = parameter_name(mention) {
        names.push(name)?;
    }
    Ok(())
}

/// Returns the names of the parameters that mentions define.
fn names_in<'a>(alloc: Global, mentions: &'a [Mention]) -> Result<Vec<&'a str>, AllocError>
    ensures { IfOk result
        (λ names. shown names.items ≡ filter_map parameter_name mentions.now) }
{
    let mut names = Vec::new(alloc);
    for mention in mentions {
        push_name(mention, &mut names)?;
    }
    Ok(names)
}

/// Returns the names of the parameters of what is called so, if it is defined.
pub(crate) fn parameters_of<'a>(
    alloc: Global,
    mentions: &'a [Mention],
    name: &str,
    is_recipe: bool,
) -> Result<Option<Vec<&'a str>>, AllocError>
    ensures { IfOk result (λ names. option_map (λ v. shown v.items) names
        ≡ parameters_of name.now is_recipe mentions.now) }
{
    match from_definition(mentions, name, is_recipe) {
        [] => Ok(None),
        [_, others @ ..] => Ok(Some(names_in(alloc, own(others))?)),
    }
}
