//! The parts of symbols that take memory: parameters, docs, groups and targets.
ghost use Rattle.std.specs.Prelude.{◌≡◌, ◌++◌, ◌∷◌, [], IfOk, OnOk, Some, codes, map, string_bytes};
ghost use Rattle.std.specs.List.{flat_map};
ghost use Rattle.std.specs.Option.{option_map};
ghost use Rattle.justfile_item.specs.ItemText.{item_attributes};
ghost use Rattle.justfile_item.specs.Parts.{item_doc};
ghost use Rattle.justfile_recipe_header.specs.Header.{parameters_text};
ghost use Rattle.justfile_token.specs.Name.{name_text};
ghost use Rattle.justfile_token.specs.Namepath.{names_in};
ghost use Rattle.justfile_outline.specs.Symbols.{groups_of, item_parameters, item_target, name_part, set_groups};

use justfile_attribute_set::AttributeSet;
use justfile_item::Item;
use justfile_numbers::Number;
use justfile_recipe_header::{Parameter, write_parameters};
use justfile_token::{Name, Namepath};
use std::alloc::{AllocError, Global};

/// Returns the parameters of a recipe as they are printed, or the names of those of a function,
/// each after a space. Other items have none.
pub(crate) fn parameters_text(item: &Item<'_>, alloc: Global) -> Result<String, AllocError>
    ensures { IfOk result (λ text. string_bytes text ≡ item_parameters item.now) }
{
    match item {
        Item::Function(function) => names_text(&function.parameters, alloc),
        Item::Recipe(recipe) => printed_text(&recipe.parameters, alloc),
        _ => Ok(String::new(alloc)),
    }
}

/// Returns the printed text of the parameters of a recipe, each after a space.
fn printed_text(parameters: &[Parameter<'_>], alloc: Global) -> Result<String, AllocError>
    ensures { IfOk result (λ text. string_bytes text ≡ parameters_text parameters.now) }
{
    let mut text = String::new(alloc);
    write_parameters(parameters, &mut text)?;
    Ok(text)
}

/// Returns the names of the parameters of a function, each after a space.
fn names_text(parameters: &[(Name<'_>, Number)], alloc: Global) -> Result<String, AllocError>
    ensures { IfOk result (λ text. string_bytes text ≡ flat_map name_part parameters.now) }
{
    let mut text = String::new(alloc);
    for parameter in parameters {
        push_name(&mut text, parameter.0)?;
    }
    Ok(text)
}

/// Appends a space and a name.
#[tactic(auto, using(crate::proofs::Shows::joined))]
fn push_name(text: &mut String, name: Name<'_>) -> Result<(), AllocError>
    ensures { OnOk result
        (string_bytes text.new ≡ string_bytes text.old ++ (codes " " ++ name_text name.entry)) }
{
    text.push_str(" ")?;
    text.push_str(name.lexeme())
}

/// Returns a copy of the doc of an item.
pub(crate) fn copy_doc(item: &Item<'_>, alloc: Global) -> Result<Option<String>, AllocError>
    ensures { IfOk result (λ doc. option_map string_bytes doc ≡ item_doc item.now) }
{
    match item.doc() {
        None => Ok(None),
        Some(doc) => Ok(Some(doc.to_string(alloc)?)),
    }
}

/// Returns copies of the names of the groups of an item, in order.
pub(crate) fn copy_groups(item: &Item<'_>, alloc: Global) -> Result<Vec<String>, AllocError>
    ensures { IfOk result
        (λ groups. map string_bytes groups.items ≡ groups_of (item_attributes item.now)) }
{
    match item.attributes() {
        None => Ok(Vec::new(alloc)),
        Some(attributes) => copy_group_names(attributes, alloc),
    }
}

/// Returns copies of the names of groups, in order.
fn copy_group_names(attributes: &AttributeSet<'_>, alloc: Global) -> Result<Vec<String>, AllocError>
    ensures { IfOk result
        (λ groups. map string_bytes groups.items ≡ set_groups attributes.now) }
{
    let names = attributes.group_names(alloc)?;
    copy_texts(&names, alloc)
}

/// Returns copies of texts.
fn copy_texts(texts: &[&str], alloc: Global) -> Result<Vec<String>, AllocError>
    ensures { IfOk result
        (λ copies. map string_bytes copies.items ≡ map (λ text. text.now) texts.now) }
{
    let mut copies = Vec::new(alloc);
    for text in texts {
        push_text(text, alloc, &mut copies)?;
    }
    Ok(copies)
}

/// Appends a copy of a text.
#[tactic(auto, using(crate::proofs::Shows::pushed_text))]
fn push_text(text: &str, alloc: Global, texts: &mut Vec<String>) -> Result<(), AllocError>
    ensures { OnOk result (map string_bytes texts.new.items
        ≡ map string_bytes texts.old.items ++ text.now ∷ []) }
{
    texts.push(text.to_string(alloc)?)?;
    Ok(())
}

/// Returns a copy of the path of the recipe that an alias refers to. Other items have none.
pub(crate) fn copy_target<'src>(
    item: &Item<'src>,
    alloc: Global,
) -> Result<Option<Namepath<'src>>, AllocError>
    ensures { IfOk result (λ target. option_map names_in target ≡ item_target item.now) }
{
    match item {
        Item::Alias(alias) => copy_path(&alias.target, alloc),
        _ => Ok(None),
    }
}

/// Returns a copy of a path.
fn copy_path<'src>(
    path: &Namepath<'src>,
    alloc: Global,
) -> Result<Option<Namepath<'src>>, AllocError>
    ensures { IfOk result (λ copy. option_map names_in copy ≡ Some (names_in path.now)) }
{
    Ok(Some(path.clone(alloc)?))
}
