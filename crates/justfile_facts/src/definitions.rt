//! Where an item defines names.
ghost use Rattle.std.specs.Prelude.{◌≡◌, ◌++◌, ◌∷◌, [], OnOk};
ghost use Rattle.std.specs.List.{flat_map};
ghost use Rattle.justfile_facts.specs.Definitions.{arguments, defined, enabled_definitions, exactly, exclusive, function_definitions, function_parameter, has_variadic, hidden_definitions, is_needed, is_variadic, item_definitions, module_space, most_of, named, parameter_definitions, recipe_definitions, setting_definitions};

use justfile_builtins::functions::Arguments;
use justfile_item::{FunctionDefinition, Item, Set, UnresolvedRecipe};
use justfile_model::ParameterKind;
use justfile_numbers::Number;
use justfile_problems::{Definition, Space};
use justfile_recipe_header::Parameter;
use justfile_token::Name;
use justfile_vocabulary::{AttributeKind, ItemKind, Keyword};
use std::alloc::AllocError;

/// Appends what items define.
#[tactic(auto, using(std::proofs::lemmas::List::flat_map_more, std::proofs::lemmas::List::take_more))]
pub(crate) fn push_definitions<'src>(
    items: &[Item<'src>],
    found: &mut Vec<Definition<'src>>,
) -> Result<(), AllocError>
    ensures { OnOk result
        (found.new.items ≡ found.old.items ++ flat_map item_definitions items.now) }
{
    for item in items {
        push_item(item, found)?;
    }
    Ok(())
}

/// Appends what an item defines: what one for another system does is hidden.
fn push_item<'src>(item: &Item<'src>, found: &mut Vec<Definition<'src>>) -> Result<(), AllocError>
    ensures { OnOk result (found.new.items ≡ found.old.items ++ item_definitions item.now) }
{
    if item.is_enabled() {
        push_enabled(item, found)
    } else {
        push_hidden(item, found)
    }
}

/// Appends what an item defines that is enabled.
fn push_enabled<'src>(
    item: &Item<'src>,
    found: &mut Vec<Definition<'src>>,
) -> Result<(), AllocError>
    ensures { OnOk result (found.new.items ≡ found.old.items ++ enabled_definitions item.now) }
{
    match item {
        Item::Alias(alias) => push_name(Space::Commands, ItemKind::Alias, alias.name, found),
        Item::Assignment(assignment) => {
            push_name(
                Space::Variables,
                ItemKind::Assignment,
                assignment.name,
                found,
            )
        }
        Item::Function(function) => push_function(function, found),
        Item::Module { name, optional, .. } => {
            push_name(module_space(*optional), ItemKind::Module, *name, found)
        }
        Item::Recipe(recipe) => push_recipe(recipe, found),
        Item::Setting(set) => push_setting(set, found),
        Item::Unexport { name, .. } => {
            push_name(Space::Unexports, ItemKind::Unexport, *name, found)
        }
        Item::Comment(_) | Item::Import { .. } | Item::Newline => Ok(()),
    }
}

/// Appends what an item for another system may define.
fn push_hidden<'src>(item: &Item<'src>, found: &mut Vec<Definition<'src>>) -> Result<(), AllocError>
    ensures { OnOk result (found.new.items ≡ found.old.items ++ hidden_definitions item.now) }
{
    match item {
        Item::Alias(alias) => push_name(Space::HiddenCommands, ItemKind::Alias, alias.name, found),
        Item::Assignment(assignment) => {
            push_name(
                Space::HiddenVariables,
                ItemKind::Assignment,
                assignment.name,
                found,
            )
        }
        Item::Function(function) => {
            push_name(
                Space::HiddenFunctions,
                ItemKind::Function,
                function.name,
                found,
            )
        }
        Item::Module { name, .. } => {
            push_name(Space::HiddenCommands, ItemKind::Module, *name, found)
        }
        Item::Recipe(recipe) => {
            push_name(Space::HiddenCommands, ItemKind::Recipe, recipe.name, found)
        }
        Item::Comment(_)
        | Item::Import { .. }
        | Item::Newline
        | Item::Setting(_)
        | Item::Unexport { .. } => Ok(()),
    }
}

/// Returns the set of names to which a module belongs. One whose file need not exist may be none.
fn module_space(optional: bool) -> Space
    ensures { result ≡ module_space optional }
{
    if optional {
        Space::HiddenCommands
    } else {
        Space::Commands
    }
}

/// The one number of arguments.
fn exactly(count: usize) -> Arguments
    ensures { result ≡ exactly count }
{
    Arguments {
        least: count,
        most: Some(count),
    }
}

/// Appends the definition of an item that takes no arguments.
fn push_name<'src>(
    space: Space,
    kind: ItemKind,
    name: Name<'src>,
    found: &mut Vec<Definition<'src>>,
) -> Result<(), AllocError>
    ensures { OnOk result
        (found.new.items ≡ found.old.items ++ named space kind name.entry ∷ []) }
{
    push(space, kind, name, name, exactly(0), found)
}

/// Appends a definition.
fn push<'src>(
    space: Space,
    kind: ItemKind,
    item: Name<'src>,
    name: Name<'src>,
    takes: Arguments,
    found: &mut Vec<Definition<'src>>,
) -> Result<(), AllocError>
    ensures { OnOk result (found.new.items
        ≡ found.old.items ++ defined space kind item.entry name.entry takes ∷ []) }
{
    found.push(Definition {
        space,
        kind,
        item,
        name,
        takes,
    })?;
    Ok(())
}

/// Appends what a function defines.
fn push_function<'src>(
    function: &FunctionDefinition<'src>,
    found: &mut Vec<Definition<'src>>,
) -> Result<(), AllocError>
    ensures { OnOk result
        (found.new.items ≡ found.old.items ++ function_definitions function.now) }
{
    let takes = exactly(function.parameters.len());
    push(
        Space::Functions,
        ItemKind::Function,
        function.name,
        function.name,
        takes,
        found,
    )?;
    push_function_parameters(function.name, &function.parameters, found)
}

/// Appends the parameters of a function.
#[tactic(auto, using(std::proofs::lemmas::List::flat_map_more, std::proofs::lemmas::List::take_more))]
fn push_function_parameters<'src>(
    item: Name<'src>,
    parameters: &[(Name<'src>, Number)],
    found: &mut Vec<Definition<'src>>,
) -> Result<(), AllocError>
    ensures { OnOk result (found.new.items
        ≡ found.old.items ++ flat_map (function_parameter item.entry) parameters.now) }
{
    for parameter in parameters {
        push(
            Space::Parameters,
            ItemKind::Function,
            item,
            parameter.0,
            exactly(0),
            found,
        )?;
    }
    Ok(())
}

/// Appends what a recipe defines.
fn push_recipe<'src>(
    recipe: &UnresolvedRecipe<'src>,
    found: &mut Vec<Definition<'src>>,
) -> Result<(), AllocError>
    ensures { OnOk result (found.new.items ≡ found.old.items ++ recipe_definitions recipe.now) }
{
    let takes = arguments(&recipe.parameters);
    push(
        Space::Commands,
        ItemKind::Recipe,
        recipe.name,
        recipe.name,
        takes,
        found,
    )?;
    if recipe.attributes.contains(AttributeKind::Default) {
        push_name(Space::DefaultRecipes, ItemKind::Recipe, recipe.name, found)?;
    }
    push_parameters(recipe.name, &recipe.parameters, found)
}

/// Returns the numbers of arguments that parameters take. Whether options count among them isn't
/// known, so the least number is without them and the greatest with them.
fn arguments(parameters: &[Parameter<'_>]) -> Arguments
    ensures { result ≡ arguments parameters.now }
{
    Arguments {
        least: parameters
            .iter()
            .filter(|parameter| is_needed(parameter))
            .count(),
        most: most_of(parameters),
    }
}

/// Returns the greatest number of arguments that parameters take, if there is one.
fn most_of(parameters: &[Parameter<'_>]) -> Option<usize>
    ensures { result ≡ most_of parameters.now }
{
    if has_variadic(parameters) {
        None
    } else {
        Some(parameters.len())
    }
}

/// Whether one of the parameters takes any number of arguments.
fn has_variadic(parameters: &[Parameter<'_>]) -> bool
    ensures { result ≡ has_variadic parameters.now }
{
    parameters
        .iter()
        .any(|parameter| is_variadic(parameter.kind))
}

/// Whether a call has to pass the parameter by its place: it is required and isn't an option.
pub(crate) fn is_needed(parameter: &Parameter<'_>) -> bool
    ensures { result ≡ is_needed parameter.now }
{
    parameter.is_required() && !parameter.is_option()
}

/// Whether a parameter of this kind takes any number of arguments.
fn is_variadic(kind: ParameterKind) -> bool
    ensures { result ≡ is_variadic kind }
{
    match kind {
        ParameterKind::Plus | ParameterKind::Star => true,
        ParameterKind::Singular => false,
    }
}

/// Appends the parameters of a recipe.
#[tactic(auto, using(std::proofs::lemmas::List::flat_map_more, std::proofs::lemmas::List::take_more))]
fn push_parameters<'src>(
    item: Name<'src>,
    parameters: &[Parameter<'src>],
    found: &mut Vec<Definition<'src>>,
) -> Result<(), AllocError>
    ensures { OnOk result (found.new.items
        ≡ found.old.items ++ flat_map (parameter_definitions item.entry) parameters.now) }
{
    for parameter in parameters {
        push_parameter(item, parameter, found)?;
    }
    Ok(())
}

/// Appends a parameter of a recipe, and again if it has a default and isn't an option.
fn push_parameter<'src>(
    item: Name<'src>,
    parameter: &Parameter<'src>,
    found: &mut Vec<Definition<'src>>,
) -> Result<(), AllocError>
    ensures { OnOk result (found.new.items
        ≡ found.old.items ++ parameter_definitions item.entry parameter.now) }
{
    push(
        Space::Parameters,
        ItemKind::Recipe,
        item,
        parameter.name,
        exactly(0),
        found,
    )?;
    if parameter.default.is_some() && !parameter.is_option() {
        push(
            Space::Defaults,
            ItemKind::Recipe,
            item,
            parameter.name,
            exactly(0),
            found,
        )?;
    }
    Ok(())
}

/// Appends what a setting defines.
fn push_setting<'src>(set: &Set<'src>, found: &mut Vec<Definition<'src>>) -> Result<(), AllocError>
    ensures { OnOk result (found.new.items ≡ found.old.items ++ setting_definitions set.now) }
{
    push_name(Space::Settings, ItemKind::Setting, set.name, found)?;
    push_exclusive(set.name, set.value.conflicts(), found)
}

/// Appends a setting again, if it excludes these.
fn push_exclusive<'src>(
    name: Name<'src>,
    others: &[Keyword],
    found: &mut Vec<Definition<'src>>,
) -> Result<(), AllocError>
    ensures { OnOk result
        (found.new.items ≡ found.old.items ++ exclusive name.entry others.now) }
{
    match others {
        [] => Ok(()),
        [_, ..] => push_name(Space::ExclusiveSettings, ItemKind::Setting, name, found),
    }
}
