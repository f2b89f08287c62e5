//! The names of items outside of their expressions.
ghost use Rattle.std.specs.Prelude.{◌≡◌, ◌++◌, ◌∷◌, [], OnOk, map};
ghost use Rattle.std.specs.List.{flat_map};
ghost use Rattle.justfile_references.specs.declared.reference.Role.TheVariants as roles;
ghost use Rattle.justfile_references.specs.References.{alias_names, dependency_names, function_names, function_parameter, item_names, parameter, path_names, recipe_names};

use crate::reference::{Reference, Role, push_definition, push_use};
use justfile_item::{Alias, FunctionDefinition, Item, UnresolvedRecipe};
use justfile_numbers::Number;
use justfile_recipe_header::{Parameter, UnresolvedDependency};
use justfile_token::{Name, Namepath};
use std::alloc::AllocError;

/// Appends the names of an item outside of its expressions.
pub(crate) fn push_names<'src>(
    item: &Item<'src>,
    found: &mut Vec<Reference<'src>>,
) -> Result<(), AllocError>
    ensures { OnOk result (found.new.items ≡ found.old.items ++ item_names item.now) }
{
    match item {
        Item::Alias(alias) => push_alias(alias, found),
        Item::Assignment(assignment) => push_definition(Role::Variable, assignment.name, found),
        Item::Function(function) => push_function(function, found),
        Item::Recipe(recipe) => push_recipe(recipe, found),
        _ => Ok(()),
    }
}

/// Appends the name and the target of an alias.
fn push_alias<'src>(alias: &Alias<'src>, found: &mut Vec<Reference<'src>>) -> Result<(), AllocError>
    ensures { OnOk result (found.new.items ≡ found.old.items ++ alias_names alias.now) }
{
    push_definition(Role::Recipe, alias.name, found)?;
    push_path(&alias.target, found)
}

/// Appends the name of a function and those of its parameters.
fn push_function<'src>(
    function: &FunctionDefinition<'src>,
    found: &mut Vec<Reference<'src>>,
) -> Result<(), AllocError>
    ensures { OnOk result (found.new.items ≡ found.old.items ++ function_names function.now) }
{
    push_definition(Role::Function, function.name, found)?;
    push_function_parameters(&function.parameters, found)
}

/// Appends the names of the parameters of a function.
fn push_function_parameters<'src>(
    parameters: &[(Name<'src>, Number)],
    found: &mut Vec<Reference<'src>>,
) -> Result<(), AllocError>
    ensures { OnOk result
        (found.new.items ≡ found.old.items ++ map function_parameter parameters.now) }
{
    for parameter in parameters {
        push_definition(Role::Parameter, parameter.0, found)?;
    }
    Ok(())
}

/// Appends the name of a recipe, those of its parameters, and those of the recipes that it depends
/// on.
fn push_recipe<'src>(
    recipe: &UnresolvedRecipe<'src>,
    found: &mut Vec<Reference<'src>>,
) -> Result<(), AllocError>
    ensures { OnOk result (found.new.items ≡ found.old.items ++ recipe_names recipe.now) }
{
    push_definition(Role::Recipe, recipe.name, found)?;
    push_parameters(&recipe.parameters, found)?;
    push_dependencies(&recipe.dependencies, found)
}

/// Appends the names of the parameters of a recipe.
fn push_parameters<'src>(
    parameters: &[Parameter<'src>],
    found: &mut Vec<Reference<'src>>,
) -> Result<(), AllocError>
    ensures { OnOk result (found.new.items ≡ found.old.items ++ map parameter parameters.now) }
{
    for parameter in parameters {
        push_definition(Role::Parameter, parameter.name, found)?;
    }
    Ok(())
}

/// Appends the names of recipes of the same file among dependencies.
fn push_dependencies<'src>(
    dependencies: &[UnresolvedDependency<'src>],
    found: &mut Vec<Reference<'src>>,
) -> Result<(), AllocError>
    ensures { OnOk result
        (found.new.items ≡ found.old.items ++ flat_map dependency_names dependencies.now) }
{
    for dependency in dependencies {
        push_path(&dependency.recipe, found)?;
    }
    Ok(())
}

/// Appends the name of a recipe with this path, if the path is a name alone: otherwise the recipe
/// is one of a module.
fn push_path<'src>(
    path: &Namepath<'src>,
    found: &mut Vec<Reference<'src>>,
) -> Result<(), AllocError>
    ensures { OnOk result (found.new.items ≡ found.old.items ++ path_names path.now) }
{
    match path.split_last() {
        (name, []) => push_use(Role::Recipe, *name, found),
        _ => Ok(()),
    }
}
