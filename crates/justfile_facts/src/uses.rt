//! Where an item uses names.
ghost use Rattle.std.specs.Prelude.{◌≡◌, ◌++◌, ◌∷◌, [], OnOk, length};
ghost use Rattle.std.specs.List.{flat_map, list_any};
ghost use Rattle.justfile_token.specs.Namepath.{names_in};
ghost use Rattle.justfile_facts.specs.Scopes.{end_at, is_comment};
ghost use Rattle.justfile_problems.specs.declared.facts.Role.TheVariants.{Function};
ghost use Rattle.justfile_facts.specs.Uses.{assignment_uses, behind, conflict_uses, dependency_uses, enabled_uses, export_uses, expression_uses, inner_uses, item_uses, parameter_uses, recipe_uses, setting_uses, single, used};

use crate::definitions::is_needed;
use crate::scopes::Scope;
use justfile_expression::Expression;
use justfile_item::{Item, Set, UnresolvedRecipe};
use justfile_line::Line;
use justfile_problems::{Role, Use};
use justfile_recipe_header::{Parameter, UnresolvedDependency};
use justfile_references::Defaults;
use justfile_token::{Name, Namepath};
use justfile_vocabulary::Keyword;
use std::alloc::{AllocError, Global};

/// Appends where items use names.
#[tactic(auto, using(std::proofs::lemmas::List::flat_map_more, std::proofs::lemmas::List::take_more))]
pub(crate) fn push_uses<'src>(
    items: &[Item<'src>],
    alloc: Global,
    found: &mut Vec<Use<'src>>,
) -> Result<(), AllocError>
    ensures { OnOk result (found.new.items ≡ found.old.items ++ flat_map item_uses items.now) }
{
    for item in items {
        push_item(item, alloc, found)?;
    }
    Ok(())
}

/// Appends where an item uses names, if it is enabled.
fn push_item<'src>(
    item: &Item<'src>,
    alloc: Global,
    found: &mut Vec<Use<'src>>,
) -> Result<(), AllocError>
    ensures { OnOk result (found.new.items ≡ found.old.items ++ item_uses item.now) }
{
    if item.is_enabled() {
        push_enabled(item, alloc, found)
    } else {
        Ok(())
    }
}

/// Appends where an item uses names that is enabled.
fn push_enabled<'src>(
    item: &Item<'src>,
    alloc: Global,
    found: &mut Vec<Use<'src>>,
) -> Result<(), AllocError>
    ensures { OnOk result (found.new.items ≡ found.old.items ++ enabled_uses item.now) }
{
    match item {
        Item::Alias(alias) => push_path(Role::Target, alias.name, &alias.target, found),
        Item::Assignment(assignment) => {
            push_assignment(item, assignment.export, assignment.name, alloc, found)
        }
        Item::Function(function) => { push_inner(item, function.name, &[], false, alloc, found) }
        Item::Recipe(recipe) => push_recipe(item, recipe, alloc, found),
        Item::Setting(set) => push_setting(item, set, alloc, found),
        Item::Comment(_)
        | Item::Import { .. }
        | Item::Module { .. }
        | Item::Newline
        | Item::Unexport { .. } => Ok(()),
    }
}

/// Appends where an assignment uses names, which is this item.
fn push_assignment<'src>(
    item: &Item<'src>,
    export: bool,
    name: Name<'src>,
    alloc: Global,
    found: &mut Vec<Use<'src>>,
) -> Result<(), AllocError>
    ensures { OnOk result (found.new.items
        ≡ found.old.items ++ assignment_uses item.now export name.entry) }
{
    push_export(export, name, found)?;
    push_inner(item, name, &[], false, alloc, found)
}

/// Appends where a recipe uses names, which is this item.
fn push_recipe<'src>(
    item: &Item<'src>,
    recipe: &UnresolvedRecipe<'src>,
    alloc: Global,
    found: &mut Vec<Use<'src>>,
) -> Result<(), AllocError>
    ensures { OnOk result
        (found.new.items ≡ found.old.items ++ recipe_uses item.now recipe.now) }
{
    push_parameters(recipe.name, &recipe.parameters, found)?;
    push_dependencies(recipe.name, &recipe.dependencies, found)?;
    let commented = has_comment(&recipe.body);
    push_inner(
        item,
        recipe.name,
        &recipe.parameters,
        commented,
        alloc,
        found,
    )
}

/// Appends where a setting uses names, which is this item.
fn push_setting<'src>(
    item: &Item<'src>,
    set: &Set<'src>,
    alloc: Global,
    found: &mut Vec<Use<'src>>,
) -> Result<(), AllocError>
    ensures { OnOk result (found.new.items ≡ found.old.items ++ setting_uses item.now set.now) }
{
    push_conflicts(set, set.value.conflicts(), found)?;
    push_inner(item, set.name, &[], false, alloc, found)
}

/// Whether one of the lines begins with `#`.
fn has_comment(lines: &[Line<'_>]) -> bool
    ensures { result ≡ list_any is_comment lines.now }
{
    lines.iter().any(|line| is_comment(line))
}

/// Whether a line begins with `#`.
fn is_comment(line: &Line<'_>) -> bool
    ensures { result ≡ is_comment line.now }
{
    line.is_comment()
}

/// Appends a use.
fn push<'src>(
    role: Role,
    item: Name<'src>,
    name: Name<'src>,
    commented: bool,
    found: &mut Vec<Use<'src>>,
) -> Result<(), AllocError>
    ensures { OnOk result (found.new.items
        ≡ found.old.items ++ used role item.entry name.entry commented ∷ []) }
{
    found.push(Use {
        role,
        item,
        name,
        commented,
    })?;
    Ok(())
}

/// Appends an assignment that is exported.
fn push_export<'src>(
    export: bool,
    name: Name<'src>,
    found: &mut Vec<Use<'src>>,
) -> Result<(), AllocError>
    ensures { OnOk result (found.new.items ≡ found.old.items ++ export_uses export name.entry) }
{
    if export {
        push(Role::Export, name, name, false, found)?;
    }
    Ok(())
}

/// Appends the use of the item with a path, if the path is a name alone.
fn push_path<'src>(
    role: Role,
    item: Name<'src>,
    path: &Namepath<'src>,
    found: &mut Vec<Use<'src>>,
) -> Result<(), AllocError>
    ensures { OnOk result
        (found.new.items ≡ found.old.items ++ single role item.entry (names_in path.now)) }
{
    match path.split_last() {
        (name, []) => push(role, item, *name, false, found),
        _ => Ok(()),
    }
}

/// Appends the parameters that a call has to pass.
#[tactic(auto, using(std::proofs::lemmas::List::flat_map_more, std::proofs::lemmas::List::take_more))]
fn push_parameters<'src>(
    item: Name<'src>,
    parameters: &[Parameter<'src>],
    found: &mut Vec<Use<'src>>,
) -> Result<(), AllocError>
    ensures { OnOk result (found.new.items
        ≡ found.old.items ++ flat_map (parameter_uses item.entry) parameters.now) }
{
    for parameter in parameters {
        push_parameter(item, parameter, found)?;
    }
    Ok(())
}

/// Appends a parameter, if a call has to pass it.
fn push_parameter<'src>(
    item: Name<'src>,
    parameter: &Parameter<'src>,
    found: &mut Vec<Use<'src>>,
) -> Result<(), AllocError>
    ensures { OnOk result
        (found.new.items ≡ found.old.items ++ parameter_uses item.entry parameter.now) }
{
    if is_needed(parameter) {
        push(Role::Required, item, parameter.name, false, found)?;
    }
    Ok(())
}

/// Appends the recipes of dependencies.
#[tactic(auto, using(std::proofs::lemmas::List::flat_map_more, std::proofs::lemmas::List::take_more))]
fn push_dependencies<'src>(
    item: Name<'src>,
    dependencies: &[UnresolvedDependency<'src>],
    found: &mut Vec<Use<'src>>,
) -> Result<(), AllocError>
    ensures { OnOk result (found.new.items
        ≡ found.old.items ++ flat_map (dependency_uses item.entry) dependencies.now) }
{
    for dependency in dependencies {
        push_dependency(item, dependency, found)?;
    }
    Ok(())
}

/// Appends the recipe of a dependency.
fn push_dependency<'src>(
    item: Name<'src>,
    dependency: &UnresolvedDependency<'src>,
    found: &mut Vec<Use<'src>>,
) -> Result<(), AllocError>
    ensures { OnOk result
        (found.new.items ≡ found.old.items ++ dependency_uses item.entry dependency.now) }
{
    let role = Role::Dependency(dependency.arguments.len());
    push_path(role, item, &dependency.recipe, found)
}

/// Appends the settings that a setting excludes.
#[tactic(auto, using(std::proofs::lemmas::List::flat_map_more, std::proofs::lemmas::List::take_more))]
fn push_conflicts<'src>(
    set: &Set<'src>,
    others: &[Keyword],
    found: &mut Vec<Use<'src>>,
) -> Result<(), AllocError>
    ensures { OnOk result
        (found.new.items ≡ found.old.items ++ flat_map (conflict_uses set.now) others.now) }
{
    let own = set.value.keyword();
    for other in others {
        push(
            Role::Exclusive { own, other: *other },
            set.name,
            set.name,
            false,
            found,
        )?;
    }
    Ok(())
}

/// Appends the functions and the variables in the expressions of an item.
fn push_inner<'src>(
    item: &Item<'src>,
    name: Name<'src>,
    parameters: &[Parameter<'src>],
    commented: bool,
    alloc: Global,
    found: &mut Vec<Use<'src>>,
) -> Result<(), AllocError>
    ensures { OnOk result (found.new.items ≡ found.old.items
        ++ inner_uses item.now name.entry commented parameters.now) }
{
    let scope = Scope {
        item: name,
        parameters,
        defaults: Defaults::of(item),
    };
    let expressions = item.all_expressions(alloc)?;
    for index in 0..expressions.len() {
        push_expression(expressions[index], scope, commented, found)?;
    }
    Ok(())
}

/// Appends the function or the variable that an expression names itself, unless it is in an
/// attribute.
fn push_expression<'src>(
    expression: &Expression<'src>,
    scope: Scope<'_, 'src>,
    commented: bool,
    found: &mut Vec<Use<'src>>,
) -> Result<(), AllocError>
    ensures { OnOk result (found.new.items ≡ found.old.items
        ++ expression_uses scope.entry.item commented
        (end_at scope.entry.defaults scope.entry.parameters.now) expression.now) }
{
    match expression {
        Expression::Call { name, arguments } => {
            push_call(*name, arguments, scope.item, commented, found)
        }
        Expression::Variable { name, .. } => {
            let end = scope.end_at(&name.token);
            push_behind(Role::Variable(end), scope.item, *name, commented, found)
        }
        Expression::And { .. }
        | Expression::Assert { .. }
        | Expression::Backtick { .. }
        | Expression::Comparison { .. }
        | Expression::Concatenation { .. }
        | Expression::Conditional { .. }
        | Expression::FormatString { .. }
        | Expression::Group { .. }
        | Expression::Join { .. }
        | Expression::List { .. }
        | Expression::ListConcatenation { .. }
        | Expression::Not { .. }
        | Expression::Or { .. }
        | Expression::StringLiteral { .. } => Ok(()),
    }
}

/// Appends a call, unless it is in an attribute.
fn push_call<'src>(
    name: Name<'src>,
    arguments: &Vec<Expression<'src>>,
    item: Name<'src>,
    commented: bool,
    found: &mut Vec<Use<'src>>,
) -> Result<(), AllocError>
    ensures { OnOk result (found.new.items ≡ found.old.items
        ++ behind (used (Function (length arguments.now.items)) item.entry name.entry commented)) }
{
    push_behind(
        Role::Function(arguments.len()),
        item,
        name,
        commented,
        found,
    )
}

/// Appends a use, unless it is in an attribute: before the name of the item.
fn push_behind<'src>(
    role: Role,
    item: Name<'src>,
    name: Name<'src>,
    commented: bool,
    found: &mut Vec<Use<'src>>,
) -> Result<(), AllocError>
    ensures { OnOk result (found.new.items
        ≡ found.old.items ++ behind (used role item.entry name.entry commented)) }
{
    if name.token.offset < item.token.offset {
        Ok(())
    } else {
        push(role, item, name, commented, found)
    }
}
