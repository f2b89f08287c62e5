//! Where an item uses names of modules.
ghost use Rattle.std.specs.Prelude.{◌≡◌, ◌++◌, OnOk};
ghost use Rattle.std.specs.List.{flat_map};
ghost use Rattle.justfile_token.specs.Namepath.{names_in};
ghost use Rattle.justfile_facts.specs.Members.{dependency_members, enabled_members, in_module, item_members};

use justfile_item::Item;
use justfile_problems::{Member, Role, Use};
use justfile_recipe_header::UnresolvedDependency;
use justfile_token::{Name, Namepath};
use std::alloc::AllocError;

/// Appends where items use names of modules.
#[tactic(auto, using(std::proofs::lemmas::List::flat_map_more, std::proofs::lemmas::List::take_more))]
pub(crate) fn push_members<'src>(
    items: &[Item<'src>],
    found: &mut Vec<Member<'src>>,
) -> Result<(), AllocError>
    ensures { OnOk result
        (found.new.items ≡ found.old.items ++ flat_map item_members items.now) }
{
    for item in items {
        push_item(item, found)?;
    }
    Ok(())
}

/// Appends where an item uses names of modules, if it is enabled.
fn push_item<'src>(item: &Item<'src>, found: &mut Vec<Member<'src>>) -> Result<(), AllocError>
    ensures { OnOk result (found.new.items ≡ found.old.items ++ item_members item.now) }
{
    if item.is_enabled() {
        push_enabled(item, found)
    } else {
        Ok(())
    }
}

/// Appends where an item uses names of modules that is enabled.
fn push_enabled<'src>(item: &Item<'src>, found: &mut Vec<Member<'src>>) -> Result<(), AllocError>
    ensures { OnOk result (found.new.items ≡ found.old.items ++ enabled_members item.now) }
{
    match item {
        Item::Alias(alias) => push_path(Role::Target, alias.name, &alias.target, found),
        Item::Recipe(recipe) => push_dependencies(recipe.name, &recipe.dependencies, found),
        Item::Assignment(_)
        | Item::Comment(_)
        | Item::Function(_)
        | Item::Import { .. }
        | Item::Module { .. }
        | Item::Newline
        | Item::Setting(_)
        | Item::Unexport { .. } => Ok(()),
    }
}

/// Appends the recipes of modules that a recipe depends on.
#[tactic(auto, using(std::proofs::lemmas::List::flat_map_more, std::proofs::lemmas::List::take_more))]
fn push_dependencies<'src>(
    item: Name<'src>,
    dependencies: &[UnresolvedDependency<'src>],
    found: &mut Vec<Member<'src>>,
) -> Result<(), AllocError>
    ensures { OnOk result (found.new.items
        ≡ found.old.items ++ flat_map (dependency_members item.entry) dependencies.now) }
{
    for dependency in dependencies {
        push_dependency(item, dependency, found)?;
    }
    Ok(())
}

/// Appends the recipe of a dependency, if a module has it.
fn push_dependency<'src>(
    item: Name<'src>,
    dependency: &UnresolvedDependency<'src>,
    found: &mut Vec<Member<'src>>,
) -> Result<(), AllocError>
    ensures { OnOk result (found.new.items
        ≡ found.old.items ++ dependency_members item.entry dependency.now) }
{
    let role = Role::Dependency(dependency.arguments.len());
    push_path(role, item, &dependency.recipe, found)
}

/// Appends the use of the item with a path, if the path is that of a module and a name.
#[tactic(auto, using(crate::proofs::Pairs::not_one, crate::proofs::Pairs::not_more))]
fn push_path<'src>(
    role: Role,
    item: Name<'src>,
    path: &Namepath<'src>,
    found: &mut Vec<Member<'src>>,
) -> Result<(), AllocError>
    ensures { OnOk result
        (found.new.items ≡ found.old.items ++ in_module role item.entry (names_in path.now)) }
{
    match path.split_last() {
        (name, [owner]) => {
            let used = Use {
                role,
                item,
                name: *name,
                commented: false,
            };
            found.push(Member {
                owner: *owner,
                used,
            })?;
            Ok(())
        }
        (_, []) | (_, [_, _, ..]) => Ok(()),
    }
}
