//! The modules that items are.
ghost use Rattle.std.specs.Prelude.{◌≡◌, ◌++◌, ◌∷◌, [], None, Some, IfOk, OnOk, map};
ghost use Rattle.std.specs.List.{flat_map};
ghost use Rattle.justfile_facts.specs.Submodules.{enabled_submodules, item_submodules, shown_submodule, submodule_at};

use crate::imports::is_plain;
use justfile_item::Item;
use justfile_problems::Submodule;
use justfile_token::{Name, StringLiteral};
use std::alloc::{AllocError, Global};

/// Returns the modules among items that are enabled.
///
/// # Errors
///
/// `AllocError` if memory runs out.
pub fn submodules_of<'src>(
    items: &[Item<'src>],
    alloc: Global,
) -> Result<Vec<Submodule<'src>>, AllocError>
    ensures { IfOk result (λ found.
        map shown_submodule found.items ≡ flat_map item_submodules items.now) }
{
    let mut found = Vec::new(alloc);
    push_submodules(items, alloc, &mut found)?;
    Ok(found)
}

/// Appends the modules among items.
#[tactic(auto, using(std::proofs::lemmas::List::flat_map_more, std::proofs::lemmas::List::take_more))]
fn push_submodules<'src>(
    items: &[Item<'src>],
    alloc: Global,
    found: &mut Vec<Submodule<'src>>,
) -> Result<(), AllocError>
    ensures { OnOk result (map shown_submodule found.new.items
        ≡ map shown_submodule found.old.items ++ flat_map item_submodules items.now) }
{
    for item in items {
        push_item(item, alloc, found)?;
    }
    Ok(())
}

/// Appends an item, if it is a module that is enabled.
fn push_item<'src>(
    item: &Item<'src>,
    alloc: Global,
    found: &mut Vec<Submodule<'src>>,
) -> Result<(), AllocError>
    ensures { OnOk result (map shown_submodule found.new.items
        ≡ map shown_submodule found.old.items ++ item_submodules item.now) }
{
    if item.is_enabled() {
        push_enabled(item, alloc, found)
    } else {
        Ok(())
    }
}

/// Appends an item that is enabled, if it is a module.
fn push_enabled<'src>(
    item: &Item<'src>,
    alloc: Global,
    found: &mut Vec<Submodule<'src>>,
) -> Result<(), AllocError>
    ensures { OnOk result (map shown_submodule found.new.items
        ≡ map shown_submodule found.old.items ++ enabled_submodules item.now) }
{
    match item {
        Item::Module {
            name,
            optional,
            relative,
            ..
        } => push_module(*name, *optional, relative, alloc, found),
        Item::Alias(_)
        | Item::Assignment(_)
        | Item::Comment(_)
        | Item::Function(_)
        | Item::Import { .. }
        | Item::Newline
        | Item::Recipe(_)
        | Item::Setting(_)
        | Item::Unexport { .. } => Ok(()),
    }
}

/// Appends a module.
fn push_module<'src>(
    name: Name<'src>,
    optional: bool,
    relative: &Option<StringLiteral<'src>>,
    alloc: Global,
    found: &mut Vec<Submodule<'src>>,
) -> Result<(), AllocError>
    ensures { OnOk result (map shown_submodule found.new.items
        ≡ map shown_submodule found.old.items
        ++ submodule_at name.entry optional relative.now ∷ []) }
{
    match relative {
        Some(relative) => push_given(name, optional, relative, alloc, found),
        None => push_named(name, optional, found),
    }
}

/// Appends a module that is given a path.
#[tactic(auto, using(crate::proofs::Nested::one_more))]
fn push_given<'src>(
    name: Name<'src>,
    optional: bool,
    relative: &StringLiteral<'src>,
    alloc: Global,
    found: &mut Vec<Submodule<'src>>,
) -> Result<(), AllocError>
    ensures { OnOk result (map shown_submodule found.new.items
        ≡ map shown_submodule found.old.items
        ++ submodule_at name.entry optional (Some relative.now) ∷ []) }
{
    found.push(Submodule {
        name,
        path: Some(relative.cooked.as_str().to_string(alloc)?),
        plain: is_plain(relative),
        optional,
    })?;
    Ok(())
}

/// Appends a module that has its name alone.
#[tactic(auto, using(crate::proofs::Nested::one_more))]
fn push_named<'src>(
    name: Name<'src>,
    optional: bool,
    found: &mut Vec<Submodule<'src>>,
) -> Result<(), AllocError>
    ensures { OnOk result (map shown_submodule found.new.items
        ≡ map shown_submodule found.old.items
        ++ submodule_at name.entry optional None ∷ []) }
{
    found.push(Submodule {
        name,
        path: None,
        plain: true,
        optional,
    })?;
    Ok(())
}
