//! The files that items import.
ghost use Rattle.std.specs.Prelude.{◌≡◌, ◌++◌, ◌∷◌, [], IfOk, OnOk, map, string_bytes};
ghost use Rattle.std.specs.List.{flat_map};
ghost use Rattle.justfile_facts.specs.Imports.{enabled_imports, import_at, is_plain, item_imports, shown_import};

use justfile_item::Item;
use justfile_problems::Import;
use justfile_token::StringLiteral;
use std::alloc::{AllocError, Global};

/// Returns the imports among items that are enabled.
///
/// # Errors
///
/// `AllocError` if memory runs out.
pub fn imports_of<'src>(
    items: &[Item<'src>],
    alloc: Global,
) -> Result<Vec<Import<'src>>, AllocError>
    ensures { IfOk result (λ found. map shown_import found.items ≡ flat_map item_imports items.now) }
{
    let mut found = Vec::new(alloc);
    push_imports(items, alloc, &mut found)?;
    Ok(found)
}

/// Appends the imports among items.
#[tactic(auto, using(std::proofs::lemmas::List::flat_map_more, std::proofs::lemmas::List::take_more))]
fn push_imports<'src>(
    items: &[Item<'src>],
    alloc: Global,
    found: &mut Vec<Import<'src>>,
) -> Result<(), AllocError>
    ensures { OnOk result (map shown_import found.new.items
        ≡ map shown_import found.old.items ++ flat_map item_imports items.now) }
{
    for item in items {
        push_item(item, alloc, found)?;
    }
    Ok(())
}

/// Appends an item, if it is an import that is enabled.
fn push_item<'src>(
    item: &Item<'src>,
    alloc: Global,
    found: &mut Vec<Import<'src>>,
) -> Result<(), AllocError>
    ensures { OnOk result (map shown_import found.new.items
        ≡ map shown_import found.old.items ++ item_imports item.now) }
{
    if item.is_enabled() {
        push_enabled(item, alloc, found)
    } else {
        Ok(())
    }
}

/// Appends an item that is enabled, if it is an import.
fn push_enabled<'src>(
    item: &Item<'src>,
    alloc: Global,
    found: &mut Vec<Import<'src>>,
) -> Result<(), AllocError>
    ensures { OnOk result (map shown_import found.new.items
        ≡ map shown_import found.old.items ++ enabled_imports item.now) }
{
    match item {
        Item::Import {
            optional,
            relative,
            ..
        } => push_import(*optional, relative, alloc, found),
        Item::Alias(_)
        | Item::Assignment(_)
        | Item::Comment(_)
        | Item::Function(_)
        | Item::Module { .. }
        | Item::Newline
        | Item::Recipe(_)
        | Item::Setting(_)
        | Item::Unexport { .. } => Ok(()),
    }
}

/// Appends an import.
#[tactic(auto, using(crate::proofs::Imported::one_more))]
fn push_import<'src>(
    optional: bool,
    relative: &StringLiteral<'src>,
    alloc: Global,
    found: &mut Vec<Import<'src>>,
) -> Result<(), AllocError>
    ensures { OnOk result (map shown_import found.new.items
        ≡ map shown_import found.old.items ++ import_at optional relative.now ∷ []) }
{
    found.push(Import {
        path: relative.cooked.as_str().to_string(alloc)?,
        plain: is_plain(relative),
        optional,
        token: relative.token,
    })?;
    Ok(())
}

/// Whether a path leads to the file as it is.
pub(crate) fn is_plain(relative: &StringLiteral<'_>) -> bool
    ensures { result ≡ is_plain relative.now }
{
    !relative.expand && !relative.cooked.as_str().starts_with('~')
}
