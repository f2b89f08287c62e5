//! The outline of a file: its symbols, in order.
ghost use Rattle.std.specs.Prelude.{◌≡◌, ◌++◌, ◌∷◌, [], IfOk, OnOk, map};
ghost use Rattle.std.specs.List.{flat_map};
ghost use Rattle.justfile_outline.specs.Shown.{shown};
ghost use Rattle.justfile_outline.specs.Symbols.{item_symbols, symbol_of};

use crate::symbol::{Symbol, make_symbol};
use justfile_item::Item;
use justfile_token::Name;
use std::alloc::{AllocError, Global};

/// Returns the symbols of the items, in order: one for each item that has a name, which are all but
/// comments, line ends and imports.
///
/// # Errors
///
/// `AllocError` if out of memory.
pub fn outline<'src>(items: &[Item<'src>], alloc: Global) -> Result<Vec<Symbol<'src>>, AllocError>
    ensures { IfOk result
        (λ symbols. map shown symbols.items ≡ flat_map item_symbols items.now) }
{
    let mut symbols = Vec::new(alloc);
    for item in items {
        push_symbol(item, alloc, &mut symbols)?;
    }
    Ok(symbols)
}

/// Appends the symbol of an item, if it has a name.
fn push_symbol<'src>(
    item: &Item<'src>,
    alloc: Global,
    symbols: &mut Vec<Symbol<'src>>,
) -> Result<(), AllocError>
    ensures { OnOk result (map shown symbols.new.items
        ≡ map shown symbols.old.items ++ item_symbols item.now) }
{
    match item.name() {
        None => Ok(()),
        Some(name) => push_named(item, alloc, name, symbols),
    }
}

/// Appends the symbol of an item with this name.
#[tactic(auto, using(crate::proofs::Shows::pushed_symbol))]
fn push_named<'src>(
    item: &Item<'src>,
    alloc: Global,
    name: Name<'src>,
    symbols: &mut Vec<Symbol<'src>>,
) -> Result<(), AllocError>
    ensures { OnOk result (map shown symbols.new.items
        ≡ map shown symbols.old.items ++ symbol_of item.now name.entry ∷ []) }
{
    symbols.push(make_symbol(item, alloc, name)?)?;
    Ok(())
}
