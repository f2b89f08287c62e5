//! Symbols: their type, and how one is made.
ghost use Rattle.std.specs.Prelude.{◌≡◌, IfOk};
ghost use Rattle.justfile_outline.specs.Shown.{shown};
ghost use Rattle.justfile_outline.specs.Symbols.{symbol_of};

use crate::parts::{copy_doc, copy_groups, copy_target, parameters_text};
use justfile_item::Item;
use justfile_token::{Name, Namepath};
use justfile_vocabulary::ItemKind;
use std::alloc::{AllocError, Global};

/// An item that has a name, as a list or an editor shows it.
#[derive(Drop)]
pub struct Symbol<'src> {
    /// What the item is.
    pub kind: ItemKind,
    /// Its name, whose token has the position in the text.
    pub name: Name<'src>,
    /// The parameters of a recipe as they are printed, or the names of those of a function, each
    /// after a space. Empty for other items.
    pub parameters: String,
    /// Its doc, as `Item::doc` returns it: that of a recipe or a module by its attribute `doc`, or
    /// else by the comment before it.
    pub doc: Option<String>,
    /// The names of its groups, in order.
    pub groups: Vec<String>,
    /// The path of the recipe that an alias refers to. `None` for other items.
    pub target: Option<Namepath<'src>>,
    /// Whether lists omit it.
    pub is_private: bool,
    /// Whether its attributes enable it on this system, which is Linux.
    pub is_enabled: bool,
}

/// Returns the symbol of an item with this name.
pub(crate) fn make_symbol<'src>(
    item: &Item<'src>,
    alloc: Global,
    name: Name<'src>,
) -> Result<Symbol<'src>, AllocError>
    ensures { IfOk result (λ symbol. shown symbol ≡ symbol_of item.now name.entry) }
{
    let parameters = parameters_text(item, alloc)?;
    let doc = copy_doc(item, alloc)?;
    let groups = copy_groups(item, alloc)?;
    let target = copy_target(item, alloc)?;
    Ok(Symbol {
        kind: item.kind(),
        name,
        parameters,
        doc,
        groups,
        target,
        is_private: item.is_private(),
        is_enabled: item.is_enabled(),
    })
}
