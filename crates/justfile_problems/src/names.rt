//! The first definition of each name.
ghost use Rattle.std.specs.Prelude.{◌≡◌, IfOk, OnOk};
ghost use Rattle.justfile_problems.specs.Names.{Adds, HasFirsts, IsTable, known, scope_in, text_in};

use crate::facts::{Definition, Space};
use crate::key::Key;
use justfile_token::Name;
use std::alloc::{AllocError, Global};
use std::collections::HashMap;

/// The first definition of each name.
#[derive(Drop)]
pub(crate) struct Names<'src> {
    pub(crate) table: HashMap<Key<'src>, Definition<'src>>,
}

impl<'src> Names<'src> {
    /// Returns the first definitions of these names.
    pub(crate) fn of(alloc: Global, definitions: &[Definition<'src>]) -> Result<Self, AllocError>
        ensures { IfOk result (λ names. HasFirsts definitions.now names) }
    {
        let table = table(alloc, definitions)?;
        Ok(Names { table })
    }

    /// Returns the first definition of a name in a set of names, which an item has, or the file if
    /// `scope` is 0. `None` if there is none.
    pub(crate) fn first(
        &self,
        space: Space,
        scope: usize,
        name: &'src str,
    ) -> Option<Definition<'src>>
        ensures { result ≡ known self.now space scope name.now }
    {
        self.table.get(&Key { space, scope, name }).copied()
    }
}

/// Returns where the item begins that has a set of names, or 0 if it is the file's.
pub(crate) fn scope_in(space: Space, item: Name<'_>) -> usize
    ensures { result ≡ scope_in space item.entry }
{
    match space {
        Space::Defaults | Space::Parameters => item.token.offset,
        _ => 0,
    }
}

/// Returns the text by which a name is known in a set of names.
pub(crate) fn text_in<'src>(space: Space, name: Name<'src>) -> &'src str
    ensures { result.now ≡ text_in space name.entry }
{
    match space {
        Space::DefaultRecipes | Space::Defaults => "",
        _ => name.lexeme(),
    }
}

/// Returns the first definition with each key.
fn table<'src>(
    alloc: Global,
    definitions: &[Definition<'src>],
) -> Result<HashMap<Key<'src>, Definition<'src>>, AllocError>
    ensures { IfOk result (λ made. IsTable definitions.now made) }
{
    let mut table = HashMap::new(alloc);
    for definition in definitions {
        note(definition, &mut table)?;
    }
    Ok(table)
}

/// Stores a definition, if there is none with its key.
fn note<'src>(
    definition: &Definition<'src>,
    table: &mut HashMap<Key<'src>, Definition<'src>>,
) -> Result<(), AllocError>
    ensures { OnOk result (Adds definition.now table.old table.new) }
{
    let key = Key {
        space: definition.space,
        scope: scope_in(definition.space, definition.item),
        name: text_in(definition.space, definition.name),
    };
    if !table.contains_key(&key) {
        table.insert(key, *definition)?;
    }
    Ok(())
}
