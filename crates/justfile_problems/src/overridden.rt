//! Recipes and assignments that later ones of the same name override.
ghost use Rattle.std.specs.Prelude.{◌≡◌, IfOk, OnOk};
ghost use Rattle.justfile_problems.specs.Overridden.{AddsKey, AddsOffset, AreKeysOf, AreOverridden, is_node, is_overridden_in};

use crate::definitions::is_recipe;
use crate::facts::{Definition, Space};
use crate::key::Key;
use crate::names::{scope_in, text_in};
use std::alloc::{AllocError, Global};
use std::collections::HashSet;

/// Where the recipes and the assignments of a file begin that later ones of the same name override.
#[derive(Drop)]
pub struct Overridden {
    pub(crate) offsets: HashSet<usize>,
}

impl Overridden {
    /// Returns those among the definitions of a file. `others` are those of other files that override
    /// them, too: none for a file alone.
    ///
    /// # Errors
    ///
    /// `AllocError` if memory runs out.
    pub fn of<'src>(
        alloc: Global,
        others: &[Definition<'src>],
        definitions: &[Definition<'src>],
    ) -> Result<Self, AllocError>
        ensures { IfOk result (λ found. AreOverridden others.now definitions.now found.offsets) }
    {
        let others = keys_of(alloc, others)?;
        let mut later = HashSet::new(alloc);
        let mut offsets = HashSet::new(alloc);
        let count = definitions.len();
        for passed in 0..count {
            note(
                &definitions[count - 1 - passed],
                &others,
                &mut later,
                &mut offsets,
            )?;
        }
        Ok(Overridden { offsets })
    }

    /// Whether the item whose name begins at an offset is overridden.
    pub(crate) fn has(&self, offset: usize) -> bool
        ensures { result ≡ is_overridden_in self.now offset }
    {
        self.offsets.contains(&offset)
    }
}

/// Whether it is the definition of a recipe or of a variable.
pub(crate) fn is_node(definition: &Definition<'_>) -> bool
    ensures { result ≡ is_node definition.now }
{
    match definition.space {
        Space::Commands => is_recipe(definition.kind),
        Space::Variables => true,
        _ => false,
    }
}

/// Returns the keys of recipes and variables.
fn keys_of<'src>(
    alloc: Global,
    definitions: &[Definition<'src>],
) -> Result<HashSet<Key<'src>>, AllocError>
    ensures { IfOk result (AreKeysOf definitions.now) }
{
    let mut keys = HashSet::new(alloc);
    let count = definitions.len();
    for passed in 0..count {
        add_key(&definitions[count - 1 - passed], &mut keys)?;
    }
    Ok(keys)
}

/// Stores the key of a definition, if it is one of a recipe or a variable.
fn add_key<'src>(
    definition: &Definition<'src>,
    keys: &mut HashSet<Key<'src>>,
) -> Result<(), AllocError>
    ensures { OnOk result (AddsKey definition.now keys.old keys.new) }
{
    if is_node(definition) {
        let key = Key {
            space: definition.space,
            scope: scope_in(definition.space, definition.item),
            name: text_in(definition.space, definition.name),
        };
        keys.insert(key)?;
    }
    Ok(())
}

/// Stores the key of a definition, if it is one of a recipe or a variable, and where it begins if a
/// later one has the key, or one of another file.
fn note<'src>(
    definition: &Definition<'src>,
    others: &HashSet<Key<'src>>,
    later: &mut HashSet<Key<'src>>,
    offsets: &mut HashSet<usize>,
) -> Result<(), AllocError>
    ensures later { OnOk result (AddsKey definition.now later.old later.new) }
    ensures offsets { OnOk result
        (AddsOffset definition.now others.now later.old offsets.old offsets.new) }
{
    if is_node(definition) {
        let key = Key {
            space: definition.space,
            scope: scope_in(definition.space, definition.item),
            name: text_in(definition.space, definition.name),
        };
        let first = later.insert(key)?;
        if others.contains(&key) || !first {
            offsets.insert(definition.name.token.offset)?;
        }
    }
    Ok(())
}
