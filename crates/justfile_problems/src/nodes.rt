//! The definitions of recipes and variables that count, if they are defined again: the last ones.
ghost use Rattle.std.specs.Prelude.{◌≡◌, IfOk, OnOk};
ghost use Rattle.justfile_problems.specs.Circular.{HasLasts, Stores, last, node_of};
ghost use Rattle.justfile_problems.specs.Overridden.{offset_of};

use crate::facts::{Definition, Space};
use crate::key::Key;
use crate::names::{scope_in, text_in};
use crate::overridden::is_node;
use std::alloc::{AllocError, Global};
use std::collections::HashMap;

/// A definition.
#[derive(Clone, Copy)]
pub(crate) struct Node {
    /// Its index.
    pub(crate) index: usize,
    /// The offset of its name.
    pub(crate) offset: usize,
}

/// The last definition of each recipe and each variable.
#[derive(Drop)]
pub(crate) struct Nodes<'src> {
    pub(crate) table: HashMap<Key<'src>, Node>,
}

impl<'src> Nodes<'src> {
    /// Returns the last ones of these definitions.
    pub(crate) fn of(alloc: Global, definitions: &[Definition<'src>]) -> Result<Self, AllocError>
        ensures { IfOk result (λ nodes. HasLasts definitions.now nodes.table) }
    {
        let mut table = HashMap::new(alloc);
        for index in 0..definitions.len() {
            note(index, &definitions[index], &mut table)?;
        }
        Ok(Nodes { table })
    }

    /// Returns the last definition of a recipe or a variable with a name.
    pub(crate) fn last(&self, space: Space, name: &'src str) -> Option<Node>
        ensures { result ≡ node_of self.now space name.now }
    {
        self.table
            .get(&Key {
                space,
                scope: 0,
                name,
            })
            .copied()
    }
}

/// Stores a definition, if it is one of a recipe or a variable.
fn note<'src>(
    index: usize,
    definition: &Definition<'src>,
    table: &mut HashMap<Key<'src>, Node>,
) -> Result<(), AllocError>
    ensures { OnOk result (Stores index definition.now table.old table.new) }
{
    if is_node(definition) {
        let key = Key {
            space: definition.space,
            scope: scope_in(definition.space, definition.item),
            name: text_in(definition.space, definition.name),
        };
        let offset = definition.name.token.offset;
        table.insert(key, Node { index, offset })?;
    }
    Ok(())
}
