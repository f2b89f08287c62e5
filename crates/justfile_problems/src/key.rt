//! What definitions are looked up by.

use crate::facts::Space;

/// What a definition is looked up by: two definitions with the same key exclude each other.
#[derive(Clone, Copy, PartialEq, Eq, Hash)]
pub(crate) struct Key<'src> {
    /// The set of names.
    pub(crate) space: Space,
    /// Where the name of the item is that has the set of names, or 0 if the whole file has it.
    pub(crate) scope: usize,
    /// The name.
    pub(crate) name: &'src str,
}
