//! References: their type, and how they are appended to a list.
ghost use Rattle.std.specs.Prelude.{◌≡◌, ◌++◌, ◌∷◌, [], OnOk, false, true};
ghost use Rattle.justfile_references.specs.References.{refers};

use justfile_token::{Name, Token};
use std::alloc::AllocError;

/// What a name names.
#[derive(Clone, Copy, Debug, PartialEq, Eq)]
pub enum Role {
    /// A function: one of a file, or a built-in one.
    Function,
    /// A parameter of a recipe or a function, where it is defined.
    Parameter,
    /// A recipe, or an alias of one.
    Recipe,
    /// A variable: an assignment, a built-in constant, or a parameter where it is used.
    Variable,
}

/// A place where a name is defined or used.
#[derive(Clone, Copy, Debug)]
pub struct Reference<'src> {
    /// What the name names.
    pub role: Role,
    /// The name.
    pub token: Token<'src>,
    /// Whether the name is defined here.
    pub defines: bool,
}

/// Appends the place where a name is defined.
pub(crate) fn push_definition<'src>(
    role: Role,
    name: Name<'src>,
    found: &mut Vec<Reference<'src>>,
) -> Result<(), AllocError>
    ensures { OnOk result
        (found.new.items ≡ found.old.items ++ refers role name.entry true ∷ []) }
{
    found.push(Reference {
        role,
        token: name.token,
        defines: true,
    })?;
    Ok(())
}

/// Appends a place where a name is used.
pub(crate) fn push_use<'src>(
    role: Role,
    name: Name<'src>,
    found: &mut Vec<Reference<'src>>,
) -> Result<(), AllocError>
    ensures { OnOk result
        (found.new.items ≡ found.old.items ++ refers role name.entry false ∷ []) }
{
    found.push(Reference {
        role,
        token: name.token,
        defines: false,
    })?;
    Ok(())
}
