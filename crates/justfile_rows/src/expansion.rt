//! The expanders of rows.
ghost use Rattle.justfile_rows.specs.Expansion.{answer_of};

use justfile_syntax::expander::{ExpandFault, Expander};
use std::alloc::Global;

/// An expander.
#[derive(Clone, Copy)]
pub(crate) enum Expansion<'row> {
    /// It returns each text unchanged.
    Unchanged,
    /// It returns each text in brackets.
    Bracketed,
    /// It returns this text for each text.
    Constant(&'row str),
    /// It refuses each text with `no`.
    Refused,
    /// It fails for lack of memory.
    Exhausted,
}

impl Expansion<'_> {
    /// Returns the expander that a field names, or `None` if it names none.
    pub(crate) fn of(field: &str) -> Option<Self> {
        match field {
            "unchanged" => Some(Expansion::Unchanged),
            "bracketed" => Some(Expansion::Bracketed),
            "refused" => Some(Expansion::Refused),
            "exhausted" => Some(Expansion::Exhausted),
            _ => None,
        }
    }
}

impl Expander for Expansion<'_> {
    ghost answer = { answer_of };

    fn expand(&self, alloc: Global, text: &str) -> Result<String, ExpandFault> {
        match self {
            Expansion::Unchanged => Ok(text.to_string(alloc)?),
            Expansion::Bracketed => Ok(format!(in alloc; "[{text}]")?),
            Expansion::Constant(constant) => Ok(constant.to_string(alloc)?),
            Expansion::Refused => Err(ExpandFault::Refused("no".to_string(alloc)?)),
            Expansion::Exhausted => Err(ExpandFault::Memory),
        }
    }
}
