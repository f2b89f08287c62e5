//! What expands the texts of literals with the mark `x`.
ghost use Rattle.std.specs.Prelude.{◌≡◌, ℕ, List, Result, Ok, IfOk, IfErr, string_bytes};
ghost use Rattle.justfile_token.specs.Expander.{Refuses};

use std::alloc::{AllocError, Global};

/// Why a text wasn't expanded.
#[derive(Debug, Drop)]
pub enum ExpandFault {
    /// The text can't be expanded, for this reason.
    Refused(String),
    /// The expander ran out of memory. This tells nothing about the text.
    Memory,
}

impl From<AllocError> for ExpandFault {
    ghost use Rattle.justfile_token.specs.declared.expander.ExpandFault.TheVariants.{Memory};

    ghost from_gives = { λ _ fault. fault ≡ Memory };

    fn from(_: AllocError) -> Self {
        ExpandFault::Memory
    }
}

/// Expands the texts of literals with the mark `x`. Unless memory runs out, the result depends on
/// the text alone.
pub trait Expander {
    /// The expanded text, or the reason why the text can't be expanded.
    ghost answer: { Self → List ℕ → Result (List ℕ) (List ℕ) };

    /// Returns the expanded text.
    ///
    /// # Errors
    ///
    /// `Refused` with the reason if the text can't be expanded, `Memory` if memory runs out.
    fn expand(&self, alloc: Global, text: &str) -> Result<String, ExpandFault>
        ensures ok { IfOk result
            (λ expanded. answer self.now text.now ≡ Ok (string_bytes expanded)) }
        ensures err { IfErr result (Refuses (answer self.now text.now)) };
}

/// An expander that leaves each text unchanged, as a formatter needs it.
#[derive(Clone, Copy, Debug)]
pub struct Unchanged;

impl Expander for Unchanged {
    ghost answer = { λ _ text. Ok text };

    fn expand(&self, alloc: Global, text: &str) -> Result<String, ExpandFault> {
        Ok(text.to_string(alloc)?)
    }
}
