//! What formats a text.
ghost use Rattle.std.specs.Prelude.{◌≡◌, ℕ, List, IfErr, IfOk, string_bytes};
ghost use Rattle.justfile_files.specs.Formatter.{IfRejected};

use std::alloc::{AllocError, Global};

/// Why no formatted text was returned.
#[derive(Debug, Drop)]
pub enum Refusal {
    /// The text can't be formatted. The lines tell why, and where in which file.
    Rejected(String),
    /// Something ran out that formatting needs, such as memory.
    Exhausted(&'static str),
}

impl From<AllocError> for Refusal {
    ghost use Rattle.justfile_files.specs.Formatter.{IsExhausted};

    ghost from_gives = { λ _ e. IsExhausted e };

    fn from(_: AllocError) -> Self {
        Refusal::Exhausted("out of memory")
    }
}

/// Formats texts. A text has at most one formatted text, whose formatted text is itself.
pub trait Formatter {
    /// The second text is the formatted text of the first.
    ghost formats: { List ℕ → List ℕ → Type 0 };

    /// A file with this name and this text can't be formatted, and the lines tell why.
    ghost rejects: { List ℕ → List ℕ → List ℕ → Type 0 };

    /// Returns the formatted text of the text of a file. Messages have the file's name.
    ///
    /// # Errors
    ///
    /// The text can't be formatted, or something ran out.
    fn format(&self, alloc: Global, name: &str, source: &str) -> Result<String, Refusal>
        ensures ok { IfOk result (λ text. formats source.now (string_bytes text)) }
        ensures rejected { IfErr result (IfRejected (rejects name.now source.now)) };

    ghost one: { (source text other : List ℕ)
        → formats source text → formats source other → text ≡ other };

    ghost settled: { (source text : List ℕ) → formats source text → formats text text };

    ghost never_both: { (name source lines text : List ℕ)
        → rejects name source lines → formats source text → ⊥ };
}
