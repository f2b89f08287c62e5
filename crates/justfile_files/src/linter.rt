//! What finds what is wrong with texts.
ghost use Rattle.std.specs.Prelude.{ℕ, List, IfErr, IfOk, string_bytes};
ghost use Rattle.justfile_files.specs.Formatter.{IfRejected};
ghost use Rattle.justfile_files.specs.Request.{texts};
ghost use Rattle.justfile_files.specs.Sources.{Source, sources};

use crate::formatter::Refusal;
use crate::sources::SourceFile;
use std::alloc::{AllocError, Global};

/// Finds what is wrong with texts.
pub trait Linter {
    /// A file at this path and with this text names the files at these paths.
    ghost leads: { List ℕ → List ℕ → List (List ℕ) → Type 0 };

    /// The lines tell all that is wrong with the first of these files, and with those that it
    /// leads to. There are none if nothing is. At the paths is no file.
    ghost finds: { List Source → List (List ℕ) → List ℕ → Type 0 };

    /// One of these files can't be judged, and the lines tell why.
    ghost rejects: { List Source → List ℕ → Type 0 };

    /// Returns the paths of the files that a text names, which is that of the file at a path. There
    /// are none if it can't be judged.
    ///
    /// # Errors
    ///
    /// Memory ran out.
    fn paths(&self, alloc: Global, path: &str, source: &str) -> Result<Vec<String>, AllocError>
        ensures { IfOk result (λ paths. leads path.now source.now (texts paths.items)) };

    /// Returns the lines that tell what is wrong with the first of these files and those that it
    /// leads to. They have the names of the files. `missing` are paths at which there is no file.
    ///
    /// # Errors
    ///
    /// One of the texts can't be judged, or something ran out.
    fn lint(
        &self,
        alloc: Global,
        files: &[SourceFile],
        missing: &[String],
    ) -> Result<String, Refusal>
        ensures found { IfOk result
            (λ lines. finds (sources files.now) (texts missing.now) (string_bytes lines)) }
        ensures rejected { IfErr result (IfRejected (rejects (sources files.now))) };
}
