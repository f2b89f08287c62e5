//! Justfiles as texts that can be formatted, and in which something may be wrong.
ghost use Rattle.std.specs.Prelude.{◌≡◌, IfErr, IfOk, string_bytes};
ghost use Rattle.justfile_files.specs.Formatter.{IsExhausted};
ghost use Rattle.justfile_files.specs.Visible.{visible_lines};
ghost use Rattle.justfile_canonical.specs.Formatting.{IsFormatted};
ghost use Rattle.justfile_canonical.proofs.Formatted as formatted;
ghost use Rattle.justfiles.specs.Justfile.{IsRejected};
ghost use Rattle.justfiles.specs.Laws.{never_both};
ghost use Rattle.justfiles.specs.Linted.{AreRejected, FindsShown, LeadTo};

use crate::linted::{lines_of, paths_in};
use crate::refusal::refusal;
use justfile_files::formatter::{Formatter, Refusal};
use justfile_files::linter::Linter;
use justfile_files::sources::SourceFile;
use justfile_files::visible::visible_lines;
use justfile_syntax::format::format_text;
use module_paths::Folders;
use std::alloc::{AllocError, Global};

/// Formats justfiles.
pub struct Justfile;

impl Formatter for Justfile {
    ghost formats = { IsFormatted };

    ghost rejects = { IsRejected };

    ghost one = { λ source text other f g. formatted.one source text other f g };

    ghost settled = { formatted.again };

    ghost never_both = { never_both };

    #[tactic(auto, using(crate::proofs::Refusals::refused))]
    fn format(&self, alloc: Global, name: &str, source: &str) -> Result<String, Refusal> {
        match format_text(alloc, name, source) {
            Ok(text) => Ok(text),
            Err(fault) => Err(refusal(alloc, name, source, fault)),
        }
    }
}

/// Finds what is wrong with justfiles.
#[derive(Drop)]
pub struct Lints<'a, F> {
    /// The folders in which the files of modules are.
    pub folders: &'a F,
}

impl<F: Folders> Linter for Lints<'_, F> {
    ghost leads = { LeadTo F.has };

    ghost finds = { FindsShown F.has };

    ghost rejects = { AreRejected };

    fn paths(&self, alloc: Global, path: &str, source: &str) -> Result<Vec<String>, AllocError> {
        paths_in(alloc, self.folders, path, source)
    }

    #[tactic(auto, using(crate::proofs::Told::shown_found, crate::proofs::Told::unshown))]
    fn lint(
        &self,
        alloc: Global,
        files: &[SourceFile],
        missing: &[String],
    ) -> Result<String, Refusal> {
        match lines_of(alloc, self.folders, files, missing) {
            Ok(lines) => shown_lines(alloc, lines.as_str()),
            Err(refusal) => Err(refusal),
        }
    }
}

/// Returns lines as they are shown.
fn shown_lines(alloc: Global, lines: &str) -> Result<String, Refusal>
    ensures ok { IfOk result (λ shown. string_bytes shown ≡ visible_lines lines.now) }
    ensures err { IfErr result IsExhausted }
{
    match visible_lines(alloc, lines) {
        Ok(shown) => Ok(shown),
        Err(_) => Err(Refusal::Exhausted("out of memory")),
    }
}
