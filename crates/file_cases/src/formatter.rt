//! A formatter and a linter for tests.
ghost use Rattle.std.specs.Prelude.{IfErr, IfOk, string_bytes};
ghost use Rattle.justfile_files.specs.Formatter.{IfRejected};
ghost use Rattle.file_cases.specs.Constant.{BeginsBad, FindsOthers, FormatsConstantly, IsBad, RejectsBad, Wrong, never_both, one, settled};

use justfile_files::formatter::{Formatter, Refusal};
use justfile_files::linter::Linter;
use justfile_files::path::path_beside;
use justfile_files::sources::SourceFile;
use std::alloc::{AllocError, Global};

/// Each text but one has the same formatted text, and something is wrong with each other text.
pub struct Constant;

impl Formatter for Constant {
    ghost formats = { FormatsConstantly };

    ghost rejects = { RejectsBad };

    ghost one = { one };

    ghost settled = { settled };

    ghost never_both = { never_both };

    fn format(&self, alloc: Global, name: &str, source: &str) -> Result<String, Refusal> {
        if source == "bad\n" {
            return Err(Refusal::Rejected(format!(in alloc; "error: {name} is bad\n")?));
        }
        Ok("formatted\n".to_string(alloc)?)
    }
}

impl Linter for Constant {
    ghost leads = { λ _ _ _. Unit {0} };

    ghost finds = { FindsOthers };

    ghost rejects = { BeginsBad };

    /// Returns the paths after `see`, if the text begins with it.
    fn paths(&self, alloc: Global, path: &str, source: &str) -> Result<Vec<String>, AllocError> {
        let mut paths = Vec::new(alloc);
        let Some(words) = source.strip_prefix("see ") else {
            return Ok(paths);
        };
        for word in words.split_whitespace() {
            paths.push(path_beside(alloc, path, word)?)?;
        }
        Ok(paths)
    }

    fn lint(
        &self,
        alloc: Global,
        files: &[SourceFile],
        missing: &[String],
    ) -> Result<String, Refusal> {
        match files {
            [] => Ok(String::new(alloc)),
            [file, others @ ..] => lint_first(alloc, file, others, missing),
        }
    }
}

/// Finds what is wrong with a file that leads to these other ones.
fn lint_first(
    alloc: Global,
    file: &SourceFile,
    others: &[SourceFile],
    missing: &[String],
) -> Result<String, Refusal>
    ensures found { IfOk result (λ lines. Wrong (string_bytes file.now.text) (string_bytes lines)) }
    ensures rejected { IfErr result (IfRejected (λ lines. IsBad (string_bytes file.now.text))) }
{
    let name = file.name.as_str();
    if file.text.as_str() == "bad\n" {
        return Err(Refusal::Rejected(format!(in alloc; "error: {name} is bad\n")?));
    }
    if file.text.as_str() == "formatted\n" {
        return Ok(String::new(alloc));
    }
    Ok(wrong_lines(alloc, name, others, missing)?)
}

/// Returns lines with these names.
fn wrong_lines(
    alloc: Global,
    name: &str,
    others: &[SourceFile],
    missing: &[String],
) -> Result<String, AllocError> {
    let mut lines = format!(in alloc; "error: {name} is wrong\n")?;
    for other in others {
        let other = other.name.as_str();
        lines.push_str(format!(in alloc; "with {other}\n")?.as_str())?;
    }
    for path in missing {
        let path = path.as_str();
        lines.push_str(format!(in alloc; "without {path}\n")?.as_str())?;
    }
    Ok(lines)
}
