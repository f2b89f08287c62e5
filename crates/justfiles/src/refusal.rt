//! Why a text isn't formatted, or isn't judged.
ghost use Rattle.std.specs.Prelude.{IfOk, string_bytes};
ghost use Rattle.justfile_canonical.specs.declared.fault.FormatFault.TheVariants as faults;
ghost use Rattle.justfiles.specs.Justfile.{IsRefusalOf, IsShownRefusal, TellsReturn};

use crate::returned::returned_excerpt;
use justfile_files::formatter::Refusal;
use justfile_files::visible::visible_lines;
use justfile_syntax::format::FormatFault;
use std::alloc::{AllocError, Global};

/// Returns the refusal for a fault of formatting the text of the file with this name.
pub(crate) fn refusal(alloc: Global, name: &str, source: &str, fault: FormatFault) -> Refusal
    ensures { IsRefusalOf fault result }
{
    match fault {
        FormatFault::Rejected(told) => rejection(alloc, told.lines.as_str()),
        FormatFault::NotPrintable => unprintable(alloc, name, source),
        FormatFault::Memory => Refusal::Exhausted("out of memory"),
        FormatFault::Numbers => Refusal::Exhausted("out of numbers"),
    }
}

/// Makes the refusal of a text that is no justfile, which these lines tell.
fn rejection(alloc: Global, lines: &str) -> Refusal
    ensures { IsShownRefusal lines.now result }
{
    match visible_lines(alloc, lines) {
        Ok(lines) => Refusal::Rejected(lines),
        Err(_) => Refusal::Exhausted("out of memory"),
    }
}

/// Makes the refusal of a text that would lose a carriage return at the end of a body line.
fn unprintable(alloc: Global, name: &str, source: &str) -> Refusal
    ensures { IsRefusalOf faults.NotPrintable result }
{
    match unprintable_lines(alloc, name, source) {
        Ok(lines) => Refusal::Rejected(lines),
        Err(_) => Refusal::Exhausted("out of memory"),
    }
}

/// Returns the lines that tell that a body line ends in a carriage return, with the excerpt of the
/// first such line.
fn unprintable_lines(alloc: Global, name: &str, source: &str) -> Result<String, AllocError>
    ensures { IfOk result (λ lines. TellsReturn (string_bytes lines)) }
{
    let excerpt = returned_excerpt(alloc, name, source)?;
    let mut lines = "error: a body line ends in a carriage return\n".to_string(alloc)?;
    lines.push_str(visible_lines(alloc, excerpt.as_str())?.as_str())?;
    Ok(lines)
}
