//! A run of the program, from its arguments to its exit status.
ghost use Rattle.std.specs.Prelude.{◌≡◌, ◌≢◌, ◌≤◌, ◌<◌, true, false, Ok, Err, IfOk, IfErr, IfSome, OnOk};
ghost use Rattle.std.specs.Io.KnownBytes.{IsAtEnd, Keeps};
ghost use Rattle.std.specs.Str.{IsUtf8};
ghost use Rattle.justfile_format.specs.declared.failure.Failure.TheVariants as failures;
ghost use Rattle.justfile_format.specs.Arguments.{AsksCheck, AsksFormat};
ghost use Rattle.justfile_format.specs.Failure.{IfRejected};
ghost use Rattle.justfile_format.specs.Formatting.{HasNone, IsFormatted, IsUnprintable, LacksNumbers};
ghost use Rattle.justfile_format.specs.Formatting.{IsRejection, Formats, Differs};
ghost use Rattle.justfile_format.specs.Outcome.{Fails};
ghost use Rattle.justfile_format.specs.Formatting.{FormatsBeginning};

use crate::failure::{Failure, report};
use crate::formatting::{format_input, format_to};
use crate::input::{decode, read_all};
use std::alloc::Global;
use std::io::{Read, Write};

/// What the arguments ask the program to do.
#[derive(Clone, Copy, Debug, PartialEq, Eq)]
enum Task {
    /// To write the canonical text.
    Format,
    /// To tell by the exit status whether the text is canonical.
    Check,
}

impl Task {
    ghost use Rattle.justfile_format.specs.declared.run.Task.TheVariants.{Check, Format};

    /// Returns the task that the arguments ask for.
    fn of(arguments: &[String]) -> Result<Task, Failure>
        ensures format { result ≡ Ok Format → AsksFormat arguments.now }
        ensures check { result ≡ Ok Check → AsksCheck arguments.now }
        ensures format_asked { AsksFormat arguments.now → result ≡ Ok Format }
        ensures check_asked { AsksCheck arguments.now → result ≡ Ok Check }
        ensures usage { IfErr result (λ e. e ≡ failures.Usage) }
    {
        match arguments {
            [] => Ok(Task::Format),
            [argument] => {
                if argument.as_str() == "--check" {
                    return Ok(Task::Check);
                }
                Err(Failure::Usage)
            }
            _ => Err(Failure::Usage),
        }
    }
}

/// Formats the reader's input, or, with `--check` as the only argument, tells whether it is
/// canonical. Returns the exit status: 0 if the text was written or is canonical; 1 if it isn't
/// canonical; 2 if it can't be formatted; 3 if the arguments are wrong, the input isn't UTF-8,
/// numbers or memory ran out, or reading or writing failed.
pub fn run<R: Read, W: Write, E: Write>(
    alloc: Global,
    arguments: &[String],
    reader: &mut R,
    writer: &mut W,
    errors: &mut E,
) -> u8
    ensures statuses { result ≤ 3 }
    ensures usage { ¬ AsksFormat arguments.now → ¬ AsksCheck arguments.now → result ≡ 3 }
    ensures usage_reads_nothing { ¬ AsksFormat arguments.now → ¬ AsksCheck arguments.now
        → reader.new ≡ reader.old }

    ensures formatted { AsksFormat arguments.now → result ≡ 0 → IfSome (R.remaining reader.old)
        (λ source. Formats source (W.contents writer.old) (W.contents writer.new)) }
    ensures canonical { AsksCheck arguments.now → result ≡ 0
        → IfSome (R.remaining reader.old) (λ source. IsFormatted source source) }
    ensures differs { result ≡ 1 → AsksCheck arguments.now
        × IfSome (R.remaining reader.old) Differs }
    ensures rejected { result ≡ 2 → IfSome (R.remaining reader.old) HasNone }
    ensures failed { 1 < result → Fails arguments.now (R.remaining reader.old)
        W.contents writer.old writer.new (E.contents errors.old) (E.contents errors.new) result }

    ensures written_asked { ¬ AsksFormat arguments.now → writer.new ≡ writer.old }
    ensures unread_writes_nothing { ¬ IsAtEnd (R.remaining reader.new) → writer.new ≡ writer.old }
    ensures not_utf8_writes_nothing { IfSome (R.remaining reader.old) (λ source. ¬ IsUtf8 source
        → writer.new ≡ writer.old) }
    ensures rejected_writes_nothing { result ≡ 2 → writer.new ≡ writer.old }
    ensures silent { result ≤ 1 → errors.new ≡ errors.old }
{
    match Task::of(arguments) {
        Ok(Task::Format) => match format(alloc, reader, writer) {
            Ok(()) => 0,
            Err(failure) => report(&failure, errors),
        },
        Ok(Task::Check) => match check(alloc, reader) {
            Ok(true) => 0,
            Ok(false) => 1,
            Err(failure) => report(&failure, errors),
        },
        Err(failure) => report(&failure, errors),
    }
}

/// Writes the canonical text of the reader's input, and flushes it.
#[tactic(auto, using(crate::proofs::Written::flushed, crate::proofs::Outcomes::unflushed))]
fn format<R: Read, W: Write>(alloc: Global, reader: &mut R, writer: &mut W) -> Result<(), Failure>
    ensures ok { OnOk result (IfSome (R.remaining reader.old)
        (λ source. Formats source (W.contents writer.old) (W.contents writer.new))) }
    ensures rejected { IfErr result
        (IfRejected (λ lines. IfSome (R.remaining reader.old)
        (λ source. IsRejection source lines))) }
    ensures unprintable { result ≡ Err failures.NotPrintable
        → IfSome (R.remaining reader.old) IsUnprintable }
    ensures not_utf8 { result ≡ Err failures.NotUtf8
        → IfSome (R.remaining reader.old) (λ source. ¬ IsUtf8 source) }
    ensures unread_writes_nothing { ¬ IsAtEnd (R.remaining reader.new) → writer.new ≡ writer.old }
    ensures not_utf8_writes_nothing { IfSome (R.remaining reader.old) (λ source. ¬ IsUtf8 source
        → writer.new ≡ writer.old) }
    ensures part { result ≡ Err failures.Writing → IfSome (R.remaining reader.old)
        (λ source. FormatsBeginning source (W.contents writer.old) (W.contents writer.new)) }
    ensures numbers { result ≡ Err failures.Numbers → IfSome (R.remaining reader.old) LacksNumbers }
    ensures unwritten { IfErr result (λ e. e ≢ failures.Writing → writer.new ≡ writer.old) }
    ensures err { IfErr result (λ e. e ≢ failures.Usage) }
{
    let bytes = read_all(alloc, reader)?;
    let source = decode(&bytes)?;
    format_to(alloc, source, writer)?;
    flush(writer)
}

/// Flushes what was written.
fn flush<W: Write>(writer: &mut W) -> Result<(), Failure>
    ensures kept { Keeps (W.contents writer.old) (W.contents writer.new) }
    ensures err { IfErr result (λ e. e ≡ failures.Writing) }
{
    match writer.flush() {
        Ok(()) => Ok(()),
        Err(_) => Err(Failure::Writing),
    }
}

/// Whether the reader's input is its own canonical text.
fn check<R: Read>(alloc: Global, reader: &mut R) -> Result<bool, Failure>
    ensures formatted { result ≡ Ok true
        → IfSome (R.remaining reader.old) (λ source. IsFormatted source source) }
    ensures differs { result ≡ Ok false → IfSome (R.remaining reader.old) Differs }
    ensures rejected { IfErr result
        (IfRejected (λ lines. IfSome (R.remaining reader.old)
        (λ source. IsRejection source lines))) }
    ensures unprintable { result ≡ Err failures.NotPrintable
        → IfSome (R.remaining reader.old) IsUnprintable }
    ensures not_utf8 { result ≡ Err failures.NotUtf8
        → IfSome (R.remaining reader.old) (λ source. ¬ IsUtf8 source) }
    ensures numbers { result ≡ Err failures.Numbers → IfSome (R.remaining reader.old) LacksNumbers }
    ensures err { IfErr result (λ e. (e ≢ failures.Usage) × (e ≢ failures.Writing)) }
{
    let bytes = read_all(alloc, reader)?;
    let source = decode(&bytes)?;
    let canonical = format_input(alloc, source)?;
    Ok(source == canonical.as_str())
}
