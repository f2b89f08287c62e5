//! From a text to its canonical text, as the program has it: as the file `justfile`.
ghost use Rattle.std.specs.Prelude.{◌≡◌, ◌≢◌, Err, IfErr, IfOk, OnErr, OnOk, false, string_bytes};
ghost use Rattle.std.specs.Io.KnownBytes.{Appends};
ghost use Rattle.justfile_model.specs.Printed.NormalShape.{normal};
ghost use Rattle.justfile_model.specs.Printed.Printing.{printable, text};
ghost use Rattle.justfile_vocabulary.specs.Indentation.{indentation_text};
ghost use Rattle.justfile_ast.specs.Ast.{ast_shape};
ghost use Rattle.justfile_canonical.specs.Formatting.{IsFormatted, IsUnprintable, LacksNumbers};
ghost use Rattle.justfile_indentation.specs.OwnIndentation.{HasCookedIndentation};
ghost use Rattle.justfile_format.specs.declared.failure.Failure.TheVariants as failures;
ghost use Rattle.justfile_format.specs.Buffered.{buffered};
ghost use Rattle.justfile_format.specs.Failure.{IfRejected, IsOfFile, IsOfText, IsOfTextOrWriting};
ghost use Rattle.justfile_format.specs.Formatting.{FormatsBeginning, WritesFileBeginning};
ghost use Rattle.system_run.specs.Beginning.{AppendsBeginning};
ghost use Rattle.justfile_format.specs.Formatting.{Formats, IsRejection, WritesFile};

use crate::buffer::Buffer;
use crate::failure::Failure;
use justfile_ast::{Ast, WriteFault};
use justfile_canonical::formatting::{format_and_forget, parse, printing_indentation};
use justfile_canonical::parts::format_long;
use justfile_vocabulary::Indentation;
use std::alloc::Global;
use std::io::Write;
use std::mem;
use system_run::write_up_to;

/// How many bytes of the canonical text are written at once.
const CAPACITY: usize = 8 * 1024;

/// Writes the canonical text of a justfile, without flushing it. Of a text that isn't long it takes
/// no memory for the canonical text, and doesn't free the tree, because the program ends soon.
///
/// # Errors
///
/// As for `format_input`, or a write fails. Unless a write fails, nothing is written.
#[tactic(auto, using(crate::proofs::Texts::formats_text, crate::proofs::Texts::begins_text, crate::proofs::Texts::never_rejected, crate::proofs::Texts::not_unprintable, crate::proofs::Texts::not_numbers, crate::proofs::Texts::writing, crate::proofs::Texts::never_unwritten))]
pub fn format_to<W: Write>(alloc: Global, source: &str, writer: &mut W) -> Result<(), Failure>
    ensures ok { OnOk result (Formats source.now (W.contents writer.old) (W.contents writer.new)) }
    ensures rejected { IfErr result (IfRejected (IsRejection source.now)) }
    ensures unprintable { result ≡ Err failures.NotPrintable → IsUnprintable source.now }
    ensures part { result ≡ Err failures.Writing
        → FormatsBeginning source.now (W.contents writer.old) (W.contents writer.new) }
    ensures numbers { result ≡ Err failures.Numbers → LacksNumbers source.now }
    ensures unwritten { IfErr result (λ e. e ≢ failures.Writing → writer.new ≡ writer.old) }
    ensures err { IfErr result IsOfTextOrWriting }
{
    match format_long(alloc, source) {
        Some(text) => write_text(text.as_str(), writer),
        None => format_whole(alloc, source, writer),
    }
}

/// Writes a text.
///
/// # Errors
///
/// A write fails. Then a beginning of the text is written.
#[tactic(auto, using(system_run::proofs::Beginnings::front, system_run::proofs::Beginnings::all_of))]
fn write_text<W: Write>(text: &str, writer: &mut W) -> Result<(), Failure>
    ensures ok { OnOk result (Appends (W.contents writer.old) (W.contents writer.new) text.now) }
    ensures begun { AppendsBeginning (W.contents writer.old) (W.contents writer.new) text.now }
    ensures err { IfErr result (λ e. e ≡ failures.Writing) }
{
    if write_up_to(text.as_bytes(), writer) < text.len() {
        return Err(Failure::Writing);
    }
    Ok(())
}

/// Does the same as `format_to`, with the tree of the whole text.
#[tactic(auto, using(crate::proofs::Failures::rejected, crate::proofs::Failures::unprintable, crate::proofs::Failures::numbers, crate::proofs::Failures::of_text_or_writing, crate::proofs::Files::formats, crate::proofs::Files::begins, crate::proofs::Files::never_rejected, crate::proofs::Files::unprinted, crate::proofs::Files::not_numbers, crate::proofs::Files::of_file))]
fn format_whole<W: Write>(alloc: Global, source: &str, writer: &mut W) -> Result<(), Failure>
    ensures ok { OnOk result (Formats source.now (W.contents writer.old) (W.contents writer.new)) }
    ensures rejected { IfErr result (IfRejected (IsRejection source.now)) }
    ensures unprintable { result ≡ Err failures.NotPrintable → IsUnprintable source.now }
    ensures part { result ≡ Err failures.Writing
        → FormatsBeginning source.now (W.contents writer.old) (W.contents writer.new) }
    ensures numbers { result ≡ Err failures.Numbers → LacksNumbers source.now }
    ensures unwritten { IfErr result (λ e. e ≢ failures.Writing → writer.new ≡ writer.old) }
    ensures err { IfErr result IsOfTextOrWriting }
{
    match parse(alloc, "justfile", source) {
        Ok(mut ast) => {
            let written = write_file(&mut ast, writer);
            mem::forget(ast);
            written
        }
        Err(fault) => Err(Failure::from(fault)),
    }
}

/// Writes the canonical text of a file. It is passed as `&mut`, since the checker reaches its limit
/// where a caller that holds a file passes a shared reference (`docs/TOOLCHAIN.md`, "could not
/// tell").
#[tactic(auto, using(crate::proofs::Files::printed, crate::proofs::Files::printed_beginning))]
fn write_file<W: Write>(ast: &mut Ast<'_>, writer: &mut W) -> Result<(), Failure>
    requires { HasCookedIndentation ast.old }
    ensures ok { OnOk result
        (WritesFile ast.old (W.contents writer.old) (W.contents writer.new)) }
    ensures unprintable { result ≡ Err failures.NotPrintable
        → printable (ast_shape ast.old) ≡ false }
    ensures part { result ≡ Err failures.Writing
        → WritesFileBeginning ast.old (W.contents writer.old) (W.contents writer.new) }
    ensures unwritten { IfErr result (λ e. e ≢ failures.Writing → writer.new ≡ writer.old) }
    ensures err { IfErr result IsOfFile }
{
    let indentation = printing_indentation(ast)?;
    print_buffered(ast, indentation, writer)?;
    Ok(())
}

/// Writes the printed text of a file through a buffer, because it consists of many small pieces,
/// and writing a piece takes longer than copying it.
fn print_buffered<W: Write>(
    ast: &Ast<'_>,
    indentation: Indentation,
    writer: &mut W,
) -> Result<(), WriteFault>
    ensures ok { OnOk result (Appends (W.contents writer.old) (W.contents writer.new)
        (text (normal (ast_shape ast.now)) (indentation_text indentation))) }
    ensures err { OnErr result (AppendsBeginning (W.contents writer.old) (W.contents writer.new)
        (text (normal (ast_shape ast.now)) (indentation_text indentation))) }
{
    let mut room = [0; CAPACITY];
    let mut buffer = Buffer {
        writer,
        room: &mut room,
        end: 0,
        passed: 0,
    };
    print_all(ast, indentation, &mut buffer)
}

/// Prints a file to a buffer, and writes all that this holds.
fn print_all<W: Write>(
    ast: &Ast<'_>,
    indentation: Indentation,
    buffer: &mut Buffer<'_, W>,
) -> Result<(), WriteFault>
    ensures ok { OnOk result
        (Appends (buffered W.contents buffer.old) (buffered W.contents buffer.new)
        (text (normal (ast_shape ast.now)) (indentation_text indentation))) }
    ensures empty { OnOk result (buffer.new.end ≡ 0) }
    ensures err { OnErr result
        (AppendsBeginning (buffered W.contents buffer.old) (buffered W.contents buffer.new)
        (text (normal (ast_shape ast.now)) (indentation_text indentation))) }
{
    ast.print_to(indentation, buffer)?;
    match buffer.pass_on() {
        Ok(()) => Ok(()),
        Err(_) => Err(WriteFault::Failed),
    }
}

/// Returns the canonical text of a justfile. Doesn't free the tree, because the program ends soon.
///
/// # Errors
///
/// The text isn't a justfile or can't be printed, or memory or numbers run out.
#[tactic(auto, using(crate::proofs::Failures::rejected, crate::proofs::Failures::unprintable, crate::proofs::Failures::numbers, crate::proofs::Failures::of_text))]
pub fn format_input(alloc: Global, source: &str) -> Result<String, Failure>
    ensures ok { IfOk result (λ text. IsFormatted source.now (string_bytes text)) }
    ensures rejected { IfErr result (IfRejected (IsRejection source.now)) }
    ensures unprintable { result ≡ Err failures.NotPrintable → IsUnprintable source.now }
    ensures numbers { result ≡ Err failures.Numbers → LacksNumbers source.now }
    ensures err { IfErr result IsOfText }
{
    match format_and_forget(alloc, "justfile", source) {
        Ok(text) => Ok(text),
        Err(fault) => Err(Failure::from(fault)),
    }
}
