//! A run of the program.
ghost use Rattle.std.specs.Prelude.{◌≡◌, ◌≢◌, IfErr, IfOk, IfSome, map, string_bytes};
ghost use Rattle.system_run.specs.Beginning.{AppendsBeginning};
ghost use Rattle.std.specs.Io.KnownBytes.{Appends};
ghost use Rattle.recipes.specs.Lists.{HasListing, IsCompileError, IsRejected, IsRejection, Lists, ListsBeginning};

use crate::listing::listing;
use justfile_syntax::fault::{CompileResult, Fault};
use justfile_syntax::outline::symbols;
use std::alloc::Global;
use std::io::{Read, Write};
use system_run::write_up_to;

/// The list was written.
const LISTED: u8 = 0;

/// The text isn't a justfile.
const REFUSED: u8 = 1;

/// Reading failed, or memory or numbers ran out.
const FAILED: u8 = 2;

/// A write failed.
const UNWRITTEN: u8 = 3;

/// Writes the list of the recipes of the reader's justfile, and returns the exit status: 0 if it
/// was written, 1 if the text isn't a justfile, 2 if reading failed or memory or numbers ran out,
/// 3 if a write failed. With 1 and 2 nothing was written, with 3 a beginning of the list.
pub fn run<R: Read, W: Write, E: Write>(
    alloc: Global,
    reader: &mut R,
    writer: &mut W,
    errors: &mut E,
) -> u8
    ensures listed { result ≡ 0 → IfSome (R.remaining reader.old)
        (λ source. Lists source (W.contents writer.old) (W.contents writer.new)) }
    ensures rejected { result ≡ 1 → IfSome (R.remaining reader.old) IsRejected }
    ensures unwritten { result ≢ 0 → result ≢ 3 → writer.new ≡ writer.old }
    ensures part { result ≡ 3 → IfSome (R.remaining reader.old)
        (λ source. ListsBeginning source (W.contents writer.old) (W.contents writer.new)) }
{
    match read(alloc, reader) {
        Some(text) => write_list(alloc, text.as_str(), writer, errors),
        None => FAILED,
    }
}

/// Reads the whole text of a reader. Returns `None` if that fails.
fn read<R: Read>(alloc: Global, reader: &mut R) -> Option<String>
    ensures { IfSome result (λ text. IfSome (R.remaining reader.old)
        (λ source. string_bytes text ≡ source)) }
{
    let mut text = String::new(alloc);
    match reader.read_to_string(&mut text) {
        Ok(_) => Some(text),
        Err(_) => None,
    }
}

/// Writes the list of the recipes of a justfile, or why there is none. Returns the exit status.
fn write_list<W: Write, E: Write>(alloc: Global, source: &str, writer: &mut W, errors: &mut E) -> u8
    ensures listed { result ≡ 0
        → Lists source.now (W.contents writer.old) (W.contents writer.new) }
    ensures rejected { result ≡ 1 → IsRejected source.now }
    ensures unwritten { result ≢ 0 → result ≢ 3 → writer.new ≡ writer.old }
    ensures part { result ≡ 3
        → ListsBeginning source.now (W.contents writer.old) (W.contents writer.new) }
{
    match list(alloc, source) {
        Ok(listing) => write(listing.as_str(), writer),
        Err(fault) => report(&fault, errors),
    }
}

/// Returns the list of the recipes of a justfile.
fn list(alloc: Global, source: &str) -> CompileResult<'_, String>
    ensures ok { IfOk result (λ listing. HasListing source.now (string_bytes listing)) }
    ensures err { IfErr result (IsRejection source.now) }
{
    let symbols = symbols(alloc, "justfile", source)?;
    Ok(listing(alloc, &symbols)?)
}

/// Writes a text. Returns the exit status.
#[tactic(auto, using(system_run::proofs::Beginnings::all_of, system_run::proofs::Beginnings::front))]
fn write<W: Write>(text: &str, writer: &mut W) -> u8
    ensures listed { result ≡ 0 → Appends (W.contents writer.old) (W.contents writer.new) text.now }
    ensures part { result ≢ 0
        → AppendsBeginning (W.contents writer.old) (W.contents writer.new) text.now }
    ensures status { result ≢ 0 → result ≡ 3 }
{
    if write_up_to(text.as_bytes(), writer) == text.len() {
        LISTED
    } else {
        UNWRITTEN
    }
}

/// Writes what a fault says, as far as that goes. Returns the exit status.
fn report<E: Write>(fault: &Fault<'_>, errors: &mut E) -> u8
    ensures rejected { result ≡ 1 → IsCompileError fault.now }
    ensures status { result ≢ 1 → result ≡ 2 }
{
    let _ = write!(errors, "error: {fault}\n");
    match fault {
        Fault::Compile(_) => REFUSED,
        Fault::Memory | Fault::Numbers => FAILED,
    }
}
