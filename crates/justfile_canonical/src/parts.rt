//! Formatting a long text in parts: each is read, printed and freed before the next one, so that
//! little memory is taken at once.
ghost use Rattle.std.specs.Prelude.{◌≡◌, ◌++◌, false, IfNone, IfOk, IfSome, IsTrue, OnOk, string_bytes};
ghost use Rattle.justfile_vocabulary.specs.Indentation.{indentation_text};
ghost use Rattle.justfile_model.specs.Trees.Tree.{Shape};
ghost use Rattle.justfile_ast.specs.Ast.{ast_shape};
ghost use Rattle.justfile_indentation.specs.OwnIndentation.{HasCookedIndentation};
ghost use Rattle.justfile_canonical.specs.Formatting.{IsFormatted};
ghost use Rattle.justfile_canonical.specs.Parts.{HasLineEnd, HasPrinted, IsChosen, IsFinished, IsPartStart, IsPartText, IsPrintedBy, IsPrintedTo, IsRestPrinted, indentation_in_use, own_items};

use crate::root::parse_root;
use justfile_ast::{Ast, Separator};
use justfile_chunks::find_cut;
use justfile_numbers::Version;
use justfile_parse::{RECURSION_LIMIT, parse_part};
use justfile_token::{Source, Unchanged};
use justfile_vocabulary::Indentation;
use std::alloc::Global;

/// From how many bytes on a text is formatted in parts: a shorter one takes fewer instructions as a
/// whole.
const LONG: usize = 128 * 1024;

/// The least number of bytes of a part but the last one.
const PART: usize = 16 * 1024;

/// In how many places a part is tried to end before the rest of the text is taken as one part.
const ATTEMPTS: usize = 4;

/// A text isn't formatted in parts: it is no justfile, can't be printed, sets its indentation late,
/// or memory ran out.
#[derive(Drop)]
struct GivenUp;

/// What is printed of a text so far.
#[derive(Drop)]
struct Printer {
    printed: String,
    separator: Separator,
    /// The indentation that the items so far set, if they do.
    indentation: Option<Indentation>,
}

impl Printer {
    /// Notes the indentation that a part sets, unless an earlier one sets it.
    ///
    /// # Errors
    ///
    /// Items are printed already without it.
    fn set_indentation(&mut self, set: Option<Indentation>) -> Result<(), GivenUp>
        ensures printed { self.new.printed ≡ self.old.printed }
        ensures separator { self.new.separator ≡ self.old.separator }
        ensures chosen { OnOk result (IsChosen self.old.indentation set self.old.separator
            self.new.indentation) }
    {
        if self.indentation.is_some() || set.is_none() {
            return Ok(());
        }
        if self.separator != Separator::Start {
            return Err(GivenUp);
        }
        self.indentation = set;
        Ok(())
    }

    /// Returns the indentation of body lines.
    fn indentation_in_use(&self) -> Indentation
        ensures { indentation_text result ≡ indentation_in_use self.now.indentation }
    {
        match self.indentation {
            Some(indentation) => indentation,
            None => Indentation::default(),
        }
    }
}

/// Appends the printed text of the items of a part of a text, of a later part without the line end
/// that is before it. The file is passed as `&mut` for the same reason as in `formatting.rt`, and
/// first, since the checker compares types at its limit where the lifetimes of two calls have
/// different places.
///
/// # Errors
///
/// An item can't be printed or sets the indentation of items that are printed, or memory runs out.
fn print_file(ast: &mut Ast<'_>, printer: &mut Printer, is_first: bool) -> Result<(), GivenUp>
    requires cooked { HasCookedIndentation ast.old }
    requires line_end { HasLineEnd is_first (ast_shape ast.old) }
    ensures { OnOk result ((before : Shape) → HasPrinted before printer.old
        → HasPrinted (before ++ own_items is_first (ast_shape ast.old)) printer.new) }
{
    if !ast.printable() {
        return Err(GivenUp);
    }
    printer.set_indentation(ast.indentation())?;
    let first = if is_first { 0 } else { 1 };
    let indentation = printer.indentation_in_use();
    match ast.print_part(first, indentation, printer.separator, &mut printer.printed) {
        Ok(separator) => {
            printer.separator = separator;
            Ok(())
        }
        Err(_) => Err(GivenUp),
    }
}

/// Returns the canonical text of a long text, read and printed in parts. Returns `None` if the text
/// is short, or isn't formatted so.
pub fn format_long(alloc: Global, source: &str) -> Option<String>
    ensures { IfSome result (λ text. IsFormatted source.now (string_bytes text)) }
{
    if source.len() < LONG {
        return None;
    }
    format_parts(alloc, source, PART)
}

/// Returns the canonical text of a text, read and printed in parts of at least this many bytes.
/// Returns `None` if it has no such parts, is no justfile or can't be printed, or sets its
/// indentation after the first part, or if memory runs out.
pub fn format_parts(alloc: Global, source: &str, least: usize) -> Option<String>
    ensures { IfSome result (λ text. IsFormatted source.now (string_bytes text)) }
{
    let Ok(printed) = String::with_capacity(alloc, source.len()) else {
        return None;
    };
    let mut printer = Printer {
        printed,
        separator: Separator::Start,
        indentation: None,
    };
    let mut at = 0;
    'parts: loop {
        match print_next(alloc, source, at, least, &mut printer) {
            Ok(Some(cut)) => at = cut,
            Ok(None) => break,
            Err(GivenUp) => return None,
        }
    }
    if at == 0 {
        return None;
    }
    finish(alloc, &source[at - 1..], printer)
}

/// Prints the last part of a text, from the line feed before it on, and returns all that is printed.
fn finish(alloc: Global, rest: &str, mut printer: Printer) -> Option<String>
    requires { IsPartText false rest.now }
    ensures { IfSome result (λ text. IsFinished rest.now printer (string_bytes text)) }
{
    let Ok(()) = print_rest(alloc, rest, &mut printer) else {
        return None;
    };
    if printer.separator == Separator::Start {
        return None;
    }
    let mut printed = printer.printed;
    match printed.push_str("\n") {
        Ok(()) => Some(printed),
        Err(_) => None,
    }
}

/// Prints the next part of a text, which begins at this offset and has at least this many bytes,
/// and returns the offset at which the one after it begins. Returns `None` if no place is found at
/// which the part ends.
///
/// # Errors
///
/// As for `print_file`.
fn print_next(
    alloc: Global,
    source: &str,
    at: usize,
    least: usize,
    printer: &mut Printer,
) -> Result<Option<usize>, GivenUp>
    requires { IsPartStart source.now at }
    ensures printed { IfOk result (λ found. IfSome found (λ cut.
        IsPrintedTo source.now at cut printer.old printer.new)) }
    ensures same { IfOk result (λ found. IfNone found (printer.new ≡ printer.old)) }
{
    let start = at.saturating_sub(1);
    let step = if least == 0 { 1 } else { least };
    let mut from = at;
    for _attempt in 0..ATTEMPTS {
        let Some(next) = from.checked_add(step) else {
            return Ok(None);
        };
        let Some(cut) = find_cut(source.as_bytes(), next) else {
            return Ok(None);
        };
        if print_before(alloc, &source[start..=cut], at == 0, printer)? {
            return Ok(Some(cut));
        }
        from = cut;
    }
    Ok(None)
}

/// Prints what is before the last byte of a text, the first part of a file or a later one with the
/// line feed before it. Returns whether it could be read.
///
/// # Errors
///
/// As for `print_file`.
fn print_before(
    alloc: Global,
    part: &str,
    is_first: bool,
    printer: &mut Printer,
) -> Result<bool, GivenUp>
    requires { IsPartText is_first part.now }
    ensures printed { IfOk result (λ was. IsTrue was
        → IsPrintedBy part.now is_first printer.old printer.new) }
    ensures same { IfOk result (λ was. was ≡ false → printer.new ≡ printer.old) }
{
    let origin = Source {
        file_depth: 0,
        import_offsets: &[],
        namepath: None,
        working_directory: "",
    };
    match parse_part(
        alloc,
        "",
        &origin,
        part,
        &Unchanged,
        Version::CURRENT,
        RECURSION_LIMIT,
    ) {
        Some(mut ast) => {
            print_file(&mut ast, printer, is_first)?;
            Ok(true)
        }
        None => Ok(false),
    }
}

/// Prints the last part of a text, from the line feed before it on.
///
/// # Errors
///
/// It isn't a justfile, or as for `print_file`.
fn print_rest(alloc: Global, part: &str, printer: &mut Printer) -> Result<(), GivenUp>
    requires { IsPartText false part.now }
    ensures { OnOk result (IsRestPrinted part.now printer.old printer.new) }
{
    match parse_root(alloc, "", part) {
        Ok(mut ast) => print_file(&mut ast, printer, false),
        Err(_) => Err(GivenUp),
    }
}
