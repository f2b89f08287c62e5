//! Reading a part of a justfile.
ghost use Rattle.std.specs.Prelude.{◌≡◌, ◌<◌, ◌-◌, IfOk, IfSome, drop, length, nat_eq, take};
ghost use Rattle.text_parts.specs.Places.{IsPartStart};
ghost use Rattle.justfile_canonical.specs.Root.{conditions};
ghost use Rattle.justfile_canonical.specs.Parsing.{IsPart};
ghost use Rattle.justfile_analysis.specs.Ends.{IsEnd};
ghost use Rattle.justfile_analysis.specs.Parts.{IsFound, IsRead, IsRight};

use crate::items::items_of;
use crate::rejection::rejection_for;
use crate::wrong::refused_part;
use editor_language::Known;
use justfile_ast::Ast;
use justfile_canonical::reading::{Query, query_root, release};
use justfile_canonical::{RECURSION_LIMIT, parse_part};
use justfile_chunks::Span;
use justfile_mentions::mentions;
use justfile_numbers::Version;
use justfile_recovery::without_blank_lines;
use justfile_survey::items_of_file;
use justfile_token::{Source, Unchanged};
use std::alloc::{AllocError, Global};
use text_parts::Part;

/// Returns the offset at which what is read of a part begins: at the line feed before it, so that it
/// isn't taken for the beginning of the file.
pub(crate) fn read_start(start: usize) -> usize
    ensures { result ≡ start - 1 }
{
    start.saturating_sub(1)
}

/// Asks the file of a text for what is known of it.
#[derive(Drop)]
pub(crate) struct KnownQuery<'a> {
    /// The text.
    pub(crate) text: &'a str,
    /// Whether it begins with the line feed before a part.
    pub(crate) is_later: bool,
}

impl Query for KnownQuery<'_> {
    type Answer = Known;

    ghost answers = { λ query ast known. IsRight (length query.text.now) ast known };

    fn answer(ast: &mut Ast<'_>, alloc: Global, query: &Self) -> Result<Known, AllocError> {
        known_of(ast, alloc, query.text, query.is_later)
    }
}

/// Returns what is known of the file of a text, which begins with the line feed before a part if it is
/// a later one.
fn known_of(
    ast: &mut Ast<'_>,
    alloc: Global,
    text: &str,
    is_later: bool,
) -> Result<Known, AllocError>
    ensures { IfOk result (IsRight (length text.now) ast.old) }
{
    let mentions = mentions(&ast.items, alloc)?;
    let found = items_of_file(ast, alloc, text, lines_of(text, is_later))?;
    Ok(Known {
        items: items_of(alloc, &found)?,
        mentions,
        problem: None,
    })
}

/// Returns the lines of a part without the blank ones at its end.
fn lines_of(text: &str, is_later: bool) -> Span {
    let start = usize::from(is_later).min(text.len());
    Span {
        start,
        end: without_blank_lines(text.as_bytes(), start, text.len()),
    }
}

/// Reads the part of a text from an offset up to an end, which isn't that of the text. Returns none if
/// it isn't a justfile by itself, or the text isn't cut there.
pub(crate) fn read_up_to(
    alloc: Global,
    text: &str,
    start: usize,
    end: usize,
) -> Result<Option<Part<Known>>, AllocError>
    requires start { IsPartStart text.now start }
    requires end { IsEnd text.now start end }
    requires within { end < length text.now }
    ensures { IfOk result (λ found. IfSome found (IsFound text.now start)) }
{
    let from = read_start(start);
    match read_before(alloc, &text[from..=end], &text[from..end], start > 0)? {
        None => Ok(None),
        Some(known) => Ok(Some(Part {
            size: end - start,
            reach: end - start + 1,
            known,
        })),
    }
}

/// Reads what is before the last byte of a text, the front, up to that byte.
fn read_before(
    alloc: Global,
    text: &str,
    front: &str,
    is_later: bool,
) -> Result<Option<Known>, AllocError>
    requires { length front.now ≡ length text.now - 1 }
    ensures { IfOk result (λ found. IfSome found (IsRead text.now)) }
{
    let origin = Source {
        file_depth: 0,
        import_offsets: &[],
        namepath: None,
        working_directory: "",
    };
    match parse_part(
        alloc,
        "justfile",
        &origin,
        text,
        &Unchanged,
        Version::CURRENT,
        RECURSION_LIMIT,
    ) {
        None => Ok(None),
        Some(mut ast) => {
            let known = known_of(&mut ast, alloc, front, is_later);
            release(ast);
            Ok(Some(known?))
        }
    }
}

/// Reads the part of a text from an offset on, up to the end of the text, after so many ends before it.
pub(crate) fn read_rest(
    alloc: Global,
    text: &str,
    start: usize,
    step: usize,
) -> Result<Part<Known>, AllocError>
    requires { IsPartStart text.now start }
    ensures { IfOk result (IsFound text.now start) }
{
    let rest = &text[read_start(start)..];
    let query = KnownQuery {
        text: rest,
        is_later: start > 0,
    };
    match query_root(alloc, "justfile", rest, &query) {
        Ok(known) => Ok(Part {
            size: text.len() - start,
            reach: text.len() - start + 1,
            known,
        }),
        Err(fault) => {
            let rejection = rejection_for(alloc, rest, fault)?;
            refused_part(alloc, text, start, text.len(), step, rejection)
        }
    }
}
