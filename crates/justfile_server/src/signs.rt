//! Signs in whose place another one has to be.
ghost use Rattle.std.specs.Prelude.{◌≡◌, ◌≤◌, IfOk, filter, length, option_copied};
ghost use Rattle.std.specs.List.{AllZip, list_all, prefix_len, suffix_len};
ghost use Rattle.justfile_completion.specs.Cursor.{is_name_byte};
ghost use Rattle.justfile_server.specs.Signs.{Corrects, begins_name, expects_other, is_blank, is_equals, is_equals_byte, is_in_line, is_named, is_sign, line_before, starts_name, without_mark};

use editor_language::{Problem, QuickFix, Replacement, Span};
use justfile_vocabulary::ByteClass;
use justfile_vocabulary::byte_class::byte_class;
use std::alloc::{AllocError, Global};

/// Returns the fixes that put `:=` in the place of `=`, where a problem is that sign.
#[tactic(auto, using(crate::proofs::Kept::passed, crate::proofs::Kept::kept))]
pub(crate) fn sign_fixes(
    alloc: Global,
    text: &[u8],
    problems: &[Problem],
) -> Result<Vec<QuickFix>, AllocError>
    ensures { IfOk result (λ found.
        AllZip Corrects (filter (is_sign text.now) problems.now) found.items) }
{
    let mut found = Vec::new(alloc);
    for problem in problems {
        if is_sign(text, problem) {
            found.push(sign_fix(alloc, problem)?)?;
        }
    }
    Ok(found)
}

/// Whether a problem is a `=` in whose place a `:=` has to be: it is expected there, or a name alone is
/// before it in its line.
fn is_sign(text: &[u8], problem: &Problem) -> bool
    ensures { result ≡ is_sign text.now problem.now }
{
    is_equals(text, problem.span)
        && (expects_other(problem.message.as_bytes())
            || is_named(without_mark(line_before(text, problem.span.start))))
}

/// Whether a part of a text is the sign `=`.
fn is_equals(text: &[u8], span: Span) -> bool
    ensures { result ≡ is_equals text.now span }
{
    span.end.saturating_sub(span.start) == 1 && is_equals_byte(text.get(span.start))
}

/// Whether a byte is the sign `=`, if there is one.
fn is_equals_byte(byte: Option<&u8>) -> bool
    ensures { result ≡ is_equals_byte (option_copied byte.entry) }
{
    match byte {
        Some(byte) => *byte == b'=',
        None => false,
    }
}

/// Whether a message says that `:=` is expected.
fn expects_other(message: &[u8]) -> bool
    ensures { result ≡ expects_other message.now }
{
    message.starts_with(b"expected ':='")
}

/// Returns what a text has before an offset in its line.
fn line_before(text: &[u8], offset: usize) -> &[u8]
    ensures { result.now ≡ line_before text.now offset }
{
    let before = &text[..offset.min(text.len())];
    &before[before.len().saturating_sub(len_in_line(before))..]
}

/// Returns how many bytes a text has after its last line feed.
pub(crate) fn len_in_line(text: &[u8]) -> usize
    ensures { result ≡ suffix_len is_in_line text.now }
{
    text.iter()
        .rev()
        .take_while(|byte| is_in_line(**byte))
        .count()
}

/// Whether a byte isn't a line feed.
fn is_in_line(byte: u8) -> bool
    ensures { result ≡ is_in_line byte }
{
    byte != b'\n'
}

/// Returns a line without a byte order mark at its beginning.
fn without_mark(line: &[u8]) -> &[u8]
    ensures { result.now ≡ without_mark line.now }
{
    if line.starts_with(b"\xef\xbb\xbf") {
        &line[3..]
    } else {
        line
    }
}

/// Whether a line is a name, and after it blanks alone.
fn is_named(line: &[u8]) -> bool
    ensures { result ≡ is_named line.now }
{
    begins_name(line) && are_blanks(&line[name_len(line)..])
}

/// Whether a line begins with a name.
fn begins_name(line: &[u8]) -> bool
    ensures { result ≡ begins_name line.now }
{
    match line {
        [] => false,
        [byte, ..] => starts_name(*byte),
    }
}

/// Whether a text consists of blanks.
fn are_blanks(text: &[u8]) -> bool
    ensures { result ≡ list_all is_blank text.now }
{
    text.iter().all(|byte| is_blank(*byte))
}

/// Whether a name may begin with a byte.
fn starts_name(byte: u8) -> bool
    ensures { result ≡ starts_name byte }
{
    matches!(byte_class(byte), ByteClass::IdentifierStart)
}

/// Whether a byte may stand in a name.
fn is_name_byte(byte: u8) -> bool
    ensures { result ≡ is_name_byte byte }
{
    matches!(
        byte_class(byte),
        ByteClass::IdentifierStart | ByteClass::IdentifierContinue
    )
}

/// Returns how many bytes of a name a text begins with.
fn name_len(text: &[u8]) -> usize
    ensures is { result ≡ prefix_len is_name_byte text.now }
    ensures within { result ≤ length text.now }
{
    text.iter().take_while(|byte| is_name_byte(**byte)).count()
}

/// Whether a byte is a space or a tab.
pub(crate) fn is_blank(byte: u8) -> bool
    ensures { result ≡ is_blank byte }
{
    matches!(byte, b' ' | b'\t')
}

/// Returns the fix that puts `:=` in the place of the sign that a problem is.
fn sign_fix(alloc: Global, problem: &Problem) -> Result<QuickFix, AllocError>
    ensures { IfOk result (Corrects problem.now) }
{
    let span = problem.span;
    let title = String::from_str(alloc, "Replace `=` with `:=`")?;
    let text = String::from_str(alloc, ":=")?;
    let mut replacements = Vec::new(alloc);
    replacements.push(Replacement { span, text })?;
    Ok(QuickFix {
        span,
        title,
        replacements,
    })
}
