//! A text without what is wrong.
ghost use Rattle.std.specs.Prelude.{◌≡◌, ◌≤◌, ◌++◌, IfOk, OnOk, map};
ghost use Rattle.justfile_server.specs.Blanks.{blank_for, end_of_last, kept_of, part_in, without_wrong};

use editor_language::{Item, Known};
use std::alloc::{AllocError, Global};
use text_parts::Part;

/// Returns a text without what is wrong: of a part that is wrong blanks stand for what is after its last
/// item, so that all else is where it was.
pub(crate) fn without_wrong(
    alloc: Global,
    text: &[u8],
    parts: &[Part<Known>],
) -> Result<Vec<u8>, AllocError>
    ensures { IfOk result (λ made. made.items ≡ without_wrong 0 parts.now text.now) }
{
    let mut made = Vec::with_capacity(alloc, text.len())?;
    let mut rest = text;
    let mut before = 0;
    for part in parts {
        let (first, others) = rest.split_at(part.size.min(rest.len()));
        push_part(&part.known, before, first, &mut made)?;
        rest = others;
        before = 1;
    }
    Ok(made)
}

/// Appends the text of a part, of which this is known and which was read with so many bytes before it.
fn push_part(
    known: &Known,
    before: usize,
    text: &[u8],
    made: &mut Vec<u8>,
) -> Result<(), AllocError>
    ensures { OnOk result
        (made.new.items ≡ made.old.items ++ part_in before known.now text.now) }
{
    let kept = kept_of(known, before, text.len());
    let (kept, wrong) = text.split_at(kept);
    made.extend_from_slice(kept)?;
    push_blanks(wrong, made)
}

/// Returns how many bytes of a part of this length are kept: all, or those up to its last item.
pub(crate) fn kept_of(known: &Known, before: usize, length: usize) -> usize
    ensures is { result ≡ kept_of before length known.now }
    ensures within { result ≤ length }
{
    match known.problem {
        None => length,
        Some(_) => end_of_last(&known.items).saturating_sub(before).min(length),
    }
}

/// Returns where the last item ends, or 0 if there is none.
fn end_of_last(items: &[Item]) -> usize
    ensures { result ≡ end_of_last items.now }
{
    match items.last() {
        Some(item) => item.span.end,
        None => 0,
    }
}

/// Appends blanks for a text, and its line feeds.
fn push_blanks(text: &[u8], made: &mut Vec<u8>) -> Result<(), AllocError>
    ensures { OnOk result (made.new.items ≡ made.old.items ++ map blank_for text.now) }
{
    for byte in text {
        made.push(blank_for(*byte))?;
    }
    Ok(())
}

/// Returns the byte in the place of another one: a blank, or a line feed for a line feed.
fn blank_for(byte: u8) -> u8
    ensures { result ≡ blank_for byte }
{
    if byte == b'\n' { b'\n' } else { b' ' }
}
