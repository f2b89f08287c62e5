//! Changes of documents.
ghost use Rattle.std.specs.Prelude.{◌≡◌, IfOk, string_bytes};
ghost use Rattle.editor_messages.specs.Changes.{AreApplied, IsAfter};
ghost use Rattle.text_edits.specs.Pieces.{text_of};

use justfile_lines::Encoding;
use std::alloc::{AllocError, Global};
use text_edits::{Pieces, Range};

/// How a document was changed.
#[derive(Clone, Copy)]
pub enum Change<'a> {
    /// It has another text.
    Whole(&'a str),
    /// A range of it has another text.
    Part(Range, &'a str),
}

/// How many changes are made in a text in pieces before it is put together again: the more, the more
/// pieces there are between two places.
const TOGETHER: usize = 256;

/// Returns the text of a document after changes, one after the other.
///
/// # Errors
///
/// Memory ran out.
pub fn changed_text(
    alloc: Global,
    encoding: Encoding,
    text: &str,
    changes: &[Change<'_>],
) -> Result<String, AllocError>
    ensures { IfOk result
        (λ made. AreApplied encoding text.now changes.now (string_bytes made)) }
{
    let mut done = TOGETHER.min(changes.len());
    let mut made = after_changes(alloc, encoding, text, &changes[..done])?;
    'changes: while done < changes.len() {
        let end = done + TOGETHER.min(changes.len() - done);
        made = after_changes(alloc, encoding, made.as_str(), &changes[done..end])?;
        done = end;
    }
    Ok(made)
}

/// Returns the text of a document after changes, one after the other.
fn after_changes(
    alloc: Global,
    encoding: Encoding,
    text: &str,
    changes: &[Change<'_>],
) -> Result<String, AllocError>
    ensures { IfOk result
        (λ made. AreApplied encoding text.now changes.now (string_bytes made)) }
{
    let mut pieces = Pieces::new(alloc, encoding, text)?;
    for change in changes {
        pieces = after_change(alloc, encoding, pieces, change)?;
    }
    pieces.text(alloc)
}

/// Returns a text in pieces after a change.
fn after_change<'a>(
    alloc: Global,
    encoding: Encoding,
    pieces: Pieces<'a>,
    change: &Change<'a>,
) -> Result<Pieces<'a>, AllocError>
    requires { pieces.encoding ≡ encoding }
    ensures text { IfOk result (λ made. IsAfter encoding
        (text_of pieces.entry.before.items pieces.entry.after.items) change.now
        (text_of made.before.items made.after.items)) }
    ensures encoding { IfOk result (λ made. made.encoding ≡ encoding) }
{
    match *change {
        Change::Whole(new) => Pieces::new(alloc, encoding, new),
        Change::Part(range, new) => pieces.replaced(range, new),
    }
}
