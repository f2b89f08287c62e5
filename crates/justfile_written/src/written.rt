//! How attributes were written: their names and comments.
ghost use Rattle.std.specs.Prelude.{◌≡◌, IfOk, map};
ghost use Rattle.justfile_written.specs.Written.{commented, line_commented, uncommented};

use justfile_token::Name;
use std::alloc::{AllocError, Global};

/// How an attribute was written: its name and its comment.
#[derive(Clone, Copy, Debug)]
pub struct Written<'src> {
    /// The attribute's name in the source.
    pub name: Name<'src>,
    /// The comment at the end of the attribute's line. The parser gives one only to the last
    /// attribute in its brackets, without trailing whitespace.
    pub comment: Option<&'src str>,
}

/// Stores the comment at the end of a line of attributes, if there is one, in the last attribute.
pub fn comment_last<'src, A>(pairs: &mut [(A, Written<'src>)], comment: Option<&'src str>)
    ensures { pairs.new ≡ line_commented comment.entry pairs.old }
{
    let count = pairs.len();
    if comment.is_some() && count > 0 {
        pairs[count - 1].1.comment = comment;
    }
}

/// Returns the attributes with their names and without comments.
///
/// # Errors
///
/// `AllocError` if memory runs out.
pub fn without_comments<'src, A: Drop>(
    alloc: Global,
    pairs: Vec<(A, Name<'src>)>,
) -> Result<Vec<(A, Written<'src>)>, AllocError>
    ensures { IfOk result (λ written. written.items ≡ map uncommented pairs.entry.items) }
{
    let mut written = Vec::new(alloc);
    for (attribute, name) in pairs {
        let comment = None;
        written.push((attribute, Written { name, comment }))?;
    }
    Ok(written)
}

/// Returns the attributes with their names, and with their comments where they have one.
///
/// # Errors
///
/// `AllocError` if memory runs out.
pub fn with_comments<'src, A: Drop>(
    alloc: Global,
    entries: Vec<(A, Name<'src>, Option<&'src str>)>,
) -> Result<Vec<(A, Written<'src>)>, AllocError>
    ensures { IfOk result (λ written. written.items ≡ map commented entries.entry.items) }
{
    let mut written = Vec::new(alloc);
    for (attribute, name, comment) in entries {
        written.push((attribute, Written { name, comment }))?;
    }
    Ok(written)
}
