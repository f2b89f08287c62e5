//! Comments at the ends of lines.
ghost use Rattle.std.specs.Option.{option_copied};
ghost use Rattle.justfile_model.specs.Printed.Printing.{after_line_text};
ghost use Rattle.justfile_token.specs.Sink.{Puts};

use crate::put::put_piece;
use justfile_token::Sink;

/// Writes a space and a comment, or nothing if there is none.
pub fn write_comment<S: Sink>(comment: Option<&str>, sink: &mut S) -> Result<(), S::Fault>
    ensures { Puts S.took S.failed sink.old result
        (after_line_text (option_copied comment.entry)) sink.new }
{
    match comment {
        None => Ok(()),
        Some(comment) => {
            put_piece(" ", sink)?;
            sink.put(comment)
        }
    }
}
