//! Fields of rows that aren't texts.

use crate::expansion::Expansion;
use crate::word::Word;
use row_notation::{field_at, is_indentation, is_number};

/// Whether the fields are of the kinds that a row with this word needs.
pub(crate) fn are_readable(word: Word, fields: &[String]) -> bool {
    let first = field_at(fields, 0);
    match word {
        Word::Breaks => is_breakable(first) && is_number(fields, 1),
        Word::BreaksEach => matches!(first, "reading" | "reporting" | "writing"),
        Word::CanonicalUnder
        | Word::InParts
        | Word::Line
        | Word::Makes
        | Word::PrintsUnder
        | Word::RejectedUnder
        | Word::Roots => is_number(fields, 0),
        Word::Expands => Expansion::of(first).is_some(),
        Word::FaultLines => matches!(first, "list" | "memory" | "numbers"),
        Word::FormatsAt | Word::PrintsAt | Word::PrintsItem => is_indentation(fields, 0),
        Word::Lints => matches!(first, "imported" | "root"),
        Word::Numbers => is_number(fields, 0) && is_number(fields, 1),
        Word::Sigils => matches!(first, "guarded" | "unguarded"),
        Word::Stops => is_stop(first) && is_number(fields, 1),
        _ => true,
    }
}

/// Whether a writer can stop in this way.
fn is_stop(name: &str) -> bool {
    matches!(name, "broken" | "interrupted" | "nothing")
}

/// Whether a part of a run with this name can be made to fail.
fn is_breakable(name: &str) -> bool {
    matches!(
        name,
        "encoding" | "flushing" | "reading" | "reporting" | "writing"
    )
}
