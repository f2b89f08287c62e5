//! Surveys: what is known of a text.

use justfile_chunks::Span;
use justfile_vocabulary::ItemKind;

/// An item that has a name, or an import. Offsets are in bytes of the whole text.
#[derive(Drop)]
pub struct SurveyedItem {
    /// What the item is.
    pub kind: ItemKind,
    /// The name that it defines, sets or removes; of an import the text of its path.
    pub name: String,
    /// Whether lists omit it.
    pub is_private: bool,
    /// Where its name is, or the literal of an import's path.
    pub name_span: Span,
    /// Its lines: those of its doc, its attributes and its body, too.
    pub span: Span,
    /// The lines of its body, if it is a recipe that has one.
    pub body: Option<Span>,
}

/// An error. Offsets, lines and columns are those of the whole text.
#[derive(Drop)]
pub struct SurveyedError {
    /// The token at which it is reported.
    pub span: Span,
    /// The line on which the token begins, from 0.
    pub line: usize,
    /// The number of bytes on that line before the token.
    pub column: usize,
    /// The message. Lines that it names are those of the whole text.
    pub message: String,
}

/// What is known of a text.
#[derive(Drop)]
pub struct Survey {
    /// The items that have names, and the imports, in order.
    pub items: Vec<SurveyedItem>,
    /// The errors: that of the text first, then those of its parts in order. None if the text is a
    /// justfile.
    pub errors: Vec<SurveyedError>,
}
