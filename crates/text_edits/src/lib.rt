//! Edits of a text by ranges of positions: texts in which ranges are replaced, one or several at once,
//! and the edits of lines that lead from a text to another.
#![tactic(auto)]

mod edit;
mod lines;
mod pending;
mod pieces;
mod several;

pub use edit::{Range, TextEdit};
pub use lines::line_edits;
pub use pieces::Pieces;
pub use several::edited;
