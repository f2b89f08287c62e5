//! What a server for editors asks of a language: what is wrong in a text, what it consists of, and
//! what its names mean.
#![tactic(auto)]

mod items;
mod language;
mod mention;
mod parts;

pub use items::items_of;
pub use language::Language;
pub use mention::{Mention, Role, definition_of, is_like, mention_at, mentions_like, same_scope};
pub use parts::{
    Analysis, Choices, Colored, FileLink, Finding, Item, Known, OtherPlace, PartProblem, Problem,
    QuickFix, Replacement, Run, Span, TokenType,
};
