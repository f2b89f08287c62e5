//! The parts of items, as rows show them: attributes, settings, headers of recipes, lines of
//! bodies, and values. `docs/ROWS.md` describes the words that show them.
#![tactic(auto)]

pub mod attributes;
pub mod copies;
pub mod expressions;
pub mod headers;
pub mod lines;
pub mod orders;
pub mod resolution;
pub mod sets;
pub mod settings;
pub mod shown;
pub mod values;
