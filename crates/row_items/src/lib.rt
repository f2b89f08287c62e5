//! Items and files, as rows show them; also attributes and interpreters that are made.
//! `docs/ROWS.md` describes the words that show them.
#![tactic(auto)]

mod copies;
mod expressions;
pub mod interpreters;
pub mod items;
pub mod items_part;
pub mod made;
pub mod names;
mod orders;
mod parts;
pub mod printing;
pub mod recipes;
mod references;
pub mod resolution;
pub mod symbols;
mod values;
