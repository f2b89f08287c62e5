//! Formats the files of a folder, or tells which of them aren't formatted, what formatting would
//! change, or what is wrong with them.
#![tactic(auto)]

mod failure;
mod file;
pub mod folder;
pub mod formatter;
mod found;
pub mod help;
pub mod lint;
pub mod linter;
pub mod messages;
pub mod output;
pub mod path;
mod place;
mod report;
pub mod request;
pub mod run;
pub mod sources;
pub mod visible;
