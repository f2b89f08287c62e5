//! The items of files, and how they are printed.
#![tactic(auto)]

pub mod alias;
mod all_expressions;
pub mod assignment;
mod attributes;
pub mod binding;
mod copy;
mod doc;
mod expressions;
pub mod function_definition;
pub mod item;
pub mod laws;
mod parts;
mod path;
mod private;
pub mod recipe;
mod resolve;
pub mod set;

pub use crate::alias::Alias;
pub use crate::assignment::Assignment;
pub use crate::binding::Binding;
pub use crate::function_definition::FunctionDefinition;
pub use crate::item::{Item, is_printable, item_indentation, write_item};
pub use crate::private::is_private_item;
pub use crate::recipe::UnresolvedRecipe;
pub use crate::set::Set;
