//! What the items of a file say: of each item by itself, what it defines, what it uses, and what is
//! wrong under some settings.
#![tactic(auto)]

mod definitions;
mod facts;
mod imports;
mod members;
mod rules;
mod scopes;
mod submodules;
mod suspects;
mod uses;

pub use crate::facts::facts_of;
pub use crate::imports::imports_of;
pub use crate::submodules::submodules_of;
