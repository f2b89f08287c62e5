//! The names that items define and use, and where the defaults of parameters are.
#![tactic(auto)]

mod defaults;
mod items;
mod names;
mod reference;

pub use crate::defaults::Defaults;
pub use crate::items::references;
pub use crate::reference::{Reference, Role};
