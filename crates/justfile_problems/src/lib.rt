//! What is wrong with the names of a file: defined twice, used and not defined, or used with a wrong
//! number of arguments; settings that exclude each other, and what needs other settings.
#![tactic(auto)]

mod calls;
mod circular;
mod definitions;
mod error;
mod facts;
mod judged;
mod key;
mod listing;
mod module;
mod names;
mod nodes;
mod overridden;
mod problem;
mod steps;
mod suspects;
mod uses;

pub use crate::circular::{Circle, circles_of};
pub use crate::facts::{
    Definition, Facts, Import, Link, Located, LocatedModule, Member, ModuleFile, Role, Rules,
    Space, Submodule, Suspect, SuspectKind, Target, Use,
};
pub use crate::listing::problems;
pub use crate::module::{joined, problems_within};
pub use crate::overridden::Overridden;
pub use crate::problem::{Problem, What};
