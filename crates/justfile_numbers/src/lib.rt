//! The numbers of bindings and recipes, what hands them out, and versions of `just`.
#![tactic(auto)]

pub mod laws;
pub mod number;
pub mod numerator;
pub mod version;

pub use crate::number::Number;
pub use crate::numerator::Numerator;
pub use crate::version::Version;
