//! Lines in the bodies of recipes, and how they are printed.
#![tactic(auto)]

mod expressions;
pub mod fragment;
pub mod laws;
pub mod line;
pub mod sigil;

pub use crate::fragment::Fragment;
pub use crate::line::{Line, is_printable, write_line};
pub use crate::sigil::Sigil;
