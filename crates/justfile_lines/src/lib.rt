//! Offsets in a text, and positions as an editor counts them: lines, and columns in bytes or in
//! units of UTF-16. Both ways, each the other's inverse on the bounds of characters.
#![tactic(auto)]

mod encoding;
mod going;
mod lines;
mod position;
mod walk;

pub use encoding::Encoding;
pub use lines::Lines;
pub use position::{Place, Position};
