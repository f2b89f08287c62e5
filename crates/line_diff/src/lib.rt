//! Unified diffs of two texts, in the form that `patch` takes.
#![tactic(auto)]

mod edits;
mod hunks;
mod label;
mod lines;
mod plan;
mod shared;
mod unified;

pub use edits::{Change, Edit, diff_lines};
pub use lines::lines_of;
pub use unified::unified_diff;
