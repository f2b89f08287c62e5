//! Parts of a text that can't be parsed: where an item may begin, and where it ends, by the bytes at
//! the beginnings of lines alone.
#![tactic(auto)]

pub mod lines;
pub mod parts;
pub mod places;
pub mod starts;

pub use crate::lines::{after_lines, line_start, without_blank_lines};
pub use crate::parts::part_end;
pub use crate::places::{line_feeds, span_in};
pub use crate::starts::{is_start, last_start, next_start};
