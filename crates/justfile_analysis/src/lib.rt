//! What an editor is told of a justfile: its items, and what is wrong in it. The text is cut into parts,
//! each of which is parsed by itself; after a change, what is known of the other parts is kept.
#![tactic(auto)]

mod analysis;
mod cut;
mod ends;
mod in_text;
mod items;
mod mentioned;
mod reading;
mod rejection;
mod wrong;

pub use analysis::{analysis_after, analysis_of, right_texts};
pub use mentioned::mentions_of;
