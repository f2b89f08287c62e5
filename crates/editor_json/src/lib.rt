//! Messages as JSON: what an editor sends is read into plain values, and what is answered is written
//! as text.
#![tactic(auto)]

mod elements;
mod lists;
mod members;
mod notifications;
mod parameters;
mod read;
mod results;
mod sent;
mod values;

pub use read::{message_of, parsed};
pub use sent::{diagnostics_text, error_text, reply_text};
