//! Messages over streams of bytes, as editors send them: a header that names the number of bytes of
//! the body, and the body.
#![tactic(auto)]

mod body;
mod field;
mod header;
mod received;
mod written;

pub use received::{Received, read_message};
pub use written::write_message;
