//! What can be written at a place of a justfile, and what is called there, by its tokens before that
//! place: in a text with errors, too.
#![tactic(auto)]

mod call;
mod candidates;
mod cursor;
mod found;
mod kinds;
mod offer;
mod order;
mod parameters;
mod place;
mod tables;
mod words;

pub use crate::call::Call;
pub use crate::found::{Completion, Completions, LIMIT, completions_at};
pub use crate::offer::{Offer, OfferKind};
pub use crate::tables::parameters_shown;
