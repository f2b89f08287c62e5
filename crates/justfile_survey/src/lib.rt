//! What is known of a text, also if it has errors: its items with their places, and its errors.
#![tactic(auto)]

mod errors;
mod file;
mod items;
mod kind_lines;
mod parsing;
mod part;
mod recovery;
mod surveys;
mod text;
mod whole;

pub use crate::errors::{message_in_text, place_of_error};
pub use crate::file::items_of_file;
pub use crate::kind_lines::names_lines;
pub use crate::surveys::{Survey, SurveyedError, SurveyedItem};
pub use crate::text::survey;
