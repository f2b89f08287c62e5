//! The notation of rows of data: reads the rows of files and runs them, and writes what they find
//! like their fields. Also reads names and paths in fields. `docs/ROWS.md` has the notation.
#![tactic(auto)]

mod answer;
mod copy;
mod each;
mod field_reader;
mod fields;
mod literal;
mod names;
mod rejection;
mod run;
mod stream;
mod text;

pub use crate::answer::Answer;
pub use crate::copy::push_copy;
pub use crate::each::push_each_debug;
pub use crate::fields::{
    field_at, indentation_at, indentation_of, is_indentation, is_number, number_at,
};
pub use crate::literal::push_string_kind;
pub use crate::names::{names_of, path_from, path_of, tokens_of};
pub use crate::rejection::{
    place_after, push_expected, push_fault, push_kind, push_message, push_rejection,
};
pub use crate::run::{RowWord, run_rows};
pub use crate::stream::Stream;
pub use crate::text::Text;
