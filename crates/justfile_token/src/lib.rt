//! The types that all layers of the syntax use: tokens, names, paths, literals and errors.
#![tactic(auto)]

pub mod compile_error;
pub mod compile_error_kind;
pub mod delimiter;
pub mod excerpt;
pub mod excerpt_examples;
pub mod expander;
pub mod fault;
pub mod keyed;
mod messages;
pub mod modulepath;
pub mod name;
pub mod namepath;
mod path;
pub mod sink;
mod sinks;
pub mod source;
pub mod string_kind;
pub mod string_literal;
pub mod token;
mod try_clone;

pub use crate::compile_error::CompileError;
pub use crate::compile_error_kind::CompileErrorKind;
pub use crate::delimiter::Delimiter;
pub use crate::excerpt::Excerpt;
pub use crate::expander::{ExpandFault, Expander, Unchanged};
pub use crate::fault::{CompileResult, Fault};
pub use crate::keyed::Keyed;
pub use crate::modulepath::Modulepath;
pub use crate::name::Name;
pub use crate::namepath::Namepath;
pub use crate::sink::Sink;
pub use crate::source::Source;
pub use crate::string_kind::{StringDelimiter, StringKind};
pub use crate::string_literal::StringLiteral;
pub use crate::token::Token;
pub use crate::try_clone::{TryClone, clone_all, copy_optional_text};
