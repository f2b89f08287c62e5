//! Files as lists of items, and how they are printed.
#![tactic(auto)]

pub mod ast;
pub mod laws;
mod push;
pub mod separator;
pub mod write_fault;
mod writer;

pub use crate::ast::Ast;
pub use crate::separator::Separator;
pub use crate::write_fault::WriteFault;
