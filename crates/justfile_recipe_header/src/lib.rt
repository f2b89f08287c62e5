//! Parameters and dependencies of recipes, and how they are printed.
#![tactic(auto)]

mod expressions;
pub mod laws;
mod optional;
pub mod parameter;
mod parameter_kind;
mod path;
pub mod unresolved_dependency;
mod write_to;

pub use crate::optional::unboxed;
pub use crate::parameter::{Parameter, write_parameter, write_parameters};
pub use crate::path::write_namepath;
pub use crate::unresolved_dependency::{
    DependencyArgument, UnresolvedDependency, write_dependencies, write_dependency,
    write_subsequents,
};
pub use justfile_model::ParameterKind;
