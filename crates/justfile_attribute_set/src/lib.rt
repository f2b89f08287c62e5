//! The attributes of a construct, in the order of their content.
#![tactic(auto)]

mod attribute_set;
mod copy;
mod expressions;
mod keys;
mod kinds;
pub mod laws;
mod pair_set;
mod pairs;
mod places;
mod resolve;

pub use crate::attribute_set::AttributeSet;
pub use crate::expressions::push_attributes;
pub use crate::keys::{IntoKeys, IntoNamed, Keys};
pub use crate::pair_set::{ContentOrder, PairSet};
pub use justfile_attribute::Attribute;
pub use justfile_vocabulary::AttributeKind;
pub use justfile_written::Written;
