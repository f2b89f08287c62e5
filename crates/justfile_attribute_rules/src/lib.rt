//! The rules for the arguments of attributes: each check on its own, with its error.
#![tactic(auto)]

mod argument;
mod argument_rules;
mod count;
mod keys;
mod literals;
mod numbers;
mod options;
mod signals;
mod switches;

pub use crate::argument::read_argument_rules;
pub use crate::argument_rules::ArgumentRules;
pub use crate::count::{accepts_expressions, check_count};
pub use crate::keys::{KeyMap, check_keys, take, take_required, take_value};
pub use crate::literals::string_literals;
pub use crate::signals::signal_set;
