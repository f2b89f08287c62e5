//! Settings: their type, and how they are made from keywords and values, resolved, and printed.
#![tactic(auto)]

mod copy;
mod expressions;
mod form;
mod print;
mod resolve;
pub mod setting;
mod value;

pub use crate::expressions::push_setting;
pub use crate::form::{SettingForm, setting_form};
pub use crate::print::write_setting;
pub use crate::setting::Setting;
pub use crate::value::Value;
