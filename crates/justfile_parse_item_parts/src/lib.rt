//! From tokens to the parts of items: bodies of recipes, paths of files, parameters of functions,
//! values of settings, and the keywords that items begin with.
#![tactic(auto)]

mod body;
mod errors;
mod file_path;
mod lookahead;
mod parameter_names;
mod plain;
mod setting_value;

pub use crate::body::parse_body_after_header;
pub use crate::file_path::{parse_file_path, parse_optional_path};
pub use crate::lookahead::{Lookahead, accept_keyword_before, peek_assignment};
pub use crate::parameter_names::parse_parameter_names;
pub use crate::setting_value::{parse_setting_value, setting_keyword};
