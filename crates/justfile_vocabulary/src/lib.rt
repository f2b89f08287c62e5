//! The words of justfiles and their texts. Nothing here depends on tokens.
#![tactic(auto)]

pub mod alternative;
pub mod attribute_kind;
pub mod byte_class;
pub mod bytes;
pub mod count;
pub mod format_string_part;
pub mod indentation;
pub mod interpolation;
pub mod item_kind;
pub mod keyword;
pub mod laws;
pub mod list_feature;
pub mod signal;
pub mod switch;
pub mod token_kind;
pub mod unstable_feature;

pub use crate::attribute_kind::AttributeKind;
pub use crate::byte_class::ByteClass;
pub use crate::count::Count;
pub use crate::format_string_part::FormatStringPart;
pub use crate::indentation::Indentation;
pub use crate::item_kind::ItemKind;
pub use crate::keyword::Keyword;
pub use crate::list_feature::ListFeature;
pub use crate::signal::Signal;
pub use crate::switch::Switch;
pub use crate::token_kind::TokenKind;
pub use crate::unstable_feature::UnstableFeature;
