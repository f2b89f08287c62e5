//! The delimiters of interpolations.

/// Opens an interpolation.
pub const INTERPOLATION_START: &str = "{{";

/// Closes an interpolation.
pub const INTERPOLATION_END: &str = "}}";

/// Stands for two opening braces in text.
pub const INTERPOLATION_ESCAPE: &str = "{{{{";
