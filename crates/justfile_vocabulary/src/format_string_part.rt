//! The parts of format strings.
/// The part of a format string that a literal makes up.
#[derive(Clone, Copy, Debug, PartialEq, Eq, PartialOrd, Ord)]
pub enum FormatStringPart {
    /// Between two interpolations.
    Continue,
    /// After the last interpolation.
    End,
    /// The whole format string, which has no interpolation.
    Single,
    /// Before the first interpolation.
    Start,
}
