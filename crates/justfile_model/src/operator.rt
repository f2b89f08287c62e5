//! The operators between two expressions.
use crate::conditional_operator::ConditionalOperator;

/// An operator between two expressions.
#[derive(Clone, Copy)]
pub enum Operator {
    /// `||`
    Or,
    /// `&&`
    And,
    /// A comparison.
    Compare(ConditionalOperator),
    /// `/`
    Join,
    /// `++`
    ListConcatenation,
    /// `+`
    Concatenation,
}
