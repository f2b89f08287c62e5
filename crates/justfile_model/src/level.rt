//! The levels of precedence of expressions.
/// The precedence levels of expressions, from the loosest to the tightest.
#[derive(Clone, Copy)]
pub enum Level {
    /// `||`, between disjuncts. An expression at this level is one deeper than the expression
    /// around it.
    Expression,
    /// `&&`, between comparisons.
    Disjunct,
    /// At most one comparison, between conjuncts.
    Compared,
    /// `/`, `++` and `+`, between values.
    Conjunct,
    /// A value, which has no operator.
    Value,
}
