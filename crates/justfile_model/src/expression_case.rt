//! The cases of expressions.
/// A case of expressions, in the order in which `Expression` of `justfile_expression` declares
/// them. Expressions of different cases compare as these do.
#[derive(Clone, Copy)]
pub enum ExpressionCase {
    /// `l && r`
    And,
    /// `assert(condition)` or `assert(condition, message)`
    Assert,
    /// A command in backticks.
    Backtick,
    /// A call of a function.
    Call,
    /// `l == r`, or another comparison.
    Comparison,
    /// `l + r`
    Concatenation,
    /// `if condition { .. }`, with `else` or without it.
    Conditional,
    /// A format string.
    FormatString,
    /// An expression in parentheses.
    Group,
    /// `l / r` or `/ r`
    Join,
    /// A list in brackets.
    List,
    /// `l ++ r`
    ListConcatenation,
    /// `!operand`
    Not,
    /// `l || r`
    Or,
    /// A literal.
    StringLiteral,
    /// A name.
    Variable,
}
