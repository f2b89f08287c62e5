//! The operators between two expressions, and how tightly they bind.
ghost use Rattle.std.specs.Prelude.{◌≡◌, ◌<◌, IsTrue};
ghost use Rattle.justfile_model.specs.Trees.Operators as operators;
ghost use Rattle.justfile_model.specs.Trees.Operators.{is_binary, rank};
ghost use Rattle.justfile_expression.specs.LeafTree.{leaf_tree_of};

use justfile_expression::{ConditionalOperator, Expression, ListFeature};
use justfile_model::{Level, Operator};
use justfile_token::Token;
use justfile_vocabulary::TokenKind;

/// Returns the level of the left operands of this level's operators.
pub(crate) fn find_left_level(level: Level) -> Level
    requires { IsTrue (is_binary level) }
    ensures level { result ≡ operators.operand level }
    ensures tighter { rank result < rank level }
{
    match level {
        Level::Expression => Level::Disjunct,
        Level::Disjunct => Level::Compared,
        Level::Compared => Level::Conjunct,
        Level::Conjunct | Level::Value => Level::Value,
    }
}

/// Returns the operator that a token of this kind is, or `None` if it isn't one.
pub(crate) fn find_operator(kind: TokenKind) -> Option<Operator>
    ensures { result ≡ operators.operator_of kind }
{
    match kind {
        TokenKind::BarBar => Some(Operator::Or),
        TokenKind::AmpersandAmpersand => Some(Operator::And),
        TokenKind::BangEquals => Some(Operator::Compare(ConditionalOperator::Inequality)),
        TokenKind::EqualsTilde => Some(Operator::Compare(ConditionalOperator::RegexMatch)),
        TokenKind::BangTilde => Some(Operator::Compare(ConditionalOperator::RegexMismatch)),
        TokenKind::EqualsEquals => Some(Operator::Compare(ConditionalOperator::Equality)),
        TokenKind::Slash => Some(Operator::Join),
        TokenKind::PlusPlus => Some(Operator::ListConcatenation),
        TokenKind::Plus => Some(Operator::Concatenation),
        _ => None,
    }
}

/// Whether the operator is one of this level.
pub(crate) fn is_at(level: Level, operator: Operator) -> bool
    ensures { result ≡ operators.is_at level operator }
{
    match operator {
        Operator::Or => matches!(level, Level::Expression),
        Operator::And => matches!(level, Level::Disjunct),
        Operator::Compare(_) => matches!(level, Level::Compared),
        Operator::Join | Operator::ListConcatenation | Operator::Concatenation => {
            matches!(level, Level::Conjunct)
        }
    }
}

/// Returns the feature that an operator uses, or `None` if it uses none. `condition` tells whether
/// it is in first place in a condition; a comparison there uses none.
pub(crate) fn find_feature(operator: Operator, condition: bool) -> Option<ListFeature>
    ensures { result ≡ operators.feature_of operator condition }
{
    match operator {
        Operator::Or | Operator::And => Some(ListFeature::LogicalOperator),
        Operator::Compare(_) => {
            if condition {
                None
            } else {
                Some(ListFeature::ComparisonOperator)
            }
        }
        Operator::ListConcatenation => Some(ListFeature::ListConcatenationOperator),
        Operator::Join | Operator::Concatenation => None,
    }
}

/// Makes the expression that applies an operator to two expressions.
pub(crate) fn make_operation<'src>(
    lhs: Box<Expression<'src>>,
    operator: Operator,
    token: Token<'src>,
    rhs: Box<Expression<'src>>,
) -> Expression<'src>
    ensures { leaf_tree_of result ≡ operators.binary operator (leaf_tree_of lhs.entry.value)
        token.entry (leaf_tree_of rhs.entry.value) }
{
    match operator {
        Operator::Or => Expression::Or { lhs, rhs },
        Operator::And => Expression::And { lhs, rhs },
        Operator::Compare(operator) => Expression::Comparison {
            lhs,
            operator,
            rhs,
            token,
        },
        Operator::Join => Expression::Join {
            lhs: Some(lhs),
            operator: token,
            rhs,
        },
        Operator::ListConcatenation => Expression::ListConcatenation {
            lhs,
            operator: token,
            rhs,
        },
        Operator::Concatenation => Expression::Concatenation {
            lhs,
            operator: token,
            rhs,
        },
    }
}
