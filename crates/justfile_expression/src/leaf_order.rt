//! The two orders of the leaves of expressions: by all fields, or by content.
ghost use Rattle.std.specs.Prelude.{◌≡◌};
ghost use Rattle.justfile_expression.specs.Content.{leaf_order};
ghost use Rattle.justfile_expression.specs.Leaf as leaves;

use justfile_leaves::{literal_content_cmp, token_content_cmp};
use justfile_model::ConditionalOperator;
use justfile_numbers::Number;
use justfile_token::{StringLiteral, Token};
use std::cmp::Ordering;

/// The order in which leaves are compared.
#[derive(Clone, Copy)]
pub enum LeafOrder {
    /// By all fields, positions included.
    Whole,
    /// By content: positions and the numbers of variables are ignored.
    Content,
}

impl LeafOrder {
    /// Compares two tokens.
    #[tactic(auto, unfolding(crate::specs::Content::leaf_order))]
    pub fn tokens<'src>(self, token: &Token<'src>, other: &Token<'src>) -> Ordering
        ensures { result ≡ leaf_order self (leaves.token token.now) (leaves.token other.now) }
    {
        match self {
            LeafOrder::Whole => token.cmp(other),
            LeafOrder::Content => token_content_cmp(token, other),
        }
    }

    /// Compares two literals.
    #[tactic(auto, unfolding(crate::specs::Content::leaf_order))]
    pub fn literals<'src>(
        self,
        literal: &StringLiteral<'src>,
        other: &StringLiteral<'src>,
    ) -> Ordering
        ensures { result ≡ leaf_order self (leaves.literal literal.now) (leaves.literal other.now) }
    {
        match self {
            LeafOrder::Whole => literal.cmp(other),
            LeafOrder::Content => literal_content_cmp(literal, other),
        }
    }

    /// Compares two comparison operators. Both orders agree on them.
    #[tactic(auto, using(crate::proofs::Compared::operators_either_way))]
    pub fn operators(self, operator: &ConditionalOperator, other: &ConditionalOperator) -> Ordering
        ensures { result
            ≡ leaf_order self (leaves.operator operator.now) (leaves.operator other.now) }
    {
        operator.cmp(other)
    }

    /// Compares the numbers of two variables. By content they are always equal.
    #[tactic(auto, unfolding(crate::specs::Content::leaf_order))]
    pub fn numbers(self, number: &Option<Number>, other: &Option<Number>) -> Ordering
        ensures { result ≡ leaf_order self (leaves.number number.now) (leaves.number other.now) }
    {
        match self {
            LeafOrder::Whole => number.cmp(other),
            LeafOrder::Content => Ordering::Equal,
        }
    }

    /// Compares two texts by their bytes. Both orders agree on them.
    #[tactic(auto, using(crate::proofs::Compared::texts_either_way))]
    pub fn texts(self, text: &str, other: &str) -> Ordering
        ensures { result ≡ leaf_order self (leaves.text text.now) (leaves.text other.now) }
    {
        text.cmp(other)
    }
}
