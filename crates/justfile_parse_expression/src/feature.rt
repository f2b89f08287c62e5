//! How the parser notes features that need the setting `lists`.
ghost use Rattle.std.specs.Prelude.{◌≡◌};
ghost use Rattle.justfile_model.specs.Grammars.Features.{function_feature, noted, noted_if, uncompared_feature};
ghost use Rattle.justfile_model.specs.Readers.ReaderState.{with};
ghost use Rattle.justfile_parse_expression.specs.TableReader.{note_first};
ghost use Rattle.justfile_expression.specs.LeafTree.{leaf_tree_of};
ghost use Rattle.justfile_parse_expression.specs.MethodResults.{UnlessMemory};

use crate::expression_error::ExpressionError;
use crate::parser_state::ParserState;
use crate::significant::SignificantToken;
use justfile_expression::{Expression, ListFeature};
use justfile_token::{Expander, Token};

impl<'src, X: Expander> ParserState<'_, 'src, X> {
    ghost use Rattle.justfile_parse_expression.specs.View.{tokens_left, state_of};

    /// Notes a condition that isn't a comparison, at its first token.
    pub(crate) fn note_condition(
        &mut self,
        condition: &Expression<'src>,
        first: Option<SignificantToken<'src>>,
    ) -> Result<(), ExpressionError<'src>>
        ensures notes { UnlessMemory result (λ done. state_of X.answer self.new
            ≡ note_first (leaf_tree_of condition.now) first.entry (state_of X.answer self.old)) }
        ensures stays { tokens_left self.new ≡ tokens_left self.old }
    {
        match first {
            Some((first, _)) => self.note_if(find_condition_feature(condition), first),
            None => Ok(()),
        }
    }

    /// Notes the use of a feature, if there is one.
    #[tactic(auto, using(crate::proofs::Rest::with_none))]
    pub(crate) fn note_if(
        &mut self,
        feature: Option<ListFeature>,
        token: Token<'src>,
    ) -> Result<(), ExpressionError<'src>>
        ensures notes { UnlessMemory result (λ done. state_of X.answer self.new
            ≡ with (noted_if feature token.entry) (state_of X.answer self.old)) }
        ensures stays { tokens_left self.new ≡ tokens_left self.old }
    {
        match feature {
            Some(feature) => self.note(feature, token),
            None => Ok(()),
        }
    }

    /// Notes the use of a feature that needs the setting `lists`.
    ///
    /// # Errors
    ///
    /// Memory runs out.
    #[tactic(auto, unfolding(crate::specs::View::state_at, crate::specs::View::state_of, crate::specs::View::tokens_left))]
    pub fn note(
        &mut self,
        feature: ListFeature,
        token: Token<'src>,
    ) -> Result<(), ExpressionError<'src>>
        ensures notes { UnlessMemory result (λ done. state_of X.answer self.new
            ≡ with (noted feature token.entry) (state_of X.answer self.old)) }
        ensures stays { tokens_left self.new ≡ tokens_left self.old }
    {
        self.list_features.push((feature, token))?;
        Ok(())
    }
}

/// Returns the feature that a condition uses: one if it isn't a comparison.
#[tactic(auto, using(crate::proofs::Shapes::assert_plain, crate::proofs::Shapes::conditional_plain, crate::proofs::Shapes::format_plain, crate::proofs::Shapes::join_plain))]
fn find_condition_feature(condition: &Expression<'_>) -> Option<ListFeature>
    ensures { result ≡ uncompared_feature (leaf_tree_of condition.now) }
{
    match condition {
        Expression::Comparison { .. } => None,
        Expression::And { .. }
        | Expression::Assert { .. }
        | Expression::Backtick { .. }
        | Expression::Call { .. }
        | Expression::Concatenation { .. }
        | Expression::Conditional { .. }
        | Expression::FormatString { .. }
        | Expression::Group { .. }
        | Expression::Join { .. }
        | Expression::List { .. }
        | Expression::ListConcatenation { .. }
        | Expression::Not { .. }
        | Expression::Or { .. }
        | Expression::StringLiteral { .. }
        | Expression::Variable { .. } => Some(ListFeature::NonComparisonCondition),
    }
}

/// Returns the feature that a call of this function uses, or `None` if it uses none.
pub(crate) fn find_function_feature(name: &str) -> Option<ListFeature>
    ensures { result ≡ function_feature name.now }
{
    if name == "bool" {
        Some(ListFeature::BoolFunction)
    } else if name == "join_list" {
        Some(ListFeature::JoinListFunction)
    } else if name == "num_jobs" {
        Some(ListFeature::NumJobsFunction)
    } else if name == "show" {
        Some(ListFeature::ShowFunction)
    } else if name == "split" {
        Some(ListFeature::SplitFunction)
    } else if name == "which" {
        Some(ListFeature::WhichFunction)
    } else {
        None
    }
}
