//! The features that need the setting `lists`, and what messages call them.
ghost use Rattle.std.specs.Prelude.{◌≡◌};
ghost use Rattle.justfile_vocabulary.specs.ListFeature.{feature_text, is_function};

use std::fmt;

/// A feature that requires the setting `lists`.
#[derive(Clone, Copy, Debug, PartialEq, Eq)]
pub enum ListFeature {
    /// `max` of an `arg` attribute.
    ArgMax,
    /// `min` of an `arg` attribute.
    ArgMin,
    /// The function `bool`.
    BoolFunction,
    /// A comparison outside the condition of a conditional.
    ComparisonOperator,
    /// `flag` of an `arg` attribute.
    Flag,
    /// A conditional without an `else`.
    IfWithoutElse,
    /// The function `join_list`.
    JoinListFunction,
    /// `++`
    ListConcatenationOperator,
    /// Elements between brackets.
    ListLiteral,
    /// `&&` or `||`.
    LogicalOperator,
    /// `multiple` of an `arg` attribute.
    Multiple,
    /// `!`
    NegationOperator,
    /// A condition that isn't a comparison.
    NonComparisonCondition,
    /// The function `num_jobs`.
    NumJobsFunction,
    /// The function `show`.
    ShowFunction,
    /// The function `split`.
    SplitFunction,
    /// The function `which`.
    WhichFunction,
}

impl ListFeature {
    /// Whether the feature is the call of a function.
    pub fn function(self) -> bool
        ensures { result ≡ is_function self }
    {
        matches!(
            self,
            ListFeature::BoolFunction
                | ListFeature::JoinListFunction
                | ListFeature::NumJobsFunction
                | ListFeature::ShowFunction
                | ListFeature::SplitFunction
                | ListFeature::WhichFunction
        )
    }

    /// Returns the message for a file that uses the feature without the setting.
    fn text(self) -> &'static str
        ensures { result.now ≡ feature_text self }
    {
        match self {
            ListFeature::ArgMax => "`[arg(max)]` requires `set lists`",
            ListFeature::ArgMin => "`[arg(min)]` requires `set lists`",
            ListFeature::BoolFunction => "the `bool()` function requires `set lists`",
            ListFeature::ComparisonOperator => "comparison operators require `set lists`",
            ListFeature::Flag => "`flag` arguments require `set lists`",
            ListFeature::IfWithoutElse => "`if` without `else` requires `set lists`",
            ListFeature::JoinListFunction => "the `join_list()` function requires `set lists`",
            ListFeature::ListConcatenationOperator => {
                "list concatenation operator `++` requires `set lists`"
            }
            ListFeature::ListLiteral => "list literals require `set lists`",
            ListFeature::LogicalOperator => "logical operators require `set lists`",
            ListFeature::Multiple => "`[arg(multiple)]` requires `set lists`",
            ListFeature::NegationOperator => "negation operator requires `set lists`",
            ListFeature::NonComparisonCondition => {
                "`if` and `assert` conditions other than comparisons require `set lists`"
            }
            ListFeature::NumJobsFunction => "the `num_jobs()` function requires `set lists`",
            ListFeature::ShowFunction => "the `show()` function requires `set lists`",
            ListFeature::SplitFunction => "the `split()` function requires `set lists`",
            ListFeature::WhichFunction => "the `which()` function requires `set lists`",
        }
    }
}

/// Ignores width and alignment: the text is written as it is.
impl fmt::Display for ListFeature {
    ghost use Rattle.std.specs.Prelude.{Some};

    ghost output = { λ feature. Some (feature_text feature) };

    ghost styled_output = { λ feature spec. Some (feature_text feature) };

    fn fmt<W: fmt::Write>(&self, f: &mut fmt::Formatter<W>) -> fmt::Result {
        f.write_str(self.text())
    }
}
