//! How a problem is made, and what a file allows.
ghost use Rattle.std.specs.Prelude.{◌≡◌};
ghost use Rattle.justfile_problems.specs.Problems.{at, at_token, recipes_repeat, unless};

use crate::facts::Rules;
use crate::problem::{Problem, What};
use justfile_token::{Name, Token};

/// Returns the problem at a name.
pub(crate) fn at<'src>(name: Name<'src>, what: What<'src>) -> Problem<'src>
    ensures { result ≡ at name.entry what.entry }
{
    at_token(name.token, what)
}

/// Returns the problem at a token.
pub(crate) fn at_token<'src>(token: Token<'src>, what: What<'src>) -> Problem<'src>
    ensures { result ≡ at_token token.entry what.entry }
{
    Problem { token, what }
}

/// Returns the problem, unless there is a reason to be silent.
pub(crate) fn unless<'src>(silent: bool, problem: Problem<'src>) -> Option<Problem<'src>>
    ensures { result ≡ unless silent problem.entry }
{
    if silent { None } else { Some(problem) }
}

/// Whether a recipe may be defined again, here or in another file.
pub(crate) fn recipes_repeat(rules: Rules) -> bool
    ensures { result ≡ recipes_repeat rules }
{
    rules.duplicate_recipes || rules.open
}
