//! What is wrong with a suspect.
ghost use Rattle.std.specs.Prelude.{◌≡◌};
ghost use Rattle.justfile_problems.specs.Names.{known};
ghost use Rattle.justfile_problems.specs.Problems.{has_function, is_allowed, may_be_script, suspect_problem};

use crate::facts::{Rules, Space, Suspect, SuspectKind};
use crate::judged::{at_token, unless};
use crate::names::Names;
use crate::problem::{Problem, What};
use justfile_token::Token;
use justfile_vocabulary::ListFeature;

/// Whether a recipe may be run as a script, by a setting here or in another file.
fn may_be_script(rules: Rules, shell: bool) -> bool
    ensures { result ≡ may_be_script rules shell }
{
    !shell && (rules.default_script || rules.open)
}

/// Whether the file defines a function with the name that a token has.
fn has_function<'src>(names: &Names<'src>, token: Token<'src>) -> bool
    ensures { result ≡ has_function (known names.now) token.entry }
{
    names.first(Space::Functions, 0, token.lexeme()).is_some()
}

/// Whether a feature may be used: by a setting here or in another file, or since it is a function of
/// the file's own.
fn is_allowed<'src>(
    rules: Rules,
    names: &Names<'src>,
    token: Token<'src>,
    feature: ListFeature,
) -> bool
    ensures { result ≡ is_allowed rules (known names.now) token.entry feature }
{
    rules.lists || rules.open || feature.function() && has_function(names, token)
}

/// Returns what is wrong with a suspect.
pub(crate) fn suspect_problem<'src>(
    rules: Rules,
    names: &Names<'src>,
    suspect: &Suspect<'src>,
) -> Option<Problem<'src>>
    ensures { result ≡ suspect_problem rules (known names.now) suspect.now }
{
    let token = suspect.token;
    match suspect.kind {
        SuspectKind::Blanks { shell } => {
            let problem = at_token(token, What::ExtraLeadingWhitespace);
            unless(may_be_script(rules, shell), problem)
        }
        SuspectKind::ListFeature(feature) => {
            let problem = at_token(token, What::ListFeature(feature));
            unless(is_allowed(rules, names, token, feature), problem)
        }
        SuspectKind::MappedDependency => {
            unless(
                rules.lists || rules.open,
                at_token(token, What::MappedDependency),
            )
        }
        SuspectKind::ScriptAttribute { attribute, shell } => {
            let what = What::InvalidShellRecipeAttribute { attribute };
            unless(may_be_script(rules, shell), at_token(token, what))
        }
        SuspectKind::Sigils { shell } => {
            let problem = at_token(token, What::GuardAndInfallibleSigil);
            unless(!rules.guards || may_be_script(rules, shell), problem)
        }
    }
}
