//! What kinds of problems and of circles are called, and which other place each is about.
ghost use Rattle.std.specs.Prelude.{◌≡◌, option_map};
ghost use Rattle.justfile_findings.specs.Codes.{circle_code, code_of, next_in, next_of, other_of, placed, span_of};

use editor_language::{OtherPlace, Span};
use justfile_problems::{Circle, Role, Use, What};
use justfile_token::{Name, Token};

/// Returns the name of the kind of error.
pub(crate) fn code_of(what: &What<'_>) -> &'static str
    ensures { result.now ≡ code_of what.now }
{
    match what {
        What::DependencyCount { .. } => "DependencyArgumentCountMismatch",
        What::DuplicateDefault { .. } => "DuplicateDefault",
        What::DuplicateFunctionParameter { .. } => "DuplicateFunctionParameter",
        What::DuplicateParameter { .. } => "DuplicateParameter",
        What::DuplicateSet { .. } => "DuplicateSet",
        What::DuplicateUnexport { .. } => "DuplicateUnexport",
        What::DuplicateVariable { .. } => "DuplicateVariable",
        What::ExportUnexported { .. } => "ExportUnexported",
        What::ExtraLeadingWhitespace => "ExtraLeadingWhitespace",
        What::FunctionCount { .. } => "FunctionArgumentCountMismatch",
        What::GuardAndInfallibleSigil => "GuardAndInfallibleSigil",
        What::IncompatibleSettings { .. } => "IncompatibleSettings",
        What::InvalidShellRecipeAttribute { .. } => "InvalidShellRecipeAttribute",
        What::ListFeature(_) => "ListFeature",
        What::MappedDependency => "MappedDependencyWithoutListsSetting",
        What::Redefinition { .. } => "Redefinition",
        What::RequiredParameter { .. } => "RequiredParameterFollowsDefaultParameter",
        What::UndefinedFunction => "UndefinedFunction",
        What::UndefinedVariable => "UndefinedVariable",
        What::UnknownAliasTarget { .. } => "UnknownAliasTarget",
        What::UnknownDependency { .. } => "UnknownDependency",
    }
}

/// Returns where a token is.
pub(crate) fn span_of(token: &Token<'_>) -> Span
    ensures { result ≡ span_of token.now }
{
    Span {
        start: token.offset,
        end: token.end(),
    }
}

/// Returns the place of a name, and what is there.
fn place(name: &Name<'_>, message: &'static str) -> OtherPlace
    ensures { placed result ≡ (span_of name.now.token, message.now) }
{
    OtherPlace {
        span: span_of(&name.token),
        message,
    }
}

/// Returns the other place that a problem is about, if there is one.
pub(crate) fn other_of(what: &What<'_>) -> Option<OtherPlace>
    ensures { option_map placed result ≡ other_of what.now }
{
    match what {
        What::DuplicateDefault { first } => Some(place(first, "the first default recipe")),
        What::DuplicateFunctionParameter { first, .. }
        | What::DuplicateParameter { first, .. }
        | What::DuplicateVariable { first }
        | What::Redefinition { first, .. } => Some(place(first, "first defined here")),
        What::DuplicateSet { first } => Some(place(first, "first set here")),
        What::DuplicateUnexport { first } => Some(place(first, "first unexported here")),
        What::ExportUnexported { first } => Some(place(first, "unexported here")),
        What::IncompatibleSettings { first, .. } => Some(place(first, "the other setting")),
        What::RequiredParameter { first } => Some(place(first, "the parameter with a default")),
        _ => None,
    }
}

/// Returns the name of the kind of error that a circle is whose first use is this one.
pub(crate) fn circle_code(role: Role) -> &'static str
    ensures { result.now ≡ circle_code role }
{
    match role {
        Role::Dependency(_) => "CircularRecipeDependency",
        _ => "CircularVariableDependency",
    }
}

/// Returns the place that follows in a circle on the one of its error. This is the second use.
fn next_in(circle: &Circle<'_>, second: &Use<'_>) -> OtherPlace
    ensures { placed result ≡ next_in circle.now.first second.now }
{
    match circle.first.role {
        Role::Dependency(_) => place(&circle.first.name, "the next dependency"),
        _ => place(&second.item, "the next variable"),
    }
}

/// Returns the place that follows in a circle on the one of its error, if there is another one.
pub(crate) fn next_of(circle: &Circle<'_>) -> Option<OtherPlace>
    ensures { option_map placed result ≡ next_of circle.now }
{
    match circle.others.first() {
        None => None,
        Some(second) => Some(next_in(circle, second)),
    }
}
