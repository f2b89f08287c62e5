//! What is wrong with a use.
ghost use Rattle.std.specs.Prelude.{◌≡◌};
ghost use Rattle.justfile_problems.specs.Names.{known};
ghost use Rattle.justfile_problems.specs.Overridden.{is_overridden_in};
ghost use Rattle.justfile_problems.specs.Problems.{by_role, defined, excluded, exported, is_before, is_own, is_seen, is_skipped, may_be_comment, required, use_problem, valued};
ghost use Rattle.justfile_problems.specs.declared.facts.Role.TheVariants.{Function, Variable};

use crate::calls::{aimed, called, depended, missing};
use crate::facts::{Definition, Role, Rules, Space, Use};
use crate::judged::at;
use crate::names::Names;
use crate::overridden::Overridden;
use crate::problem::{Problem, What};
use justfile_builtins::constants::is_constant;
use justfile_token::Name;
use justfile_vocabulary::Keyword;

/// Whether one name is before another one.
fn is_before(first: Name<'_>, name: Name<'_>) -> bool
    ensures { result ≡ is_before first.entry name.entry }
{
    first.token.offset < name.token.offset
}

/// Whether a variable is a parameter of its item, where this is the first one of its name.
fn is_seen(end: Option<usize>, parameter: Option<Definition<'_>>) -> bool
    ensures { result ≡ is_seen end parameter.entry }
{
    match parameter {
        None => false,
        Some(parameter) => match end {
            None => true,
            Some(end) => parameter.name.token.offset < end,
        },
    }
}

/// Returns what is wrong with a variable, beside the parameter of its item and the assignment that
/// have its name.
fn valued<'src>(
    rules: Rules,
    used: &Use<'src>,
    end: Option<usize>,
    hidden: Option<Definition<'src>>,
    parameter: Option<Definition<'src>>,
    assignment: Option<Definition<'src>>,
) -> Option<Problem<'src>>
    ensures { result
        ≡ valued rules used.now end hidden.entry parameter.entry assignment.entry }
{
    if is_seen(end, parameter) || assignment.is_some() || is_constant(used.name.lexeme()) {
        None
    } else {
        missing(rules, hidden, at(used.name, What::UndefinedVariable))
    }
}

/// Whether a use may be in a comment.
fn may_be_comment(rules: Rules, used: &Use<'_>) -> bool
    ensures { result ≡ may_be_comment rules used.now }
{
    used.commented && (rules.ignore_comments || rules.open)
}

/// Whether a use is judged beside its own item alone, also where that is overridden.
fn is_own(role: Role) -> bool
    ensures { result ≡ is_own role }
{
    match role {
        Role::Required => true,
        _ => false,
    }
}

/// Whether nothing is said of a use: it may be in a comment, or its item is overridden.
fn is_skipped(rules: Rules, overridden: &Overridden, used: &Use<'_>) -> bool
    ensures { result ≡ is_skipped rules (is_overridden_in overridden.now) used.now }
{
    may_be_comment(rules, used) || overridden.has(used.item.token.offset) && !is_own(used.role)
}

/// Returns what is wrong with an assignment that is exported, beside what removes its name from the
/// environment.
fn exported<'src>(used: &Use<'src>, unexport: Option<Definition<'src>>) -> Option<Problem<'src>>
    ensures { result ≡ exported used.now unexport.entry }
{
    match unexport {
        None => None,
        Some(first) => Some(at(used.name, What::ExportUnexported { first: first.name })),
    }
}

/// Returns what is wrong with a required parameter, beside the first one of its item with a default.
fn required<'src>(used: &Use<'src>, default: Option<Definition<'src>>) -> Option<Problem<'src>>
    ensures { result ≡ required used.now default.entry }
{
    match default {
        None => None,
        Some(first) => {
            if is_before(first.name, used.name) {
                Some(at(used.name, What::RequiredParameter { first: first.name }))
            } else {
                None
            }
        }
    }
}

/// Returns what is wrong with a setting that excludes another one, beside that one.
fn excluded<'src>(
    used: &Use<'src>,
    own: Keyword,
    other: Keyword,
    setting: Option<Definition<'src>>,
) -> Option<Problem<'src>>
    ensures { result ≡ excluded used.now own other setting.entry }
{
    match setting {
        None => None,
        Some(first) => {
            if is_before(first.name, used.name) {
                let what = What::IncompatibleSettings {
                    own,
                    other,
                    first: first.name,
                };
                Some(at(used.name, what))
            } else {
                None
            }
        }
    }
}

/// Returns what the file defines as a name.
fn defined<'src>(names: &Names<'src>, space: Space, name: Name<'src>) -> Option<Definition<'src>>
    ensures { result ≡ defined (known names.now) space name.entry }
{
    names.first(space, 0, name.lexeme())
}

/// Returns what is wrong with the use of a variable.
fn variable_problem<'src>(
    rules: Rules,
    names: &Names<'src>,
    used: &Use<'src>,
    end: Option<usize>,
) -> Option<Problem<'src>>
    ensures { result ≡ by_role rules (known names.now) used.now (Variable end) }
{
    let scope = used.item.token.offset;
    let parameter = names.first(Space::Parameters, scope, used.name.lexeme());
    let assignment = defined(names, Space::Variables, used.name);
    valued(
        rules,
        used,
        end,
        defined(names, Space::HiddenVariables, used.name),
        parameter,
        assignment,
    )
}

/// Returns what is wrong with a call.
fn call_problem<'src>(
    rules: Rules,
    names: &Names<'src>,
    used: &Use<'src>,
    found: usize,
) -> Option<Problem<'src>>
    ensures { result ≡ by_role rules (known names.now) used.now (Function found) }
{
    let definition = defined(names, Space::Functions, used.name);
    called(
        rules,
        used,
        found,
        defined(names, Space::HiddenFunctions, used.name),
        definition,
    )
}

/// Returns what is wrong with a use.
pub(crate) fn use_problem<'src>(
    rules: Rules,
    names: &Names<'src>,
    overridden: &Overridden,
    used: &Use<'src>,
) -> Option<Problem<'src>>
    ensures { result
        ≡ use_problem rules (known names.now) (is_overridden_in overridden.now) used.now }
{
    if is_skipped(rules, overridden, used) {
        None
    } else {
        by_role(rules, names, used)
    }
}

/// Returns what is wrong with a use of which something may be said.
fn by_role<'src>(rules: Rules, names: &Names<'src>, used: &Use<'src>) -> Option<Problem<'src>>
    ensures { result ≡ by_role rules (known names.now) used.now used.now.role }
{
    match used.role {
        Role::Dependency(found) => {
            let hidden = defined(names, Space::HiddenCommands, used.name);
            depended(
                rules,
                used,
                found,
                hidden,
                defined(names, Space::Commands, used.name),
            )
        }
        Role::Exclusive { own, other } => {
            excluded(
                used,
                own,
                other,
                names.first(Space::ExclusiveSettings, 0, other.lexeme()),
            )
        }
        Role::Export => exported(used, defined(names, Space::Unexports, used.name)),
        Role::Function(found) => call_problem(rules, names, used, found),
        Role::Required => {
            required(
                used,
                names.first(Space::Defaults, used.item.token.offset, ""),
            )
        }
        Role::Target => {
            let hidden = defined(names, Space::HiddenCommands, used.name);
            aimed(
                rules,
                used,
                hidden,
                defined(names, Space::Commands, used.name),
            )
        }
        Role::Variable(end) => variable_problem(rules, names, used, end),
    }
}
