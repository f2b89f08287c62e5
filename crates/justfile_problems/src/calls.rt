//! What is wrong with the use of a recipe or a function: that there is none, or the number of
//! arguments.
ghost use Rattle.std.specs.Prelude.{◌≡◌};
ghost use Rattle.justfile_problems.specs.Problems.{aimed, built_in, called, counted, depended, fits, is_within, miscalled, missing};

use crate::facts::{Definition, Rules, Use};
use crate::judged::{at, recipes_repeat, unless};
use crate::problem::{Problem, What};
use justfile_builtins::functions::{Arguments, function_arguments};
use justfile_vocabulary::ItemKind;

/// Whether a number of arguments is at most this.
fn is_within(found: usize, most: Option<usize>) -> bool
    ensures { result ≡ is_within found most }
{
    match most {
        None => true,
        Some(most) => !(most < found),
    }
}

/// Whether so many arguments are taken.
fn fits(takes: Arguments, found: usize) -> bool
    ensures { result ≡ fits takes found }
{
    !(found < takes.least) && is_within(found, takes.most)
}

/// Returns the problem, unless another file or another system may define the name.
pub(crate) fn missing<'src>(
    rules: Rules,
    hidden: Option<Definition<'src>>,
    problem: Problem<'src>,
) -> Option<Problem<'src>>
    ensures { result ≡ missing rules hidden.entry problem.entry }
{
    unless(rules.open || hidden.is_some(), problem)
}

/// Returns the problem, unless all is right or another file or another system may define the name.
fn counted<'src>(
    rules: Rules,
    hidden: Option<Definition<'src>>,
    right: bool,
    problem: Problem<'src>,
) -> Option<Problem<'src>>
    ensures { result ≡ counted rules hidden.entry right problem.entry }
{
    if right {
        None
    } else {
        missing(rules, hidden, problem)
    }
}

/// Returns what is wrong with the number of arguments of a call.
fn miscalled<'src>(
    rules: Rules,
    used: &Use<'src>,
    found: usize,
    hidden: Option<Definition<'src>>,
    takes: Arguments,
) -> Option<Problem<'src>>
    ensures { result ≡ miscalled rules used.now found hidden.entry takes }
{
    let what = What::FunctionCount { found, takes };
    counted(rules, hidden, fits(takes, found), at(used.name, what))
}

/// Returns what is wrong with a call of a function that the file doesn't define.
fn built_in<'src>(
    rules: Rules,
    used: &Use<'src>,
    found: usize,
    hidden: Option<Definition<'src>>,
    takes: Option<Arguments>,
) -> Option<Problem<'src>>
    ensures { result ≡ built_in rules used.now found hidden.entry takes }
{
    match takes {
        None => missing(rules, hidden, at(used.name, What::UndefinedFunction)),
        Some(takes) => miscalled(rules, used, found, hidden, takes),
    }
}

/// Returns what is wrong with a call, beside the definition of its function.
pub(crate) fn called<'src>(
    rules: Rules,
    used: &Use<'src>,
    found: usize,
    hidden: Option<Definition<'src>>,
    definition: Option<Definition<'src>>,
) -> Option<Problem<'src>>
    ensures { result ≡ called rules used.now found hidden.entry definition.entry }
{
    match definition {
        None => built_in(
            rules,
            used,
            found,
            hidden,
            function_arguments(used.name.lexeme()),
        ),
        Some(definition) => miscalled(rules, used, found, hidden, definition.takes),
    }
}

/// Returns what is wrong with a dependency, beside the definition of its name.
pub(crate) fn depended<'src>(
    rules: Rules,
    used: &Use<'src>,
    found: usize,
    hidden: Option<Definition<'src>>,
    definition: Option<Definition<'src>>,
) -> Option<Problem<'src>>
    ensures { result ≡ depended rules used.now found hidden.entry definition.entry }
{
    let what = What::UnknownDependency {
        item: used.item,
        unknown: used.name,
    };
    let unknown = at(used.name, what);
    match definition {
        None => missing(rules, hidden, unknown),
        Some(definition) => match definition.kind {
            ItemKind::Alias => None,
            ItemKind::Recipe => {
                let what = What::DependencyCount {
                    dependency: used.name,
                    found,
                    takes: definition.takes,
                };
                let right = fits(definition.takes, found) || recipes_repeat(rules);
                counted(rules, hidden, right, at(used.name, what))
            }
            _ => missing(rules, hidden, unknown),
        },
    }
}

/// Returns what is wrong with the target of an alias, beside the definition of its name.
pub(crate) fn aimed<'src>(
    rules: Rules,
    used: &Use<'src>,
    hidden: Option<Definition<'src>>,
    definition: Option<Definition<'src>>,
) -> Option<Problem<'src>>
    ensures { result ≡ aimed rules used.now hidden.entry definition.entry }
{
    let unknown = at(used.item, What::UnknownAliasTarget { target: used.name });
    match definition {
        None => missing(rules, hidden, unknown),
        Some(definition) => match definition.kind {
            ItemKind::Alias | ItemKind::Recipe => None,
            _ => missing(rules, hidden, unknown),
        },
    }
}
