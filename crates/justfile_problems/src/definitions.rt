//! What is wrong with a definition.
ghost use Rattle.std.specs.Prelude.{◌≡◌};
ghost use Rattle.justfile_problems.specs.Names.{known};
ghost use Rattle.justfile_problems.specs.Overridden.{is_recipe};
ghost use Rattle.justfile_problems.specs.Problems.{again, against, definition_problem, parameter_again, variables_repeat};

use crate::facts::{Definition, Rules, Space};
use crate::judged::{at, recipes_repeat, unless};
use crate::names::{Names, scope_in, text_in};
use crate::problem::{Problem, What};
use justfile_token::Name;
use justfile_vocabulary::ItemKind;

/// Whether it is the kind of recipes.
pub(crate) fn is_recipe(kind: ItemKind) -> bool
    ensures { result ≡ is_recipe kind }
{
    match kind {
        ItemKind::Recipe => true,
        _ => false,
    }
}

/// Returns what is wrong with a second parameter of a name.
fn parameter_again<'src>(kind: ItemKind, item: Name<'src>, first: Name<'src>) -> What<'src>
    ensures { result ≡ parameter_again kind item.entry first.entry }
{
    match kind {
        ItemKind::Recipe => What::DuplicateParameter {
            recipe: item,
            first,
        },
        _ => What::DuplicateFunctionParameter {
            function: item,
            first,
        },
    }
}

/// Whether a variable may be defined again, here or in another file.
fn variables_repeat(rules: Rules) -> bool
    ensures { result ≡ variables_repeat rules }
{
    rules.duplicate_variables || rules.open
}

/// Returns what is wrong with a second definition in a set of names.
fn again<'src>(
    rules: Rules,
    first: &Definition<'src>,
    second: &Definition<'src>,
) -> Option<Problem<'src>>
    ensures { result ≡ again rules first.now second.now second.now.space }
{
    let redefined = What::Redefinition {
        kind: second.kind,
        first_kind: first.kind,
        first: first.name,
    };
    match second.space {
        Space::Commands => {
            let recipes = is_recipe(first.kind) && is_recipe(second.kind);
            unless(recipes && recipes_repeat(rules), at(second.name, redefined))
        }
        Space::DefaultRecipes => {
            let same = first.name.lexeme() == second.name.lexeme();
            let what = What::DuplicateDefault { first: first.name };
            unless(same && recipes_repeat(rules), at(second.name, what))
        }
        Space::Functions => Some(at(second.name, redefined)),
        Space::Parameters => {
            Some(at(
                second.name,
                parameter_again(second.kind, second.item, first.name),
            ))
        }
        Space::Settings => Some(at(second.name, What::DuplicateSet { first: first.name })),
        Space::Unexports => Some(at(second.name, What::DuplicateUnexport { first: first.name })),
        Space::Variables => {
            let what = What::DuplicateVariable { first: first.name };
            unless(variables_repeat(rules), at(second.name, what))
        }
        Space::Defaults
        | Space::HiddenCommands
        | Space::HiddenFunctions
        | Space::HiddenVariables
        | Space::ExclusiveSettings => None,
    }
}

/// Returns what is wrong with a definition, beside the first one of its name.
fn against<'src>(
    rules: Rules,
    definition: &Definition<'src>,
    first: Option<Definition<'src>>,
) -> Option<Problem<'src>>
    ensures { result ≡ against rules definition.now first.entry }
{
    match first {
        None => None,
        Some(first) => {
            if first.name.token.offset == definition.name.token.offset {
                None
            } else {
                again(rules, &first, definition)
            }
        }
    }
}

/// Returns what is wrong with a definition.
pub(crate) fn definition_problem<'src>(
    rules: Rules,
    names: &Names<'src>,
    definition: &Definition<'src>,
) -> Option<Problem<'src>>
    ensures { result ≡ definition_problem rules (known names.now) definition.now }
{
    let space = definition.space;
    let scope = scope_in(space, definition.item);
    against(
        rules,
        definition,
        names.first(space, scope, text_in(space, definition.name)),
    )
}
