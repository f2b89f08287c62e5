//! The names that could be meant by an unknown one.
ghost use Rattle.std.specs.Prelude.{◌≡◌, ◌++◌, IfOk, OnOk, map, option_to_list, string_bytes};
ghost use Rattle.std.specs.List.{find, flat_map};
ghost use Rattle.std.specs.Option.{option_copied};
ghost use Rattle.justfile_findings.specs.Suggestions.{built_in, could_be, is_at, is_before_end, is_parameter, is_target, meant, names_for, texts, unknown_in};

use justfile_builtins::constants::CONSTANTS;
use justfile_builtins::functions::{Arguments, FUNCTIONS};
use justfile_problems::{Definition, Problem, Role, Space, Use, What};
use justfile_vocabulary::ItemKind;
use std::alloc::{AllocError, Global};

/// Returns the name that is unknown, if a problem is that.
pub(crate) fn unknown_in<'src>(problem: &Problem<'src>) -> Option<&'src str>
    ensures { option_copied result ≡ unknown_in problem.now }
{
    match problem.what {
        What::UndefinedFunction | What::UndefinedVariable => Some(problem.token.lexeme()),
        What::UnknownAliasTarget { target } => Some(target.lexeme()),
        What::UnknownDependency { unknown, .. } => Some(unknown.lexeme()),
        _ => None,
    }
}

/// Whether a use is at the token of a problem.
fn is_at(problem: &Problem<'_>, used: &Use<'_>) -> bool
    ensures { result ≡ is_at problem.now used.now }
{
    used.name.token.offset == problem.token.offset
}

/// Whether a use as this sees what is defined at an offset: in a default only what is before it.
fn is_before_end(role: Role, offset: usize) -> bool
    ensures { result ≡ is_before_end role offset }
{
    match role {
        Role::Variable(Some(end)) => offset < end,
        _ => true,
    }
}

/// Whether a definition is of a parameter of the item of a use, which the use sees.
fn is_parameter(used: Option<&Use<'_>>, definition: &Definition<'_>) -> bool
    ensures { result ≡ is_parameter (option_copied used.entry) definition.now }
{
    match used {
        None => false,
        Some(used) => {
            definition.item.token.offset == used.item.token.offset
                && is_before_end(used.role, definition.name.token.offset)
        }
    }
}

/// Whether a definition is of a recipe or an alias, other than the one at an offset.
fn is_target(definition: &Definition<'_>, offset: usize) -> bool
    ensures { result ≡ is_target definition.now offset }
{
    match (definition.space, definition.kind) {
        (Space::Commands, ItemKind::Alias | ItemKind::Recipe) => {
            definition.item.token.offset != offset
        }
        _ => false,
    }
}

/// Whether the name that a problem is about could be meant to be this one. The problem is at a use, if
/// it is at one.
fn could_be(problem: &Problem<'_>, used: Option<&Use<'_>>, definition: &Definition<'_>) -> bool
    ensures { result ≡ could_be problem.now (option_copied used.entry) definition.now }
{
    match problem.what {
        What::UndefinedFunction => definition.space == Space::Functions,
        What::UndefinedVariable => match definition.space {
            Space::Parameters => is_parameter(used, definition),
            Space::Variables => true,
            _ => false,
        },
        What::UnknownAliasTarget { .. } => is_target(definition, problem.token.offset),
        What::UnknownDependency { item, .. } => is_target(definition, item.token.offset),
        _ => false,
    }
}

/// Returns the name of a definition, if it could be meant.
fn meant<'src>(
    problem: &Problem<'src>,
    used: Option<&Use<'src>>,
    definition: &Definition<'src>,
) -> Option<&'src str>
    ensures { option_copied result
        ≡ meant problem.now (option_copied used.entry) definition.now }
{
    if could_be(problem, used, definition) {
        Some(definition.name.lexeme())
    } else {
        None
    }
}

/// Appends a name, if there is one.
fn push<'src>(name: Option<&'src str>, names: &mut Vec<&'src str>) -> Result<(), AllocError>
    ensures { OnOk result (texts names.new.items
        ≡ texts names.old.items ++ option_to_list (option_copied name.entry)) }
{
    if let Some(name) = name {
        names.push(name)?;
    }
    Ok(())
}

/// Appends the names of definitions that could be meant.
#[tactic(auto, using(std::proofs::lemmas::List::flat_map_more, std::proofs::lemmas::List::take_more))]
fn push_defined<'src>(
    problem: &Problem<'src>,
    used: Option<&Use<'src>>,
    definitions: &[Definition<'src>],
    names: &mut Vec<&'src str>,
) -> Result<(), AllocError>
    ensures { OnOk result (texts names.new.items ≡ texts names.old.items
        ++ flat_map (λ d. option_to_list (meant problem.now (option_copied used.entry) d))
        definitions.now) }
{
    for definition in definitions {
        push(meant(problem, used, definition), names)?;
    }
    Ok(())
}

/// Appends the names of functions.
fn push_functions<'src>(
    functions: &[(&'static str, Arguments)],
    names: &mut Vec<&'src str>,
) -> Result<(), AllocError>
    ensures { OnOk result (texts names.new.items
        ≡ texts names.old.items ++ map (λ f. f.0.now) functions.now) }
{
    for function in functions {
        names.push(function.0)?;
    }
    Ok(())
}

/// Appends constants.
fn push_constants<'src>(
    constants: &[&'static str],
    names: &mut Vec<&'src str>,
) -> Result<(), AllocError>
    ensures { OnOk result (texts names.new.items
        ≡ texts names.old.items ++ map (λ c. c.now) constants.now) }
{
    for constant in constants {
        names.push(*constant)?;
    }
    Ok(())
}

/// Appends what is built in and could be meant.
fn push_built_in<'src>(
    problem: &Problem<'src>,
    names: &mut Vec<&'src str>,
) -> Result<(), AllocError>
    ensures { OnOk result (texts names.new.items
        ≡ texts names.old.items ++ built_in problem.now.what) }
{
    match problem.what {
        What::UndefinedFunction => push_functions(&FUNCTIONS, names),
        What::UndefinedVariable => push_constants(&CONSTANTS, names),
        _ => Ok(()),
    }
}

/// Returns the use that a problem is at, if it is at one.
fn use_of<'a, 'src>(problem: &Problem<'src>, uses: &'a [Use<'src>]) -> Option<&'a Use<'src>>
    ensures { option_copied result ≡ find (is_at problem.now) uses.now }
{
    uses.iter().find(|used| is_at(problem, used))
}

/// Returns the names that could be meant by the name that a problem is about, if it is unknown: those
/// that the file defines, and then those that are built in.
pub(crate) fn names_for<'src>(
    alloc: Global,
    definitions: &[Definition<'src>],
    uses: &[Use<'src>],
    problem: &Problem<'src>,
) -> Result<Vec<&'src str>, AllocError>
    ensures { IfOk result (λ names.
        texts names.items ≡ names_for definitions.now uses.now problem.now) }
{
    let used = use_of(problem, uses);
    let mut names = Vec::new(alloc);
    push_defined(problem, used, definitions, &mut names)?;
    push_built_in(problem, &mut names)?;
    Ok(names)
}
