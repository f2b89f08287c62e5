//! The problems of a file that is one of several of a module.
ghost use Rattle.std.specs.Prelude.{◌≡◌, ◌++◌, IfOk, IsPermutation, OnOk};
ghost use Rattle.std.specs.List.{flat_map, list_any};
ghost use Rattle.std.specs.List.Sorted.{IsNonDecreasingBy};
ghost use Rattle.justfile_problems.specs.Names.{first};
ghost use Rattle.justfile_problems.specs.Overridden.{is_overridden_in};
ghost use Rattle.justfile_problems.specs.Problems.{definition_problems, is_shared, joined, problems_within, shared_of, within};

use crate::facts::{Definition, Rules, Space, Suspect, Use};
use crate::listing::{problems_alone, push_of_definitions, push_of_suspects, push_of_uses};
use crate::names::Names;
use crate::overridden::Overridden;
use crate::problem::Problem;
use std::alloc::{AllocError, Global};

/// Returns what files allow together. `may_be_more` is whether other ones may define names and set
/// settings.
pub fn joined(rules: &[Rules], may_be_more: bool) -> Rules
    ensures { result ≡ joined may_be_more rules.now }
{
    Rules {
        default_script: makes_scripts(rules),
        duplicate_recipes: repeats_recipes(rules),
        duplicate_variables: repeats_variables(rules),
        guards: has_guards(rules),
        ignore_comments: ignores_comments(rules),
        lists: has_lists(rules),
        open: may_be_more,
    }
}

/// Whether recipes are run as scripts by one of these rules.
fn makes_scripts(rules: &[Rules]) -> bool
    ensures { result ≡ list_any (λ r. r.default_script) rules.now }
{
    rules.iter().any(|rules| rules.default_script)
}

/// Whether recipes may be defined twice by one of these rules.
fn repeats_recipes(rules: &[Rules]) -> bool
    ensures { result ≡ list_any (λ r. r.duplicate_recipes) rules.now }
{
    rules.iter().any(|rules| rules.duplicate_recipes)
}

/// Whether variables may be defined twice by one of these rules.
fn repeats_variables(rules: &[Rules]) -> bool
    ensures { result ≡ list_any (λ r. r.duplicate_variables) rules.now }
{
    rules.iter().any(|rules| rules.duplicate_variables)
}

/// Whether `?` is a sigil by one of these rules.
fn has_guards(rules: &[Rules]) -> bool
    ensures { result ≡ list_any (λ r. r.guards) rules.now }
{
    rules.iter().any(|rules| rules.guards)
}

/// Whether lines that begin with `#` are comments by one of these rules.
fn ignores_comments(rules: &[Rules]) -> bool
    ensures { result ≡ list_any (λ r. r.ignore_comments) rules.now }
{
    rules.iter().any(|rules| rules.ignore_comments)
}

/// Whether values can be lists by one of these rules.
fn has_lists(rules: &[Rules]) -> bool
    ensures { result ≡ list_any (λ r. r.lists) rules.now }
{
    rules.iter().any(|rules| rules.lists)
}

/// Whether the files of a module share the names of a set.
fn is_shared(space: Space) -> bool
    ensures { result ≡ is_shared space }
{
    match space {
        Space::Defaults | Space::ExclusiveSettings | Space::Parameters => false,
        _ => true,
    }
}

/// Appends a definition, if the files of a module share it.
fn push_shared<'src>(
    definition: &Definition<'src>,
    found: &mut Vec<Definition<'src>>,
) -> Result<(), AllocError>
    ensures { OnOk result (found.new.items ≡ found.old.items ++ shared_of definition.now) }
{
    if is_shared(definition.space) {
        found.push(*definition)?;
    }
    Ok(())
}

/// Appends the definitions that the files of a module share.
#[tactic(auto, using(std::proofs::lemmas::List::flat_map_more, std::proofs::lemmas::List::take_more))]
fn push_all_shared<'src>(
    all: &[Definition<'src>],
    found: &mut Vec<Definition<'src>>,
) -> Result<(), AllocError>
    ensures { OnOk result (found.new.items ≡ found.old.items ++ flat_map shared_of all.now) }
{
    for definition in all {
        push_shared(definition, found)?;
    }
    Ok(())
}

/// Returns what a file of a module knows, which has these definitions of its own.
fn within<'src>(
    alloc: Global,
    all: &[Definition<'src>],
    own: &[Definition<'src>],
) -> Result<Vec<Definition<'src>>, AllocError>
    ensures { IfOk result (λ found. found.items ≡ within all.now own.now) }
{
    let mut found = Vec::new(alloc);
    push_all_shared(all, &mut found)?;
    found.extend_from_slice(own)?;
    Ok(found)
}

/// Appends what is wrong with the definitions of a file among themselves.
fn push_of_own<'src>(
    alloc: Global,
    rules: Rules,
    own: &[Definition<'src>],
    found: &mut Vec<Problem<'src>>,
) -> Result<(), AllocError>
    ensures { OnOk result (found.new.items
        ≡ found.old.items ++ definition_problems rules (first own.now) own.now) }
{
    let names = Names::of(alloc, own)?;
    push_of_definitions(rules, &names, own, found)
}

/// Returns all that is wrong with a file of a module, in the order of the text. The module's files
/// define `all`, and it defines `own` itself, which is judged by itself: a definition in another file
/// is none that a name is defined twice by. Where several files define a name, the first one in `all`
/// counts. Of uses in items that are `overridden`, in the file or by other ones, nothing is said. For a
/// file alone `all` may be empty.
///
/// # Errors
///
/// `AllocError` if memory runs out.
pub fn problems_within<'src>(
    alloc: Global,
    rules: Rules,
    overridden: &Overridden,
    all: &[Definition<'src>],
    own: &[Definition<'src>],
    uses: &[Use<'src>],
    suspects: &[Suspect<'src>],
) -> Result<Vec<Problem<'src>>, AllocError>
    ensures all { IfOk result (λ found. IsPermutation (problems_within rules
        (is_overridden_in overridden.now) all.now own.now uses.now suspects.now) found.items) }
    ensures in_order { IfOk result
        (λ found. IsNonDecreasingBy (λ p. p.token.offset) found.items) }
{
    match all {
        [] => problems_alone(alloc, rules, overridden, own, uses, suspects),
        [_, ..] => problems_beside(alloc, rules, overridden, all, own, uses, suspects),
    }
}

/// Returns the same, where the file isn't alone.
fn problems_beside<'src>(
    alloc: Global,
    rules: Rules,
    overridden: &Overridden,
    all: &[Definition<'src>],
    own: &[Definition<'src>],
    uses: &[Use<'src>],
    suspects: &[Suspect<'src>],
) -> Result<Vec<Problem<'src>>, AllocError>
    ensures all { IfOk result (λ found. IsPermutation (problems_within rules
        (is_overridden_in overridden.now) all.now own.now uses.now suspects.now) found.items) }
    ensures in_order { IfOk result
        (λ found. IsNonDecreasingBy (λ p. p.token.offset) found.items) }
{
    let mut found = Vec::new(alloc);
    push_of_own(alloc, rules, own, &mut found)?;
    let known = within(alloc, all, own)?;
    let names = Names::of(alloc, &known)?;
    push_of_uses(rules, &names, overridden, uses, &mut found)?;
    push_of_suspects(rules, &names, suspects, &mut found)?;
    found.sort_by_key(|problem| problem.token.offset)?;
    Ok(found)
}
