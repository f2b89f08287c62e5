//! The problems of a file.
ghost use Rattle.std.specs.Prelude.{◌≡◌, ◌++◌, [], IfOk, IsPermutation, OnOk, option_to_list};
ghost use Rattle.std.specs.List.Sorted.{IsNonDecreasingBy};
ghost use Rattle.justfile_problems.specs.Names.{known};
ghost use Rattle.justfile_problems.specs.Overridden.{is_overridden_in};
ghost use Rattle.justfile_problems.specs.Problems.{all_problems, definition_problems, problems_within, suspect_problems, use_problems};

use crate::definitions::definition_problem;
use crate::facts::{Definition, Rules, Suspect, Use};
use crate::names::Names;
use crate::overridden::Overridden;
use crate::problem::Problem;
use crate::suspects::suspect_problem;
use crate::uses::use_problem;
use std::alloc::{AllocError, Global};

/// Returns all that is wrong with the names of a file and with its suspects, in the order of the text.
///
/// # Errors
///
/// `AllocError` if memory runs out.
pub fn problems<'src>(
    alloc: Global,
    rules: Rules,
    definitions: &[Definition<'src>],
    uses: &[Use<'src>],
    suspects: &[Suspect<'src>],
) -> Result<Vec<Problem<'src>>, AllocError>
    ensures all { IfOk result (λ found. IsPermutation
        (all_problems rules definitions.now uses.now suspects.now) found.items) }
    ensures in_order { IfOk result
        (λ found. IsNonDecreasingBy (λ p. p.token.offset) found.items) }
{
    let overridden = Overridden::of(alloc, &[], definitions)?;
    problems_alone(alloc, rules, &overridden, definitions, uses, suspects)
}

/// Returns the problems of a file with these definitions that is alone. Of uses in items that are
/// `overridden` nothing is said.
pub(crate) fn problems_alone<'src>(
    alloc: Global,
    rules: Rules,
    overridden: &Overridden,
    definitions: &[Definition<'src>],
    uses: &[Use<'src>],
    suspects: &[Suspect<'src>],
) -> Result<Vec<Problem<'src>>, AllocError>
    ensures all { IfOk result (λ found. IsPermutation (problems_within rules
        (is_overridden_in overridden.now) [] definitions.now uses.now suspects.now) found.items) }
    ensures in_order { IfOk result
        (λ found. IsNonDecreasingBy (λ p. p.token.offset) found.items) }
{
    let names = Names::of(alloc, definitions)?;
    let mut found = Vec::new(alloc);
    push_of_definitions(rules, &names, definitions, &mut found)?;
    push_of_uses(rules, &names, overridden, uses, &mut found)?;
    push_of_suspects(rules, &names, suspects, &mut found)?;
    found.sort_by_key(|problem| problem.token.offset)?;
    Ok(found)
}

/// Appends what is wrong with definitions.
#[tactic(auto, using(std::proofs::lemmas::List::flat_map_more, std::proofs::lemmas::List::take_more))]
pub(crate) fn push_of_definitions<'src>(
    rules: Rules,
    names: &Names<'src>,
    definitions: &[Definition<'src>],
    found: &mut Vec<Problem<'src>>,
) -> Result<(), AllocError>
    ensures { OnOk result (found.new.items
        ≡ found.old.items ++ definition_problems rules (known names.now) definitions.now) }
{
    for definition in definitions {
        push(definition_problem(rules, names, definition), found)?;
    }
    Ok(())
}

/// Appends what is wrong with uses.
#[tactic(auto, using(std::proofs::lemmas::List::flat_map_more, std::proofs::lemmas::List::take_more))]
pub(crate) fn push_of_uses<'src>(
    rules: Rules,
    names: &Names<'src>,
    overridden: &Overridden,
    uses: &[Use<'src>],
    found: &mut Vec<Problem<'src>>,
) -> Result<(), AllocError>
    ensures { OnOk result (found.new.items ≡ found.old.items
        ++ use_problems rules (known names.now) (is_overridden_in overridden.now) uses.now) }
{
    for used in uses {
        push(use_problem(rules, names, overridden, used), found)?;
    }
    Ok(())
}

/// Appends what is wrong with suspects.
#[tactic(auto, using(std::proofs::lemmas::List::flat_map_more, std::proofs::lemmas::List::take_more))]
pub(crate) fn push_of_suspects<'src>(
    rules: Rules,
    names: &Names<'src>,
    suspects: &[Suspect<'src>],
    found: &mut Vec<Problem<'src>>,
) -> Result<(), AllocError>
    ensures { OnOk result (found.new.items
        ≡ found.old.items ++ suspect_problems rules (known names.now) suspects.now) }
{
    for suspect in suspects {
        push(suspect_problem(rules, names, suspect), found)?;
    }
    Ok(())
}

/// Appends a problem, if there is one.
fn push<'src>(
    problem: Option<Problem<'src>>,
    found: &mut Vec<Problem<'src>>,
) -> Result<(), AllocError>
    ensures { OnOk result (found.new.items ≡ found.old.items ++ option_to_list problem.entry) }
{
    if let Some(problem) = problem {
        found.push(problem)?;
    }
    Ok(())
}
