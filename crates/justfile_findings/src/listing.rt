//! What is told of problems and of circles.
ghost use Rattle.std.specs.Prelude.{◌≡◌, IfOk};
ghost use Rattle.std.specs.List.{AllZip};
ghost use Rattle.justfile_findings.specs.Findings.{AreFindings, AreOfProblems, Reports, Suggests, TellsCircle};

use crate::near::suggestion;
use crate::told::{circle_told, told};
use editor_language::Finding;
use justfile_problems::{Circle, Definition, Problem, Use};
use std::alloc::{AllocError, Global};

/// For how many problems of a file a name is looked for that may be meant. Each takes a comparison with
/// all names of the file, and who has more problems looks at the first ones.
pub(crate) const SUGGESTED: usize = 16;

/// Returns what an editor is told of problems and circles of a file, in the order of the text. The file
/// has these definitions and uses of names.
///
/// # Errors
///
/// `AllocError` if memory runs out.
pub fn findings<'src>(
    alloc: Global,
    problems: &[Problem<'src>],
    circles: &[Circle<'src>],
    definitions: &[Definition<'src>],
    uses: &[Use<'src>],
) -> Result<Vec<Finding>, AllocError>
    ensures { IfOk result (λ found.
        AreFindings definitions.now uses.now problems.now circles.now found.items) }
{
    let mut found = of_problems(alloc, problems, definitions, uses)?;
    let mut others = of_circles(alloc, circles)?;
    found.append(&mut others)?;
    found.sort_by_key(|finding| finding.span.start)?;
    Ok(found)
}

/// Returns what is told of circles.
#[tactic(auto, using(crate::proofs::AllTold::one_more))]
fn of_circles(alloc: Global, circles: &[Circle<'_>]) -> Result<Vec<Finding>, AllocError>
    ensures { IfOk result (λ found. AllZip TellsCircle circles.now found.items) }
{
    let mut found = Vec::new(alloc);
    for circle in circles {
        let finding = circle_told(alloc, circle)?;
        found.push(finding)?;
    }
    Ok(found)
}

/// Returns what is told of problems, in their order.
#[tactic(auto, using(crate::proofs::AllTold::both))]
fn of_problems<'src>(
    alloc: Global,
    problems: &[Problem<'src>],
    definitions: &[Definition<'src>],
    uses: &[Use<'src>],
) -> Result<Vec<Finding>, AllocError>
    ensures { IfOk result (λ found.
        AreOfProblems definitions.now uses.now problems.now found.items) }
{
    let (first, others) = problems.split_at(SUGGESTED.min(problems.len()));
    let mut found = suggesting(alloc, definitions, uses, first)?;
    let mut rest = plain(alloc, others)?;
    found.append(&mut rest)?;
    Ok(found)
}

/// Returns what is told of problems, with the names that may be meant.
#[tactic(auto, using(crate::proofs::AllTold::one_more))]
fn suggesting<'src>(
    alloc: Global,
    definitions: &[Definition<'src>],
    uses: &[Use<'src>],
    problems: &[Problem<'src>],
) -> Result<Vec<Finding>, AllocError>
    ensures { IfOk result (λ found. AllZip (Suggests definitions.now uses.now)
        problems.now found.items) }
{
    let mut found = Vec::new(alloc);
    for problem in problems {
        let finding = suggested(alloc, definitions, uses, problem)?;
        found.push(finding)?;
    }
    Ok(found)
}

/// Returns what is told of a problem, with the name that may be meant.
#[tactic(auto, using(crate::proofs::AllTold::renamed))]
fn suggested<'src>(
    alloc: Global,
    definitions: &[Definition<'src>],
    uses: &[Use<'src>],
    problem: &Problem<'src>,
) -> Result<Finding, AllocError>
    ensures { IfOk result (Suggests definitions.now uses.now problem.now) }
{
    let suggestion = suggestion(alloc, definitions, uses, problem)?;
    told(alloc, problem, suggestion)
}

/// Returns what is told of problems, without names that may be meant.
#[tactic(auto, using(crate::proofs::AllTold::one_more))]
fn plain(alloc: Global, problems: &[Problem<'_>]) -> Result<Vec<Finding>, AllocError>
    ensures { IfOk result (λ found. AllZip Reports problems.now found.items) }
{
    let mut found = Vec::new(alloc);
    for problem in problems {
        let finding = told(alloc, problem, None)?;
        found.push(finding)?;
    }
    Ok(found)
}
