//! The survey of a text.
ghost use Rattle.std.specs.Prelude.{IfOk};
ghost use Rattle.justfile_survey.specs.Surveys.{IsSurvey};

use crate::recovery::survey_parts;
use crate::surveys::Survey;
use crate::whole::{Whole, survey_whole};
use std::alloc::{AllocError, Global};

/// Surveys a text as the root file at this path. If it is a justfile, the survey has its items and
/// no error. Otherwise the first error is the one for which it is rejected; the items, and up to 99
/// more errors, are those of its parts, each from where an item may begin to where the next one may.
///
/// # Errors
///
/// `AllocError` if out of memory.
#[tactic(auto, using(crate::proofs::Found::told_if_ok, crate::proofs::Found::faultless))]
pub fn survey(alloc: Global, path: &str, text: &str) -> Result<Survey, AllocError>
    ensures { IfOk result (IsSurvey path.now text.now) }
{
    match survey_whole(alloc, path, text) {
        Ok(Whole::Justfile(items)) => Ok(Survey {
            items,
            errors: Vec::new(alloc),
        }),
        Ok(Whole::Rejected(error)) => survey_parts(alloc, path, text, error),
        Err(fault) => Err(fault),
    }
}
