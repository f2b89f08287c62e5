//! What can be run as it is.
ghost use Rattle.std.specs.Prelude.{◌≡◌, IfOk, IsOkUnless, map};
ghost use Rattle.editor_answers.specs.Runs.{RunsIn, seen, to_see};

use crate::asked::Asked;
use crate::failure::Failure;
use editor_language::{Language, Run};
use editor_messages::{Answer, Lens};
use std::alloc::{AllocError, Global};

/// Returns what can be run as it is.
pub(crate) fn lenses<L: Language>(
    alloc: Global,
    language: &L,
    asked: &Asked<'_>,
) -> Result<Answer, Failure>
    ensures ok { IfOk result (RunsIn L.runs asked.now.shown.encoding asked.now.text.now
        asked.now.analysis.now) }
    ensures failed { IsOkUnless result Failure.Memory }
{
    let runs = language.runs(alloc, asked.text, asked.analysis)?;
    let found = lenses_of(alloc, asked, &runs)?;
    Ok(Answer::Lenses(found))
}

/// Returns where names of what can be run are.
fn lenses_of(alloc: Global, asked: &Asked<'_>, runs: &[Run]) -> Result<Vec<Lens>, AllocError>
    ensures { IfOk result (λ found. map seen found.items
        ≡ map (to_see asked.now.shown.encoding asked.now.text.now) runs.now) }
{
    let mut found = Vec::new(alloc);
    for run in runs {
        found.push(lens(asked, run)?)?;
    }
    Ok(found)
}

/// Returns where the name of something that can be run is.
fn lens(asked: &Asked<'_>, run: &Run) -> Result<Lens, AllocError>
    ensures { IfOk result (λ made. seen made
        ≡ to_see asked.now.shown.encoding asked.now.text.now run.now) }
{
    let name = run.name.clone()?;
    let range = asked.range(run.span);
    Ok(Lens { range, name })
}
