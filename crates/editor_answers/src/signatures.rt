//! What is called where an argument is written.
ghost use Rattle.std.specs.Prelude.{◌≡◌, IfOk, IsOkUnless};
ghost use Rattle.editor_answers.specs.Called.{AnswersSignature, Signs};

use crate::asked::Asked;
use crate::failure::Failure;
use editor_language::Language;
use editor_messages::{Answer, Signature};
use justfile_lines::Position;
use std::alloc::Global;

/// Returns what is called with an argument at a position.
pub(crate) fn signature<L: Language>(
    alloc: Global,
    language: &L,
    asked: &Asked<'_>,
    position: Position,
) -> Result<Answer, Failure>
    ensures ok { IfOk result (Signs L.mentioned L.signed asked.now.shown.encoding
        asked.now.text.now asked.now.analysis.now position) }
    ensures failed { IsOkUnless result Failure.Memory }
{
    let offset = asked.offset(position);
    let mentions = asked.mentions(alloc, language)?;
    let found = language.signature(alloc, asked.text, &mentions, offset)?;
    Ok(answer_of(found))
}

/// Returns the answer that something is called, or that nothing is.
fn answer_of(found: Option<Signature>) -> Answer
    ensures { AnswersSignature found result }
{
    match found {
        Some(signature) => Answer::Signature(signature),
        None => Answer::Nothing,
    }
}
