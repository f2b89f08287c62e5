//! What a language has for a word.
ghost use Rattle.std.specs.Prelude.{◌≡◌, IfOk, IsOkUnless, string_bytes};
ghost use Rattle.std.specs.List.{find};
ghost use Rattle.std.specs.Option.{option_copied};
ghost use Rattle.editor_answers.specs.Names.{Explains, TellsOf, TellsOfWord, description_of, is_told, word_in};

use crate::asked::Asked;
use crate::failure::Failure;
use editor_language::{Choices, Language, Mention, Span};
use editor_messages::{Answer, Completion, Hover};
use justfile_lines::Position;
use std::alloc::{AllocError, Global};

/// Returns what a language has for the word at a position: what it is and what it is for, as when it
/// is to be written there.
#[tactic(auto, using(crate::proofs::Told::explains))]
pub(crate) fn explain<L: Language>(
    alloc: Global,
    language: &L,
    asked: &Asked<'_>,
    mentions: &[Mention],
    position: Position,
) -> Result<Answer, Failure>
    ensures ok { IfOk result (Explains asked.now.shown.encoding asked.now.text.now mentions.now
        position L.completed) }
    ensures failed { IsOkUnless result Failure.Memory }
{
    let offset = asked.offset(position);
    let around = language.completions(alloc, asked.text, mentions, offset)?;
    let choices = language.completions(alloc, asked.text, mentions, around.span.end)?;
    Ok(told(alloc, asked, &choices)?)
}

/// Returns what there is to tell of the word in the place that choices would take, if it is one.
fn told(alloc: Global, asked: &Asked<'_>, choices: &Choices) -> Result<Answer, AllocError>
    ensures { IfOk result
        (TellsOfWord asked.now.shown.encoding asked.now.text.now choices.now) }
{
    let word = word_in(asked.text, choices.span);
    let choice = first_told(&choices.found, word);
    hover_if(alloc, asked, choices.span, choice)
}

/// Returns the first choice that is a word, and of which there is something to tell.
fn first_told<'a>(choices: &'a [Completion], word: &[u8]) -> Option<&'a Completion>
    ensures { option_copied result ≡ find (is_told word.now) choices.now }
{
    choices.iter().find(|choice| is_told(word, choice))
}

/// Returns what there is to tell of a choice, if there is one.
fn hover_if(
    alloc: Global,
    asked: &Asked<'_>,
    span: Span,
    choice: Option<&Completion>,
) -> Result<Answer, AllocError>
    ensures { IfOk result (TellsOf asked.now.shown.encoding asked.now.text.now span
        (option_copied choice.entry)) }
{
    match choice {
        Some(choice) => hover(alloc, asked, span, choice),
        None => Ok(Answer::Nothing),
    }
}

/// Returns the bytes of a part of a text, which ends with the text if not before.
fn word_in(text: &str, span: Span) -> &[u8]
    ensures { result.now ≡ word_in text.now span }
{
    let bytes = text.as_bytes();
    let end = span.end.min(bytes.len());
    let start = span.start.min(end);
    &bytes[start..end]
}

/// Whether this is the word that can be written, and there is something to tell of it.
fn is_told(word: &[u8], choice: &Completion) -> bool
    ensures { result ≡ is_told word.now choice.now }
{
    choice.label.as_bytes() == word && choice.documentation.len() > 0
}

/// Returns what a choice is and what it is for.
fn hover(
    alloc: Global,
    asked: &Asked<'_>,
    span: Span,
    choice: &Completion,
) -> Result<Answer, AllocError>
    ensures { IfOk result (TellsOf asked.now.shown.encoding asked.now.text.now span
        (Some choice.now)) }
{
    let range = asked.range(span);
    let text = description(alloc, choice)?;
    Ok(Answer::Hover(Hover { range, text }))
}

/// Returns what a choice is, if that is known, and on the next line what it is for.
fn description(alloc: Global, choice: &Completion) -> Result<String, AllocError>
    ensures { IfOk result (λ text. string_bytes text ≡ description_of choice.now) }
{
    let detail = choice.detail.as_str();
    let documentation = choice.documentation.as_str();
    if detail.len() > 0 {
        format!(in alloc; "{detail}\n{documentation}")
    } else {
        String::from_str(alloc, documentation)
    }
}
