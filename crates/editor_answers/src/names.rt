//! Where a name is defined and used, and edits that replace it.
ghost use Rattle.std.specs.Prelude.{◌≡◌, ◌∷◌, [], IfErr, IfOk, IsOkUnless, filter, map};
ghost use Rattle.std.specs.Option.{option_copied};
ghost use Rattle.editor_answers.specs.Answers.{FailsFor};
ghost use Rattle.editor_answers.specs.Names.{AnswersHover, AnswersPlaces, Bounds, Describes, IsDefinedAt, IsNameAt, Lights, Locates, definitions_of, if_defined, is_wanted, likes_of, mentions_of};
ghost use Rattle.editor_answers.specs.Ranges.{highlight_of, range_of};
ghost use Rattle.editor_answers.specs.Renames.{Declines, Renames};

use crate::asked::Asked;
use crate::explained::explain;
use crate::failure::Failure;
use crate::renames::replaced;
use editor_language::{Language, Mention, Span, definition_of, is_like, mention_at};
use editor_messages::{Answer, ErrorCode, Highlight, Hover};
use justfile_lines::Position;
use std::alloc::{AllocError, Global};

/// Returns where the name at a position is defined.
#[tactic(auto, using(crate::proofs::Found::located))]
pub(crate) fn definition(
    alloc: Global,
    asked: &Asked<'_>,
    mentions: &[Mention],
    position: Position,
) -> Result<Answer, Failure>
    ensures ok { IfOk result (Locates asked.now.shown.encoding asked.now.text.now mentions.now
        position asked.now.uri.now (definitions_of mentions.now)) }
    ensures failed { IsOkUnless result Failure.Memory }
{
    let name = name_at(asked, mentions, position);
    let spans = definition_spans(alloc, mentions, name)?;
    places(alloc, asked, &spans)
}

/// Returns where a name is first defined, if there is a name and it is defined.
#[tactic(auto, using(crate::proofs::Found::defined_span, crate::proofs::Found::no_span))]
fn definition_spans(
    alloc: Global,
    mentions: &[Mention],
    name: Option<&Mention>,
) -> Result<Vec<Span>, AllocError>
    ensures { IfOk result (λ spans. spans.items
        ≡ map (λ m. m.span) (definitions_of mentions.now (option_copied name.entry))) }
{
    let Some(name) = name else {
        return Ok(Vec::new(alloc));
    };
    match definition_of(mentions, name) {
        Some(definition) => one_span(alloc, definition.span),
        None => Ok(Vec::new(alloc)),
    }
}

/// Returns a list of a span.
fn one_span(alloc: Global, span: Span) -> Result<Vec<Span>, AllocError>
    ensures { IfOk result (λ spans. spans.items ≡ span ∷ []) }
{
    let mut spans = Vec::new(alloc);
    spans.push(span)?;
    Ok(spans)
}

/// Returns where the name at a position is used, and where it is defined too if all are asked for.
#[tactic(auto, using(crate::proofs::Found::located))]
pub(crate) fn references(
    alloc: Global,
    asked: &Asked<'_>,
    mentions: &[Mention],
    position: Position,
    all: bool,
) -> Result<Answer, Failure>
    ensures ok { IfOk result (Locates asked.now.shown.encoding asked.now.text.now mentions.now
        position asked.now.uri.now (mentions_of all mentions.now)) }
    ensures failed { IsOkUnless result Failure.Memory }
{
    let name = name_at(asked, mentions, position);
    let spans = mention_spans(alloc, mentions, name, all)?;
    places(alloc, asked, &spans)
}

/// Returns where a name is used, and where it is defined if all are asked for, if there is one.
fn mention_spans(
    alloc: Global,
    mentions: &[Mention],
    name: Option<&Mention>,
    all: bool,
) -> Result<Vec<Span>, AllocError>
    ensures { IfOk result (λ spans. spans.items
        ≡ map (λ m. m.span) (mentions_of all mentions.now (option_copied name.entry))) }
{
    match name {
        Some(name) => wanted_spans(alloc, mentions, name, all),
        None => Ok(Vec::new(alloc)),
    }
}

/// Returns the places of the mentions of a name that are asked for, in their order.
fn wanted_spans(
    alloc: Global,
    mentions: &[Mention],
    name: &Mention,
    all: bool,
) -> Result<Vec<Span>, AllocError>
    ensures { IfOk result (λ spans. spans.items
        ≡ map (λ m. m.span) (filter (is_wanted all name.now) mentions.now)) }
{
    let mut spans = Vec::new(alloc);
    for mention in mentions {
        if is_wanted(all, name, mention) {
            spans.push(mention.span)?;
        }
    }
    Ok(spans)
}

/// Whether a mention is of the name, and one of those that are asked for.
fn is_wanted(all: bool, name: &Mention, mention: &Mention) -> bool
    ensures { result ≡ is_wanted all name.now mention.now }
{
    is_like(name, mention) && (all || !mention.defines)
}

/// Returns places in the document.
fn places(alloc: Global, asked: &Asked<'_>, spans: &[Span]) -> Result<Answer, Failure>
    ensures ok { IfOk result (AnswersPlaces asked.now.uri.now
        (map (range_of asked.now.shown.encoding asked.now.text.now) spans.now)) }
    ensures failed { IsOkUnless result Failure.Memory }
{
    let ranges = asked.ranges(alloc, spans)?;
    let uri = String::from_str(alloc, asked.uri)?;
    Ok(Answer::Places(uri, ranges))
}

/// Returns the first mention at a position.
#[tactic(auto, using(crate::proofs::Found::found_at))]
fn name_at<'a>(
    asked: &Asked<'_>,
    mentions: &'a [Mention],
    position: Position,
) -> Option<&'a Mention>
    ensures { IsNameAt asked.now.shown.encoding asked.now.text.now mentions.now position
        (option_copied result) }
{
    let offset = asked.offset(position);
    mention_at(mentions, offset)
}

/// Returns the first mention at a position, if it is of a name that is defined in the document.
#[tactic(auto, using(crate::proofs::Found::found_if_defined))]
fn defined_at<'a>(
    asked: &Asked<'_>,
    mentions: &'a [Mention],
    position: Position,
) -> Option<&'a Mention>
    ensures { IsDefinedAt asked.now.shown.encoding asked.now.text.now mentions.now position
        (option_copied result) }
{
    let name = name_at(asked, mentions, position);
    if_defined(mentions, name)
}

/// Returns a name, if there is one and it is defined.
#[tactic(auto, using(crate::proofs::Found::name_of_some, crate::proofs::Found::name_of_none))]
fn if_defined<'a>(mentions: &'a [Mention], name: Option<&'a Mention>) -> Option<&'a Mention>
    ensures { option_copied result ≡ if_defined mentions.now (option_copied name.entry) }
{
    let name = name?;
    match definition_of(mentions, name) {
        Some(_) => Some(name),
        None => None,
    }
}

/// Returns the range of the name at a position, if it is defined in the document.
#[tactic(auto, using(crate::proofs::Found::bounded, crate::proofs::Failed::lacks_it))]
pub(crate) fn replaceable(
    asked: &Asked<'_>,
    mentions: &[Mention],
    position: Position,
) -> Result<Answer, Failure>
    ensures ok { IfOk result (Bounds asked.now.shown.encoding asked.now.text.now mentions.now
        position) }
    ensures failed { IfErr result (FailsFor (λ code. (code ≡ ErrorCode.RequestFailed)
        × IsDefinedAt asked.now.shown.encoding asked.now.text.now mentions.now position None)) }
{
    match defined_at(asked, mentions, position) {
        Some(name) => Ok(Answer::Place(asked.range(name.span))),
        None => Err(no_name()),
    }
}

/// Returns that there is no name to replace.
fn no_name() -> Failure
    ensures { FailsFor (λ code. code ≡ ErrorCode.RequestFailed) result }
{
    Failure::Refused(ErrorCode::RequestFailed, "there is no name to replace")
}

/// Returns edits that replace the name at a position, if it is defined in the document and can be
/// replaced.
#[tactic(auto, using(crate::proofs::Found::renamed, crate::proofs::Failed::spoiling, crate::proofs::Failed::declining))]
pub(crate) fn rename<L: Language>(
    alloc: Global,
    language: &L,
    asked: &Asked<'_>,
    mentions: &[Mention],
    position: Position,
    new: &str,
) -> Result<Answer, Failure>
    ensures ok { IfOk result (Renames L.knows L.mentioned asked.now.shown.encoding
        asked.now.uri.now asked.now.text.now mentions.now position new.now) }
    ensures failed { IfErr result (FailsFor (λ code. (code ≡ ErrorCode.RequestFailed)
        × Declines L.knows L.mentioned asked.now.shown.encoding asked.now.text.now mentions.now
        position new.now)) }
{
    match defined_at(asked, mentions, position) {
        Some(name) => replaced(alloc, language, asked, mentions, name, new),
        None => Err(no_name()),
    }
}

/// Returns where the name at a position is mentioned.
#[tactic(auto, using(crate::proofs::Found::lighted))]
pub(crate) fn highlights(
    alloc: Global,
    asked: &Asked<'_>,
    mentions: &[Mention],
    position: Position,
) -> Result<Answer, Failure>
    ensures ok { IfOk result
        (Lights asked.now.shown.encoding asked.now.text.now mentions.now position) }
    ensures failed { IsOkUnless result Failure.Memory }
{
    let name = name_at(asked, mentions, position);
    let found = highlights_of(alloc, asked, mentions, name)?;
    Ok(Answer::Highlights(found))
}

/// Returns where a name is mentioned, if there is one.
fn highlights_of(
    alloc: Global,
    asked: &Asked<'_>,
    mentions: &[Mention],
    name: Option<&Mention>,
) -> Result<Vec<Highlight>, AllocError>
    ensures { IfOk result (λ found. found.items
        ≡ map (highlight_of asked.now.shown.encoding asked.now.text.now)
        (likes_of mentions.now (option_copied name.entry))) }
{
    match name {
        Some(name) => asked.highlights(alloc, mentions, name),
        None => Ok(Vec::new(alloc)),
    }
}

/// Returns what is known of the name at a position, if it is defined in the document, and otherwise
/// what the language has for the word there.
#[tactic(auto, using(crate::proofs::Found::described, crate::proofs::Found::explaining))]
pub(crate) fn hover<L: Language>(
    alloc: Global,
    language: &L,
    asked: &Asked<'_>,
    mentions: &[Mention],
    position: Position,
) -> Result<Answer, Failure>
    ensures ok { IfOk result (Describes asked.now.shown.encoding asked.now.text.now mentions.now
        position L.completed) }
    ensures failed { IsOkUnless result Failure.Memory }
{
    match defined_at(asked, mentions, position) {
        Some(name) => describe(alloc, language, asked, mentions, name),
        None => explain(alloc, language, asked, mentions, position),
    }
}

/// Returns what is known of a name.
fn describe<L: Language>(
    alloc: Global,
    language: &L,
    asked: &Asked<'_>,
    mentions: &[Mention],
    name: &Mention,
) -> Result<Answer, Failure>
    ensures ok { IfOk result
        (AnswersHover asked.now.shown.encoding asked.now.text.now name.now) }
    ensures failed { IsOkUnless result Failure.Memory }
{
    let definition = definition_of(mentions, name).unwrap_or(name);
    let text = language.description(alloc, asked.text, asked.analysis, definition)?;
    let range = asked.range(name.span);
    Ok(Answer::Hover(Hover { range, text }))
}
