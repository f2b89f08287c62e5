//! Answers about a text.
ghost use Rattle.std.specs.Prelude.{◌≡◌, IfErr, IfOk, IsOkUnless, map};
ghost use Rattle.editor_messages.specs.declared.message.Query.TheVariants.{Rename};
ghost use Rattle.editor_language.specs.Items.{OfItems};
ghost use Rattle.editor_answers.specs.Answers.{Completes, FailsFor, Hovers, IsAbout, IsAnswer, IsRefused, Lacks, LacksName, Offers, RefusesName, Replaces, ShowsFolds, ShowsItems, Tells};
ghost use Rattle.editor_answers.specs.Links.{LinksIn};
ghost use Rattle.editor_answers.specs.Ranges.{all_to_tell, told};

use crate::addresses::{folder_of, folder_path, text_of};
use crate::asked::Asked;
use crate::colors::token_numbers;
use crate::failure::Failure;
use crate::fixes::fixes;
use crate::formats::{format, format_range};
use crate::lenses::lenses;
use crate::names::{definition, highlights, hover, references, rename, replaceable};
use crate::problems::problems_told;
use crate::renames::is_right;
use crate::shown::Shown;
use crate::signatures::signature;
use editor_language::{Analysis, Choices, Finding, Language, Mention, Problem, items_of};
use editor_messages::{Answer, Completions, Diagnostic, ErrorCode, Query};
use justfile_lines::{Encoding, Position};
use std::alloc::{AllocError, Global};

/// Returns what is wrong in a text: its problems, and then the first of its findings.
///
/// # Errors
///
/// Memory ran out.
pub fn diagnostics(
    alloc: Global,
    encoding: Encoding,
    text: &str,
    problems: &[Problem],
    findings: &[Finding],
) -> Result<Vec<Diagnostic>, AllocError>
    ensures { IfOk result (λ found. map told found.items
        ≡ all_to_tell encoding text.now problems.now findings.now) }
{
    let found = problems_told(alloc, encoding, text, problems)?;
    if findings.is_empty() {
        return Ok(found);
    }
    let shown = Shown::new(alloc, encoding, text)?;
    shown.with_findings(found, findings)
}

/// Returns the answer to what is asked for about a text, of which this is known. It is that of the
/// document with an address.
///
/// # Errors
///
/// The request is refused, or memory ran out.
pub fn answer<L: Language>(
    alloc: Global,
    language: &L,
    encoding: Encoding,
    uri: &str,
    text: &str,
    analysis: &Analysis,
    query: Query<'_>,
) -> Result<Answer, Failure>
    ensures ok { IfOk result (IsAnswer L.knows L.mentioned encoding uri.now text.now
        analysis.now L.formats L.unformatted L.names L.linked L.completed L.fixed L.signed
        L.runs query.entry) }
    ensures failed { IfErr result (FailsFor (IsRefused L.knows L.mentioned encoding uri.now
        text.now analysis.now L.names query.entry)) }
{
    let shown = Shown::new(alloc, encoding, text)?;
    let asked = Asked {
        uri,
        analysis,
        text,
        shown,
    };
    answer_of(alloc, language, &asked, query)
}

/// Returns the answer to what is asked for about a document.
#[tactic(auto, using(crate::proofs::Failed::only_memory))]
fn answer_of<L: Language>(
    alloc: Global,
    language: &L,
    asked: &Asked<'_>,
    query: Query<'_>,
) -> Result<Answer, Failure>
    ensures ok { IfOk result (IsAnswer L.knows L.mentioned asked.now.shown.encoding
        asked.now.uri.now asked.now.text.now asked.now.analysis.now L.formats L.unformatted
        L.names L.linked L.completed L.fixed L.signed L.runs query.entry) }
    ensures failed { IfErr result (FailsFor (IsRefused L.knows L.mentioned
        asked.now.shown.encoding asked.now.uri.now asked.now.text.now asked.now.analysis.now
        L.names query.entry)) }
{
    match query {
        Query::Symbols => symbols(alloc, &asked.shown, asked.analysis),
        Query::Format => format(alloc, language, asked.shown.encoding, asked.text),
        Query::Rename(position, new) => replace(alloc, language, asked, position, new),
        Query::Folds => folds(alloc, &asked.shown, asked.analysis),
        Query::Links => links(alloc, language, asked),
        Query::FormatRange(range) => format_range(alloc, language, asked, range),
        Query::Complete(position) => complete(alloc, language, asked, position),
        Query::Tokens => tokens(alloc, language, asked),
        Query::Fixes(range) => fixes(alloc, language, asked, range),
        Query::Signature(position) => signature(alloc, language, asked, position),
        Query::Lenses => lenses(alloc, language, asked),
        Query::Definition(at) => about_name(alloc, language, asked, Query::Definition(at)),
        Query::References(at, all) => {
            about_name(alloc, language, asked, Query::References(at, all))
        }
        Query::PrepareRename(at) => about_name(alloc, language, asked, Query::PrepareRename(at)),
        Query::Highlights(at) => about_name(alloc, language, asked, Query::Highlights(at)),
        Query::Hover(at) => hover_at(alloc, language, asked, at),
    }
}

/// Returns the symbols of a text.
fn symbols(alloc: Global, shown: &Shown<'_>, analysis: &Analysis) -> Result<Answer, Failure>
    ensures ok { IfOk result (λ answer. OfItems analysis.now.parts.items (λ items.
        ShowsItems shown.now.encoding shown.now.lines.text.now items answer)) }
    ensures failed { IsOkUnless result Failure.Memory }
{
    let items = items_of(alloc, &analysis.parts)?;
    let symbols = shown.symbols(alloc, &items)?;
    Ok(Answer::Symbols(symbols))
}

/// Returns what can be folded in a text.
fn folds(alloc: Global, shown: &Shown<'_>, analysis: &Analysis) -> Result<Answer, Failure>
    ensures ok { IfOk result (λ answer. OfItems analysis.now.parts.items (λ items.
        ShowsFolds shown.now.encoding shown.now.lines.text.now items answer)) }
    ensures failed { IsOkUnless result Failure.Memory }
{
    let items = items_of(alloc, &analysis.parts)?;
    let folds = shown.folds(alloc, &items)?;
    Ok(Answer::Folds(folds))
}

/// Returns the links of a text.
fn links<L: Language>(alloc: Global, language: &L, asked: &Asked<'_>) -> Result<Answer, Failure>
    ensures links { IfOk result (LinksIn L.linked asked.now.shown.encoding asked.now.uri.now
        asked.now.text.now asked.now.analysis.now) }
    ensures failed { IsOkUnless result Failure.Memory }
{
    let folder = folder_of(asked.uri);
    let path = folder_path(alloc, folder)?;
    let found = language.links(alloc, text_of(&path), asked.text, asked.analysis)?;
    let links = asked.shown.links(alloc, folder, &found)?;
    Ok(Answer::Links(links))
}

/// Returns the answer to what is asked for about a name.
#[tactic(auto, using(crate::proofs::Failed::lacks_among, crate::proofs::Failed::tells_among))]
fn about_name<L: Language>(
    alloc: Global,
    language: &L,
    asked: &Asked<'_>,
    query: Query<'_>,
) -> Result<Answer, Failure>
    ensures ok { IfOk result (Tells L.knows L.mentioned asked.now.shown.encoding
        asked.now.uri.now asked.now.text.now asked.now.analysis.now query.entry) }
    ensures failed { IfErr result (FailsFor (Lacks L.knows L.mentioned asked.now.shown.encoding
        asked.now.uri.now asked.now.text.now asked.now.analysis.now query.entry)) }
{
    let mentions = asked.mentions(alloc, language)?;
    told(alloc, language, asked, &mentions, query)
}

/// Returns what is told about a name.
#[tactic(auto, using(crate::proofs::Failed::only_memory))]
fn told<L: Language>(
    alloc: Global,
    language: &L,
    asked: &Asked<'_>,
    mentions: &[Mention],
    query: Query<'_>,
) -> Result<Answer, Failure>
    ensures ok { IfOk result (IsAbout L.knows L.mentioned asked.now.shown.encoding
        asked.now.uri.now asked.now.text.now query.entry mentions.now) }
    ensures failed { IfErr result (FailsFor (LacksName L.knows L.mentioned
        asked.now.shown.encoding asked.now.text.now query.entry mentions.now)) }
{
    match query {
        Query::Definition(position) => definition(alloc, asked, mentions, position),
        Query::References(position, all) => references(alloc, asked, mentions, position, all),
        Query::PrepareRename(position) => replaceable(asked, mentions, position),
        Query::Rename(position, new) => { rename(alloc, language, asked, mentions, position, new) }
        Query::Highlights(position) => highlights(alloc, asked, mentions, position),
        Query::Symbols
        | Query::Folds
        | Query::Format
        | Query::FormatRange(_)
        | Query::Complete(_)
        | Query::Hover(_)
        | Query::Fixes(_)
        | Query::Signature(_)
        | Query::Lenses
        | Query::Tokens
        | Query::Links => Ok(Answer::Nothing),
    }
}

/// Returns edits that replace the name at a position, if the new one is a name and nothing is wrong in
/// the text. Otherwise not all places of the name are known.
#[tactic(auto, using(crate::proofs::Failed::not_named))]
fn replace<L: Language>(
    alloc: Global,
    language: &L,
    asked: &Asked<'_>,
    position: Position,
    new: &str,
) -> Result<Answer, Failure>
    ensures ok { IfOk result (λ answer. Replaces L.names asked.now.analysis.now new.now
        (Tells L.knows L.mentioned asked.now.shown.encoding asked.now.uri.now
        asked.now.text.now asked.now.analysis.now (Rename position new.entry) answer)) }
    ensures failed { IfErr result (FailsFor (λ code. RefusesName L.names asked.now.analysis.now
        new.now (Lacks L.knows L.mentioned asked.now.shown.encoding asked.now.uri.now
        asked.now.text.now asked.now.analysis.now (Rename position new.entry) code) code)) }
{
    if language.is_name(alloc, new)? {
        replace_right(alloc, language, asked, position, new)
    } else {
        let message = "the new name isn't a name";
        Err(Failure::Refused(ErrorCode::InvalidParams, message))
    }
}

/// Returns edits that replace the name at a position by one that is a name, if nothing is wrong in the
/// text.
#[tactic(auto, using(crate::proofs::Failed::lacks_if, crate::proofs::Failed::wrong_text, crate::proofs::Failed::replaces_if))]
fn replace_right<L: Language>(
    alloc: Global,
    language: &L,
    asked: &Asked<'_>,
    position: Position,
    new: &str,
) -> Result<Answer, Failure>
    requires { L.names new.now }
    ensures ok { IfOk result (λ answer. Replaces L.names asked.now.analysis.now new.now
        (Tells L.knows L.mentioned asked.now.shown.encoding asked.now.uri.now
        asked.now.text.now asked.now.analysis.now (Rename position new.entry) answer)) }
    ensures failed { IfErr result (FailsFor (λ code. RefusesName L.names asked.now.analysis.now
        new.now (Lacks L.knows L.mentioned asked.now.shown.encoding asked.now.uri.now
        asked.now.text.now asked.now.analysis.now (Rename position new.entry) code) code)) }
{
    if is_right(asked.analysis) {
        about_name(alloc, language, asked, Query::Rename(position, new))
    } else {
        let message = "the text has an error, so not all places of the name are known";
        Err(Failure::Refused(ErrorCode::RequestFailed, message))
    }
}

/// Returns what can be written at a position.
fn complete<L: Language>(
    alloc: Global,
    language: &L,
    asked: &Asked<'_>,
    position: Position,
) -> Result<Answer, Failure>
    ensures ok { IfOk result (Completes L.mentioned L.completed asked.now.shown.encoding
        asked.now.text.now asked.now.analysis.now position) }
    ensures failed { IsOkUnless result Failure.Memory }
{
    let offset = asked.offset(position);
    let mentions = asked.mentions(alloc, language)?;
    let choices = language.completions(alloc, asked.text, &mentions, offset)?;
    Ok(completions(asked, choices))
}

/// Returns what is known of the name at a position, or what the language has for the word there.
#[tactic(auto, using(crate::proofs::Failed::tells_among))]
fn hover_at<L: Language>(
    alloc: Global,
    language: &L,
    asked: &Asked<'_>,
    position: Position,
) -> Result<Answer, Failure>
    ensures ok { IfOk result (Hovers L.mentioned L.completed asked.now.shown.encoding
        asked.now.text.now asked.now.analysis.now position) }
    ensures failed { IsOkUnless result Failure.Memory }
{
    let mentions = asked.mentions(alloc, language)?;
    hover(alloc, language, asked, &mentions, position)
}

/// Returns the answer that offers what can be written somewhere.
fn completions(asked: &Asked<'_>, choices: Choices) -> Answer
    ensures { Offers asked.now.shown.encoding asked.now.text.now choices result }
{
    Answer::Completions(Completions {
        range: asked.range(choices.span),
        is_incomplete: choices.is_incomplete,
        found: choices.found,
    })
}

/// Returns the kinds of the tokens of a text.
fn tokens<L: Language>(alloc: Global, language: &L, asked: &Asked<'_>) -> Result<Answer, Failure>
    ensures { IsOkUnless result Failure.Memory }
{
    let mentions = asked.mentions(alloc, language)?;
    let colored = language.colored(alloc, asked.text, asked.analysis, &mentions)?;
    let numbers = token_numbers(alloc, &asked.shown, &colored)?;
    Ok(Answer::Tokens(numbers))
}
