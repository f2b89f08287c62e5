//! Replacing a name.
ghost use Rattle.std.specs.Prelude.{◌≡◌, ◌↔◌, [], IfErr, IfOk, IsTrue, false};
ghost use Rattle.std.specs.List.{list_any};
ghost use Rattle.editor_answers.specs.Answers.{FailsFor};
ghost use Rattle.editor_answers.specs.Renames.{AnswersEdits, IsMeant, IsRenaming, PutInto, Puts, Spoils, are_renamed, is_renamed, is_taken, name_after};

use crate::asked::Asked;
use crate::failure::Failure;
use editor_language::{Analysis, Language, Mention, is_like, mentions_like, same_scope};
use editor_messages::{Answer, ErrorCode, Rename};
use std::alloc::{AllocError, Global};
use text_edits::{Range, TextEdit, edited};

/// Returns edits that replace all mentions of a name, if no other name is called as the new one, and
/// the text after that is right and means the same.
pub(crate) fn replaced<L: Language>(
    alloc: Global,
    language: &L,
    asked: &Asked<'_>,
    mentions: &[Mention],
    name: &Mention,
    new: &str,
) -> Result<Answer, Failure>
    ensures ok { IfOk result (AnswersEdits asked.now.uri.now (IsRenaming L.knows L.mentioned
        asked.now.shown.encoding asked.now.text.now mentions.now name.now new.now)) }
    ensures failed { IfErr result (FailsFor (λ code. (code ≡ ErrorCode.RequestFailed)
        × Spoils L.knows L.mentioned asked.now.shown.encoding asked.now.text.now mentions.now
        name.now new.now)) }
{
    if has_taken(mentions, name, new) {
        let message = "another name is called so";
        return Err(Failure::Refused(ErrorCode::RequestFailed, message));
    }
    let edits = edits_of_name(alloc, asked, mentions, name, new)?;
    checked(alloc, language, asked, mentions, name, new, edits)
}

/// Returns edits that put a new name in the place of each mention of a name.
fn edits_of_name(
    alloc: Global,
    asked: &Asked<'_>,
    mentions: &[Mention],
    name: &Mention,
    new: &str,
) -> Result<Vec<TextEdit>, AllocError>
    ensures { IfOk result (λ edits. Puts asked.now.shown.encoding asked.now.text.now
        mentions.now name.now new.now edits.items) }
{
    let spans = mentions_like(alloc, mentions, name)?;
    let ranges = asked.ranges(alloc, &spans)?;
    same_edits(alloc, &ranges, new)
}

/// Returns edits that put a text in the place of each range.
fn same_edits(alloc: Global, ranges: &[Range], new: &str) -> Result<Vec<TextEdit>, AllocError>
    ensures { IfOk result (λ edits. PutInto ranges.now new.now edits.items) }
{
    let mut edits = Vec::new(alloc);
    for range in ranges {
        let text = String::from_str(alloc, new)?;
        edits.push(TextEdit {
            range: *range,
            text,
        })?;
    }
    Ok(edits)
}

/// Returns edits that replace a name, if the text after them is right and means the same.
fn checked<L: Language>(
    alloc: Global,
    language: &L,
    asked: &Asked<'_>,
    mentions: &[Mention],
    name: &Mention,
    new: &str,
    edits: Vec<TextEdit>,
) -> Result<Answer, Failure>
    requires free { list_any (is_taken name.now new.now) mentions.now ≡ false }
    requires puts { Puts asked.now.shown.encoding asked.now.text.now mentions.now name.now
        new.now edits.items }
    ensures ok { IfOk result (AnswersEdits asked.now.uri.now (IsRenaming L.knows L.mentioned
        asked.now.shown.encoding asked.now.text.now mentions.now name.now new.now)) }
    ensures failed { IfErr result (FailsFor (λ code. (code ≡ ErrorCode.RequestFailed)
        × Spoils L.knows L.mentioned asked.now.shown.encoding asked.now.text.now mentions.now
        name.now new.now)) }
{
    match edited(alloc, asked.shown.encoding, asked.text, &edits)? {
        Some(after) => {
            if is_meant(alloc, language, mentions, name, new, after.as_str())? {
                let uri = String::from_str(alloc, asked.uri)?;
                Ok(Answer::Rename(Rename { uri, edits }))
            } else {
                let message = "with the new name the text would mean something else";
                Err(Failure::Refused(ErrorCode::RequestFailed, message))
            }
        }
        None => {
            let message = "the places of the name aren't in order";
            Err(Failure::Refused(ErrorCode::RequestFailed, message))
        }
    }
}

/// Whether nothing is wrong in a text, and the mentions in it are these with the new name in place of
/// the name.
fn is_meant<L: Language>(
    alloc: Global,
    language: &L,
    before: &[Mention],
    name: &Mention,
    new: &str,
    after: &str,
) -> Result<bool, AllocError>
    ensures { IfOk result
        (IsMeant L.knows L.mentioned name.now new.now before.now after.now) }
{
    let known = language.analysis(alloc, after)?;
    if is_right(&known) {
        let mentions = language.mentions(alloc, after, &known)?;
        Ok(are_renamed(name, new, before, &mentions))
    } else {
        Ok(false)
    }
}

/// Whether nothing is wrong in a text of which this is known.
pub(crate) fn is_right(known: &Analysis) -> bool
    ensures { IsTrue result ↔ (known.now.problems.items ≡ []) }
{
    known.problems.is_empty()
}

/// Whether another name is called as the new one.
fn has_taken(mentions: &[Mention], name: &Mention, new: &str) -> bool
    ensures { result ≡ list_any (is_taken name.now new.now) mentions.now }
{
    mentions.iter().any(|mention| is_taken(name, new, mention))
}

/// Whether a mention is of another name that is called as the new one.
fn is_taken(name: &Mention, new: &str, mention: &Mention) -> bool
    ensures { result ≡ is_taken name.now new.now mention.now }
{
    mention.role.number() == name.role.number()
        && same_scope(mention.scope, name.scope)
        && mention.name.as_str() == new
        && !is_like(name, mention)
}

/// Whether mentions are other ones, with the new name in place of the name.
fn are_renamed(name: &Mention, new: &str, before: &[Mention], after: &[Mention]) -> bool
    ensures { result ≡ are_renamed name.now new.now before.now after.now }
{
    if before.len() != after.len() {
        return false;
    }
    for index in 0..before.len() {
        if !is_renamed(name, new, &before[index], &after[index]) {
            return false;
        }
    }
    true
}

/// Whether a mention is another one, with the new name in place of the name.
fn is_renamed(name: &Mention, new: &str, before: &Mention, after: &Mention) -> bool
    ensures { result ≡ is_renamed name.now new.now before.now after.now }
{
    before.role.number() == after.role.number()
        && same_scope(before.scope, after.scope)
        && name_after(name, new, before) == after.name.as_str()
        && before.defines == after.defines
}

/// Returns the name of a mention, or the new one if it is of the name.
fn name_after<'a>(name: &Mention, new: &'a str, mention: &'a Mention) -> &'a str
    ensures { result.now ≡ name_after name.now new.now mention.now }
{
    if is_like(name, mention) {
        new
    } else {
        mention.name.as_str()
    }
}
