//! Surveys of texts, as rows show them.

use justfile_chunks::Span;
use justfile_survey::{Survey, SurveyedError, SurveyedItem, survey};
use row_notation::{Answer, Text};

/// Writes the survey of a text: its items, and its errors after them.
pub(crate) fn surveys(answer: &mut Answer, text: &str) {
    match survey(answer.alloc(), "justfile", text) {
        Ok(survey) => push_survey(answer, &survey),
        Err(_) => answer.fail(),
    }
}

fn push_survey(answer: &mut Answer, survey: &Survey) {
    for item in &survey.items {
        push_item(answer, item);
    }
    for error in &survey.errors {
        push_error(answer, error);
    }
}

/// Writes an item: its kind, its name, where it and its name are, where its body is, and whether it
/// is private.
fn push_item(answer: &mut Answer, item: &SurveyedItem) {
    let mut shown = Text::new(answer.alloc());
    shown.put_display(&item.kind);
    shown.put(" ");
    shown.put(item.name.as_str());
    put_span(&mut shown, " ", item.span);
    put_span(&mut shown, " name ", item.name_span);
    if let Some(body) = item.body {
        put_span(&mut shown, " body ", body);
    }
    if item.is_private {
        shown.put(" private");
    }
    answer.push_text(shown);
}

/// Writes an error: where its token is, its line and its column, and its message.
fn push_error(answer: &mut Answer, error: &SurveyedError) {
    let mut shown = Text::new(answer.alloc());
    put_span(&mut shown, "error ", error.span);
    shown.put(" ");
    shown.put_number(error.line);
    shown.put(":");
    shown.put_number(error.column);
    shown.put(" ");
    shown.put(error.message.as_str());
    answer.push_text(shown);
}

/// Writes a word and the offsets of a span.
fn put_span(shown: &mut Text, word: &str, span: Span) {
    shown.put(word);
    shown.put_number(span.start);
    shown.put("-");
    shown.put_number(span.end);
}
