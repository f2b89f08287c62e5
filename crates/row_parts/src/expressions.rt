//! The expressions of parts of items, as rows show them.

use crate::shown::put_expression_of;
use justfile_attribute::Attribute;
use justfile_attribute_set::AttributeSet;
use justfile_expression::Expression;
use justfile_setting::Setting;
use row_notation::{Answer, Text};
use std::alloc::AllocError;

/// Writes the expressions of an attribute after its name.
pub fn push_attribute(attribute: &Attribute<'_>, answer: &mut Answer) {
    let found = attribute.expressions(answer.alloc());
    push_found(found, answer, attribute.kind().name());
}

/// Writes the expressions of attributes after the word `attributes`.
pub fn push_set(attributes: &AttributeSet<'_>, answer: &mut Answer) {
    push_found(attributes.expressions(answer.alloc()), answer, "attributes");
}

/// Writes the expressions of a setting after the word `value`.
pub fn push_value(setting: &Setting<'_>, answer: &mut Answer) {
    push_found(setting.expressions(answer.alloc()), answer, "value");
}

/// Writes expressions that were collected after a word, if there are any.
pub fn push_found<'a, 'src>(
    found: Result<Vec<&'a Expression<'src>>, AllocError>,
    answer: &mut Answer,
    word: &str,
) {
    let mut shown = Text::new(answer.alloc());
    put_found(found, &mut shown);
    push_unless_empty(answer, word, shown);
}

/// Writes expressions that were collected, each after a blank.
pub fn put_found<'a, 'src>(found: Result<Vec<&'a Expression<'src>>, AllocError>, shown: &mut Text) {
    if put_each(found, shown).is_err() {
        shown.fail();
    }
}

fn put_each<'a, 'src>(
    found: Result<Vec<&'a Expression<'src>>, AllocError>,
    shown: &mut Text,
) -> Result<(), AllocError> {
    let found = found?;
    for index in 0..found.len() {
        put_expression_of(found[index], shown);
    }
    Ok(())
}

/// Writes a word and what is shown after it as a field, if anything is.
fn push_unless_empty(answer: &mut Answer, word: &str, shown: Text) {
    match shown.finish() {
        Ok(shown) if shown.is_empty() => {}
        Ok(shown) => push_after(answer, word, shown.as_str()),
        Err(_) => answer.fail(),
    }
}

/// Writes a word and what is shown after it as a field.
fn push_after(answer: &mut Answer, word: &str, shown: &str) {
    let mut field = Text::new(answer.alloc());
    field.put(word);
    field.put(shown);
    answer.push_text(field);
}
