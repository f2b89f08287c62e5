//! The expressions of items and of their parts, as rows show them.

use justfile_attribute_set::AttributeSet;
use justfile_item::Item;
use row_notation::Answer;
use row_parts::expressions::{push_attribute, push_found, push_set, push_value};

/// Writes the expressions of an item: those of each attribute, those of all attributes, those of
/// the value of a setting, and those of the whole item at every depth. What has none is left out.
pub(crate) fn expressions(item: &Item<'_>, answer: &mut Answer) {
    if let Some(attributes) = item.attributes() {
        push_of_attributes(attributes, answer);
    }
    if let Item::Setting(set) = item {
        push_value(&set.value, answer);
    }
    push_found(item.all_expressions(answer.alloc()), answer, "all");
}

/// Writes the expressions of attributes, first of each and then of all.
fn push_of_attributes(attributes: &AttributeSet<'_>, answer: &mut Answer) {
    let written = attributes.written();
    for index in 0..written.len() {
        push_attribute(&written[index].0, answer);
    }
    push_set(attributes, answer);
}
