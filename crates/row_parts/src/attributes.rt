//! Attributes, as rows show them.

use crate::shown::put_marked;
use justfile_attribute::Attribute;
use justfile_attribute_set::AttributeSet;
use justfile_token::Name;
use row_notation::{Answer, Text};

/// Writes attributes, each in brackets and with a blank after it.
pub fn put_attributes(attributes: &AttributeSet<'_>, shown: &mut Text) {
    let written = attributes.written();
    for index in 0..written.len() {
        put_attribute(&written[index].0, shown);
    }
}

/// Writes an attribute in brackets and with a blank after it.
fn put_attribute(attribute: &Attribute<'_>, shown: &mut Text) {
    shown.put("[");
    shown.put_display(attribute);
    shown.put("] ");
}

/// Writes attributes, each with the offset of its name and its comment, and returns whether there
/// are any.
pub fn push_attributes(attributes: &AttributeSet<'_>, answer: &mut Answer) -> bool {
    let written = attributes.written();
    for index in 0..written.len() {
        push_attribute(attributes, &written[index].0, answer);
    }
    attributes.len() > 0
}

/// Writes an attribute of a set with the offset of its name, and in ‹› its comment if it has one.
pub fn push_attribute<'src>(
    set: &AttributeSet<'src>,
    attribute: &Attribute<'src>,
    answer: &mut Answer,
) {
    let mut shown = Text::new(answer.alloc());
    shown.put_display(attribute);
    put_place(set.name(attribute), &mut shown);
    put_comment(&mut shown, set.comment(attribute));
    answer.push_text(shown);
}

/// Writes the offset of a name, if there is one.
fn put_place(name: Option<Name<'_>>, shown: &mut Text) {
    if let Some(name) = name {
        shown.put("@");
        shown.put_number(name.token.offset);
    }
}

/// Writes a comment in ‹›, if there is one.
fn put_comment(shown: &mut Text, comment: Option<&str>) {
    if let Some(comment) = comment {
        put_marked(shown, "", comment);
    }
}

/// Writes the names of the groups.
pub fn put_groups(attributes: &AttributeSet<'_>, shown: &mut Text) {
    match attributes.group_names(shown.alloc()) {
        Ok(names) => {
            for name in &names {
                put_marked(shown, " group ", name);
            }
        }
        Err(_) => shown.fail(),
    }
}
