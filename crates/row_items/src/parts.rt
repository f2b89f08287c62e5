//! What items of all kinds have, as rows show it.

use justfile_attribute_set::AttributeSet;
use justfile_item::Item;
use row_notation::{Answer, Text};
use row_parts::attributes::put_groups;
use row_parts::expressions::put_found;
use row_parts::shown::{put_if, put_marked};

/// Writes what an item has: its kind, its name, whether it is private, of an alias whether it is
/// public, the kinds of its attributes, its groups, its doc, the truth of a setting, and its
/// expressions, each with the lexeme that it begins with.
pub(crate) fn push_parts(item: &Item<'_>, answer: &mut Answer) {
    let mut shown = Text::new(answer.alloc());
    shown.put_display(&item.kind());
    put_item_name(item, &mut shown);
    put_if(&mut shown, " private", item.is_private());
    put_public(item, &mut shown);
    put_kinds(item, &mut shown);
    put_item_doc(item, &mut shown);
    put_truth(item, &mut shown);
    put_found(item.expressions(answer.alloc()), &mut shown);
    answer.push_text(shown);
}

/// Writes the name of an item, if it has one.
fn put_item_name(item: &Item<'_>, shown: &mut Text) {
    if let Some(name) = item.name() {
        put_marked(shown, " name ", name.lexeme());
    }
}

/// Writes whether an alias is public.
fn put_public(item: &Item<'_>, shown: &mut Text) {
    if let Item::Alias(alias) = item {
        put_if(shown, " public", alias.is_public());
    }
}

/// Writes the kinds of attributes.
fn put_attribute_kinds(attributes: &AttributeSet<'_>, shown: &mut Text) {
    let written = attributes.written();
    for index in 0..written.len() {
        put_marked(shown, " attribute ", written[index].0.kind().name());
    }
}

/// Writes the kinds of the attributes of an item, and its groups.
fn put_kinds(item: &Item<'_>, shown: &mut Text) {
    if let Some(attributes) = item.attributes() {
        put_attribute_kinds(attributes, shown);
        put_groups(attributes, shown);
    }
}

/// Writes the doc of an item, if it has one.
fn put_item_doc(item: &Item<'_>, shown: &mut Text) {
    if let Some(doc) = item.doc() {
        put_marked(shown, " doc ", doc);
    }
}

/// Writes the value of a setting that is true or false.
fn put_truth(item: &Item<'_>, shown: &mut Text) {
    if let Item::Setting(set) = item {
        put_if(shown, " true", set.value.truth() == Some(true));
        put_if(shown, " false", set.value.truth() == Some(false));
    }
}
