//! Names, keys, docs and attributes of items, and the features of files.

use justfile_item::Item;
use justfile_token::{Keyed, Token};
use justfile_vocabulary::{ListFeature, UnstableFeature};
use row_notation::{Answer, Text, push_each_debug};
use row_parts::attributes::push_attributes;
use row_parts::settings::push_setting;
use row_parts::shown::put_marked;
use std::collections::BTreeSet;

/// Writes the key of an item that has one.
pub(crate) fn push_key(item: &Item<'_>, answer: &mut Answer) {
    match item {
        Item::Alias(alias) => answer.push(alias.key()),
        Item::Assignment(assignment) => answer.push(assignment.key()),
        Item::Function(function) => answer.push(function.key()),
        Item::Recipe(recipe) => answer.push(recipe.key()),
        Item::Setting(set) => answer.push(set.key()),
        _ => {}
    }
}

/// Writes the name of an item that is enabled. An item without a name always is; if it isn't,
/// writes `missing`.
pub(crate) fn push_enabled(item: &Item<'_>, answer: &mut Answer) {
    if item.is_enabled() {
        push_name(item, answer);
    } else if matches!(item, Item::Comment(_) | Item::Newline) {
        answer.push("missing");
    }
}

/// Writes the name of an item, if it has one. That of an import is its path.
fn push_name(item: &Item<'_>, answer: &mut Answer) {
    if let Item::Import { relative, .. } = item {
        return answer.push(relative.token.lexeme());
    }
    if let Some(name) = item.name() {
        answer.push(name.lexeme());
    }
}

/// Writes the doc of a recipe or a module in ‹›, or `none`.
pub(crate) fn push_doc_of(item: &Item<'_>, answer: &mut Answer) {
    match item {
        Item::Module { doc, .. } => push_doc(answer, doc),
        Item::Recipe(recipe) => push_doc(answer, &recipe.doc),
        _ => {}
    }
}

fn push_doc(answer: &mut Answer, doc: &Option<String>) {
    let mut shown = Text::new(answer.alloc());
    match doc {
        Some(text) => put_marked(&mut shown, "", text.as_str()),
        None => shown.put("none"),
    }
    answer.push_text(shown);
}

/// Writes the attributes of an item, each with the offset of its name, and its comment. Returns
/// whether it has any.
pub(crate) fn push_attributes_of(item: &Item<'_>, answer: &mut Answer) -> bool {
    match item {
        Item::Alias(alias) => push_attributes(&alias.attributes, answer),
        Item::Assignment(assignment) => push_attributes(&assignment.attributes, answer),
        Item::Comment(_) | Item::Newline => false,
        Item::Function(function) => push_attributes(&function.attributes, answer),
        Item::Import { attributes, .. } => push_attributes(attributes, answer),
        Item::Module { attributes, .. } => push_attributes(attributes, answer),
        Item::Recipe(recipe) => push_attributes(&recipe.attributes, answer),
        Item::Setting(set) => push_attributes(&set.attributes, answer),
        Item::Unexport { attributes, .. } => push_attributes(attributes, answer),
    }
}

/// Writes the properties of a setting, and the text that it displays.
pub(crate) fn push_setting_of(item: &Item<'_>, answer: &mut Answer) {
    if let Item::Setting(set) = item {
        push_setting(&set.value, answer);
        answer.push_display(set);
    }
}

/// Writes the uses of features that need the setting `lists`, each with the offset of its token and
/// in ‹› its lexeme.
pub fn features(answer: &mut Answer, features: &[(ListFeature, Token<'_>)]) {
    for (feature, token) in features {
        push_feature(answer, *feature, token);
    }
}

fn push_feature(answer: &mut Answer, feature: ListFeature, token: &Token<'_>) {
    let mut shown = Text::new(answer.alloc());
    shown.put_debug(&feature);
    shown.put("@");
    shown.put_number(token.offset);
    put_marked(&mut shown, "", token.lexeme());
    answer.push_text(shown);
}

/// Writes the unstable features that a file uses.
pub fn unstable(answer: &mut Answer, features: &BTreeSet<UnstableFeature>) {
    push_each_debug(features.iter(), answer);
}
