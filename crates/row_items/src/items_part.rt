//! What rows show of the items of a file.

use crate::copies::copies_item;
use crate::expressions::expressions;
use crate::items::push_item;
use crate::names::{push_attributes_of, push_doc_of, push_enabled, push_key, push_setting_of};
use crate::orders::orders;
use crate::parts::push_parts;
use crate::recipes::{RecipePart, push_recipe_part, push_set_of};
use crate::references::push_references;
use crate::values::{push_path_in, push_value_in};
use justfile_item::Item;
use row_notation::Answer;
use row_parts::values::ValueForm;

/// What is shown of the items of a file.
#[derive(Clone, Copy)]
pub enum ItemsPart {
    /// The attributes of the first item that has some.
    Attributes,
    /// Copies of items and of their parts that aren't equal to them.
    Copies,
    /// The docs of recipes and modules.
    Docs,
    /// The names of the items that are enabled on this system.
    Enabled,
    /// The expressions of each item.
    Expressions,
    /// The items.
    Items,
    /// The keys of the items that have one.
    Keys,
    /// How the values of assignments compare.
    Orders,
    /// What items of all kinds have.
    Parts,
    /// What a form shows of the first path.
    Path(ValueForm),
    /// A part of the first recipe.
    Recipe(RecipePart),
    /// The names that each item defines and uses.
    References,
    /// The set that is made from the attributes of the first recipe.
    Sets,
    /// The properties of each setting.
    Settings,
    /// What a form shows of the first value, or else of the first path.
    Value(ValueForm),
}

/// Writes a part of a file's items, or `none` if it is one of the first recipe, value or path and
/// there is none.
pub fn push_of_items(items: &[Item<'_>], answer: &mut Answer, part: ItemsPart) {
    match part {
        ItemsPart::Orders => orders(items, answer),
        ItemsPart::Path(_) | ItemsPart::Recipe(_) | ItemsPart::Sets => {
            push_first(items, answer, part)
        }
        ItemsPart::Value(form) => push_value_or_path(items, answer, form),
        _ => {
            push_each(items, answer, part);
        }
    }
}

/// Writes what a form shows of the first value, or the first path if there is no value.
fn push_value_or_path(items: &[Item<'_>], answer: &mut Answer, form: ValueForm) {
    if !push_each(items, answer, ItemsPart::Value(form)) {
        push_first(items, answer, ItemsPart::Path(form));
    }
}

/// Writes a part of the first item that has it, or `none`.
fn push_first(items: &[Item<'_>], answer: &mut Answer, part: ItemsPart) {
    if !push_each(items, answer, part) {
        answer.push("none");
    }
}

/// Writes a part of items, up to one after which the others are left out. Returns whether there is
/// such an item.
fn push_each(items: &[Item<'_>], answer: &mut Answer, part: ItemsPart) -> bool {
    for index in 0..items.len() {
        if push_of_item(&items[index], answer, part) {
            return true;
        }
    }
    false
}

/// Writes a part of an item, if it has that part. Returns whether the items after it are left out.
fn push_of_item(item: &Item<'_>, answer: &mut Answer, part: ItemsPart) -> bool {
    match part {
        ItemsPart::Attributes => push_attributes_of(item, answer),
        ItemsPart::Path(form) => push_path_in(item, answer, form),
        ItemsPart::Recipe(part) => push_recipe_part(item, answer, part),
        ItemsPart::Sets => push_set_of(item, answer),
        ItemsPart::Value(form) => push_value_in(item, answer, form),
        _ => {
            push_of_each(item, answer, part);
            false
        }
    }
}

/// Writes a part that is shown of each item.
fn push_of_each(item: &Item<'_>, answer: &mut Answer, part: ItemsPart) {
    match part {
        ItemsPart::Copies => copies_item(item, answer),
        ItemsPart::Docs => push_doc_of(item, answer),
        ItemsPart::Enabled => push_enabled(item, answer),
        ItemsPart::Expressions => expressions(item, answer),
        ItemsPart::Items => push_item(item, answer),
        ItemsPart::Keys => push_key(item, answer),
        ItemsPart::Parts => push_parts(item, answer),
        ItemsPart::References => push_references(item, answer),
        ItemsPart::Settings => push_setting_of(item, answer),
        _ => {}
    }
}
