//! The first value of a file.

use justfile_item::Item;
use row_notation::Answer;
use row_parts::values::{ValueForm, push_module_path, push_path, push_value, push_value_set};

/// Writes what a form shows of the value of an assignment, a function or a setting, and
/// returns whether the item has one.
pub(crate) fn push_value_in(item: &Item<'_>, answer: &mut Answer, form: ValueForm) -> bool {
    match item {
        Item::Assignment(assignment) => push_value(&assignment.value, answer, form),
        Item::Function(function) => push_value(&function.body, answer, form),
        Item::Setting(set) => push_value_set(&set.value, answer, form),
        _ => false,
    }
}

/// Writes what a form shows of the path of an import or a module, and returns whether
/// there is one.
pub(crate) fn push_path_in(item: &Item<'_>, answer: &mut Answer, form: ValueForm) -> bool {
    match item {
        Item::Import { relative, .. } => push_path(relative, answer, form),
        Item::Module { relative, .. } => push_module_path(relative, answer, form),
        _ => false,
    }
}
