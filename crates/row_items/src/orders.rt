//! The order of a file's values.

use crate::copies::copies_assignment;
use justfile_expression::Expression;
use justfile_item::Item;
use row_notation::Answer;
use row_parts::orders::{push_order, push_with_copy};

/// Writes how the value of each assignment compares with that of the next one. A line end comes
/// between two assignments.
pub(crate) fn orders(items: &[Item<'_>], answer: &mut Answer) {
    for index in 0..items.len() {
        if let Item::Assignment(assignment) = &items[index] {
            push_with_next(items, answer, index.saturating_add(2), &assignment.value);
            push_with_copy(&assignment.value, answer);
            copies_assignment(assignment, answer);
        }
    }
}

/// Writes how a value compares with that of the assignment at an index, if there is one.
fn push_with_next<'src>(
    items: &[Item<'src>],
    answer: &mut Answer,
    index: usize,
    value: &Expression<'src>,
) {
    if index >= items.len() {
        return;
    }
    if let Item::Assignment(next) = &items[index] {
        push_order(value, &next.value, answer);
    }
}
