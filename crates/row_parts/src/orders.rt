//! The order of values.

use justfile_expression::Expression;
use row_notation::{Answer, Text};
use std::alloc::{AllocError, Global};
use std::cmp::Ordering;

/// Moves a value into a box, if it was made.
pub(crate) fn boxed<T: Drop>(
    alloc: Global,
    made: Result<T, AllocError>,
) -> Result<Box<T>, AllocError> {
    match made {
        Ok(value) => match Box::new(alloc, value) {
            Ok(value) => Ok(value),
            Err(_) => Err(AllocError),
        },
        Err(error) => Err(error),
    }
}

/// Returns a copy of a value in a box.
pub(crate) fn copy_of<'src>(
    value: &Expression<'src>,
    alloc: Global,
) -> Result<Box<Expression<'src>>, AllocError> {
    boxed(alloc, value.clone(alloc))
}

/// Writes `uncopied` if the copy of a value differs from the value, by `==` or by `cmp`.
pub fn push_with_copy(value: &Expression<'_>, answer: &mut Answer) {
    match copy_of(value, answer.alloc()) {
        Ok(copy) => push_other(value, &copy, answer),
        Err(_) => answer.fail(),
    }
}

fn push_other<'src>(value: &Expression<'src>, copy: &Expression<'src>, answer: &mut Answer) {
    let is_same = value == copy && value.cmp(copy).is_eq();
    answer.push_if("uncopied", !is_same);
}

/// Writes how two values compare with their positions, and how they compare by content. Writes
/// `apart` if the ways to compare them with their positions disagree.
pub fn push_order<'src>(value: &Expression<'src>, other: &Expression<'src>, answer: &mut Answer) {
    let order = value.cmp(other);
    let mut signs = Text::new(answer.alloc());
    signs.put(sign(order));
    signs.put(sign(value.content_cmp(other)));
    answer.push_text(signs);
    answer.push_if("apart", !agrees(value, other, order));
}

/// Whether each way to compare two values with their positions results in this order.
fn agrees<'src>(value: &Expression<'src>, other: &Expression<'src>, order: Ordering) -> bool {
    value.partial_cmp(other) == Some(order)
        && other.cmp(value) == order.reverse()
        && (value == other) == order.is_eq()
}

/// Returns the sign of an order.
fn sign(order: Ordering) -> &'static str {
    match order {
        Ordering::Less => "<",
        Ordering::Equal => "=",
        Ordering::Greater => ">",
    }
}
