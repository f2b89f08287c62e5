//! The numbers that variables get when the values of a file's first item are resolved.

use justfile_item::Item;
use justfile_numbers::Number;
use row_notation::{Answer, field_at};
use row_parts::resolution::{push_found_variables, resolve_setting, resolve_value};
use std::alloc::{AllocError, Global};
use std::collections::HashMap;

/// Returns the numbers that a field assigns to names, as in `a=1,b=2`.
fn numbers_of<'row>(
    alloc: Global,
    field: &'row str,
) -> Result<HashMap<&'row str, Number>, AllocError> {
    let mut numbers = HashMap::new(alloc);
    for given in field.split(',') {
        if let Some((name, number)) = given.split_once('=') {
            insert(&mut numbers, name, number.parse::<u32>().unwrap_or(0))?;
        }
    }
    Ok(numbers)
}

/// Assigns a number to a name.
fn insert<'row>(
    numbers: &mut HashMap<&'row str, Number>,
    name: &'row str,
    number: u32,
) -> Result<(), AllocError> {
    match numbers.insert(name, Number(number)) {
        Ok(_before) => Ok(()),
        Err(_failed) => Err(AllocError),
    }
}

/// Resolves the first of the items, and writes the numbers of its variables: with the bindings of
/// the second field, then also with the context of the first field, and then with neither.
pub fn resolve_by_fields<'src>(
    items: &mut [Item<'src>],
    answer: &mut Answer,
    fields: &'src [String],
) {
    let context = numbers_of(answer.alloc(), field_at(fields, 0));
    let bindings = numbers_of(answer.alloc(), field_at(fields, 1));
    let none = HashMap::new(answer.alloc());
    match (context, bindings) {
        (Ok(context), Ok(bindings)) => resolve_first(items, answer, &context, &bindings, &none),
        _ => answer.fail(),
    }
}

/// Resolves the first of the items three times, and writes the numbers of its variables each time.
fn resolve_first<'src>(
    items: &mut [Item<'src>],
    answer: &mut Answer,
    context: &HashMap<&'src str, Number>,
    bindings: &HashMap<&'src str, Number>,
    none: &HashMap<&'src str, Number>,
) {
    if items.is_empty() {
        return answer.push("none");
    }
    match &mut items[0] {
        Item::Assignment(assignment) => {
            resolve_value(&mut assignment.value, answer, context, bindings, none);
        }
        Item::Setting(set) => resolve_setting(&mut set.value, answer, context, bindings, none),
        item => resolve_item(item, answer, context, bindings, none),
    }
}

/// Resolves it with the bindings, with the context and the bindings, and with neither, and writes
/// the numbers of its variables each time.
fn resolve_item<'src>(
    item: &mut Item<'src>,
    answer: &mut Answer,
    context: &HashMap<&'src str, Number>,
    bindings: &HashMap<&'src str, Number>,
    none: &HashMap<&'src str, Number>,
) {
    item.resolve_variables(None, bindings);
    push_item(item, answer);
    item.resolve_variables(Some(context), bindings);
    push_item(item, answer);
    item.resolve_variables(None, none);
    push_item(item, answer);
}

/// Writes the variables of the expressions of an item.
fn push_item(item: &Item<'_>, answer: &mut Answer) {
    push_found_variables(item.expressions(answer.alloc()), answer);
}
