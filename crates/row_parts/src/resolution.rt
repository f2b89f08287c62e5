//! The numbers that variables get when values are resolved.

use crate::orders::{copy_of, push_order};
use justfile_expression::Expression;
use justfile_numbers::Number;
use justfile_setting::Setting;
use justfile_token::Name;
use row_notation::{Answer, Text};
use std::alloc::AllocError;
use std::collections::HashMap;

/// Resolves it with the bindings, with the context and the bindings, and with neither, and writes
/// the numbers of its variables each time.
pub fn resolve_setting<'src>(
    setting: &mut Setting<'src>,
    answer: &mut Answer,
    context: &HashMap<&'src str, Number>,
    bindings: &HashMap<&'src str, Number>,
    none: &HashMap<&'src str, Number>,
) {
    setting.resolve_variables(None, bindings);
    push_setting(setting, answer);
    setting.resolve_variables(Some(context), bindings);
    push_setting(setting, answer);
    setting.resolve_variables(None, none);
    push_setting(setting, answer);
}

/// Resolves it with the bindings, with the context and the bindings, and with neither, and writes
/// the numbers of its variables each time, and how its earlier state compares with it.
pub fn resolve_value<'src>(
    value: &mut Expression<'src>,
    answer: &mut Answer,
    context: &HashMap<&'src str, Number>,
    bindings: &HashMap<&'src str, Number>,
    none: &HashMap<&'src str, Number>,
) {
    match copy_of(value, answer.alloc()) {
        Ok(before) => resolve_from(value, &before, answer, context, bindings, none),
        Err(_) => answer.fail(),
    }
}

fn resolve_from<'src>(
    value: &mut Expression<'src>,
    before: &Expression<'src>,
    answer: &mut Answer,
    context: &HashMap<&'src str, Number>,
    bindings: &HashMap<&'src str, Number>,
    none: &HashMap<&'src str, Number>,
) {
    value.resolve_variables(None, bindings);
    push_resolved(before, value, answer);
    value.resolve_variables(Some(context), bindings);
    push_resolved(before, value, answer);
    value.resolve_variables(None, none);
    push_resolved(before, value, answer);
}

/// Writes the variables of a value, and how its earlier state compares with it.
fn push_resolved<'src>(before: &Expression<'src>, value: &Expression<'src>, answer: &mut Answer) {
    push_variables(value, answer);
    push_order(before, value, answer);
}

/// Writes the variables of the values that a setting holds.
fn push_setting(setting: &Setting<'_>, answer: &mut Answer) {
    push_found_variables(setting.expressions(answer.alloc()), answer);
}

/// Writes the variables of values that were collected.
pub fn push_found_variables<'a, 'src>(
    found: Result<Vec<&'a Expression<'src>>, AllocError>,
    answer: &mut Answer,
) {
    if push_each(found, answer).is_err() {
        answer.fail();
    }
}

fn push_each<'a, 'src>(
    found: Result<Vec<&'a Expression<'src>>, AllocError>,
    answer: &mut Answer,
) -> Result<(), AllocError> {
    let values = found?;
    for index in 0..values.len() {
        push_variables(values[index], answer);
    }
    Ok(())
}

/// Writes the variables of a value: the value itself if it is one, and those in it and in its
/// parts.
pub fn push_variables(value: &Expression<'_>, answer: &mut Answer) {
    push_variable(value, answer);
    for index in 0..usize::MAX {
        match value.child(index) {
            Some(part) => push_part(part, answer),
            None => return,
        }
    }
}

/// Writes the variables of a part: the part itself if it is one, and those in it.
fn push_part(part: &Expression<'_>, answer: &mut Answer) {
    push_variable(part, answer);
    for index in 0..usize::MAX {
        match part.child(index) {
            Some(inner) => push_variable(inner, answer),
            None => return,
        }
    }
}

/// Writes a variable with its number, if the expression is one.
fn push_variable(expression: &Expression<'_>, answer: &mut Answer) {
    if let Expression::Variable { name, number } = expression {
        push_numbered(answer, name, *number);
    }
}

/// Writes a name, with its number if it has one.
fn push_numbered(answer: &mut Answer, name: &Name<'_>, number: Option<Number>) {
    let mut shown = Text::new(answer.alloc());
    shown.put(name.lexeme());
    if let Some(number) = number {
        shown.put("=");
        shown.put_number(number.0 as usize);
    }
    answer.push_text(shown);
}
