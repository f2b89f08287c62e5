//! The expressions that a parameter may have or not: how they are copied, collected and resolved.
ghost use Rattle.std.specs.Prelude.{◌≡◌, IfOk, OnOk, option_map, option_to_list};
ghost use Rattle.justfile_expression.specs.Resolved.{IsResolved, number_of};
ghost use Rattle.justfile_inner_expressions.specs.Pushed.{ArePushed};
ghost use Rattle.justfile_recipe_header.specs.Copies.{IsCopyInBox};
ghost use Rattle.justfile_token.specs.Copies.{IsSameIfPresent};

use justfile_expression::{Expression, copy_boxed};
use justfile_inner_expressions::push_expression;
use justfile_numbers::Number;
use std::alloc::{AllocError, Global};
use std::collections::HashMap;

/// Returns a copy of an expression in a box, if there is one.
///
/// # Errors
///
/// Memory runs out.
pub(crate) fn copy_in_box<'src>(
    alloc: Global,
    expression: &Option<Expression<'src>>,
) -> Result<Option<Box<Expression<'src>>>, AllocError>
    ensures { IfOk result (λ copy. IsCopyInBox copy expression.now) }
{
    match expression {
        None => Ok(None),
        Some(expression) => Ok(Some(copy_boxed(alloc, expression)?)),
    }
}

/// Takes an expression out of its box, if there is one.
pub fn unboxed<'src>(expression: Option<Box<Expression<'src>>>) -> Option<Expression<'src>>
    ensures { result ≡ option_map (λ e. e.value) expression.entry }
{
    match expression {
        None => None,
        Some(expression) => Some(Box::into_inner(expression)),
    }
}

/// Pushes a reference to an expression, if there is one.
///
/// # Errors
///
/// Memory runs out.
pub(crate) fn push_present<'a, 'src>(
    expression: &'a Option<Expression<'src>>,
    found: &mut Vec<&'a Expression<'src>>,
) -> Result<(), AllocError>
    ensures { OnOk result (ArePushed found.new found.old (option_to_list expression.now)) }
{
    match expression {
        None => Ok(()),
        Some(expression) => push_expression(expression, found),
    }
}

/// Sets the number of each variable of an expression, if there is one, as
/// `Expression::resolve_variables` does.
pub(crate) fn resolve_present<'src>(
    expression: &mut Option<Expression<'src>>,
    context: Option<&HashMap<&'src str, Number>>,
    bindings: &HashMap<&'src str, Number>,
)
    ensures { IsSameIfPresent (IsResolved (number_of context.entry bindings.now)) expression.new
        expression.old }
{
    match expression {
        None => {}
        Some(expression) => expression.resolve_variables(context, bindings),
    }
}
