//! The references of an item.
ghost use Rattle.std.specs.Prelude.{◌≡◌, ◌++◌, IfOk, IsPermutation, OnOk};
ghost use Rattle.std.specs.List.Sorted.{IsNonDecreasingBy};
ghost use Rattle.std.specs.List.{flat_map};
ghost use Rattle.justfile_item.specs.AllExpressions.{all_expressions};
ghost use Rattle.justfile_references.specs.References.{expression_uses, item_references};

use crate::names::push_names;
use crate::reference::{Reference, Role, push_use};
use justfile_expression::Expression;
use justfile_item::Item;
use std::alloc::{AllocError, Global};

/// Returns the names that an item defines and uses, in the order of the text: the names of recipes,
/// aliases, assignments, functions and parameters, the recipes that dependencies and aliases refer
/// to, and the variables and functions in all its expressions. Those of settings, modules and
/// imports aren't among them, nor what is in another module.
///
/// A parameter is used as a variable: if one of the item's own parameters has the name, the name
/// refers to that.
///
/// # Errors
///
/// `AllocError` if out of memory.
pub fn references<'src>(
    item: &Item<'src>,
    alloc: Global,
) -> Result<Vec<Reference<'src>>, AllocError>
    ensures all { IfOk result (λ found. IsPermutation (item_references item.now) found.items) }
    ensures in_order { IfOk result
        (λ found. IsNonDecreasingBy (λ r. r.token.offset) found.items) }
{
    let mut found = Vec::new(alloc);
    push_names(item, &mut found)?;
    push_uses(item, alloc, &mut found)?;
    found.sort_by_key(|reference| reference.token.offset)?;
    Ok(found)
}

/// Appends the variables and functions in all expressions of an item.
fn push_uses<'src>(
    item: &Item<'src>,
    alloc: Global,
    found: &mut Vec<Reference<'src>>,
) -> Result<(), AllocError>
    ensures { OnOk result (found.new.items
        ≡ found.old.items ++ flat_map expression_uses (all_expressions item.now)) }
{
    let expressions = item.all_expressions(alloc)?;
    for index in 0..expressions.len() {
        push_uses_of(expressions[index], found)?;
    }
    Ok(())
}

/// Appends the variable or the function that an expression names itself.
fn push_uses_of<'src>(
    expression: &Expression<'src>,
    found: &mut Vec<Reference<'src>>,
) -> Result<(), AllocError>
    ensures { OnOk result
        (found.new.items ≡ found.old.items ++ expression_uses expression.now) }
{
    match expression {
        Expression::Call { name, .. } => push_use(Role::Function, *name, found),
        Expression::Variable { name, .. } => push_use(Role::Variable, *name, found),
        Expression::And { .. }
        | Expression::Assert { .. }
        | Expression::Backtick { .. }
        | Expression::Comparison { .. }
        | Expression::Concatenation { .. }
        | Expression::Conditional { .. }
        | Expression::FormatString { .. }
        | Expression::Group { .. }
        | Expression::Join { .. }
        | Expression::List { .. }
        | Expression::ListConcatenation { .. }
        | Expression::Not { .. }
        | Expression::Or { .. }
        | Expression::StringLiteral { .. } => Ok(()),
    }
}
