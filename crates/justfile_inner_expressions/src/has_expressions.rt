//! Values that have expressions: how these are collected.
ghost use Rattle.std.specs.Prelude.{◌∷◌, [], List, OnOk};
ghost use Rattle.std.specs.List.{flat_map};
ghost use Rattle.justfile_inner_expressions.specs.Pushed.{ArePushed, optional_expressions};
ghost use Rattle.justfile_expression.specs.declared.expression.Expression.{Expression as AnExpression};

use justfile_expression::Expression;
use std::alloc::AllocError;

/// Values that have expressions.
pub trait HasExpressions<'src> {
    /// The expressions that the value has directly, in the order in which they are printed.
    ghost expressions: { Self → List AnExpression };

    /// Pushes references to the expressions that the value has directly, in the order in which
    /// they are printed. Returns an error if out of memory.
    fn push_expressions<'a>(
        &'a self,
        found: &mut Vec<&'a Expression<'src>>,
    ) -> Result<(), AllocError>
        ensures { OnOk result (ArePushed found.new found.old (expressions self.now)) };
}

/// Pushes references to the expressions of several values, one value after another.
///
/// # Errors
///
/// Memory runs out.
pub fn push_each<'a, 'src, T: HasExpressions<'src>>(
    values: &'a [T],
    found: &mut Vec<&'a Expression<'src>>,
) -> Result<(), AllocError>
    ensures { OnOk result (ArePushed found.new found.old (flat_map T.expressions values.now)) }
{
    for value in values {
        value.push_expressions(found)?;
    }
    Ok(())
}

/// Pushes references to several expressions.
///
/// # Errors
///
/// Memory runs out.
pub fn push_all<'a, 'src>(
    expressions: &'a [Expression<'src>],
    found: &mut Vec<&'a Expression<'src>>,
) -> Result<(), AllocError>
    ensures { OnOk result (ArePushed found.new found.old expressions.now) }
{
    for expression in expressions {
        push_expression(expression, found)?;
    }
    Ok(())
}

/// Pushes a reference to an expression, if there is one.
///
/// # Errors
///
/// Memory runs out.
pub fn push_optional<'a, 'src>(
    expression: &'a Option<Box<Expression<'src>>>,
    found: &mut Vec<&'a Expression<'src>>,
) -> Result<(), AllocError>
    ensures { OnOk result
        (ArePushed found.new found.old (optional_expressions expression.now)) }
{
    match expression {
        None => Ok(()),
        Some(expression) => push_expression(expression, found),
    }
}

/// Pushes a reference to an expression.
///
/// # Errors
///
/// Memory runs out.
pub fn push_expression<'a, 'src>(
    expression: &'a Expression<'src>,
    found: &mut Vec<&'a Expression<'src>>,
) -> Result<(), AllocError>
    ensures { OnOk result (ArePushed found.new found.old (expression.now ∷ [])) }
{
    found.push(expression)?;
    Ok(())
}
