//! Values that have expressions: how the variables of these are resolved.
ghost use Rattle.std.specs.Prelude.{ℕ, List, Option};
ghost use Rattle.std.specs.List.{AllZip};
ghost use Rattle.justfile_numbers.specs.declared.number.Number.{Number as ANumber};
ghost use Rattle.justfile_expression.specs.Resolved.{IsResolvedOption, number_of};

use justfile_expression::Expression;
use justfile_numbers::Number;
use std::collections::HashMap;

/// Values that have expressions with variables.
pub trait HasVariables<'src> {
    /// The variables of the first value have these numbers, and otherwise it is the second one.
    ghost is_resolved: { (List ℕ → Option ANumber) → Self → Self → Type 0 };

    /// Sets the number of each variable in the value's expressions, as
    /// `Expression::resolve_variables` does.
    fn resolve(
        &mut self,
        context: Option<&HashMap<&'src str, Number>>,
        bindings: &HashMap<&'src str, Number>,
    )
        ensures { is_resolved (number_of context.entry bindings.now) self.new self.old };
}

impl<'src> HasVariables<'src> for Expression<'src> {
    ghost use Rattle.justfile_expression.specs.Resolved.{IsResolved};

    ghost is_resolved = { IsResolved };

    fn resolve(
        &mut self,
        context: Option<&HashMap<&'src str, Number>>,
        bindings: &HashMap<&'src str, Number>,
    ) {
        self.resolve_variables(context, bindings);
    }
}

/// Sets the number of each variable in the expressions of each value, as
/// `Expression::resolve_variables` does.
pub fn resolve_each<'src, T: HasVariables<'src>>(
    values: &mut Vec<T>,
    context: Option<&HashMap<&'src str, Number>>,
    bindings: &HashMap<&'src str, Number>,
)
    ensures { AllZip (T.is_resolved (number_of context.entry bindings.now)) values.new.items
        values.old.items }
{
    for value in values.iter_mut() {
        value.resolve(context, bindings);
    }
}

/// Sets the number of each variable of an optional expression, as `Expression::resolve_variables`
/// does.
pub fn resolve_optional<'src>(
    expression: &mut Option<Box<Expression<'src>>>,
    context: Option<&HashMap<&'src str, Number>>,
    bindings: &HashMap<&'src str, Number>,
)
    ensures { IsResolvedOption (number_of context.entry bindings.now) expression.new
        expression.old }
{
    match expression {
        None => {}
        Some(expression) => expression.resolve_variables(context, bindings),
    }
}
