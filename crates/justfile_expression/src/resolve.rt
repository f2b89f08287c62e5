//! Resolution of variables: the number of the binding that each one refers to.
ghost use Rattle.std.specs.Prelude.{◌≡◌, ◌<◌, None, IfSome, is_some};
ghost use Rattle.std.specs.List.{AllZip};
ghost use Rattle.justfile_token.specs.Name.{name_text};
ghost use Rattle.justfile_expression.specs.Resolved.{IsResolved, IsResolvedOption, IsResolvedPart, number_of, numbers_of};
ghost use Rattle.justfile_expression.specs.ResolvedSteps.{IsExchanged, IsResolvedLeft, rejoined};
ghost use Rattle.justfile_expression.specs.RightSides.{right_side};
ghost use Rattle.justfile_expression.specs.declared.expression.Expression.{size-Expression};

use crate::expression;
use crate::expression::Expression;
use justfile_numbers::Number;
use justfile_token::{Name, StringLiteral, Token};
use justfile_vocabulary::TokenKind;
use std::collections::HashMap;
use std::mem;

/// The numbers of names. A context, if there is one, takes precedence over the bindings.
#[derive(Clone, Copy)]
struct Numbers<'a, 'src> {
    context: Option<&'a HashMap<&'src str, Number>>,
    bindings: &'a HashMap<&'src str, Number>,
}

impl<'a, 'src> Numbers<'a, 'src> {
    /// Returns the number of a name, or `None` if it has none.
    #[tactic(auto, unfolding(crate::specs::Resolved::numbers_of))]
    fn number(&self, name: &Name<'src>) -> Option<Number>
        ensures { result ≡ numbers_of self.now (name_text name.now) }
    {
        let lexeme = name.lexeme();
        if let Some(context) = self.context {
            if let Some(number) = context.get(lexeme) {
                return Some(*number);
            }
        }
        self.bindings.get(lexeme).copied()
    }
}

impl<'src> Expression<'src> {
    /// Sets the number of each variable to that of its name in the context, or else in the
    /// bindings, or else to `None`. Nothing else changes.
    #[tactic(auto, unfolding(crate::specs::Resolved::numbers_of))]
    pub fn resolve_variables(
        &mut self,
        context: Option<&HashMap<&'src str, Number>>,
        bindings: &HashMap<&'src str, Number>,
    )
        ensures { IsResolved (number_of context.entry bindings.now) self.new self.old }
    {
        resolve(self, &Numbers { context, bindings });
    }
}

/// Sets the number of each variable of an expression. Expressions nest to the right without a
/// limit, so a loop goes along the right sides, and another one back.
#[cycle(resolve)]
fn resolve<'src>(expression: &mut Expression<'src>, numbers: &Numbers<'_, 'src>)
    ensures { IsResolved (numbers_of numbers.now) expression.new expression.old }
{
    let mut parents = placeholder();
    resolve_chain(expression, &mut parents, numbers);
    rejoin(expression, &mut parents);
}

/// Returns an expression without a right side that takes no memory.
fn placeholder<'src>() -> Expression<'src>
    ensures { right_side result ≡ None }
{
    let token = Token {
        column: 0,
        kind: TokenKind::Identifier,
        length: 0,
        line: 0,
        offset: 0,
        path: "",
        src: "",
    };
    Expression::Variable {
        name: Name::from_identifier(token),
        number: None,
    }
}

/// Sets the numbers of the variables of an expression, of its right side, of the right side of that
/// one, and so on. `expression` ends as the last of these, and `parents` as the others, from the
/// inside out: each has the next one in the place of its right side.
#[cycle(resolve)]
fn resolve_chain<'src>(
    expression: &mut Expression<'src>,
    parents: &mut Expression<'src>,
    numbers: &Numbers<'_, 'src>,
)
    requires { right_side parents.old ≡ None }
    ensures { IsResolved (numbers_of numbers.now) (rejoined parents.new expression.new)
        expression.old }
{
    while has_right(expression) {
        resolve_left(expression, numbers);
        exchange_right(expression, parents);
        mem::swap(expression, parents);
    }
    resolve_left(expression, numbers);
}

/// Joins an expression with its parents, from the inside out.
fn rejoin<'src>(expression: &mut Expression<'src>, parents: &mut Expression<'src>)
    ensures { expression.new ≡ rejoined parents.old expression.old }
{
    while has_right(parents) {
        exchange_right(parents, expression);
        mem::swap(parents, expression);
    }
}

/// Whether an expression has a right side. That one is less deep.
fn has_right(expression: &Expression<'_>) -> bool
    ensures has_right { result ≡ is_some (right_side expression.now) }
    ensures smaller { IfSome (right_side expression.now)
        (λ right. size-Expression right < size-Expression expression.now) }
{
    expression::right_side(expression).is_some()
}

/// Exchanges the right side of an expression, if it has one, and `other`.
fn exchange_right<'src>(expression: &mut Expression<'src>, other: &mut Expression<'src>)
    ensures { IsExchanged expression.old other.old expression.new other.new
        (right_side expression.old) }
{
    match expression {
        Expression::And { rhs, .. } => mem::swap(rhs.as_mut(), other),
        Expression::Assert { .. } => {}
        Expression::Backtick { .. } => {}
        Expression::Call { .. } => {}
        Expression::Comparison { rhs, .. } => mem::swap(rhs.as_mut(), other),
        Expression::Concatenation { rhs, .. } => mem::swap(rhs.as_mut(), other),
        Expression::Conditional { otherwise, .. } => {
            if let Some(otherwise) = otherwise {
                mem::swap(otherwise.as_mut(), other);
            }
        }
        Expression::FormatString { .. } => {}
        Expression::Group { .. } => {}
        Expression::Join { rhs, .. } => mem::swap(rhs.as_mut(), other),
        Expression::List { .. } => {}
        Expression::ListConcatenation { rhs, .. } => mem::swap(rhs.as_mut(), other),
        Expression::Not { operand } => mem::swap(operand.as_mut(), other),
        Expression::Or { rhs, .. } => mem::swap(rhs.as_mut(), other),
        Expression::StringLiteral { .. } => {}
        Expression::Variable { .. } => {}
    }
}

/// Sets the numbers of the variables of an expression, except for those in its right side.
#[cycle(resolve)]
fn resolve_left<'src>(expression: &mut Expression<'src>, numbers: &Numbers<'_, 'src>)
    ensures { IsResolvedLeft (numbers_of numbers.now) expression.new expression.old }
{
    match expression {
        Expression::And { lhs, .. } => resolve(lhs, numbers),
        Expression::Assert { condition, .. } => {
            resolve(condition, numbers);
            if let Expression::Assert { message, .. } = expression {
                resolve_option(message, numbers);
            }
        }
        Expression::Backtick { .. } => {}
        Expression::Call { arguments, .. } => resolve_all(arguments, numbers),
        Expression::Comparison { lhs, .. } => resolve(lhs, numbers),
        Expression::Concatenation { lhs, .. } => resolve(lhs, numbers),
        Expression::Conditional { condition, .. } => {
            resolve(condition, numbers);
            if let Expression::Conditional { then: branch, .. } = expression {
                resolve(branch, numbers);
            }
        }
        Expression::FormatString { expressions, .. } => resolve_parts(expressions, numbers),
        Expression::Group { contents } => resolve(contents, numbers),
        Expression::Join { lhs, .. } => resolve_option(lhs, numbers),
        Expression::List { elements, .. } => resolve_all(elements, numbers),
        Expression::ListConcatenation { lhs, .. } => resolve(lhs, numbers),
        Expression::Not { .. } => {}
        Expression::Or { lhs, .. } => resolve(lhs, numbers),
        Expression::StringLiteral { .. } => {}
        Expression::Variable { name, .. } => {
            let found = numbers.number(name);
            if let Expression::Variable { number, .. } = expression {
                *number = found;
            }
        }
    }
}

/// Sets the numbers of the variables of an optional expression.
#[cycle(resolve)]
fn resolve_option<'src>(expression: &mut Option<Box<Expression<'src>>>, numbers: &Numbers<'_, 'src>)
    ensures { IsResolvedOption (numbers_of numbers.now) expression.new expression.old }
{
    match expression {
        None => {}
        Some(expression) => resolve(expression, numbers),
    }
}

/// Sets the numbers of the variables of several expressions.
#[cycle(resolve)]
fn resolve_all<'src>(expressions: &mut Vec<Expression<'src>>, numbers: &Numbers<'_, 'src>)
    ensures { AllZip (IsResolved (numbers_of numbers.now)) expressions.new.items
        expressions.old.items }
{
    for expression in expressions.iter_mut() {
        resolve(expression, numbers);
    }
}

/// Sets the numbers of the variables in the expressions of a format string.
#[cycle(resolve)]
fn resolve_parts<'src>(
    parts: &mut Vec<(Expression<'src>, StringLiteral<'src>)>,
    numbers: &Numbers<'_, 'src>,
)
    ensures { AllZip (IsResolvedPart (numbers_of numbers.now)) parts.new.items parts.old.items }
{
    for part in parts.iter_mut() {
        resolve(&mut part.0, numbers);
    }
}
