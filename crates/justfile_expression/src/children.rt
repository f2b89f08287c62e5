//! An expression as a start text and its children, with the text after each.
ghost use Rattle.std.specs.Prelude.{◌≡◌, ◌∷◌, ◌<◌, [], IsSome, codes};
ghost use Rattle.std.specs.List.{slice_get};
ghost use Rattle.justfile_token.specs.Token.{lexeme_of};
ghost use Rattle.justfile_model.specs.Printed.Printing.{is_conditional, operator_text};
ghost use Rattle.justfile_expression.specs.Expression.{expr_shape};
ghost use Rattle.justfile_leaves.specs.Texts.{text_alone, texts_of};
ghost use Rattle.justfile_expression.specs.Children.{assert_children, call_start, child_of, children, conditional_children, elements_to, format_children, format_start, join_children, join_start, list_start, of_option, start_texts, then_text, two_children};

use crate::expression::Expression;
use justfile_leaves::{Words, after_other, before_other};
use justfile_model::ConditionalOperator;
use justfile_token::{Name, StringLiteral};

/// Returns what is written before the first child, or the whole expression if it has no children.
#[inline(always)]
pub fn start<'src>(expression: &Expression<'src>) -> Words<'src>
    ensures { texts_of result ≡ start_texts expression.now }
{
    match expression {
        Expression::And { lhs, rhs } => words_before(lhs, ""),
        Expression::Assert { condition, .. } => words_before(condition, "assert("),
        Expression::Backtick { token, .. } => Words::token(token),
        Expression::Call { name, arguments } => call_start(name, arguments),
        Expression::Comparison { lhs, .. } => words_before(lhs, ""),
        Expression::Concatenation { lhs, .. } => words_before(lhs, ""),
        Expression::Conditional { condition, .. } => words_before(condition, "if "),
        Expression::FormatString { start, expressions } => format_start(start, expressions),
        Expression::Group { contents } => words_before(contents, "("),
        Expression::Join { lhs, .. } => join_start(lhs),
        Expression::List { elements, .. } => list_start(elements),
        Expression::ListConcatenation { lhs, .. } => words_before(lhs, ""),
        Expression::Not { operand } => words_before(operand, "!"),
        Expression::Or { lhs, .. } => words_before(lhs, ""),
        Expression::StringLiteral { string_literal } => Words::literal(string_literal),
        Expression::Variable { name, .. } => Words::name(name),
    }
}

/// Returns a piece before the first child. The unused `_child` fixes the lifetime of the result.
fn words_before<'src>(_child: &Expression<'src>, piece: &'static str) -> Words<'src>
    ensures { texts_of result ≡ text_alone piece.now }
{
    Words::piece(piece)
}

/// Returns a call's name with the opening parenthesis, or with both if there are no arguments.
fn call_start<'src>(name: &Name<'src>, arguments: &Vec<Expression<'src>>) -> Words<'src>
    ensures { texts_of result ≡ call_start (lexeme_of name.now.token) arguments.now.items }
{
    Words {
        before: "",
        marks: "",
        lexeme: name.token.lexeme(),
        after: if arguments.is_empty() { "()" } else { "(" },
    }
}

/// Returns the first part of a format string. It is always marked `f`, whatever its own marks.
fn format_start<'src>(
    first: &StringLiteral<'src>,
    expressions: &Vec<(Expression<'src>, StringLiteral<'src>)>,
) -> Words<'src>
    ensures { texts_of result ≡ format_start (lexeme_of first.now.token) expressions.now.items }
{
    Words {
        before: "",
        marks: "f",
        lexeme: first.token.lexeme(),
        after: if expressions.is_empty() { "" } else { " " },
    }
}

/// Returns the operator of a join if it has no left side, and otherwise an empty text.
fn join_start<'src>(lhs: &Option<Box<Expression<'src>>>) -> Words<'src>
    ensures { texts_of result ≡ join_start (of_option lhs.now) }
{
    match lhs {
        None => Words::piece("/ "),
        Some(_) => Words::piece(""),
    }
}

/// Returns the opening bracket of a list, or both brackets if it is empty.
fn list_start<'src>(elements: &Vec<Expression<'src>>) -> Words<'src>
    ensures { texts_of result ≡ list_start elements.now.items }
{
    Words::piece(if elements.is_empty() { "[]" } else { "[" })
}

/// Returns the child with this index, counted from 0, and what is written after it. Returns
/// `None` if there is no such child.
#[inline(always)]
pub fn child<'a, 'src>(
    expression: &'a Expression<'src>,
    index: usize,
) -> Option<(&'a Expression<'src>, Words<'src>)>
    ensures child { child_of result ≡ slice_get (children expression.now) index }
    ensures bounded { IsSome result → index < usize.MAX }
{
    match expression {
        Expression::And { lhs, rhs } => either_child(lhs, " && ", rhs, "", index),
        Expression::Assert {
            condition,
            message,
            ..
        } => assert_child(condition, message, index),
        Expression::Backtick { .. } => None,
        Expression::Call { arguments, .. } => element_child(arguments, ")", index),
        Expression::Comparison {
            lhs,
            operator,
            rhs,
            ..
        } => either_child(lhs, operator_piece(*operator), rhs, "", index),
        Expression::Concatenation { lhs, rhs, .. } => either_child(lhs, " + ", rhs, "", index),
        Expression::Conditional {
            condition,
            then: branch,
            otherwise,
        } => conditional_child(condition, branch, otherwise, index),
        Expression::FormatString { expressions, .. } => format_child(expressions, index),
        Expression::Group { contents } => only_child(contents, ")", index),
        Expression::Join { lhs, rhs, .. } => join_child(lhs, rhs, index),
        Expression::List { elements, .. } => element_child(elements, "]", index),
        Expression::ListConcatenation { lhs, rhs, .. } => either_child(lhs, " ++ ", rhs, "", index),
        Expression::Not { operand } => only_child(operand, "", index),
        Expression::Or { lhs, rhs } => either_child(lhs, " || ", rhs, "", index),
        Expression::StringLiteral { .. } => None,
        Expression::Variable { .. } => None,
    }
}

/// Returns the condition of an `assert` or its message.
fn assert_child<'a, 'src>(
    condition: &'a Expression<'src>,
    message: &'a Option<Box<Expression<'src>>>,
    index: usize,
) -> Option<(&'a Expression<'src>, Words<'src>)>
    ensures child { child_of result
        ≡ slice_get (assert_children condition.now (of_option message.now)) index }
    ensures bounded { IsSome result → index < usize.MAX }
{
    match message {
        None => only_child(condition, ")", index),
        Some(message) => either_child(condition, ", ", message, ")", index),
    }
}

/// Returns the condition of a conditional or one of its branches. The `else` branch is written in
/// braces unless it is a conditional itself.
fn conditional_child<'a, 'src>(
    condition: &'a Expression<'src>,
    branch: &'a Expression<'src>,
    otherwise: &'a Option<Box<Expression<'src>>>,
    index: usize,
) -> Option<(&'a Expression<'src>, Words<'src>)>
    ensures child { child_of result ≡ slice_get
        (conditional_children condition.now branch.now (of_option otherwise.now)) index }
    ensures bounded { IsSome result → index < usize.MAX }
{
    match otherwise {
        None => either_child(condition, " { ", branch, " }", index),
        Some(other) => {
            if index == 0 {
                return Some((condition, Words::piece(" { ")));
            }
            let nested = is_conditional(other);
            either_child(
                branch,
                before_other(nested),
                other,
                after_other(nested),
                index - 1,
            )
        }
    }
}

/// Returns a side of a join.
fn join_child<'a, 'src>(
    lhs: &'a Option<Box<Expression<'src>>>,
    rhs: &'a Expression<'src>,
    index: usize,
) -> Option<(&'a Expression<'src>, Words<'src>)>
    ensures child { child_of result ≡ slice_get (join_children (of_option lhs.now) rhs.now) index }
    ensures bounded { IsSome result → index < usize.MAX }
{
    match lhs {
        None => only_child(rhs, "", index),
        Some(lhs) => either_child(lhs, " / ", rhs, "", index),
    }
}

/// Returns one of two children, with `between` after the first and `closing` after the second.
fn either_child<'a, 'src>(
    lhs: &'a Expression<'src>,
    between: &'static str,
    rhs: &'a Expression<'src>,
    closing: &'static str,
    index: usize,
) -> Option<(&'a Expression<'src>, Words<'src>)>
    ensures child { child_of result
        ≡ slice_get (two_children lhs.now between.now rhs.now closing.now) index }
    ensures bounded { IsSome result → index < usize.MAX }
{
    if index == 0 {
        Some((lhs, Words::piece(between)))
    } else {
        only_child(rhs, closing, index - 1)
    }
}

/// Returns the only child if `index` is 0, with `closing` after it.
fn only_child<'a, 'src>(
    expression: &'a Expression<'src>,
    closing: &'static str,
    index: usize,
) -> Option<(&'a Expression<'src>, Words<'src>)>
    ensures child { child_of result ≡ slice_get (then_text closing.now expression.now ∷ []) index }
    ensures bounded { IsSome result → index < usize.MAX }
{
    if index == 0 {
        Some((expression, Words::piece(closing)))
    } else {
        None
    }
}

/// Returns the element with this index, with a comma after it, or `closing` if it is the
/// last.
fn element_child<'a, 'src>(
    expressions: &'a Vec<Expression<'src>>,
    closing: &'static str,
    index: usize,
) -> Option<(&'a Expression<'src>, Words<'src>)>
    ensures child { child_of result
        ≡ slice_get (elements_to closing.now expressions.now.items) index }
    ensures bounded { IsSome result → index < usize.MAX }
{
    if expressions.len() <= index {
        return None;
    }
    let expression = &expressions[index];
    if index + 1 == expressions.len() {
        Some((expression, Words::piece(closing)))
    } else {
        Some((expression, Words::piece(", ")))
    }
}

/// Returns the expression with this index of a format string, with the part after it.
fn format_child<'a, 'src>(
    expressions: &'a Vec<(Expression<'src>, StringLiteral<'src>)>,
    index: usize,
) -> Option<(&'a Expression<'src>, Words<'src>)>
    ensures child { child_of result ≡ slice_get (format_children expressions.now.items) index }
    ensures bounded { IsSome result → index < usize.MAX }
{
    if expressions.len() <= index {
        return None;
    }
    let (expression, literal) = &expressions[index];
    if index + 1 == expressions.len() {
        Some((expression, Words::part(literal, "")))
    } else {
        Some((expression, Words::part(literal, " ")))
    }
}

/// Returns a comparison operator with the spaces around it.
#[tactic(auto, unfolding(justfile_model::specs::Printed::Printing::fixed_text))]
fn operator_piece(operator: ConditionalOperator) -> &'static str
    ensures { result.now ≡ operator_text operator }
{
    match operator {
        ConditionalOperator::Equality => " == ",
        ConditionalOperator::Inequality => " != ",
        ConditionalOperator::RegexMatch => " =~ ",
        ConditionalOperator::RegexMismatch => " !~ ",
    }
}

/// Whether an expression is a conditional.
fn is_conditional(expression: &Expression<'_>) -> bool
    ensures { result ≡ is_conditional (expr_shape expression.now) }
{
    matches!(expression, Expression::Conditional { .. })
}
