//! The order of the fields of attributes by content, ignoring positions.
ghost use Rattle.std.specs.Prelude.{◌≡◌};
ghost use Rattle.std.specs.Cmp.Lexicographic.{slice_cmp};
ghost use Rattle.std.specs.Ordering.{on, ordering_then};
ghost use Rattle.justfile_model.specs.Trees.Key.{option_key};
ghost use Rattle.justfile_attribute.specs.Order.{boxed_key, by_content, count_key, expression_key, interpreter_key, literal_key, name_key, property_key, text_key, token_key};

use crate::interpreter::Interpreter;
use justfile_expression::Expression;
use justfile_leaves::{literal_content_cmp, token_content_cmp};
use justfile_token::{Name, StringLiteral, Token};
use std::cmp::Ordering;

/// Compares two optional tokens. An absent one comes first.
pub fn compare_tokens<'src>(token: &Option<Token<'src>>, other: &Option<Token<'src>>) -> Ordering
    ensures { result
        ≡ by_content (option_key token_key token.now) (option_key token_key other.now) }
{
    match token {
        None => match other {
            None => Ordering::Equal,
            Some(_) => Ordering::Less,
        },
        Some(token) => match other {
            None => Ordering::Greater,
            Some(other) => token_content_cmp(token, other),
        },
    }
}

/// Compares two optional texts. An absent one comes first.
pub fn compare_texts(text: &Option<String>, other: &Option<String>) -> Ordering
    ensures { result ≡ by_content (option_key text_key text.now) (option_key text_key other.now) }
{
    match text {
        None => match other {
            None => Ordering::Equal,
            Some(_) => Ordering::Less,
        },
        Some(text) => match other {
            None => Ordering::Greater,
            Some(other) => text.as_str().cmp(other.as_str()),
        },
    }
}

/// Compares the names of two options: their literals, and then their keys without a value.
pub fn compare_named<'src>(
    literal: &Option<StringLiteral<'src>>,
    key: &Option<Name<'src>>,
    other_literal: &Option<StringLiteral<'src>>,
    other_key: &Option<Name<'src>>,
) -> Ordering
    ensures { result ≡ ordering_then (by_content (option_key literal_key literal.now)
        (option_key literal_key other_literal.now))
        (by_content (option_key name_key key.now) (option_key name_key other_key.now)) }
{
    compare_literals(literal, other_literal).then(compare_names(key, other_key))
}

/// Compares two optional literals. An absent one comes first.
fn compare_literals<'src>(
    literal: &Option<StringLiteral<'src>>,
    other: &Option<StringLiteral<'src>>,
) -> Ordering
    ensures { result
        ≡ by_content (option_key literal_key literal.now) (option_key literal_key other.now) }
{
    match literal {
        None => match other {
            None => Ordering::Equal,
            Some(_) => Ordering::Less,
        },
        Some(literal) => match other {
            None => Ordering::Greater,
            Some(other) => literal_content_cmp(literal, other),
        },
    }
}

/// Compares two numbers, and then their keys.
pub fn compare_bounds<'src>(
    number: &Option<u64>,
    key: &Option<Name<'src>>,
    other_number: &Option<u64>,
    other_key: &Option<Name<'src>>,
) -> Ordering
    ensures { result ≡ ordering_then (by_content (option_key count_key number.now)
        (option_key count_key other_number.now))
        (by_content (option_key name_key key.now) (option_key name_key other_key.now)) }
{
    compare_numbers(number, other_number).then(compare_names(key, other_key))
}

/// Compares two optional numbers. An absent one comes first.
fn compare_numbers(number: &Option<u64>, other: &Option<u64>) -> Ordering
    ensures { result
        ≡ by_content (option_key count_key number.now) (option_key count_key other.now) }
{
    match number {
        None => match other {
            None => Ordering::Equal,
            Some(_) => Ordering::Less,
        },
        Some(number) => match other {
            None => Ordering::Greater,
            Some(other) => number.cmp(other),
        },
    }
}

/// Compares two optional names. An absent one comes first.
fn compare_names<'src>(name: &Option<Name<'src>>, other: &Option<Name<'src>>) -> Ordering
    ensures { result ≡ by_content (option_key name_key name.now) (option_key name_key other.now) }
{
    match name {
        None => match other {
            None => Ordering::Equal,
            Some(_) => Ordering::Less,
        },
        Some(name) => match other {
            None => Ordering::Greater,
            Some(other) => token_content_cmp(&name.token, &other.token),
        },
    }
}

/// Compares two optional expressions. An absent one comes first.
pub fn compare_optional<'src>(
    expression: &Option<Box<Expression<'src>>>,
    other: &Option<Box<Expression<'src>>>,
) -> Ordering
    ensures { result
        ≡ by_content (option_key boxed_key expression.now) (option_key boxed_key other.now) }
{
    match expression {
        None => match other {
            None => Ordering::Equal,
            Some(_) => Ordering::Less,
        },
        Some(expression) => match other {
            None => Ordering::Greater,
            Some(other) => compare_expressions(expression, other),
        },
    }
}

/// Compares two optional keys with their values. An absent one comes first.
pub fn compare_properties<'src>(
    property: &Option<(Name<'src>, Box<Expression<'src>>)>,
    other: &Option<(Name<'src>, Box<Expression<'src>>)>,
) -> Ordering
    ensures { result
        ≡ by_content (option_key property_key property.now) (option_key property_key other.now) }
{
    match property {
        None => match other {
            None => Ordering::Equal,
            Some(_) => Ordering::Less,
        },
        Some((key, value)) => match other {
            None => Ordering::Greater,
            Some((other_key, other_value)) => compare_property(key, value, other_key, other_value),
        },
    }
}

/// Compares two keys, and then their values.
fn compare_property<'src>(
    key: &Name<'src>,
    value: &Box<Expression<'src>>,
    other_key: &Name<'src>,
    other_value: &Box<Expression<'src>>,
) -> Ordering
    ensures { result ≡ by_content (property_key (key.now, value.now))
        (property_key (other_key.now, other_value.now)) }
{
    token_content_cmp(&key.token, &other_key.token).then(compare_expressions(value, other_value))
}

/// Compares two expressions.
#[tactic(auto, using(crate::proofs::Ordered::expressions_compare))]
pub fn compare_expressions<'src>(
    expression: &Expression<'src>,
    other: &Expression<'src>,
) -> Ordering
    ensures { result ≡ by_content (expression_key expression.now) (expression_key other.now) }
{
    expression.content_cmp(other)
}

/// Compares two optional interpreters. An absent one comes first.
pub fn compare_interpreters<'src>(
    interpreter: &Option<Interpreter<StringLiteral<'src>>>,
    other: &Option<Interpreter<StringLiteral<'src>>>,
) -> Ordering
    ensures { result ≡ by_content (option_key interpreter_key interpreter.now)
        (option_key interpreter_key other.now) }
{
    match interpreter {
        None => match other {
            None => Ordering::Equal,
            Some(_) => Ordering::Less,
        },
        Some(interpreter) => match other {
            None => Ordering::Greater,
            Some(other) => compare_commands(interpreter, other),
        },
    }
}

/// Compares the commands of two interpreters, and then their arguments.
fn compare_commands<'src>(
    interpreter: &Interpreter<StringLiteral<'src>>,
    other: &Interpreter<StringLiteral<'src>>,
) -> Ordering
    ensures { result ≡ by_content (interpreter_key interpreter.now) (interpreter_key other.now) }
{
    literal_content_cmp(&interpreter.command, &other.command).then(compare_rows(
        &interpreter.arguments,
        &other.arguments,
    ))
}

/// Compares two lists of literals from the left. A list comes before its continuations.
pub fn compare_rows<'src>(
    literals: &Vec<StringLiteral<'src>>,
    others: &Vec<StringLiteral<'src>>,
) -> Ordering
    ensures { result ≡ slice_cmp (on literal_key by_content) literals.now.items others.now.items }
{
    for (i, literal) in literals.iter().enumerate() {
        if others.len() <= i {
            return Ordering::Greater;
        }
        let order = literal_content_cmp(literal, &others[i]);
        if order.is_ne() {
            return order;
        }
    }
    literals.len().cmp(&others.len())
}
