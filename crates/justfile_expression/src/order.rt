//! The orders of expressions: by the declared order of the cases, and within a case by its fields
//! in declared order. Tokens compare with or without their positions.
ghost use Rattle.std.specs.Prelude.{◌≡◌, Some, string_bytes};
ghost use Rattle.std.proofs.Common.{refl};
ghost use Rattle.std.specs.Cmp.{eq_by_cmp_equiv, on_total, partial_equiv_from_equiv, partial_order_from_total};
ghost use Rattle.std.specs.Cmp.Lexicographic.{slice_cmp};
ghost use Rattle.std.specs.Ordering.{eq_by_cmp, nat_cmp, on};
ghost use Rattle.justfile_model.specs.Trees.ExpressionCases.{case_label, case_node};
ghost use Rattle.justfile_model.specs.Trees.Key.{label, end, next, sequence, keys_of, key_cmp};
ghost use Rattle.justfile_model.specs.Trees.KeyLaws.{key_total};
ghost use Rattle.justfile_model.specs.declared.expression_case.ExpressionCase.TheVariants as cases;
ghost use Rattle.justfile_expression.specs.Content.{expression_content_cmp, leaf_order};
ghost use Rattle.justfile_expression.specs.Leaf.{token, token_key, literal_key, operator_key, number_key, text_key};
ghost use Rattle.justfile_expression.specs.LeafLaws.{leaf_total};
ghost use Rattle.justfile_expression.specs.Order.{expression_cmp, key, option_key, part_key};
ghost use Rattle.justfile_expression.specs.OrderSteps.{both_cmp, left_key, option_presence, token_after};

use crate::expression::{Expression, right_side};
use crate::leaf_order::LeafOrder;
use justfile_model::{ConditionalOperator, ExpressionCase};
use justfile_numbers::Number;
use justfile_token::{Name, StringLiteral, Token};
use std::cmp::Ordering;

impl Expression<'_> {
    /// Compares two expressions by content: as `cmp`, but tokens compare by kind and lexeme alone,
    /// and the numbers of variables are ignored.
    #[tactic(auto, unfolding(crate::specs::Content::leaf_order))]
    pub fn content_cmp(&self, other: &Self) -> Ordering
        ensures { result ≡ expression_content_cmp self.now other.now }
    {
        compare(LeafOrder::Content, self, other)
    }
}

/// Two expressions are equal if `cmp` returns `Equal`.
impl PartialEq for Expression<'_> {
    ghost eq = { eq_by_cmp expression_cmp };

    ghost laws = { partial_equiv_from_equiv
        (eq_by_cmp_equiv (on_total key (key_total leaf_total))) };

    fn eq(&self, other: &Self) -> bool {
        compare_whole(self, other).is_eq()
    }
}

impl Eq for Expression<'_> {
    ghost laws = { eq_by_cmp_equiv (on_total key (key_total leaf_total)) };
}

impl PartialOrd for Expression<'_> {
    ghost partial_cmp = { λ a b. Some (expression_cmp a b) };

    ghost laws = { partial_order_from_total (on_total key (key_total leaf_total)) };

    fn partial_cmp(&self, other: &Self) -> Option<Ordering> {
        Some(compare_whole(self, other))
    }
}

impl Ord for Expression<'_> {
    ghost cmp = { expression_cmp };

    ghost total = { on_total key (key_total leaf_total) };

    ghost matches_partial_cmp = { λ a b. refl };

    ghost matches_eq = { λ a b. refl };

    fn cmp(&self, other: &Self) -> Ordering {
        compare_whole(self, other)
    }
}

/// Compares two expressions by all their fields, positions included.
#[tactic(auto, unfolding(crate::specs::Content::leaf_order))]
fn compare_whole<'src>(expression: &Expression<'src>, other: &Expression<'src>) -> Ordering
    ensures { result ≡ expression_cmp expression.now other.now }
{
    compare(LeafOrder::Whole, expression, other)
}

/// Compares two expressions: by the declared order of the cases, and within a case by its fields in
/// declared order. Expressions nest to the right without a limit, so a loop goes along the right
/// sides of both. `after` is the order of what follows these; it decides only if they are equal.
#[cycle(order)]
fn compare<'src>(
    leaves: LeafOrder,
    expression: &Expression<'src>,
    other: &Expression<'src>,
) -> Ordering
    ensures { result ≡ key_cmp (leaf_order leaves) (key expression.now) (key other.now) }
{
    let mut after = Ordering::Equal;
    let mut rest = Some(expression);
    let mut other_rest = Some(other);
    while let Some(next) = rest {
        let Some(other_next) = other_rest else {
            return after;
        };
        let order = compare_left(leaves, next, other_next);
        if order.is_ne() {
            return order;
        }
        after = compare_after(leaves, next, other_next).then(after);
        rest = right_side(next);
        other_rest = right_side(other_next);
    }
    after
}

/// Compares what follows the right sides of two expressions: for comparisons the tokens of their
/// operators, and otherwise nothing.
fn compare_after<'src>(
    leaves: LeafOrder,
    expression: &Expression<'src>,
    other: &Expression<'src>,
) -> Ordering
    ensures { result ≡ both_cmp (λ s t. leaf_order leaves (token s) (token t))
        (token_after expression.now) (token_after other.now) }
{
    match expression {
        Expression::Comparison { token, .. } => match other {
            Expression::Comparison {
                token: other_token,
                ..
            } => leaves.tokens(token, other_token),
            _ => Ordering::Equal,
        },
        _ => Ordering::Equal,
    }
}

/// Compares two expressions up to their right sides; conditionals also by whether they have an
/// `else` branch.
#[cycle(order)]
fn compare_left<'src>(
    leaves: LeafOrder,
    expression: &Expression<'src>,
    other: &Expression<'src>,
) -> Ordering
    ensures { result ≡ key_cmp (leaf_order leaves) (left_key expression.now) (left_key other.now) }
{
    match expression {
        Expression::And { lhs, .. } => compare_and(leaves, lhs, other),
        Expression::Assert {
            condition,
            message,
            name,
        } => compare_assert(leaves, condition, message, name, other),
        Expression::Backtick { contents, token } => compare_backtick(
            leaves, contents, token, other,
        ),
        Expression::Call { name, arguments } => compare_call(leaves, name, arguments, other),
        Expression::Comparison { lhs, operator, .. } => compare_comparison(
            leaves, lhs, operator, other,
        ),
        Expression::Concatenation { lhs, operator, .. } => compare_concatenation(
            leaves, lhs, operator, other,
        ),
        Expression::Conditional {
            condition,
            then: branch,
            otherwise,
        } => compare_conditional(leaves, condition, branch, otherwise, other),
        Expression::FormatString { start, expressions } => compare_format_string(
            leaves,
            start,
            expressions,
            other,
        ),
        Expression::Group { contents } => compare_group(leaves, contents, other),
        Expression::Join { lhs, operator, .. } => compare_join(leaves, lhs, operator, other),
        Expression::List { elements, opener } => compare_list(leaves, elements, opener, other),
        Expression::ListConcatenation { lhs, operator, .. } => compare_list_concatenation(
            leaves, lhs, operator, other,
        ),
        Expression::Not { .. } => compare_not(leaves, other),
        Expression::Or { lhs, .. } => compare_or(leaves, lhs, other),
        Expression::StringLiteral { string_literal } => compare_string_literal(
            leaves,
            string_literal,
            other,
        ),
        Expression::Variable { name, number } => compare_variable(leaves, name, number, other),
    }
}

/// Compares a conjunction, given by its left side, to another expression up to the right sides.
#[cycle(order)]
fn compare_and<'src>(
    leaves: LeafOrder,
    lhs: &Expression<'src>,
    other: &Expression<'src>,
) -> Ordering
    ensures { result ≡ key_cmp (leaf_order leaves) (case_node cases.And (next (key lhs.now) end))
        (left_key other.now) }
{
    match other {
        Expression::And { lhs: other_lhs, .. } => compare(leaves, lhs, other_lhs),
        _ => compare_case(ExpressionCase::And, other),
    }
}

/// Compares an assertion, given by its fields, to another expression.
#[cycle(order)]
fn compare_assert<'src>(
    leaves: LeafOrder,
    condition: &Expression<'src>,
    message: &Option<Box<Expression<'src>>>,
    name: &Name<'src>,
    other: &Expression<'src>,
) -> Ordering
    ensures { result ≡ key_cmp (leaf_order leaves) (case_node cases.Assert
        (next (key condition.now) (next (option_key message.now)
        (next (token_key name.now.token) end)))) (left_key other.now) }
{
    match other {
        Expression::Assert {
            condition: other_condition,
            message: other_message,
            name: other_name,
        } => compare(leaves, condition, other_condition)
            .then(compare_options(leaves, message, other_message))
            .then(leaves.tokens(&name.token, &other_name.token)),
        _ => compare_case(ExpressionCase::Assert, other),
    }
}

/// Compares a command, given by its fields, to another expression.
fn compare_backtick<'src>(
    leaves: LeafOrder,
    contents: &String,
    token: &Token<'src>,
    other: &Expression<'src>,
) -> Ordering
    ensures { result ≡ key_cmp (leaf_order leaves) (case_node cases.Backtick
        (next (text_key (string_bytes contents.now)) (next (token_key token.now) end)))
        (left_key other.now) }
{
    match other {
        Expression::Backtick {
            contents: other_contents,
            token: other_token,
        } => leaves
            .texts(contents.as_str(), other_contents.as_str())
            .then(leaves.tokens(token, other_token)),
        _ => compare_case(ExpressionCase::Backtick, other),
    }
}

/// Compares a call, given by its fields, to another expression.
#[cycle(order)]
fn compare_call<'src>(
    leaves: LeafOrder,
    name: &Name<'src>,
    arguments: &Vec<Expression<'src>>,
    other: &Expression<'src>,
) -> Ordering
    ensures { result ≡ key_cmp (leaf_order leaves) (case_node cases.Call
        (next (token_key name.now.token) (next (sequence (keys_of key arguments.now.items)) end)))
        (left_key other.now) }
{
    match other {
        Expression::Call {
            name: other_name,
            arguments: other_arguments,
        } => leaves
            .tokens(&name.token, &other_name.token)
            .then(compare_all(leaves, arguments, other_arguments)),
        _ => compare_case(ExpressionCase::Call, other),
    }
}

/// Compares a comparison, given by what comes before its right side, to another expression up to
/// the right sides.
#[cycle(order)]
fn compare_comparison<'src>(
    leaves: LeafOrder,
    lhs: &Expression<'src>,
    operator: &ConditionalOperator,
    other: &Expression<'src>,
) -> Ordering
    ensures { result ≡ key_cmp (leaf_order leaves) (case_node cases.Comparison
        (next (key lhs.now) (next (operator_key operator.now) end))) (left_key other.now) }
{
    match other {
        Expression::Comparison {
            lhs: other_lhs,
            operator: other_operator,
            ..
        } => compare(leaves, lhs, other_lhs).then(leaves.operators(operator, other_operator)),
        _ => compare_case(ExpressionCase::Comparison, other),
    }
}

/// Compares a concatenation, given by its left side and operator, to another expression up to
/// the right sides.
#[cycle(order)]
fn compare_concatenation<'src>(
    leaves: LeafOrder,
    lhs: &Expression<'src>,
    operator: &Token<'src>,
    other: &Expression<'src>,
) -> Ordering
    ensures { result ≡ key_cmp (leaf_order leaves) (case_node cases.Concatenation
        (next (key lhs.now) (next (token_key operator.now) end))) (left_key other.now) }
{
    match other {
        Expression::Concatenation {
            lhs: other_lhs,
            operator: other_operator,
            ..
        } => compare(leaves, lhs, other_lhs).then(leaves.tokens(operator, other_operator)),
        _ => compare_case(ExpressionCase::Concatenation, other),
    }
}

/// Compares a conditional, given by its fields, to another expression up to the right sides.
#[cycle(order)]
fn compare_conditional<'src>(
    leaves: LeafOrder,
    condition: &Expression<'src>,
    branch: &Expression<'src>,
    otherwise: &Option<Box<Expression<'src>>>,
    other: &Expression<'src>,
) -> Ordering
    ensures { result ≡ key_cmp (leaf_order leaves) (case_node cases.Conditional
        (next (key condition.now) (next (key branch.now)
        (next (option_presence otherwise.now) end)))) (left_key other.now) }
{
    match other {
        Expression::Conditional {
            condition: other_condition,
            then: other_branch,
            otherwise: other_otherwise,
        } => compare(leaves, condition, other_condition)
            .then(compare(leaves, branch, other_branch))
            .then(compare_presence(otherwise, other_otherwise)),
        _ => compare_case(ExpressionCase::Conditional, other),
    }
}

/// Compares a format string, given by its fields, to another expression.
#[cycle(order)]
fn compare_format_string<'src>(
    leaves: LeafOrder,
    start: &StringLiteral<'src>,
    expressions: &Vec<(Expression<'src>, StringLiteral<'src>)>,
    other: &Expression<'src>,
) -> Ordering
    ensures { result ≡ key_cmp (leaf_order leaves) (case_node cases.FormatString
        (next (literal_key start.now) (next (sequence (keys_of part_key expressions.now.items)) end)))
        (left_key other.now) }
{
    match other {
        Expression::FormatString {
            start: other_start,
            expressions: other_expressions,
        } => leaves
            .literals(start, other_start)
            .then(compare_parts(leaves, expressions, other_expressions)),
        _ => compare_case(ExpressionCase::FormatString, other),
    }
}

/// Compares what follows the first parts of two format strings, from the left: each expression, and
/// then the part after it.
#[cycle(order)]
fn compare_parts<'src>(
    leaves: LeafOrder,
    expressions: &Vec<(Expression<'src>, StringLiteral<'src>)>,
    others: &Vec<(Expression<'src>, StringLiteral<'src>)>,
) -> Ordering
    ensures { result ≡ slice_cmp (on part_key (key_cmp (leaf_order leaves))) expressions.now.items
        others.now.items }
{
    for (i, (expression, part)) in expressions.iter().enumerate() {
        if others.len() <= i {
            return Ordering::Greater;
        }
        let (other, other_part) = &others[i];
        let order = compare(leaves, expression, other).then(leaves.literals(part, other_part));
        if order.is_ne() {
            return order;
        }
    }
    expressions.len().cmp(&others.len())
}

/// Compares a group, given by its contents, to another expression.
#[cycle(order)]
fn compare_group<'src>(
    leaves: LeafOrder,
    contents: &Expression<'src>,
    other: &Expression<'src>,
) -> Ordering
    ensures { result ≡ key_cmp (leaf_order leaves)
        (case_node cases.Group (next (key contents.now) end)) (left_key other.now) }
{
    match other {
        Expression::Group {
            contents: other_contents,
        } => compare(leaves, contents, other_contents),
        _ => compare_case(ExpressionCase::Group, other),
    }
}

/// Compares a join, given by its left side and operator, to another expression up to the right
/// sides.
#[cycle(order)]
fn compare_join<'src>(
    leaves: LeafOrder,
    lhs: &Option<Box<Expression<'src>>>,
    operator: &Token<'src>,
    other: &Expression<'src>,
) -> Ordering
    ensures { result ≡ key_cmp (leaf_order leaves) (case_node cases.Join
        (next (option_key lhs.now) (next (token_key operator.now) end))) (left_key other.now) }
{
    match other {
        Expression::Join {
            lhs: other_lhs,
            operator: other_operator,
            ..
        } => compare_options(leaves, lhs, other_lhs).then(leaves.tokens(operator, other_operator)),
        _ => compare_case(ExpressionCase::Join, other),
    }
}

/// Compares whether two optional expressions are present. An absent one comes first.
fn compare_presence(
    expression: &Option<Box<Expression<'_>>>,
    other: &Option<Box<Expression<'_>>>,
) -> Ordering
    ensures { result ≡ nat_cmp (label (option_presence expression.now))
        (label (option_presence other.now)) }
{
    match expression {
        None => match other {
            None => Ordering::Equal,
            Some(_) => Ordering::Less,
        },
        Some(_) => match other {
            None => Ordering::Greater,
            Some(_) => Ordering::Equal,
        },
    }
}

/// Compares two optional expressions. An absent one comes first.
#[cycle(order)]
fn compare_options<'src>(
    leaves: LeafOrder,
    expression: &Option<Box<Expression<'src>>>,
    other: &Option<Box<Expression<'src>>>,
) -> Ordering
    ensures { result
        ≡ key_cmp (leaf_order leaves) (option_key expression.now) (option_key other.now) }
{
    match expression {
        None => match other {
            None => Ordering::Equal,
            Some(_) => Ordering::Less,
        },
        Some(expression) => match other {
            None => Ordering::Greater,
            Some(other) => compare(leaves, expression, other),
        },
    }
}

/// Compares a list, given by its fields, to another expression.
#[cycle(order)]
fn compare_list<'src>(
    leaves: LeafOrder,
    elements: &Vec<Expression<'src>>,
    opener: &Token<'src>,
    other: &Expression<'src>,
) -> Ordering
    ensures { result ≡ key_cmp (leaf_order leaves) (case_node cases.List
        (next (sequence (keys_of key elements.now.items)) (next (token_key opener.now) end)))
        (left_key other.now) }
{
    match other {
        Expression::List {
            elements: other_elements,
            opener: other_opener,
        } => compare_all(leaves, elements, other_elements).then(leaves.tokens(
            opener,
            other_opener,
        )),
        _ => compare_case(ExpressionCase::List, other),
    }
}

/// Compares two lists of expressions from the left. A list comes before its continuations.
#[cycle(order)]
fn compare_all<'src>(
    leaves: LeafOrder,
    expressions: &Vec<Expression<'src>>,
    others: &Vec<Expression<'src>>,
) -> Ordering
    ensures { result
        ≡ slice_cmp (on key (key_cmp (leaf_order leaves))) expressions.now.items others.now.items }
{
    for (i, expression) in expressions.iter().enumerate() {
        if others.len() <= i {
            return Ordering::Greater;
        }
        let order = compare(leaves, expression, &others[i]);
        if order.is_ne() {
            return order;
        }
    }
    expressions.len().cmp(&others.len())
}

/// Compares a concatenation of lists, given by its left side and operator, to another expression up
/// to the right sides.
#[cycle(order)]
fn compare_list_concatenation<'src>(
    leaves: LeafOrder,
    lhs: &Expression<'src>,
    operator: &Token<'src>,
    other: &Expression<'src>,
) -> Ordering
    ensures { result ≡ key_cmp (leaf_order leaves) (case_node cases.ListConcatenation
        (next (key lhs.now) (next (token_key operator.now) end))) (left_key other.now) }
{
    match other {
        Expression::ListConcatenation {
            lhs: other_lhs,
            operator: other_operator,
            ..
        } => compare(leaves, lhs, other_lhs).then(leaves.tokens(operator, other_operator)),
        _ => compare_case(ExpressionCase::ListConcatenation, other),
    }
}

/// Compares a negation to another expression up to the right sides.
fn compare_not(leaves: LeafOrder, other: &Expression<'_>) -> Ordering
    ensures { result ≡ key_cmp (leaf_order leaves) (case_node cases.Not end) (left_key other.now) }
{
    match other {
        Expression::Not { .. } => Ordering::Equal,
        _ => compare_case(ExpressionCase::Not, other),
    }
}

/// Compares a disjunction, given by its left side, to another expression up to the right sides.
#[cycle(order)]
fn compare_or<'src>(leaves: LeafOrder, lhs: &Expression<'src>, other: &Expression<'src>) -> Ordering
    ensures { result ≡ key_cmp (leaf_order leaves) (case_node cases.Or (next (key lhs.now) end))
        (left_key other.now) }
{
    match other {
        Expression::Or { lhs: other_lhs, .. } => compare(leaves, lhs, other_lhs),
        _ => compare_case(ExpressionCase::Or, other),
    }
}

/// Compares a literal, given by its field, to another expression.
fn compare_string_literal<'src>(
    leaves: LeafOrder,
    string_literal: &StringLiteral<'src>,
    other: &Expression<'src>,
) -> Ordering
    ensures { result ≡ key_cmp (leaf_order leaves) (case_node cases.StringLiteral
        (next (literal_key string_literal.now) end)) (left_key other.now) }
{
    match other {
        Expression::StringLiteral {
            string_literal: other_string_literal,
        } => leaves.literals(string_literal, other_string_literal),
        _ => compare_case(ExpressionCase::StringLiteral, other),
    }
}

/// Compares a variable, given by its fields, to another expression.
fn compare_variable<'src>(
    leaves: LeafOrder,
    name: &Name<'src>,
    number: &Option<Number>,
    other: &Expression<'src>,
) -> Ordering
    ensures { result ≡ key_cmp (leaf_order leaves) (case_node cases.Variable
        (next (token_key name.now.token) (next (number_key number.now) end))) (left_key other.now) }
{
    match other {
        Expression::Variable {
            name: other_name,
            number: other_number,
        } => leaves
            .tokens(&name.token, &other_name.token)
            .then(leaves.numbers(number, other_number)),
        _ => compare_case(ExpressionCase::Variable, other),
    }
}

/// Compares a case with that of an expression, in declared order.
fn compare_case(case: ExpressionCase, expression: &Expression<'_>) -> Ordering
    ensures { result ≡ nat_cmp (case_label case) (label (left_key expression.now)) }
{
    (case as u8).cmp(&(case_of(expression) as u8))
}

/// Returns the case of an expression.
fn case_of(expression: &Expression<'_>) -> ExpressionCase
    ensures { case_label result ≡ label (left_key expression.now) }
{
    match expression {
        Expression::And { .. } => ExpressionCase::And,
        Expression::Assert { .. } => ExpressionCase::Assert,
        Expression::Backtick { .. } => ExpressionCase::Backtick,
        Expression::Call { .. } => ExpressionCase::Call,
        Expression::Comparison { .. } => ExpressionCase::Comparison,
        Expression::Concatenation { .. } => ExpressionCase::Concatenation,
        Expression::Conditional { .. } => ExpressionCase::Conditional,
        Expression::FormatString { .. } => ExpressionCase::FormatString,
        Expression::Group { .. } => ExpressionCase::Group,
        Expression::Join { .. } => ExpressionCase::Join,
        Expression::List { .. } => ExpressionCase::List,
        Expression::ListConcatenation { .. } => ExpressionCase::ListConcatenation,
        Expression::Not { .. } => ExpressionCase::Not,
        Expression::Or { .. } => ExpressionCase::Or,
        Expression::StringLiteral { .. } => ExpressionCase::StringLiteral,
        Expression::Variable { .. } => ExpressionCase::Variable,
    }
}
