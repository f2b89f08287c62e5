//! Expressions: their type, and how they are dropped and copied.
ghost use Rattle.std.specs.Prelude.{◌≡◌, None, Some, IfOk, IfSome, IfNone, reverse};
ghost use Rattle.justfile_token.specs.declared.string_literal.StringLiteral.{StringLiteral as LiteralRecord};
ghost use Rattle.justfile_expression.specs.declared.expression.Expression as cases;
ghost use Rattle.std.specs.List.{All, AllZip};
ghost use Rattle.std.specs.Option.{option_map};
ghost use Rattle.justfile_expression.specs.Children.{of_option};
ghost use Rattle.justfile_token.specs.Copies.{IsSameIfPresent};
ghost use Rattle.justfile_expression.specs.Copies.{IsSameExpression, IsSameBoxed, IsSamePart};
ghost use Rattle.justfile_expression.specs.RightSides.{IsCopied, IsLessDeep, IsChain, right_side};

use justfile_model::ConditionalOperator;
use justfile_numbers::Number;
use justfile_token::{Name, StringLiteral, Token};
use std::alloc::{AllocError, Global};

/// An expression, as in `docs/LANGUAGE.md`.
pub enum Expression<'src> {
    /// `lhs && rhs`
    And {
        lhs: Box<Expression<'src>>,
        rhs: Box<Expression<'src>>,
    },
    /// `assert(condition)` or `assert(condition, message)`
    Assert {
        condition: Box<Expression<'src>>,
        message: Option<Box<Expression<'src>>>,
        /// The name `assert`.
        name: Name<'src>,
    },
    /// A command between backticks. Its value is what the command prints.
    Backtick {
        /// The command without its backticks; unindented if it has three at each end.
        contents: String,
        /// The command with its backticks.
        token: Token<'src>,
    },
    /// `name(arguments)`
    Call {
        name: Name<'src>,
        arguments: Vec<Expression<'src>>,
    },
    /// `lhs == rhs`, or with another operator
    Comparison {
        lhs: Box<Expression<'src>>,
        operator: ConditionalOperator,
        rhs: Box<Expression<'src>>,
        /// The operator.
        token: Token<'src>,
    },
    /// `lhs + rhs`
    Concatenation {
        lhs: Box<Expression<'src>>,
        operator: Token<'src>,
        rhs: Box<Expression<'src>>,
    },
    /// `if condition { then }`, or with `else { otherwise }` after it
    Conditional {
        condition: Box<Expression<'src>>,
        then: Box<Expression<'src>>,
        otherwise: Option<Box<Expression<'src>>>,
    },
    /// A format string: its first part, and each expression with the part after it.
    FormatString {
        start: StringLiteral<'src>,
        expressions: Vec<(Expression<'src>, StringLiteral<'src>)>,
    },
    /// `(contents)`
    Group {
        contents: Box<Expression<'src>>,
    },
    /// `lhs / rhs`, or `/ rhs`
    Join {
        lhs: Option<Box<Expression<'src>>>,
        operator: Token<'src>,
        rhs: Box<Expression<'src>>,
    },
    /// `[elements]`
    List {
        elements: Vec<Expression<'src>>,
        /// The opening bracket.
        opener: Token<'src>,
    },
    /// `lhs ++ rhs`
    ListConcatenation {
        lhs: Box<Expression<'src>>,
        operator: Token<'src>,
        rhs: Box<Expression<'src>>,
    },
    /// `!operand`
    Not {
        operand: Box<Expression<'src>>,
    },
    /// `lhs || rhs`
    Or {
        lhs: Box<Expression<'src>>,
        rhs: Box<Expression<'src>>,
    },
    /// A string literal.
    StringLiteral {
        string_literal: StringLiteral<'src>,
    },
    /// The name of a variable. `number` is the number of the binding that it refers to, or `None`
    /// before the names are resolved and for unknown names.
    Variable {
        name: Name<'src>,
        number: Option<Number>,
    },
}

/// Expressions nest to the right without a limit, so a loop drops what is at the right of each.
impl<'src> Drop for Expression<'src> {
    fn drop(mut self) {
        loop {
            match self {
                Expression::And { lhs: _, rhs } => self = Box::into_inner(rhs),
                Expression::Assert {
                    condition: _,
                    message,
                    name: _,
                } => match message {
                    None => return,
                    Some(message) => self = Box::into_inner(message),
                },
                Expression::Backtick {
                    contents: _,
                    token: _,
                } => return,
                Expression::Call {
                    name: _,
                    arguments: _,
                } => return,
                Expression::Comparison {
                    lhs: _,
                    operator: _,
                    rhs,
                    token: _,
                } => self = Box::into_inner(rhs),
                Expression::Concatenation {
                    lhs: _,
                    operator: _,
                    rhs,
                } => self = Box::into_inner(rhs),
                Expression::Conditional {
                    condition: _,
                    then: _,
                    otherwise,
                } => match otherwise {
                    None => return,
                    Some(otherwise) => self = Box::into_inner(otherwise),
                },
                Expression::FormatString {
                    start: _,
                    expressions: _,
                } => return,
                Expression::Group { contents } => self = Box::into_inner(contents),
                Expression::Join {
                    lhs: _,
                    operator: _,
                    rhs,
                } => self = Box::into_inner(rhs),
                Expression::List {
                    elements: _,
                    opener: _,
                } => return,
                Expression::ListConcatenation {
                    lhs: _,
                    operator: _,
                    rhs,
                } => self = Box::into_inner(rhs),
                Expression::Not { operand } => self = Box::into_inner(operand),
                Expression::Or { lhs: _, rhs } => self = Box::into_inner(rhs),
                Expression::StringLiteral { string_literal: _ } => return,
                Expression::Variable { name: _, number: _ } => return,
            }
        }
    }
}

impl<'src> Expression<'src> {
    /// Returns the literal if the expression is one, and otherwise `None`.
    pub fn into_string_literal(self) -> Option<StringLiteral<'src>>
        ensures some { IfSome result (λ literal. self.entry ≡ cases.StringLiteral literal) }
        ensures none { IfNone result ((literal : LiteralRecord)
            → self.entry ≡ cases.StringLiteral literal → ⊥) }
    {
        match self {
            Expression::StringLiteral { string_literal } => Some(string_literal),
            _ => None,
        }
    }

    /// Returns a copy of the expression, or an error if out of memory.
    #[cycle(copy)]
    pub fn clone(&self, alloc: Global) -> Result<Self, AllocError>
        ensures { IfOk result (λ copy. IsSameExpression copy self.now) }
    {
        copy_node(alloc, self, None)
    }
}

/// Copies an expression. If `copied` is given, it is a copy of the right side and becomes part of
/// the result.
#[cycle(copy)]
#[inline(never)]
fn copy_node<'src>(
    alloc: Global,
    expression: &Expression<'src>,
    copied: Option<Box<Expression<'src>>>,
) -> Result<Expression<'src>, AllocError>
    requires { IsCopied copied (right_side expression.now) }
    ensures { IfOk result (λ copy. IsSameExpression copy expression.now) }
{
    match expression {
        Expression::And { lhs, rhs } => {
            let (lhs, rhs) = copy_pair(alloc, lhs, rhs, copied)?;
            Ok(Expression::And { lhs, rhs })
        }
        Expression::Assert {
            condition,
            message,
            name,
        } => Ok(Expression::Assert {
            condition: copy_boxed(alloc, condition)?,
            message: copy_option(alloc, message, None)?,
            name: *name,
        }),
        Expression::Backtick { contents, token } => Ok(Expression::Backtick {
            contents: contents.as_str().to_string(alloc)?,
            token: *token,
        }),
        Expression::Call { name, arguments } => Ok(Expression::Call {
            name: *name,
            arguments: copy_all(alloc, arguments)?,
        }),
        Expression::Comparison {
            lhs,
            operator,
            rhs,
            token,
        } => {
            let (lhs, rhs) = copy_pair(alloc, lhs, rhs, copied)?;
            Ok(Expression::Comparison {
                lhs,
                operator: *operator,
                rhs,
                token: *token,
            })
        }
        Expression::Concatenation { lhs, operator, rhs } => {
            let (lhs, rhs) = copy_pair(alloc, lhs, rhs, copied)?;
            Ok(Expression::Concatenation {
                lhs,
                operator: *operator,
                rhs,
            })
        }
        Expression::Conditional {
            condition,
            then: branch,
            otherwise,
        } => {
            let (condition, branch) = copy_pair(alloc, condition, branch, None)?;
            Ok(Expression::Conditional {
                condition,
                then: branch,
                otherwise: copy_option(alloc, otherwise, copied)?,
            })
        }
        Expression::FormatString { start, expressions } => Ok(Expression::FormatString {
            start: start.clone(alloc)?,
            expressions: copy_parts(alloc, expressions)?,
        }),
        Expression::Group { contents } => Ok(Expression::Group {
            contents: copy_boxed(alloc, contents)?,
        }),
        Expression::Join { lhs, operator, rhs } => Ok(Expression::Join {
            lhs: copy_option(alloc, lhs, None)?,
            operator: *operator,
            rhs: copy_right(alloc, rhs, copied)?,
        }),
        Expression::List { elements, opener } => Ok(Expression::List {
            elements: copy_all(alloc, elements)?,
            opener: *opener,
        }),
        Expression::ListConcatenation { lhs, operator, rhs } => {
            let (lhs, rhs) = copy_pair(alloc, lhs, rhs, copied)?;
            Ok(Expression::ListConcatenation {
                lhs,
                operator: *operator,
                rhs,
            })
        }
        Expression::Not { operand } => Ok(Expression::Not {
            operand: copy_right(alloc, operand, copied)?,
        }),
        Expression::Or { lhs, rhs } => {
            let (lhs, rhs) = copy_pair(alloc, lhs, rhs, copied)?;
            Ok(Expression::Or { lhs, rhs })
        }
        Expression::StringLiteral { string_literal } => Ok(Expression::StringLiteral {
            string_literal: string_literal.clone(alloc)?,
        }),
        Expression::Variable { name, number } => Ok(Expression::Variable {
            name: *name,
            number: *number,
        }),
    }
}

/// Copies two expressions into boxes of their own. If `copied` is given, it is a copy of the second
/// one.
#[cycle(copy)]
fn copy_pair<'src>(
    alloc: Global,
    lhs: &Expression<'src>,
    rhs: &Expression<'src>,
    copied: Option<Box<Expression<'src>>>,
) -> Result<(Box<Expression<'src>>, Box<Expression<'src>>), AllocError>
    requires { IsCopied copied (Some rhs.now) }
    ensures { IfOk result (λ copies. IsSameExpression copies.0.value lhs.now
        × IsSameExpression copies.1.value rhs.now) }
{
    let copy = copy_boxed(alloc, lhs)?;
    Ok((copy, copy_right(alloc, rhs, copied)?))
}

/// Returns a copy of an optional expression, or an error if out of memory.
pub fn copy_optional<'src>(
    alloc: Global,
    expression: &Option<Box<Expression<'src>>>,
) -> Result<Option<Box<Expression<'src>>>, AllocError>
    ensures { IfOk result (λ copy. IsSameIfPresent IsSameBoxed copy expression.now) }
{
    copy_option(alloc, expression, None)
}

/// Copies an optional expression, or takes `copied`, where that is a copy of it already.
#[cycle(copy)]
fn copy_option<'src>(
    alloc: Global,
    expression: &Option<Box<Expression<'src>>>,
    copied: Option<Box<Expression<'src>>>,
) -> Result<Option<Box<Expression<'src>>>, AllocError>
    requires { IsCopied copied (of_option expression.now) }
    ensures { IfOk result (λ copy. IsSameIfPresent IsSameBoxed copy expression.now) }
{
    match expression {
        None => Ok(None),
        Some(expression) => Ok(Some(copy_right(alloc, expression, copied)?)),
    }
}

/// Copies an expression into a box of its own, or takes `copied`, where that is a copy of it
/// already.
#[cycle(copy)]
fn copy_right<'src>(
    alloc: Global,
    expression: &Expression<'src>,
    copied: Option<Box<Expression<'src>>>,
) -> Result<Box<Expression<'src>>, AllocError>
    requires { IsCopied copied (Some expression.now) }
    ensures { IfOk result (λ copy. IsSameExpression copy.value expression.now) }
{
    match copied {
        None => copy_boxed(alloc, expression),
        Some(copy) => Ok(copy),
    }
}

/// Returns a copy of an expression in a box of its own, or an error if out of memory. Expressions
/// nest to the right without a limit, so a loop copies the right sides, from the innermost to the
/// outermost.
#[cycle(copy)]
pub fn copy_boxed<'src>(
    alloc: Global,
    expression: &Expression<'src>,
) -> Result<Box<Expression<'src>>, AllocError>
    ensures { IfOk result (λ copy. IsSameExpression copy.value expression.now) }
{
    let mut chain = find_chain(alloc, expression)?;
    let mut copied = None;
    while let Some(next) = chain.pop() {
        copied = Some(box_copy(alloc, next, copied)?);
    }
    box_copy(alloc, expression, copied)
}

/// Returns the right side of an expression, the right side of that one, and so on.
fn find_chain<'a, 'src>(
    alloc: Global,
    expression: &'a Expression<'src>,
) -> Result<Vec<&'a Expression<'src>>, AllocError>
    ensures in_chain { IfOk result (λ chain. IsChain (reverse chain.items) expression.now None) }
    ensures smaller { IfOk result (λ chain. All (IsLessDeep expression.now) chain.items) }
{
    let mut chain = Vec::new(alloc);
    let mut rest = right_side(expression);
    while let Some(next) = rest {
        chain.push(next)?;
        rest = right_side(next);
    }
    Ok(chain)
}

/// Returns the right operand of an expression or the `else` branch of a conditional, if any.
pub fn right_side<'a, 'src>(expression: &'a Expression<'src>) -> Option<&'a Expression<'src>>
    ensures right_side { option_map (λ e. e.now) result ≡ right_side expression.now }
    ensures smaller { IfSome result (IsLessDeep expression.now) }
{
    match expression {
        Expression::And { rhs, .. } => Some(rhs),
        Expression::Assert { .. } => None,
        Expression::Backtick { .. } => None,
        Expression::Call { .. } => None,
        Expression::Comparison { rhs, .. } => Some(rhs),
        Expression::Concatenation { rhs, .. } => Some(rhs),
        Expression::Conditional {
            otherwise: None,
            ..
        } => None,
        Expression::Conditional {
            otherwise: Some(other),
            ..
        } => Some(other),
        Expression::FormatString { .. } => None,
        Expression::Group { .. } => None,
        Expression::Join { rhs, .. } => Some(rhs),
        Expression::List { .. } => None,
        Expression::ListConcatenation { rhs, .. } => Some(rhs),
        Expression::Not { operand } => Some(operand),
        Expression::Or { rhs, .. } => Some(rhs),
        Expression::StringLiteral { .. } => None,
        Expression::Variable { .. } => None,
    }
}

/// Copies an expression into a box of its own. If `copied` is given, it is a copy of its right
/// side.
#[cycle(copy)]
#[inline(never)]
fn box_copy<'src>(
    alloc: Global,
    expression: &Expression<'src>,
    copied: Option<Box<Expression<'src>>>,
) -> Result<Box<Expression<'src>>, AllocError>
    requires { IsCopied copied (right_side expression.now) }
    ensures { IfOk result (λ copy. IsSameExpression copy.value expression.now) }
{
    match copy_node(alloc, expression, copied) {
        Ok(copy) => boxed(alloc, copy),
        Err(failed) => Err(failed),
    }
}

/// Puts an expression into a box.
fn boxed<'src>(
    alloc: Global,
    expression: Expression<'src>,
) -> Result<Box<Expression<'src>>, AllocError>
    ensures { IfOk result (λ boxed. boxed.value ≡ expression.entry) }
{
    match Box::new(alloc, expression) {
        Ok(expression) => Ok(expression),
        Err(_failed) => Err(AllocError),
    }
}

/// Copies expressions.
#[cycle(copy)]
fn copy_all<'src>(
    alloc: Global,
    expressions: &Vec<Expression<'src>>,
) -> Result<Vec<Expression<'src>>, AllocError>
    ensures { IfOk result (λ copies. AllZip IsSameExpression copies.items expressions.now.items) }
{
    let mut copies = Vec::new(alloc);
    for expression in expressions {
        let copy = expression.clone(alloc)?;
        copies.push(copy)?;
    }
    Ok(copies)
}

/// Copies the expressions of a format string, each with the part after it.
#[cycle(copy)]
fn copy_parts<'src>(
    alloc: Global,
    expressions: &Vec<(Expression<'src>, StringLiteral<'src>)>,
) -> Result<Vec<(Expression<'src>, StringLiteral<'src>)>, AllocError>
    ensures { IfOk result (λ copies. AllZip IsSamePart copies.items expressions.now.items) }
{
    let mut parts = Vec::new(alloc);
    for (expression, literal) in expressions {
        let part = copy_part(alloc, expression, literal)?;
        parts.push(part)?;
    }
    Ok(parts)
}

/// Copies an expression of a format string and the part after it.
#[cycle(copy)]
fn copy_part<'src>(
    alloc: Global,
    expression: &Expression<'src>,
    literal: &StringLiteral<'src>,
) -> Result<(Expression<'src>, StringLiteral<'src>), AllocError>
    ensures { IfOk result (λ copy. IsSamePart copy (expression.now, literal.now)) }
{
    let part = literal.clone(alloc)?;
    Ok((expression.clone(alloc)?, part))
}
