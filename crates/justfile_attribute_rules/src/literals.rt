//! Arguments that must be literals.
ghost use Rattle.std.specs.Prelude.{◌≡◌, None};
ghost use Rattle.std.specs.Option.{option_map};
ghost use Rattle.justfile_model.specs.Meanings.Meaning.{quoted};
ghost use Rattle.justfile_model.specs.Readers.NewAttribute as new;
ghost use Rattle.justfile_model.specs.Meanings.Rules.{AttributeArgumentExpression};
ghost use Rattle.justfile_attribute_rules.specs.Keys.{views_keys};
ghost use Rattle.justfile_expression.specs.LeafTree.{Named, leaf_tree_of};
ghost use Rattle.justfile_attribute_rules.specs.Made.{IsFaultOfRule, Makes, positional_leaf, positional_leaves, quoted_leaf, quoted_leaves};

use justfile_expression::Expression;
use justfile_token::{
    CompileError, CompileErrorKind, CompileResult, Fault, Name, StringLiteral, Token,
};
use std::alloc::Global;

/// Returns the value of a key as a literal.
///
/// # Errors
///
/// `Compile` at the key if the value isn't a literal.
pub(crate) fn key_literal<'src>(
    name: Name<'src>,
    key: Name<'src>,
    value: Box<Expression<'src>>,
) -> CompileResult<'src, StringLiteral<'src>>
    ensures { Makes quoted_leaf result (new.literal views_keys name.entry.token
        (Named key.entry.token None) (leaf_tree_of value.entry.value)) }
{
    match literal_of(value) {
        Some(literal) => Ok(literal),
        None => Err(not_literal_fault(name, *key)),
    }
}

/// Returns the positional arguments as literals.
///
/// # Errors
///
/// `Compile` at the first token of the first argument that isn't a literal; `Memory` if out of
/// memory.
pub fn string_literals<'src>(
    alloc: Global,
    name: Name<'src>,
    arguments: Vec<(Token<'src>, Box<Expression<'src>>)>,
) -> CompileResult<'src, Vec<StringLiteral<'src>>>
    ensures { Makes (λ literals. quoted_leaves literals.items) result (new.make_all
        (new.placed_literal views_keys name.entry.token)
        (positional_leaves arguments.entry.items)) }
{
    let mut literals = Vec::new(alloc);
    for (first, value) in arguments {
        let literal = match placed_literal(name, first, value) {
            Ok(literal) => literal,
            Err(fault) => return Err(fault),
        };
        match literals.push(literal) {
            Ok(()) => {}
            Err(failed) => return Err(Fault::from(failed)),
        }
    }
    Ok(literals)
}

/// Returns a positional argument as a literal.
///
/// # Errors
///
/// `Compile` at its first token if it isn't a literal.
fn placed_literal<'src>(
    name: Name<'src>,
    first: Token<'src>,
    value: Box<Expression<'src>>,
) -> CompileResult<'src, StringLiteral<'src>>
    ensures { Makes quoted_leaf result (new.placed_literal views_keys name.entry.token
        (positional_leaf (first.entry, value.entry))) }
{
    match literal_of(value) {
        Some(literal) => Ok(literal),
        None => Err(not_literal_fault(name, first)),
    }
}

/// Returns the literal if the expression is one, and otherwise `None`.
#[tactic(auto, using(crate::proofs::Quoted::not_quoted))]
fn literal_of(value: Box<Expression<'_>>) -> Option<StringLiteral<'_>>
    ensures { option_map quoted_leaf result ≡ quoted (leaf_tree_of value.entry.value) }
{
    Box::into_inner(value).into_string_literal()
}

/// Returns the error, at `token`, for an expression that isn't a literal.
fn not_literal_fault<'src>(name: Name<'src>, token: Token<'src>) -> Fault<'src>
    ensures { IsFaultOfRule (AttributeArgumentExpression name.entry.token) token.entry result }
{
    Fault::Compile(token.error(CompileErrorKind::AttributeArgumentExpression { attribute: name }))
}
