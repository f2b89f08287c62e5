//! The dependencies of a recipe.
ghost use Rattle.std.specs.Prelude.{◌≡◌, false, ◌∷◌, ◌++◌, [], IfOk, map};
ghost use Rattle.justfile_model.specs.Meanings.Meaning.{first_of};
ghost use Rattle.justfile_model.specs.Readers.ReaderState.{prepend};
ghost use Rattle.justfile_model.specs.Meanings.RecipeRules.{stars};
ghost use Rattle.justfile_model.specs.Trees.Tree.{over_dependency_argument};
ghost use Rattle.justfile_parse_base.specs.ParseErrors.{ParsesRuled, ChecksRules};
ghost use Rattle.justfile_parse_expression.specs.ParsedResults.{Parses};
ghost use Rattle.justfile_parse_expression.specs.TableReader.{leaves};
ghost use Rattle.justfile_parse_expression.specs.View.{state_of};
ghost use Rattle.justfile_parse_header.specs.HeaderTable as reader;
ghost use Rattle.justfile_parse_header.specs.Tree.{argument_tree, dependency_tree, read_argument};

use justfile_expression::Expression;
use justfile_expression_parser::parse_expression;
use justfile_parse_base::{ParseError, parse_namepath, rule_error};
use justfile_parse_expression::significant::SignificantToken;
use justfile_parse_expression::{ExpressionError, ParserState, SyntaxError};
use justfile_recipe_header::{DependencyArgument, UnresolvedDependency};
use justfile_token::{CompileErrorKind, Expander, Fault};
use justfile_vocabulary::TokenKind;
use std::alloc::{AllocError, Global};

/// An argument of a dependency while the arguments are parsed.
#[derive(Drop)]
pub(crate) struct ReadArgument<'src> {
    /// The star before it, if there is one.
    pub(crate) star: Option<SignificantToken<'src>>,
    pub(crate) value: Box<Expression<'src>>,
}

/// Parses `&&` and the dependencies after it, at least one, if `&&` comes next. Appends them to
/// `dependencies`.
#[tactic(auto, using(crate::proofs::Dependencies::subsequents_none))]
pub(crate) fn parse_subsequents<'src, X: Expander>(
    parser: &mut ParserState<'_, 'src, X>,
    dependencies: &mut Vec<UnresolvedDependency<'src>>,
) -> Result<(), ParseError<'src>>
    ensures { ParsesRuled X.answer
        (λ _. map dependency_tree dependencies.new.items) result parser.old parser.new
        (λ s. prepend (map dependency_tree dependencies.old.items) (reader.subsequents s)) }
{
    let Some(_operator) = parser.accept(TokenKind::AmpersandAmpersand) else {
        return Ok(());
    };
    let priors = dependencies.len();
    parse_dependencies(parser, dependencies)?;
    if dependencies.len() == priors {
        return Err(ParseError::Expression(ExpressionError::Refused(SyntaxError::Unexpected)));
    }
    Ok(())
}

/// Parses dependencies up to a token that doesn't begin one, and appends them to `dependencies`.
#[tactic(auto, using(crate::proofs::Dependencies::dependencies_end, crate::proofs::Dependencies::dependencies_go_on))]
pub(crate) fn parse_dependencies<'src, X: Expander>(
    parser: &mut ParserState<'_, 'src, X>,
    dependencies: &mut Vec<UnresolvedDependency<'src>>,
) -> Result<(), ParseError<'src>>
    ensures { ParsesRuled X.answer
        (λ _. map dependency_tree dependencies.new.items) result parser.old parser.new
        (λ s. prepend (map dependency_tree dependencies.old.items) (reader.dependencies s)) }
{
    'dependencies: loop {
        if !begins_dependency(parser) {
            return Ok(());
        }
        let dependency = parse_dependency(parser)?;
        dependencies.push(dependency)?;
    }
}

/// Whether a dependency begins with the next token.
fn begins_dependency<X: Expander>(parser: &ParserState<'_, '_, X>) -> bool
    ensures { result ≡ reader.begins_dependency (state_of X.answer parser.now) }
{
    parser.peek_kinds(&[TokenKind::Identifier])
        || parser.peek_kinds(&[TokenKind::Asterisk])
        || parser.peek_kinds(&[TokenKind::ParenL])
}

/// Parses a dependency: a path, or a path and its arguments in parentheses, which a star may
/// precede.
#[tactic(auto, using(justfile_parse_base::proofs::RuleSteps::broken_first), unfolding(justfile_model::specs::Readers::HeaderReader::dependency))]
fn parse_dependency<'src, X: Expander>(
    parser: &mut ParserState<'_, 'src, X>,
) -> Result<UnresolvedDependency<'src>, ParseError<'src>>
    ensures { ParsesRuled X.answer dependency_tree result parser.old parser.new
        reader.dependency }
{
    if parser.peek_kinds(&[TokenKind::Identifier]) {
        return Ok(parse_bare(parser)?);
    }
    match parser.accept(TokenKind::Asterisk) {
        Some(star) => parse_parenthesized(parser, Some(*star)),
        None => parse_parenthesized(parser, None),
    }
}

/// Parses a dependency without arguments.
#[tactic(auto, unfolding(justfile_model::specs::Readers::HeaderReader::bare_dependency))]
fn parse_bare<'src, X: Expander>(
    parser: &mut ParserState<'_, 'src, X>,
) -> Result<UnresolvedDependency<'src>, ExpressionError<'src>>
    ensures { Parses X.answer dependency_tree result parser.old parser.new
        reader.bare_dependency }
{
    let recipe = parse_namepath(parser)?;
    Ok(UnresolvedDependency {
        arguments: Vec::new(parser.alloc),
        recipe,
    })
}

/// Parses a path and its arguments in parentheses, after the star before them, if there is one.
#[tactic(auto, using(justfile_parse_base::proofs::RuleSteps::broken_first), unfolding(justfile_model::specs::Readers::HeaderReader::parenthesized))]
fn parse_parenthesized<'src, X: Expander>(
    parser: &mut ParserState<'_, 'src, X>,
    star: Option<SignificantToken<'src>>,
) -> Result<UnresolvedDependency<'src>, ParseError<'src>>
    ensures { ParsesRuled X.answer dependency_tree result parser.old parser.new
        (reader.parenthesized star.entry) }
{
    parser.expect(TokenKind::ParenL)?;
    let recipe = parse_namepath(parser)?;
    let arguments = parse_arguments(parser)?;
    check_stars(parser.alloc, star, arguments.as_slice())?;
    let arguments = tree_arguments(parser.alloc, arguments)?;
    Ok(UnresolvedDependency { arguments, recipe })
}

/// Parses arguments, which nothing separates, and the closing parenthesis.
#[tactic(auto, using(crate::proofs::Dependencies::arguments_end, crate::proofs::Dependencies::arguments_go_on))]
fn parse_arguments<'src, X: Expander>(
    parser: &mut ParserState<'_, 'src, X>,
) -> Result<Vec<ReadArgument<'src>>, ParseError<'src>>
    ensures { ParsesRuled X.answer (λ arguments. map read_argument arguments.items) result
        parser.old parser.new (λ s. reader.dependency_arguments ([], s)) }
{
    let mut arguments = Vec::new(parser.alloc);
    'arguments: loop {
        if let Some(_closer) = parser.accept(TokenKind::ParenR) {
            return Ok(arguments);
        }
        let argument = parse_argument(parser, arguments.as_slice())?;
        arguments.push(argument)?;
    }
}

/// Parses an argument with or without a star, after those in `before`.
#[tactic(auto, unfolding(justfile_model::specs::Readers::HeaderReader::dependency_argument))]
fn parse_argument<'src, X: Expander>(
    parser: &mut ParserState<'_, 'src, X>,
    before: &[ReadArgument<'src>],
) -> Result<ReadArgument<'src>, ParseError<'src>>
    ensures { ParsesRuled X.answer read_argument result parser.old parser.new
        (reader.dependency_argument (map read_argument before.now)) }
{
    match parser.accept(TokenKind::Asterisk) {
        Some(star) => parse_starred(parser, before, *star),
        None => Ok(parse_plain(parser)?),
    }
}

/// Parses an argument without a star.
#[tactic(auto, unfolding(justfile_model::specs::Readers::HeaderReader::plain_argument))]
fn parse_plain<'src, X: Expander>(
    parser: &mut ParserState<'_, 'src, X>,
) -> Result<ReadArgument<'src>, ExpressionError<'src>>
    ensures { Parses X.answer read_argument result parser.old parser.new
        reader.plain_argument }
{
    let value = parse_expression(parser)?;
    Ok(ReadArgument { star: None, value })
}

/// Parses an argument after its star. Refuses the star if it is the second.
#[tactic(auto, using(justfile_parse_base::proofs::RuleSteps::broken_first), unfolding(justfile_model::specs::Readers::HeaderReader::starred_argument))]
fn parse_starred<'src, X: Expander>(
    parser: &mut ParserState<'_, 'src, X>,
    before: &[ReadArgument<'src>],
    star: SignificantToken<'src>,
) -> Result<ReadArgument<'src>, ParseError<'src>>
    ensures { ParsesRuled X.answer read_argument result parser.old parser.new
        (reader.starred_argument (map read_argument before.now) star.entry) }
{
    refuse_second(parser.alloc, before, star)?;
    let value = parser.parse_value()?;
    Ok(ReadArgument {
        star: Some(star),
        value,
    })
}

/// Refuses a star that isn't the first.
fn refuse_second<'src>(
    alloc: Global,
    before: &[ReadArgument<'src>],
    star: SignificantToken<'src>,
) -> Result<(), ParseError<'src>>
    ensures { ChecksRules (reader.second_star (map read_argument before.now) star.entry) result }
{
    match find_second(before, star) {
        None => Ok(()),
        Some((second, _)) => Err(rule_error(
            alloc,
            Fault::Compile(second.error(
                CompileErrorKind::MappedDependencyMultipleStarredArguments,
            )),
        )),
    }
}

/// Returns the second star, if the arguments and then `star` have one.
#[tactic(auto, using(crate::proofs::Stars::second_later, crate::proofs::Stars::second_begins, crate::proofs::Stars::second_here, crate::proofs::Stars::second_end))]
fn find_second<'src>(
    before: &[ReadArgument<'src>],
    star: SignificantToken<'src>,
) -> Option<SignificantToken<'src>>
    ensures { result
        ≡ reader.second_from false (stars (map read_argument before.now) ++ star.entry ∷ []) }
{
    let mut found = false;
    for argument in before {
        if let Some(later) = argument.star {
            if found {
                return Some(later);
            }
            found = true;
        }
    }
    found.then_some(star)
}

/// Refuses a star before the parentheses if no argument has one, and a star of an argument if none
/// is before the parentheses.
fn check_stars<'src>(
    alloc: Global,
    star: Option<SignificantToken<'src>>,
    arguments: &[ReadArgument<'src>],
) -> Result<(), ParseError<'src>>
    ensures { ChecksRules (reader.misplaced_star star.entry (map read_argument arguments.now))
        result }
{
    match (star, find_star(arguments)) {
        (None, Some((first, _))) => Err(rule_error(
            alloc,
            Fault::Compile(first.error(CompileErrorKind::StarredArgumentOutsideMappedDependency)),
        )),
        (Some((star, _)), None) => Err(rule_error(
            alloc,
            Fault::Compile(star.error(CompileErrorKind::MappedDependencyWithoutStarredArgument)),
        )),
        (None, None) | (Some(_), Some(_)) => Ok(()),
    }
}

/// Returns the star of the first argument that has one.
#[tactic(auto, using(crate::proofs::Stars::first_later, crate::proofs::Stars::first_here, crate::proofs::Stars::first_end))]
fn find_star<'src>(arguments: &[ReadArgument<'src>]) -> Option<SignificantToken<'src>>
    ensures { result ≡ first_of (stars (map read_argument arguments.now)) }
{
    for argument in arguments {
        if let Some(star) = argument.star {
            return Some(star);
        }
    }
    None
}

/// Turns parsed arguments into those of a dependency, which keep of a star only whether it is
/// present.
fn tree_arguments<'src>(
    alloc: Global,
    arguments: Vec<ReadArgument<'src>>,
) -> Result<Vec<DependencyArgument<'src>>, AllocError>
    ensures { IfOk result (λ kept. map argument_tree kept.items
        ≡ map (over_dependency_argument (λ x. x) (λ x. x) leaves.star)
        (map read_argument arguments.entry.items)) }
{
    let mut kept = Vec::with_capacity(alloc, arguments.len())?;
    for argument in arguments {
        kept.push(DependencyArgument {
            starred: argument.star.is_some(),
            expression: Box::into_inner(argument.value),
        })?;
    }
    Ok(kept)
}
