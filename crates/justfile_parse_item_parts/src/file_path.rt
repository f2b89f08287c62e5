//! Paths of files.
ghost use Rattle.std.specs.Prelude.{◌≡◌, IfOk};
ghost use Rattle.justfile_vocabulary.specs.declared.token_kind.TokenKind.TheVariants as kinds;
ghost use Rattle.justfile_parse_base.specs.ParseErrors.{ParsesRuled};
ghost use Rattle.justfile_parse_expression.specs.Literal.{IsOf};
ghost use Rattle.justfile_parse_expression.specs.ParsedResults.{Parses};
ghost use Rattle.justfile_parse_expression.specs.TableReader as table;
ghost use Rattle.justfile_parse_expression.specs.View.{state_of};
ghost use Rattle.justfile_parse_item_parts.specs.PartTable as reader;
ghost use Rattle.justfile_parse_item_parts.specs.Parts.{optional_path_tree, file_path_tree};

use crate::errors::expected_keyword_fault;
use justfile_parse_base::{ParseError, rule_error};
use justfile_parse_expression::significant::SignificantToken;
use justfile_parse_expression::{ExpressionError, ParserState, SyntaxError, is_word};
use justfile_token::{Expander, StringLiteral};
use justfile_vocabulary::{Keyword, TokenKind};

/// Parses the path of a file, if one comes next.
///
/// # Errors
///
/// The tokens are refused, a name other than `x` comes before the literal, the literal has no text,
/// or memory runs out.
#[tactic(auto, using(justfile_parse_base::proofs::RuleSteps::broken_first), unfolding(justfile_model::specs::Readers::PartReader::optional_path))]
pub fn parse_optional_path<'src, X: Expander>(
    parser: &mut ParserState<'_, 'src, X>,
) -> Result<Option<StringLiteral<'src>>, ParseError<'src>>
    ensures { ParsesRuled X.answer optional_path_tree result parser.old parser.new
        reader.optional_path }
{
    if !begins_path(parser) {
        return Ok(None);
    }
    let (_token, path) = parse_file_path(parser)?;
    Ok(Some(path))
}

/// Parses the path of a file. Returns the token of its literal, and the literal.
///
/// # Errors
///
/// The tokens are refused, a name other than `x` comes before the literal, the literal has no text,
/// or memory runs out.
#[tactic(auto, using(justfile_parse_base::proofs::RuleSteps::broken_first, crate::proofs::FilePaths::path_is))]
pub fn parse_file_path<'src, X: Expander>(
    parser: &mut ParserState<'_, 'src, X>,
) -> Result<(SignificantToken<'src>, StringLiteral<'src>), ParseError<'src>>
    ensures { ParsesRuled X.answer file_path_tree result parser.old parser.new reader.file_path }
{
    let expand = parse_mark(parser)?;
    let token = expect_string(parser)?;
    let path = parser.cook_literal(token, expand)?;
    Ok((*token, path))
}

/// Whether a path comes next, with or without a mark.
fn begins_path<X: Expander>(parser: &ParserState<'_, '_, X>) -> bool
    ensures { result ≡ reader.begins_path (state_of X.answer parser.now) }
{
    parser.peek_kinds(&[TokenKind::StringToken])
        || parser.peek_kinds(&[TokenKind::Identifier, TokenKind::StringToken])
}

/// Takes the mark `x` if an identifier comes next, and returns whether it did. Refuses any other
/// identifier.
#[tactic(auto, using(justfile_parse_base::proofs::RuleSteps::fails_with), unfolding(justfile_model::specs::Readers::PartReader::expansion_mark, justfile_parse_expression::specs::TableReader::leaves))]
fn parse_mark<'src, X: Expander>(
    parser: &mut ParserState<'_, 'src, X>,
) -> Result<bool, ParseError<'src>>
    ensures { ParsesRuled X.answer (λ expand. expand) result parser.old parser.new
        reader.expansion_mark }
{
    let Some(mark) = parser.accept(TokenKind::Identifier) else {
        return Ok(false);
    };
    if is_word(mark, Keyword::X.lexeme()) {
        Ok(true)
    } else {
        let (token, _) = mark;
        Err(rule_error(
            parser.alloc,
            expected_keyword_fault(parser.alloc, &[Keyword::X], *token),
        ))
    }
}

/// Takes the next token, which has to be a string.
#[tactic(auto, unfolding(justfile_model::specs::Readers::ReaderState::expect))]
fn expect_string<'run, 'src, X: Expander>(
    parser: &mut ParserState<'run, 'src, X>,
) -> Result<&'run SignificantToken<'src>, ExpressionError<'src>>
    ensures reads { Parses X.answer (λ table_token. table_token.now) result parser.old parser.new
        (table.expect kinds.StringToken) }
    ensures table_token { IfOk result (λ table_token. IsOf kinds.StringToken table_token.now) }
{
    match parser.accept(TokenKind::StringToken) {
        Some(table_token) => Ok(table_token),
        None => Err(ExpressionError::Refused(SyntaxError::Unexpected)),
    }
}
