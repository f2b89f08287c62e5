//! The parameters of functions.
ghost use Rattle.std.specs.Prelude.{◌<◌, OnOk};
ghost use Rattle.justfile_parse_expression.specs.View.{tokens_left, state_of};
ghost use Rattle.justfile_parse_base.specs.Counting.{TookBindingNumbers, counters_of, identifiers_left, identifiers_left_after, ParsesCounted};
ghost use Rattle.justfile_parse_item_parts.specs.PartTable as reader;
ghost use Rattle.justfile_parse_item_parts.specs.Parts.{numbered_leaves};

use justfile_numbers::{Number, Numerator};
use justfile_parse_base::{ParseError, next_binding_number, parse_separator};
use justfile_parse_expression::ParserState;
use justfile_token::{Expander, Name};
use justfile_vocabulary::TokenKind;

/// Parses the names of parameters and the closing parenthesis. Returns each name with its number.
///
/// # Errors
///
/// The tokens are refused, or memory or numbers run out.
pub fn parse_parameter_names<'src, X: Expander>(
    parser: &mut ParserState<'_, 'src, X>,
    numerator: &mut Numerator,
) -> Result<Vec<(Name<'src>, Number)>, ParseError<'src>>
    ensures reads { ParsesCounted X.answer (λ parameters. numbered_leaves parameters.items) result
        numerator.new parser.old parser.new (λ s. reader.names (counters_of numerator.old, s)) }
    ensures numbers { TookBindingNumbers numerator.old numerator.new
        (identifiers_left (state_of X.answer parser.old))
        (identifiers_left_after result (state_of X.answer parser.new)) }
{
    let mut parameters = Vec::new(parser.alloc);
    'names: loop {
        if parse_next_name(parser, numerator, &mut parameters)? {
            return Ok(parameters);
        }
    }
}

/// Parses the closing parenthesis, or a name and what follows it. Returns whether the names are at
/// their end.
#[tactic(auto, using(justfile_parse_base::proofs::RuleSteps::broken_first), unfolding(crate::specs::PartTable::names_step))]
fn parse_next_name<'src, X: Expander>(
    parser: &mut ParserState<'_, 'src, X>,
    numerator: &mut Numerator,
    parameters: &mut Vec<(Name<'src>, Number)>,
) -> Result<bool, ParseError<'src>>
    ensures reads { ParsesCounted X.answer
        (λ is_last. (numbered_leaves parameters.new.items, is_last))
        result numerator.new parser.old parser.new
        (reader.names_step (numbered_leaves parameters.old.items) (counters_of numerator.old)) }
    ensures numbers { TookBindingNumbers numerator.old numerator.new
        (identifiers_left (state_of X.answer parser.old))
        (identifiers_left_after result (state_of X.answer parser.new)) }
    ensures progress { OnOk result (tokens_left parser.new < tokens_left parser.old) }
{
    if let Some(_closer) = parser.accept(TokenKind::ParenR) {
        return Ok(true);
    }
    parse_numbered_name(parser, numerator, parameters)?;
    Ok(parse_separator(parser, TokenKind::ParenR)?)
}

/// Parses a name, gives it a number, and appends it to `parameters`.
#[tactic(auto, unfolding(crate::specs::PartTable::one_name, justfile_model::specs::Readers::PartReader::numbered_name))]
fn parse_numbered_name<'src, X: Expander>(
    parser: &mut ParserState<'_, 'src, X>,
    numerator: &mut Numerator,
    parameters: &mut Vec<(Name<'src>, Number)>,
) -> Result<(), ParseError<'src>>
    ensures reads { ParsesCounted X.answer
        (λ _. numbered_leaves parameters.new.items) result numerator.new parser.old parser.new
        (reader.one_name (numbered_leaves parameters.old.items) (counters_of numerator.old)) }
    ensures numbers { TookBindingNumbers numerator.old numerator.new
        (identifiers_left (state_of X.answer parser.old))
        (identifiers_left_after result (state_of X.answer parser.new)) }
    ensures progress { OnOk result (tokens_left parser.new < tokens_left parser.old) }
{
    let (name, _) = parser.expect(TokenKind::Identifier)?;
    let number = next_binding_number(numerator)?;
    parameters.push((Name::from_identifier(*name), number))?;
    Ok(())
}
