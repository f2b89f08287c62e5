//! Functions that a file defines.
ghost use Rattle.std.specs.Prelude.{OnOk, map};
ghost use Rattle.justfile_model.specs.Lexing.SignificantTokens.{identifiers};
ghost use Rattle.justfile_parse_item.specs.ItemTable as reader;
ghost use Rattle.justfile_parse_item.specs.MethodResults.{CountersMoved};
ghost use Rattle.justfile_parse_item.specs.Pushes.{AppendsItem, last_tree};
ghost use Rattle.justfile_parse_item.specs.DerivedFields.{HaveDerivedPairFields};
ghost use Rattle.justfile_parse_attribute.specs.Attributes.{entries_of};
ghost use Rattle.justfile_parse_expression.specs.Significant.{significant_of};
ghost use Rattle.justfile_parse_expression.specs.View.{state_of};
ghost use Rattle.justfile_parse_base.specs.Counting.{counters_of, ParsesCounted};

use crate::attribute_checks::check_allowed;
use crate::items::push_parsed_item;
use justfile_attribute::Attribute;
use justfile_expression_parser::parse_expression;
use justfile_item::{FunctionDefinition, Item};
use justfile_numbers::Numerator;
use justfile_parse_base::ParseError;
use justfile_parse_expression::ParserState;
use justfile_parse_item_parts::parse_parameter_names;
use justfile_token::{Expander, Name};
use justfile_vocabulary::{ItemKind, TokenKind};
use justfile_written::Written;

/// Parses a function after its attributes: a name, the names of the parameters in parentheses,
/// `:=`, and an expression. Checks the attributes, and appends the item.
#[tactic(auto, using(crate::proofs::CounterSteps::unmoved, crate::proofs::Pushes::reads, crate::proofs::Pushes::appends), unfolding(justfile_model::specs::Readers::Reader::function, justfile_parse_expression::specs::TableReader::leaves))]
pub(crate) fn parse_function<'src, X: Expander>(
    parser: &mut ParserState<'_, 'src, X>,
    attributes: Vec<(Attribute<'src>, Written<'src>)>,
    items: &mut Vec<Item<'src>>,
    numerator: &mut Numerator,
) -> Result<(), ParseError<'src>>
    requires { HaveDerivedPairFields attributes.items }
    ensures reads { ParsesCounted X.answer (λ _. last_tree items.new.items) result numerator.new
        parser.old parser.new (reader.function (entries_of attributes.entry.items)
        (counters_of numerator.old)) }
    ensures appended { OnOk result (AppendsItem items.old.items items.new.items) }
    ensures moved { CountersMoved numerator.old numerator.new
        (identifiers (map significant_of (state_of X.answer parser.old).left)) }
{
    let name = parser.expect(TokenKind::Identifier)?;
    let attributes = check_allowed(parser.alloc, ItemKind::Function, attributes, name)?;
    parser.expect(TokenKind::ParenL)?;
    let parameters = parse_parameter_names(parser, numerator)?;
    parser.expect(TokenKind::ColonEquals)?;
    let body = parse_expression(parser)?;
    let (token, _) = name;
    push_parsed_item(
        items,
        Item::Function(FunctionDefinition {
            attributes,
            body: Box::into_inner(body),
            name: Name::from_identifier(*token),
            parameters,
        }),
    )
}
