//! Assignments.
ghost use Rattle.std.specs.Prelude.{OnOk, map};
ghost use Rattle.justfile_model.specs.Lexing.SignificantTokens.{identifiers};
ghost use Rattle.justfile_parse_item.specs.ItemTable as reader;
ghost use Rattle.justfile_parse_item.specs.MethodResults.{CountersMoved};
ghost use Rattle.justfile_parse_item.specs.Pushes.{AppendsItem, last_tree};
ghost use Rattle.justfile_parse_item.specs.DerivedFields.{HaveDerivedPairFields};
ghost use Rattle.justfile_parse_attribute.specs.Attributes.{entries_of};
ghost use Rattle.justfile_parse_expression.specs.Significant.{significant_of};
ghost use Rattle.justfile_parse_expression.specs.View.{state_of};
ghost use Rattle.justfile_parse_base.specs.Counting.{counters_of, ParsesCounted};

use crate::attribute_checks::check_allowed;
use crate::items::push_parsed_item;
use justfile_attribute::Attribute;
use justfile_expression_parser::parse_expression;
use justfile_item::{Binding, Item, is_private_item};
use justfile_numbers::Numerator;
use justfile_parse_base::{ParseError, next_binding_number};
use justfile_parse_expression::ParserState;
use justfile_token::{Expander, Name};
use justfile_vocabulary::{ItemKind, TokenKind};
use justfile_written::Written;

/// Parses an assignment after its attributes and after `eager` or `export`, if it has one: a name,
/// `:=`, and an expression. Checks the attributes, and appends the item.
#[tactic(auto, using(crate::proofs::CounterSteps::unmoved, crate::proofs::Pushes::reads, crate::proofs::Pushes::appends, justfile_parse_expression::proofs::Rest::file_depth_is), unfolding(justfile_model::specs::Readers::Reader::assignment, justfile_parse_expression::specs::TableReader::leaves))]
pub(crate) fn parse_assignment<'src, X: Expander>(
    parser: &mut ParserState<'_, 'src, X>,
    eager: bool,
    export: bool,
    attributes: Vec<(Attribute<'src>, Written<'src>)>,
    items: &mut Vec<Item<'src>>,
    numerator: &mut Numerator,
) -> Result<(), ParseError<'src>>
    requires { HaveDerivedPairFields attributes.items }
    ensures reads { ParsesCounted X.answer (λ _. last_tree items.new.items) result numerator.new
        parser.old parser.new (reader.assignment eager export (entries_of attributes.entry.items)
        (counters_of numerator.old)) }
    ensures appended { OnOk result (AppendsItem items.old.items items.new.items) }
    ensures moved { CountersMoved numerator.old numerator.new
        (identifiers (map significant_of (state_of X.answer parser.old).left)) }
{
    let name = parser.expect(TokenKind::Identifier)?;
    parser.expect(TokenKind::ColonEquals)?;
    let value = parse_expression(parser)?;
    let attributes = check_allowed(parser.alloc, ItemKind::Assignment, attributes, name)?;
    let number = next_binding_number(numerator)?;
    let (token, _) = name;
    let private = is_private_item(*token, &attributes);
    push_parsed_item(
        items,
        Item::Assignment(Binding {
            attributes,
            eager,
            export,
            file_depth: parser.file_depth,
            name: Name::from_identifier(*token),
            number,
            prelude: false,
            private,
            value: Box::into_inner(value),
        }),
    )
}
