//! Aliases, settings and `unexport`s: a keyword, a name, and at most a target or a value.
ghost use Rattle.std.specs.Prelude.{OnOk};
ghost use Rattle.justfile_parse_item.specs.ItemTable as reader;
ghost use Rattle.justfile_parse_item.specs.MethodResults.{ParsesUncounted};
ghost use Rattle.justfile_parse_item.specs.Pushes.{AppendsItem, last_tree};
ghost use Rattle.justfile_parse_item.specs.DerivedFields.{HaveDerivedPairFields};
ghost use Rattle.justfile_parse_attribute.specs.Attributes.{entries_of};

use crate::attribute_checks::check_allowed;
use crate::items::push_parsed_item;
use justfile_attribute::Attribute;
use justfile_item::{Alias, Item, Set};
use justfile_parse_base::{ParseError, parse_namepath};
use justfile_parse_expression::ParserState;
use justfile_parse_item_parts::{parse_setting_value, setting_keyword};
use justfile_token::{Expander, Name};
use justfile_vocabulary::{ItemKind, TokenKind};
use justfile_written::Written;

/// Parses an alias after its attributes and `alias`: a name, `:=`, and the path of a recipe. Checks
/// the attributes, and appends the item.
#[tactic(auto, unfolding(crate::specs::MethodResults::ParsesUncounted, justfile_model::specs::Readers::Reader::alias, justfile_parse_expression::specs::TableReader::leaves))]
pub(crate) fn parse_alias<'src, X: Expander>(
    parser: &mut ParserState<'_, 'src, X>,
    attributes: Vec<(Attribute<'src>, Written<'src>)>,
    items: &mut Vec<Item<'src>>,
) -> Result<(), ParseError<'src>>
    requires { HaveDerivedPairFields attributes.items }
    ensures reads { ParsesUncounted X.answer (λ _. last_tree items.new.items) result
        parser.old parser.new (reader.alias (entries_of attributes.entry.items)) }
    ensures appended { OnOk result (AppendsItem items.old.items items.new.items) }
{
    let name = parser.expect(TokenKind::Identifier)?;
    parser.expect(TokenKind::ColonEquals)?;
    let target = parse_namepath(parser)?;
    let attributes = check_allowed(parser.alloc, ItemKind::Alias, attributes, name)?;
    let (token, _) = name;
    push_parsed_item(
        items,
        Item::Alias(Alias {
            attributes,
            name: Name::from_identifier(*token),
            target,
        }),
    )
}

/// Parses a setting after its attributes and `set`: its name and its value. Checks the attributes,
/// and appends the item.
#[tactic(auto, unfolding(crate::specs::MethodResults::ParsesUncounted, justfile_model::specs::Readers::Reader::setting, justfile_parse_expression::specs::TableReader::leaves))]
pub(crate) fn parse_set<'src, X: Expander>(
    parser: &mut ParserState<'_, 'src, X>,
    attributes: Vec<(Attribute<'src>, Written<'src>)>,
    items: &mut Vec<Item<'src>>,
) -> Result<(), ParseError<'src>>
    requires { HaveDerivedPairFields attributes.items }
    ensures reads { ParsesUncounted X.answer (λ _. last_tree items.new.items) result
        parser.old parser.new (reader.setting (entries_of attributes.entry.items)) }
    ensures appended { OnOk result (AppendsItem items.old.items items.new.items) }
{
    let name = parser.expect(TokenKind::Identifier)?;
    let keyword = setting_keyword(parser.alloc, name)?;
    let attributes = check_allowed(parser.alloc, ItemKind::Setting, attributes, name)?;
    let value = parse_setting_value(parser, name, keyword)?;
    let (token, _) = name;
    push_parsed_item(
        items,
        Item::Setting(Set {
            attributes,
            name: Name::from_identifier(*token),
            value,
        }),
    )
}

/// Parses an `unexport` after its attributes and the keyword: a name. Checks the attributes, and
/// appends the item.
#[tactic(auto, unfolding(crate::specs::MethodResults::ParsesUncounted, justfile_model::specs::Readers::Reader::unexport, justfile_parse_expression::specs::TableReader::leaves))]
pub(crate) fn parse_unexport<'src, X: Expander>(
    parser: &mut ParserState<'_, 'src, X>,
    attributes: Vec<(Attribute<'src>, Written<'src>)>,
    items: &mut Vec<Item<'src>>,
) -> Result<(), ParseError<'src>>
    requires { HaveDerivedPairFields attributes.items }
    ensures reads { ParsesUncounted X.answer (λ _. last_tree items.new.items) result
        parser.old parser.new (reader.unexport (entries_of attributes.entry.items)) }
    ensures appended { OnOk result (AppendsItem items.old.items items.new.items) }
{
    let name = parser.expect(TokenKind::Identifier)?;
    let attributes = check_allowed(parser.alloc, ItemKind::Unexport, attributes, name)?;
    let (token, _) = name;
    push_parsed_item(
        items,
        Item::Unexport {
            attributes,
            name: Name::from_identifier(*token),
        },
    )
}
