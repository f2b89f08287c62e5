//! Imports and modules: the items that name another file.
ghost use Rattle.std.specs.Prelude.{OnOk};
ghost use Rattle.justfile_parse_item.specs.ItemTable as reader;
ghost use Rattle.justfile_parse_item.specs.MethodResults.{ParsesUncounted};
ghost use Rattle.justfile_parse_item.specs.Pushes.{AppendsItem, last_tree};
ghost use Rattle.justfile_parse_item.specs.DerivedFields.{HaveDerivedPairFields};
ghost use Rattle.justfile_parse_attribute.specs.Attributes.{entries_of};

use crate::accept::accept_kind;
use crate::attribute_checks::check_allowed;
use crate::items::push_parsed_item;
use justfile_attribute::Attribute;
use justfile_item::Item;
use justfile_parse_base::ParseError;
use justfile_parse_expression::ParserState;
use justfile_parse_item_parts::{parse_file_path, parse_optional_path};
use justfile_token::{Expander, Name};
use justfile_vocabulary::{ItemKind, TokenKind};
use justfile_written::Written;

/// Parses an import after its attributes and `import`: `?` if it is optional, and a path. Checks
/// the attributes, and appends the item.
#[tactic(auto, unfolding(crate::specs::MethodResults::ParsesUncounted, justfile_model::specs::Readers::Reader::import))]
pub(crate) fn parse_import<'src, X: Expander>(
    parser: &mut ParserState<'_, 'src, X>,
    attributes: Vec<(Attribute<'src>, Written<'src>)>,
    items: &mut Vec<Item<'src>>,
) -> Result<(), ParseError<'src>>
    requires { HaveDerivedPairFields attributes.items }
    ensures reads { ParsesUncounted X.answer (λ _. last_tree items.new.items) result
        parser.old parser.new (reader.import (entries_of attributes.entry.items)) }
    ensures appended { OnOk result (AppendsItem items.old.items items.new.items) }
{
    let optional = accept_kind(parser, TokenKind::QuestionMark);
    parse_imported(parser, optional, attributes, items)
}

/// Parses the path of an import. Checks the attributes, and appends the item.
#[tactic(auto, unfolding(crate::specs::MethodResults::ParsesUncounted, justfile_model::specs::Readers::Reader::imported, justfile_parse_expression::specs::TableReader::leaves))]
fn parse_imported<'src, X: Expander>(
    parser: &mut ParserState<'_, 'src, X>,
    optional: bool,
    attributes: Vec<(Attribute<'src>, Written<'src>)>,
    items: &mut Vec<Item<'src>>,
) -> Result<(), ParseError<'src>>
    requires { HaveDerivedPairFields attributes.items }
    ensures reads { ParsesUncounted X.answer (λ _. last_tree items.new.items) result
        parser.old parser.new (reader.imported optional (entries_of attributes.entry.items)) }
    ensures appended { OnOk result (AppendsItem items.old.items items.new.items) }
{
    let (literal, relative) = parse_file_path(parser)?;
    let attributes = check_allowed(parser.alloc, ItemKind::Import, attributes, &literal)?;
    push_parsed_item(
        items,
        Item::Import {
            attributes,
            optional,
            relative,
        },
    )
}

/// Parses a module after its attributes and `mod`: `?` if it is optional, a name, and a path if it
/// has one. Checks the attributes, and appends the item.
#[tactic(auto, unfolding(crate::specs::MethodResults::ParsesUncounted, justfile_model::specs::Readers::Reader::any_module))]
pub(crate) fn parse_module<'src, X: Expander>(
    parser: &mut ParserState<'_, 'src, X>,
    attributes: Vec<(Attribute<'src>, Written<'src>)>,
    items: &mut Vec<Item<'src>>,
) -> Result<(), ParseError<'src>>
    requires { HaveDerivedPairFields attributes.items }
    ensures reads { ParsesUncounted X.answer (λ _. last_tree items.new.items) result
        parser.old parser.new (reader.any_module (entries_of attributes.entry.items)) }
    ensures appended { OnOk result (AppendsItem items.old.items items.new.items) }
{
    let optional = accept_kind(parser, TokenKind::QuestionMark);
    parse_named_module(parser, optional, attributes, items)
}

/// Parses the name of a module, and its path if it has one. Checks the attributes, and appends the
/// item.
#[tactic(auto, unfolding(crate::specs::MethodResults::ParsesUncounted, justfile_model::specs::Readers::Reader::named_module, justfile_parse_expression::specs::TableReader::leaves))]
fn parse_named_module<'src, X: Expander>(
    parser: &mut ParserState<'_, 'src, X>,
    optional: bool,
    attributes: Vec<(Attribute<'src>, Written<'src>)>,
    items: &mut Vec<Item<'src>>,
) -> Result<(), ParseError<'src>>
    requires { HaveDerivedPairFields attributes.items }
    ensures reads { ParsesUncounted X.answer (λ _. last_tree items.new.items) result
        parser.old parser.new (reader.named_module optional (entries_of attributes.entry.items)) }
    ensures appended { OnOk result (AppendsItem items.old.items items.new.items) }
{
    let name = parser.expect(TokenKind::Identifier)?;
    let relative = parse_optional_path(parser)?;
    let attributes = check_allowed(parser.alloc, ItemKind::Module, attributes, name)?;
    let (token, _) = name;
    push_parsed_item(
        items,
        Item::Module {
            attributes,
            doc: None,
            name: Name::from_identifier(*token),
            optional,
            relative,
        },
    )
}
