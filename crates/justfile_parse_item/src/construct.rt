//! Constructs: their attributes, the keywords that they begin with, and what follows.
ghost use Rattle.std.specs.Prelude.{◌≡◌, IfOk, OnOk, map};
ghost use Rattle.justfile_model.specs.Lexing.SignificantTokens.{identifiers};
ghost use Rattle.justfile_parse_item.specs.ItemTable as reader;
ghost use Rattle.justfile_parse_item.specs.MethodResults.{CountersMoved};
ghost use Rattle.justfile_parse_item.specs.Pushes.{AppendsItem, last_tree};
ghost use Rattle.justfile_parse_item.specs.DerivedFields.{HaveDerivedPairFields};
ghost use Rattle.justfile_parse_item.specs.ConstructKeywords.{after_keyword, beginning_of, keyword_taken};
ghost use Rattle.justfile_parse_attribute.specs.Attributes.{entries_of};
ghost use Rattle.justfile_parse_base.specs.ParseErrors.{ParsesRuled};
ghost use Rattle.justfile_parse_expression.specs.MethodResults.{Takes};
ghost use Rattle.justfile_parse_expression.specs.Significant.{significant_of};
ghost use Rattle.justfile_parse_expression.specs.View.{Moves, state_of};
ghost use Rattle.justfile_parse_base.specs.Counting.{counters_of, ParsesCounted};

use crate::assignment::parse_assignment;
use crate::attribute_checks::extraneous_fault;
use crate::function::parse_function;
use crate::recipe::parse_any_recipe;
use crate::short_item::{parse_alias, parse_set, parse_unexport};
use crate::source::{parse_import, parse_module};
use justfile_attribute::Attribute;
use justfile_item::Item;
use justfile_numbers::Numerator;
use justfile_parse_attribute::parse_attributes;
use justfile_parse_base::{ParseError, rule_error};
use justfile_parse_expression::ParserState;
use justfile_parse_item_parts::{Lookahead, accept_keyword_before, peek_assignment};
use justfile_token::Expander;
use justfile_vocabulary::{Keyword, TokenKind};
use justfile_written::Written;

/// A keyword that a construct begins with.
#[derive(Clone, Copy, Debug, PartialEq, Eq)]
pub(crate) enum ConstructKeyword {
    Alias,
    Eager,
    Export,
    Import,
    Mod,
    Set,
    Unexport,
}

/// The keywords that constructs begin with, and what has to follow each.
static BEGINNINGS: [(ConstructKeyword, Keyword, Lookahead); 7] = [
    (
        ConstructKeyword::Alias,
        Keyword::Alias,
        Lookahead::Assignment,
    ),
    (
        ConstructKeyword::Eager,
        Keyword::Eager,
        Lookahead::Assignment,
    ),
    (
        ConstructKeyword::Export,
        Keyword::Export,
        Lookahead::Assignment,
    ),
    (
        ConstructKeyword::Unexport,
        Keyword::Unexport,
        Lookahead::Line,
    ),
    (ConstructKeyword::Import, Keyword::Import, Lookahead::Import),
    (ConstructKeyword::Mod, Keyword::Mod, Lookahead::Module),
    (ConstructKeyword::Set, Keyword::Set, Lookahead::Set),
];

/// Parses a construct with its attributes, and appends it. Requires that no expression is open.
#[tactic(auto, using(crate::proofs::CounterSteps::unmoved), unfolding(justfile_model::specs::Readers::Reader::construct))]
pub(crate) fn parse_construct<'src, X: Expander>(
    parser: &mut ParserState<'_, 'src, X>,
    items: &mut Vec<Item<'src>>,
    numerator: &mut Numerator,
) -> Result<(), ParseError<'src>>
    requires { (state_of X.answer parser.old).depth ≡ 0 }
    ensures reads { ParsesCounted X.answer (λ _. last_tree items.new.items) result numerator.new
        parser.old parser.new (reader.construct (counters_of numerator.old)) }
    ensures appended { OnOk result (AppendsItem items.old.items items.new.items) }
    ensures moved { CountersMoved numerator.old numerator.new
        (identifiers (map significant_of (state_of X.answer parser.old).left)) }
{
    let attributes = parse_item_attributes(parser)?;
    parse_content(parser, attributes, items, numerator)
}

/// Parses the attributes before a construct. Refuses them if a blank line or a comment follows.
#[tactic(auto, unfolding(justfile_model::specs::Readers::Reader::attributes))]
fn parse_item_attributes<'src, X: Expander>(
    parser: &mut ParserState<'_, 'src, X>,
) -> Result<Vec<(Attribute<'src>, Written<'src>)>, ParseError<'src>>
    ensures reads { ParsesRuled X.answer (λ pairs. entries_of pairs.items) result
        parser.old parser.new reader.item_attributes }
    ensures fields { IfOk result (λ pairs. HaveDerivedPairFields pairs.items) }
{
    let Some((opener, _)) = parser.peek_if(TokenKind::BracketL) else {
        return Ok(Vec::new(parser.alloc));
    };
    let attributes = parse_attributes(parser)?;
    if stands_alone(parser) {
        return Err(rule_error(parser.alloc, extraneous_fault(attributes.len(), *opener)));
    }
    Ok(attributes)
}

/// Whether a blank line or a comment comes next.
fn stands_alone<X: Expander>(parser: &ParserState<'_, '_, X>) -> bool
    ensures { result ≡ reader.stands_alone (state_of X.answer parser.now) }
{
    parser.peek_kinds(&[TokenKind::Eol]) || parser.peek_kinds(&[TokenKind::Comment])
}

/// Parses a construct after its attributes, and appends it.
#[tactic(auto, using(crate::proofs::ConstructKeywords::content_after_keyword, crate::proofs::ConstructKeywords::content_without_keyword))]
fn parse_content<'src, X: Expander>(
    parser: &mut ParserState<'_, 'src, X>,
    attributes: Vec<(Attribute<'src>, Written<'src>)>,
    items: &mut Vec<Item<'src>>,
    numerator: &mut Numerator,
) -> Result<(), ParseError<'src>>
    requires { HaveDerivedPairFields attributes.items }
    ensures reads { ParsesCounted X.answer (λ _. last_tree items.new.items) result numerator.new
        parser.old parser.new (reader.content (entries_of attributes.entry.items)
        (counters_of numerator.old)) }
    ensures appended { OnOk result (AppendsItem items.old.items items.new.items) }
    ensures moved { CountersMoved numerator.old numerator.new
        (identifiers (map significant_of (state_of X.answer parser.old).left)) }
{
    match accept_construct_keyword(parser) {
        Some(keyword) => parse_after_keyword(keyword, parser, attributes, items, numerator),
        None => parse_without_keyword(parser, attributes, items, numerator),
    }
}

/// Takes the keyword that the construct begins with, if it begins with one. A keyword is an
/// ordinary name unless what follows it fits.
#[tactic(auto, using(crate::proofs::FirstWord::unnamed, crate::proofs::FirstWord::other_word))]
fn accept_construct_keyword<X: Expander>(
    parser: &mut ParserState<'_, '_, X>,
) -> Option<ConstructKeyword>
    ensures takes { Takes result (state_of X.answer parser.new)
        (keyword_taken (state_of X.answer parser.old)) }
    ensures moves { Moves result parser.old parser.new }
{
    let (word, _) = parser.probe_if(TokenKind::Identifier)?;
    let (construct, keyword, lookahead) = find_beginning(word.lexeme())?;
    accept_keyword_before(parser, keyword, lookahead)?;
    Some(construct)
}

/// Returns the row of this word, if it is one of the keywords.
fn find_beginning(word: &str) -> Option<(ConstructKeyword, Keyword, Lookahead)>
    ensures { result ≡ beginning_of word.now }
{
    BEGINNINGS
        .iter()
        .copied()
        .find(|row| word == row.1.lexeme())
}

/// Parses a construct after its attributes and this keyword, and appends it.
fn parse_after_keyword<'src, X: Expander>(
    keyword: ConstructKeyword,
    parser: &mut ParserState<'_, 'src, X>,
    attributes: Vec<(Attribute<'src>, Written<'src>)>,
    items: &mut Vec<Item<'src>>,
    numerator: &mut Numerator,
) -> Result<(), ParseError<'src>>
    requires { HaveDerivedPairFields attributes.items }
    ensures reads { ParsesCounted X.answer (λ _. last_tree items.new.items) result numerator.new
        parser.old parser.new (after_keyword keyword (entries_of attributes.entry.items)
        (counters_of numerator.old)) }
    ensures appended { OnOk result (AppendsItem items.old.items items.new.items) }
    ensures moved { CountersMoved numerator.old numerator.new
        (identifiers (map significant_of (state_of X.answer parser.old).left)) }
{
    match keyword {
        ConstructKeyword::Alias => parse_alias(parser, attributes, items),
        ConstructKeyword::Eager => parse_assignment(
            parser, true, false, attributes, items, numerator,
        ),
        ConstructKeyword::Export => parse_assignment(
            parser, false, true, attributes, items, numerator,
        ),
        ConstructKeyword::Import => parse_import(parser, attributes, items),
        ConstructKeyword::Mod => parse_module(parser, attributes, items),
        ConstructKeyword::Set => parse_set(parser, attributes, items),
        ConstructKeyword::Unexport => parse_unexport(parser, attributes, items),
    }
}

/// Parses a construct without a keyword, after its attributes, and appends it.
#[tactic(auto, unfolding(justfile_model::specs::Readers::Reader::without_keyword))]
fn parse_without_keyword<'src, X: Expander>(
    parser: &mut ParserState<'_, 'src, X>,
    attributes: Vec<(Attribute<'src>, Written<'src>)>,
    items: &mut Vec<Item<'src>>,
    numerator: &mut Numerator,
) -> Result<(), ParseError<'src>>
    requires { HaveDerivedPairFields attributes.items }
    ensures reads { ParsesCounted X.answer (λ _. last_tree items.new.items) result numerator.new
        parser.old parser.new (reader.without_keyword (entries_of attributes.entry.items)
        (counters_of numerator.old)) }
    ensures appended { OnOk result (AppendsItem items.old.items items.new.items) }
    ensures moved { CountersMoved numerator.old numerator.new
        (identifiers (map significant_of (state_of X.answer parser.old).left)) }
{
    if parser.peek_kinds(&[TokenKind::Identifier, TokenKind::ParenL]) {
        return parse_function(parser, attributes, items, numerator);
    }
    if peek_assignment(parser) {
        return parse_assignment(parser, false, false, attributes, items, numerator);
    }
    parse_any_recipe(parser, attributes, items, numerator)
}
