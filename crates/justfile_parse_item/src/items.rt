//! The lines of a file, and the numbers that their items get.
ghost use Rattle.std.specs.Prelude.{◌≡◌, ◌∷◌, ◌++◌, [], IfOk, IsTrue, OnOk, codes, map, nat_eq};
ghost use Rattle.std.specs.List.{starts_with};
ghost use Rattle.std.specs.Str.{trim_end};
ghost use Rattle.justfile_token.specs.Token.{lexeme_of};
ghost use Rattle.justfile_model.specs.Lexing.SignificantTokens.{identifiers};
ghost use Rattle.justfile_model.specs.Trees.Tree as tree;
ghost use Rattle.justfile_parse_base.specs.Counting.{counters_of, ParsesCounted};
ghost use Rattle.justfile_model.specs.Readers.Reader.{has_body};
ghost use Rattle.justfile_model.specs.Readers.ReaderState.{prepend};
ghost use Rattle.justfile_model.specs.Readers.PartReader.{after_numbered};
ghost use Rattle.justfile_item.specs.declared.item.Item.TheVariants as variants;
ghost use Rattle.justfile_parse_item.specs.ItemTable as reader;
ghost use Rattle.justfile_parse_item.specs.MethodResults.{CountersMoved, IsAtItem};
ghost use Rattle.justfile_parse_expression.specs.ParsedResults.{Parses};
ghost use Rattle.justfile_parse_item.specs.DerivedFields.{HaveDerivedFields, HasDerivedItemFields, KeepsDerivedFields};
ghost use Rattle.justfile_parse_expression.specs.Significant.{significant_of};
ghost use Rattle.justfile_parse_item.specs.Pushes.{AppendsItem, Pushes, last_tree};
ghost use Rattle.justfile_parse_item.specs.Tree.{item_tree};
ghost use Rattle.justfile_parse_expression.specs.View.{state_of};

use crate::construct::parse_construct;
use justfile_item::Item;
use justfile_numbers::Numerator;
use justfile_parse_base::ParseError;
use justfile_parse_expression::{ExpressionError, ParserState, SyntaxError};
use justfile_token::{Expander, Token};
use justfile_vocabulary::TokenKind;
use std::alloc::AllocError;

/// Refuses tokens after the end of the file.
///
/// # Errors
///
/// An `ExpressionError` if a token is left.
#[tactic(auto, unfolding(crate::specs::ItemTable::read_nothing, justfile_model::specs::Readers::ReaderState::refused))]
pub fn expect_nothing<'src, X: Expander>(
    parser: &ParserState<'_, 'src, X>,
) -> Result<(), ExpressionError<'src>>
    ensures { Parses X.answer (λ nothing. nothing) result parser.now parser.now
        reader.read_nothing }
{
    match parser.peek_front() {
        Some(_entry) => Err(ExpressionError::Refused(SyntaxError::Unexpected)),
        None => Ok(()),
    }
}

/// Parses a line, or an item of several lines, and appends its items, without docs. Requires that
/// no expression is open.
///
/// # Errors
///
/// A `ParseError` if no line comes next, if the counter of bindings or of recipes has reached its
/// maximum and a number is needed, or if memory runs out.
#[tactic(auto, using(crate::proofs::Lines::line_blank, crate::proofs::CounterSteps::unmoved, crate::proofs::DerivedItemFields::newline_fields))]
pub fn parse_line<'src, X: Expander>(
    parser: &mut ParserState<'_, 'src, X>,
    items: &mut Vec<Item<'src>>,
    numerator: &mut Numerator,
) -> Result<(), ParseError<'src>>
    requires { (state_of X.answer parser.old).depth ≡ 0 }
    ensures reads { ParsesCounted X.answer (λ _. map item_tree items.new.items) result
        numerator.new parser.old parser.new (λ s. after_numbered (map item_tree items.old.items)
        (reader.line (counters_of numerator.old) s)) }
    ensures fields { OnOk result (KeepsDerivedFields items.old.items items.new.items) }
    ensures moved { CountersMoved numerator.old numerator.new
        (identifiers (map significant_of (state_of X.answer parser.old).left)) }
{
    if let Some(_newline) = parser.accept(TokenKind::Eol) {
        push_line_end(items)?;
        return Ok(());
    }
    parse_item_line(parser, items, numerator)
}

/// Parses a line that isn't blank: an item and its end. Appends both.
fn parse_item_line<'src, X: Expander>(
    parser: &mut ParserState<'_, 'src, X>,
    items: &mut Vec<Item<'src>>,
    numerator: &mut Numerator,
) -> Result<(), ParseError<'src>>
    requires { IsAtItem (state_of X.answer parser.old) }
    ensures reads { ParsesCounted X.answer (λ _. map item_tree items.new.items) result
        numerator.new parser.old parser.new (λ s. after_numbered (map item_tree items.old.items)
        (reader.line (counters_of numerator.old) s)) }
    ensures fields { OnOk result (KeepsDerivedFields items.old.items items.new.items) }
    ensures moved { CountersMoved numerator.old numerator.new
        (identifiers (map significant_of (state_of X.answer parser.old).left)) }
{
    parse_item(parser, items, numerator)?;
    end_item(parser, items)?;
    Ok(())
}

/// Parses an item that begins a line, and appends it. Requires that no expression is open.
#[tactic(auto, using(crate::proofs::CounterSteps::unmoved, crate::proofs::Pushes::appends), unfolding(justfile_model::specs::Readers::Reader::any_item, justfile_parse_expression::specs::TableReader::leaves))]
fn parse_item<'src, X: Expander>(
    parser: &mut ParserState<'_, 'src, X>,
    items: &mut Vec<Item<'src>>,
    numerator: &mut Numerator,
) -> Result<(), ParseError<'src>>
    requires { (state_of X.answer parser.old).depth ≡ 0 }
    ensures reads { ParsesCounted X.answer (λ _. last_tree items.new.items) result numerator.new
        parser.old parser.new (reader.any_item (counters_of numerator.old)) }
    ensures appended { OnOk result (AppendsItem items.old.items items.new.items) }
    ensures moved { CountersMoved numerator.old numerator.new
        (identifiers (map significant_of (state_of X.answer parser.old).left)) }
{
    if let Some((comment, _)) = parser.accept(TokenKind::Comment) {
        return push_parsed_item(items, make_comment(*comment));
    }
    parse_construct(parser, items, numerator)
}

/// Parses the end of the last item, and appends the line end.
fn end_item<'src, X: Expander>(
    parser: &mut ParserState<'_, 'src, X>,
    items: &mut Vec<Item<'src>>,
) -> Result<(), ExpressionError<'src>>
    ensures reads { Parses X.answer (λ _. map item_tree items.new.items) result parser.old
        parser.new (λ s. prepend (map item_tree items.old.items)
        (reader.item_end (has_body (last_tree items.old.items)) s)) }
    ensures fields { OnOk result (KeepsDerivedFields items.old.items items.new.items) }
{
    let has_body = ends_in_body(items);
    parse_item_end(parser, has_body, items)
}

/// Parses the end of an item, and appends the line end. After a body the next token begins a line
/// already, so there the line end is added without a token.
#[tactic(auto, using(crate::proofs::Lines::ended_body, crate::proofs::Lines::ended_after, crate::proofs::DerivedItemFields::newline_fields))]
fn parse_item_end<'src, X: Expander>(
    parser: &mut ParserState<'_, 'src, X>,
    has_body: bool,
    items: &mut Vec<Item<'src>>,
) -> Result<(), ExpressionError<'src>>
    ensures reads { Parses X.answer (λ _. map item_tree items.new.items) result parser.old
        parser.new (λ s. prepend (map item_tree items.old.items) (reader.item_end has_body s)) }
    ensures fields { OnOk result (KeepsDerivedFields items.old.items items.new.items) }
{
    if has_body {
        push_line_end(items)?;
        return Ok(());
    }
    parse_after_item(parser, items)
}

/// Parses what follows an item without a body: a trailing comment, if there is one, and the end of
/// the line. Appends them.
#[tactic(auto, using(crate::proofs::Lines::after_comment, crate::proofs::Lines::after_bare))]
fn parse_after_item<'src, X: Expander>(
    parser: &mut ParserState<'_, 'src, X>,
    items: &mut Vec<Item<'src>>,
) -> Result<(), ExpressionError<'src>>
    ensures reads { Parses X.answer (λ _. map item_tree items.new.items) result
        parser.old parser.new (λ s. prepend (map item_tree items.old.items) (reader.after_item s)) }
    ensures fields { OnOk result (KeepsDerivedFields items.old.items items.new.items) }
{
    match parser.accept(TokenKind::Comment) {
        Some((comment, _)) => {
            push_item(items, make_comment(*comment))?;
            parse_line_end(parser, items)
        }
        None => parse_line_end(parser, items),
    }
}

/// Parses the end of a line, and appends it, since it is an item. At the end of the file it takes
/// and appends nothing.
#[tactic(auto, using(crate::proofs::Lines::line_end_closes, crate::proofs::Lines::line_end_newline, crate::proofs::DerivedItemFields::newline_fields, crate::proofs::DerivedItemFields::same_fields))]
fn parse_line_end<'src, X: Expander>(
    parser: &mut ParserState<'_, 'src, X>,
    items: &mut Vec<Item<'src>>,
) -> Result<(), ExpressionError<'src>>
    ensures reads { Parses X.answer (λ _. map item_tree items.new.items) result
        parser.old parser.new (λ s. prepend (map item_tree items.old.items) (reader.line_end s)) }
    ensures fields { OnOk result (KeepsDerivedFields items.old.items items.new.items) }
{
    if let Some(_end) = parser.peek_if(TokenKind::Eof) {
        return Ok(());
    }
    parser.expect(TokenKind::Eol)?;
    push_line_end(items)?;
    Ok(())
}

/// Makes a comment, without the whitespace at its end.
fn make_comment<'src>(comment: Token<'src>) -> Item<'src>
    requires { IsTrue (starts_with nat_eq (lexeme_of comment) (codes "#")) }
    ensures tree { item_tree result ≡ tree.Comment (trim_end (lexeme_of comment.entry)) }
    ensures fields { HasDerivedItemFields result }
{
    Item::Comment(comment.lexeme().trim_end())
}

/// Whether the last item has a body. Takes the list as `&mut`, and leaves it unchanged: the checker
/// reaches its limit at a shared reference to it in the caller (`docs/TOOLCHAIN.md`, "could not
/// tell").
fn ends_in_body(items: &mut Vec<Item<'_>>) -> bool
    ensures body { result ≡ has_body (last_tree items.old.items) }
    ensures unchanged { items.new.items ≡ items.old.items }
{
    has_last_body(items.as_slice())
}

/// Whether the last of these items has a body.
#[tactic(auto, using(crate::proofs::Pushes::last_at, crate::proofs::Pushes::last_none))]
fn has_last_body(items: &[Item<'_>]) -> bool
    ensures { result ≡ has_body (last_tree items.now) }
{
    let count = items.len();
    if count == 0 {
        return false;
    }
    is_bodied(&items[count - 1])
}

/// Whether the item is a recipe with a body. It wraps the method, to state the result over the tree
/// of the item.
fn is_bodied(item: &Item<'_>) -> bool
    ensures { result ≡ has_body (item_tree item.now) }
{
    item.has_body()
}

/// Appends an item that was parsed.
///
/// # Errors
///
/// A `ParseError` if memory runs out.
#[inline(always)]
pub(crate) fn push_parsed_item<'src>(
    items: &mut Vec<Item<'src>>,
    item: Item<'src>,
) -> Result<(), ParseError<'src>>
    ensures { Pushes item.entry items.old.items items.new.items result }
{
    push_item(items, item)?;
    Ok(())
}

/// Appends an item. Reserves room first: a push that can fail would return the item on failure,
/// which costs one more copy.
///
/// # Errors
///
/// `AllocError` if memory runs out.
#[inline(always)]
fn push_item<'src>(items: &mut Vec<Item<'src>>, item: Item<'src>) -> Result<(), AllocError>
    ensures trees { OnOk result (map item_tree items.new.items
        ≡ map item_tree items.old.items ++ item_tree item.entry ∷ []) }
    ensures pushed { OnOk result (items.new.items ≡ items.old.items ++ item.entry ∷ []) }
{
    items.reserve(1)?;
    items.push_reserved(item);
    Ok(())
}

/// Appends a line end. It is an item without fields, so this copies no item.
fn push_line_end(items: &mut Vec<Item<'_>>) -> Result<(), AllocError>
    ensures trees { OnOk result (map item_tree items.new.items
        ≡ map item_tree items.old.items ++ tree.Newline ∷ []) }
    ensures pushed { OnOk result (items.new.items ≡ items.old.items ++ variants.Newline ∷ []) }
{
    items.reserve(1)?;
    items.push_reserved(Item::Newline);
    Ok(())
}
