//! The items of a file, each with its doc.
ghost use Rattle.std.specs.Prelude.{◌≡◌, IfErr, IfOk, OnOk, length, map};
ghost use Rattle.justfile_model.specs.Lexing.SignificantTokens.{identifiers};
ghost use Rattle.justfile_parse_base.specs.Counting.{counters_of};
ghost use Rattle.justfile_parse_base.specs.declared.parse_error.ParseError.TheVariants.{Expression};
ghost use Rattle.justfile_parse_docs.specs.Docs.{taken_docs};
ghost use Rattle.justfile_parse_docs.specs.ReadItems.{ReadsDocumented, ReadsLine};
ghost use Rattle.justfile_parse_expression.specs.Significant.{significant_of};
ghost use Rattle.justfile_parse_expression.specs.View.{state_of};
ghost use Rattle.justfile_parse_expression.specs.declared.expression_error.ExpressionError.TheVariants.{Memory};
ghost use Rattle.justfile_parse_item.specs.DerivedFields.{HaveDerivedFields};
ghost use Rattle.justfile_parse_item.specs.ItemTable as reader;
ghost use Rattle.justfile_parse_item.specs.MethodResults.{CountersMoved};
ghost use Rattle.justfile_parse_item.specs.Tree.{item_tree};

use crate::docs::take_docs;
use justfile_item::Item;
use justfile_numbers::Numerator;
use justfile_parse_base::ParseError;
use justfile_parse_expression::ParserState;
use justfile_parse_item::{expect_nothing, parse_line};
use justfile_token::Expander;
use justfile_vocabulary::TokenKind;
use std::alloc::Global;

/// In most files an item has this many tokens or more, line ends among the items counted.
const TOKENS_OF_AN_ITEM: usize = 8;

/// In files of short items an item has this many tokens.
const TOKENS_OF_A_SHORT_ITEM: usize = 2;

/// For how many short items there is room at first.
const SHORT_ITEMS: usize = 8192;

/// Returns for how many items a list has room at first, by the number of tokens. Room that isn't used
/// takes none of the system's memory, and moving many items to more room takes long.
fn first_room(tokens: usize) -> usize {
    let few = (tokens / TOKENS_OF_A_SHORT_ITEM).min(SHORT_ITEMS);
    few.max(tokens / TOKENS_OF_AN_ITEM)
}

/// Parses the items up to the end of the file, and moves the comment before each into its doc.
/// Requires that no expression is open.
///
/// # Errors
///
/// A `ParseError` if the rest of the table isn't a file, if the counter of bindings or of recipes
/// has reached its maximum and a number is needed, or if memory runs out.
#[tactic(auto, using(justfile_parse_item::proofs::CounterSteps::unmoved, crate::proofs::Loop::moved, crate::proofs::Loop::moved_on))]
pub fn parse_items<'src, X: Expander>(
    parser: &mut ParserState<'_, 'src, X>,
    numerator: &mut Numerator,
) -> Result<Vec<Item<'src>>, ParseError<'src>>
    requires { (state_of X.answer parser.old).depth ≡ 0 }
    ensures reads { ReadsDocumented result numerator.new (state_of X.answer parser.new)
        (reader.items (counters_of numerator.old) (state_of X.answer parser.old)) }
    ensures fields { IfOk result (λ items. HaveDerivedFields items.items) }
    ensures moved { CountersMoved numerator.old numerator.new
        (identifiers (map significant_of (state_of X.answer parser.old).left)) }
{
    let mut items = Vec::with_capacity(parser.alloc, first_room(parser.tokens.len()))?;
    'lines: loop {
        if let Some(_end) = parser.accept(TokenKind::Eof) {
            expect_nothing(parser)?;
            return Ok(items);
        }
        parse_documented_line(parser, &mut items, numerator)?;
    }
}

/// Parses a line, or an item of several lines, and appends its items, with docs. Requires that no
/// expression is open.
fn parse_documented_line<'src, X: Expander>(
    parser: &mut ParserState<'_, 'src, X>,
    items: &mut Vec<Item<'src>>,
    numerator: &mut Numerator,
) -> Result<(), ParseError<'src>>
    requires closed { (state_of X.answer parser.old).depth ≡ 0 }
    requires fields { HaveDerivedFields items.old.items }
    ensures reads { ReadsLine result items.old.items items.new.items numerator.new
        (state_of X.answer parser.new)
        (reader.line (counters_of numerator.old) (state_of X.answer parser.old)) }
    ensures fields { OnOk result (HaveDerivedFields items.new.items) }
    ensures moved { CountersMoved numerator.old numerator.new
        (identifiers (map significant_of (state_of X.answer parser.old).left)) }
{
    let count = count_items(items);
    parse_line_after(parser, items, numerator, count)
}

/// Parses a line as `parse_documented_line` does, after this number of items.
fn parse_line_after<'src, X: Expander>(
    parser: &mut ParserState<'_, 'src, X>,
    items: &mut Vec<Item<'src>>,
    numerator: &mut Numerator,
    count: usize,
) -> Result<(), ParseError<'src>>
    requires closed { (state_of X.answer parser.old).depth ≡ 0 }
    requires fields { HaveDerivedFields items.old.items }
    requires counted { count ≡ length items.old.items }
    ensures reads { ReadsLine result items.old.items items.new.items numerator.new
        (state_of X.answer parser.new)
        (reader.line (counters_of numerator.old) (state_of X.answer parser.old)) }
    ensures fields { OnOk result (HaveDerivedFields items.new.items) }
    ensures moved { CountersMoved numerator.old numerator.new
        (identifiers (map significant_of (state_of X.answer parser.old).left)) }
{
    match parse_line(parser, items, numerator) {
        Ok(()) => document_line(parser.alloc, items, count),
        Err(error) => Err(error),
    }
}

/// Takes the docs of the items from `count` on.
///
/// # Errors
///
/// A `ParseError` if memory runs out.
fn document_line<'src>(
    alloc: Global,
    items: &mut Vec<Item<'src>>,
    count: usize,
) -> Result<(), ParseError<'src>>
    requires { HaveDerivedFields items.old.items }
    ensures trees { OnOk result (map item_tree items.new.items
        ≡ taken_docs count count items.old.items) }
    ensures fields { OnOk result (HaveDerivedFields items.new.items) }
    ensures memory { IfErr result (λ error. error ≡ Expression Memory) }
{
    take_docs(alloc, items, count)?;
    Ok(())
}

/// Returns the number of items. Takes the list as `&mut`, and leaves it unchanged: the checker
/// reaches its limit at a shared reference to it in the caller (`docs/TOOLCHAIN.md`, "could not
/// tell").
fn count_items(items: &mut Vec<Item<'_>>) -> usize
    ensures count { result ≡ length items.old.items }
    ensures unchanged { items.new.items ≡ items.old.items }
{
    items.len()
}
