//! Recipes, from their attributes to the ends of their bodies.
ghost use Rattle.std.specs.Prelude.{◌≡◌, ◌||◌, OnErr, OnOk, map};
ghost use Rattle.justfile_attribute_set.specs.AttributeSet.{attributes_of};
ghost use Rattle.justfile_attribute_set.specs.Attributes.{has_kind};
ghost use Rattle.justfile_vocabulary.specs.declared.attribute_kind.AttributeKind.TheVariants as kinds;
ghost use Rattle.justfile_model.specs.Lexing.SignificantTokens.{identifiers};
ghost use Rattle.justfile_parse_item.specs.ItemTable as reader;
ghost use Rattle.justfile_parse_item.specs.MethodResults.{CountersMoved};
ghost use Rattle.justfile_parse_item.specs.Pushes.{AppendsItem, last_tree};
ghost use Rattle.justfile_parse_item_parts.specs.BodyTrees.{line_tree};
ghost use Rattle.justfile_parse_item.specs.DerivedFields.{HaveDerivedPairFields};
ghost use Rattle.justfile_parse_attribute.specs.Attributes.{entries_of};
ghost use Rattle.justfile_parse_expression.specs.Significant.{significant_of};
ghost use Rattle.justfile_parse_expression.specs.TableReader.{State};
ghost use Rattle.justfile_parse_expression.specs.View.{state_of};
ghost use Rattle.justfile_parse_base.specs.Counting.{ReadsCountedExpression, counters_of, ParsesCounted};

use crate::accept::accept_kind;
use crate::attribute_checks::check_exclusions;
use crate::items::push_parsed_item;
use justfile_attribute::Attribute;
use justfile_attribute_set::AttributeSet;
use justfile_item::{Item, UnresolvedRecipe, is_private_item};
use justfile_line::Line;
use justfile_numbers::{Number, Numerator};
use justfile_parse_base::{ParseError, comment_text};
use justfile_parse_expression::{ExpressionError, ParserState};
use justfile_parse_header::parse_header;
use justfile_parse_item_parts::parse_body_after_header;
use justfile_token::{Expander, Name};
use justfile_vocabulary::{AttributeKind, TokenKind};
use justfile_written::Written;

/// Parses a recipe after its attributes, with or without `@` before its name, and appends it.
#[tactic(auto, using(crate::proofs::Recipes::any_recipe_is))]
pub(crate) fn parse_any_recipe<'src, X: Expander>(
    parser: &mut ParserState<'_, 'src, X>,
    attributes: Vec<(Attribute<'src>, Written<'src>)>,
    items: &mut Vec<Item<'src>>,
    numerator: &mut Numerator,
) -> Result<(), ParseError<'src>>
    requires { HaveDerivedPairFields attributes.items }
    ensures reads { ParsesCounted X.answer (λ _. last_tree items.new.items) result numerator.new
        parser.old parser.new (reader.any_recipe (entries_of attributes.entry.items)
        (counters_of numerator.old)) }
    ensures appended { OnOk result (AppendsItem items.old.items items.new.items) }
    ensures moved { CountersMoved numerator.old numerator.new
        (identifiers (map significant_of (state_of X.answer parser.old).left)) }
{
    let quiet = accept_kind(parser, TokenKind::At);
    parse_recipe(parser, attributes, quiet, items, numerator)
}

/// Parses a recipe from its name to its end: its header, and its body if it has one, with the
/// comment before the body. The recipe gets its number after its body. Checks the attributes, and
/// appends the item.
#[tactic(auto, using(crate::proofs::CounterSteps::unmoved, crate::proofs::Constructs::set_fields))]
fn parse_recipe<'src, X: Expander>(
    parser: &mut ParserState<'_, 'src, X>,
    attributes: Vec<(Attribute<'src>, Written<'src>)>,
    quiet: bool,
    items: &mut Vec<Item<'src>>,
    numerator: &mut Numerator,
) -> Result<(), ParseError<'src>>
    requires { HaveDerivedPairFields attributes.items }
    ensures reads { ParsesCounted X.answer (λ _. last_tree items.new.items) result numerator.new
        parser.old parser.new (reader.recipe quiet (entries_of attributes.entry.items)
        (counters_of numerator.old)) }
    ensures appended { OnOk result (AppendsItem items.old.items items.new.items) }
    ensures moved { CountersMoved numerator.old numerator.new
        (identifiers (map significant_of (state_of X.answer parser.old).left)) }
{
    let attributes = AttributeSet::from_parsed(attributes)?;
    let header = parse_header(&attributes, parser, numerator)?;
    let body = parse_body_after_header(parser)?;
    let (name, _) = header.name;
    check_exclusions(&attributes, parser.alloc, name)?;
    let import_offsets = parser.import_offsets.to_vec(parser.alloc)?;
    let number = next_recipe_number(numerator)?;
    let private = is_private_item(name, &attributes);
    let shebang = is_script(&attributes, body.1.as_slice());
    push_parsed_item(
        items,
        Item::Recipe(UnresolvedRecipe {
            attributes,
            body: body.1,
            comment: comment_text(body.0),
            dependencies: header.dependencies,
            doc: None,
            file_depth: parser.file_depth,
            import_offsets,
            name: Name::from_identifier(name),
            number,
            parameters: header.parameters,
            priors: header.priors,
            private,
            quiet,
            shebang,
        }),
    )
}

/// Returns the number of the next recipe.
#[tactic(auto, unfolding(justfile_model::specs::Readers::Reader::next_recipe_number, justfile_parse_expression::specs::TableReader::leaves))]
fn next_recipe_number<'src>(numerator: &mut Numerator) -> Result<Number, ExpressionError<'src>>
    ensures reads { (s : State) → ReadsCountedExpression (λ number. number.0) result numerator.new s
        (reader.next_recipe_number (counters_of numerator.old) s) }
    ensures unmoved { OnErr result (numerator.new ≡ numerator.old) }
{
    match numerator.next_recipe() {
        Some(number) => Ok(number),
        None => Err(ExpressionError::Numbers),
    }
}

/// Whether a recipe with these attributes and this body is a script: run by one interpreter as a
/// whole, not line by line.
fn is_script(attributes: &AttributeSet<'_>, body: &[Line<'_>]) -> bool
    ensures { result ≡ has_kind kinds.Script (attributes_of attributes.now)
        || reader.has_shebang (map line_tree body.now) }
{
    attributes.contains(AttributeKind::Script) || has_shebang(body)
}

/// Whether the first line begins with a text that begins with `#!`.
fn has_shebang(lines: &[Line<'_>]) -> bool
    ensures { result ≡ reader.has_shebang (map line_tree lines.now) }
{
    match lines {
        [line, ..] => is_shebang(line),
        [] => false,
    }
}

/// Whether the line begins with a text that begins with `#!`. It wraps the method, to state the
/// result over the tree of the line.
fn is_shebang(line: &Line<'_>) -> bool
    ensures { result ≡ reader.is_shebang (line_tree line.now) }
{
    line.is_shebang()
}
