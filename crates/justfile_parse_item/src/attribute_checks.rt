//! Checks of a construct's attributes, made once its kind is known.
ghost use Rattle.std.specs.Prelude.{◌≡◌, ◌&&◌, IfOk};
ghost use Rattle.justfile_attribute_set.specs.AttributeSet.{IsConstruct, leaf_entries_of};
ghost use Rattle.justfile_model.specs.Trees.ContentKeys.{has_attribute};
ghost use Rattle.justfile_model.specs.Meanings.RecipeRules.{exclusions_broken};
ghost use Rattle.justfile_parse_item.specs.Exclusions.{IsExclusion};
ghost use Rattle.justfile_parse_item.specs.ExtraneousFault.{IsExtraneousFault};
ghost use Rattle.justfile_parse_item.specs.ItemTable as reader;
ghost use Rattle.justfile_parse_item.specs.DerivedFields.{HaveDerivedPairFields, IsSetOf};
ghost use Rattle.justfile_parse_attribute.specs.Attributes.{entries_of};
ghost use Rattle.justfile_parse_base.specs.ParseErrors.{ReadsRuled, ChecksRules};
ghost use Rattle.justfile_parse_expression.specs.TableReader.{State};
ghost use Rattle.justfile_expression.specs.LeafViews.{views_leaves};

use justfile_attribute::Attribute;
use justfile_attribute_set::AttributeSet;
use justfile_parse_base::{ParseError, rule_error};
use justfile_parse_expression::significant::SignificantToken;
use justfile_token::{CompileErrorKind, Fault, Token};
use justfile_vocabulary::{AttributeKind, ItemKind};
use justfile_written::Written;
use std::alloc::Global;

/// Checks that an item of this kind may have these attributes, and returns them as a set. `name` is
/// the token of the item's name or path, where an error is reported.
#[tactic(auto, using(crate::proofs::Constructs::is_allowed, crate::proofs::Constructs::is_disallowed, crate::proofs::Constructs::set_fields, crate::proofs::Constructs::pair_fields))]
pub(crate) fn check_allowed<'src>(
    alloc: Global,
    item: ItemKind,
    attributes: Vec<(Attribute<'src>, Written<'src>)>,
    name: &SignificantToken<'src>,
) -> Result<AttributeSet<'src>, ParseError<'src>>
    requires construct { IsConstruct item }
    requires fields { HaveDerivedPairFields attributes.items }
    ensures reads { (s : State) → ReadsRuled (λ _. tt) result s
        (reader.check_allowed item (entries_of attributes.entry.items) name.now s) }
    ensures set { IfOk result (IsSetOf (entries_of attributes.entry.items)) }
{
    let set = AttributeSet::from_parsed(attributes)?;
    let (token, _) = name;
    match set.ensure_valid_attributes(item, *token) {
        Ok(()) => Ok(set),
        Err(error) => Err(rule_error(alloc, Fault::Compile(error))),
    }
}

/// Refuses attributes of the recipe with this name that exclude each other.
pub(crate) fn check_exclusions<'src>(
    attributes: &AttributeSet<'src>,
    alloc: Global,
    recipe: Token<'src>,
) -> Result<(), ParseError<'src>>
    ensures { ChecksRules
        (exclusions_broken views_leaves recipe.entry (leaf_entries_of attributes.now)) result }
{
    match find_exclusion(attributes, recipe) {
        None => Ok(()),
        Some(kind) => Err(rule_error(alloc, Fault::Compile(recipe.error(kind)))),
    }
}

/// Returns the error for the first pair of attributes that exclude each other, or `None` if there
/// is none.
fn find_exclusion<'src>(
    attributes: &AttributeSet<'src>,
    recipe: Token<'src>,
) -> Option<CompileErrorKind<'src>>
    ensures { IsExclusion recipe.entry (leaf_entries_of attributes.now) result }
{
    let recipe = recipe.lexeme();
    if has_both(
        attributes,
        AttributeKind::NoCd,
        AttributeKind::WorkingDirectory,
    ) {
        Some(CompileErrorKind::NoCdAndWorkingDirectoryAttribute { recipe })
    } else if has_both(
        attributes,
        AttributeKind::ExitMessage,
        AttributeKind::NoExitMessage,
    ) {
        Some(CompileErrorKind::ExitMessageAndNoExitMessageAttribute { recipe })
    } else if has_both(attributes, AttributeKind::Script, AttributeKind::Shell) {
        Some(CompileErrorKind::ScriptAndShellAttribute { recipe })
    } else {
        None
    }
}

/// Whether there are attributes of both kinds.
fn has_both(attributes: &AttributeSet<'_>, first: AttributeKind, second: AttributeKind) -> bool
    ensures { result ≡ has_attribute first (leaf_entries_of attributes.now)
        && has_attribute second (leaf_entries_of attributes.now) }
{
    attributes.contains(first) && attributes.contains(second)
}

/// Makes the fault for `count` attributes before a blank line or a comment.
pub(crate) fn extraneous_fault<'src>(count: usize, opener: Token<'src>) -> Fault<'src>
    ensures { IsExtraneousFault count opener.entry result }
{
    Fault::Compile(opener.error(CompileErrorKind::ExtraneousAttributes { count }))
}
