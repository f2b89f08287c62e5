//! The options of a recipe, and the uses of its `arg` attributes that need the setting `lists`.
ghost use Rattle.std.specs.Prelude.{◌≡◌, [], OnOk};
ghost use Rattle.std.specs.List.{flat_map};
ghost use Rattle.justfile_attribute.specs.Attribute.{leaf_attribute_of};
ghost use Rattle.justfile_attribute_rules.specs.Made.{IsFaultOfRule};
ghost use Rattle.justfile_model.specs.Grammars.Features.{noted_at, rules_features};
ghost use Rattle.justfile_model.specs.Readers.NewAttribute as new;
ghost use Rattle.justfile_model.specs.Readers.ReaderState.{with};
ghost use Rattle.justfile_model.specs.Meanings.RecipeRules.{and_named};
ghost use Rattle.justfile_model.specs.Meanings.Rules.{DuplicateLongOption, DuplicateShortOption};
ghost use Rattle.justfile_parse_base.specs.ParseErrors.{ReadsRuled, ChecksRules};
ghost use Rattle.justfile_parse_base.specs.TextSets.{HaveSame, texts_in};
ghost use Rattle.justfile_parse_expression.specs.MethodResults.{UnlessMemory};
ghost use Rattle.justfile_parse_expression.specs.TableReader.{State};
ghost use Rattle.justfile_parse_expression.specs.View.{state_of};
ghost use Rattle.justfile_parse_header.specs.HeaderTable as reader;
ghost use Rattle.justfile_parse_header.specs.OptionRules.{bound_place_in, features_in, long_step, short_step};
ghost use Rattle.justfile_parse_header.specs.Options.{long_in};
ghost use Rattle.justfile_parse_header.specs.Tree.{rules_of};

use crate::arg_attribute::{find_long, find_short_option};
use justfile_attribute::Attribute;
use justfile_attribute_set::AttributeSet;
use justfile_expression::ListFeature;
use justfile_parse_base::text_sets::{add_text, is_among};
use justfile_parse_base::{ParseError, rule_error};
use justfile_parse_expression::{ExpressionError, ParserState};
use justfile_token::{CompileError, CompileErrorKind, Expander, Fault, Name, Token};
use justfile_vocabulary::Switch;
use std::alloc::Global;
use std::collections::BTreeSet;

/// Notes what the `arg` attributes use that needs the setting `lists`.
#[tactic(auto, using(crate::proofs::ArgAttributes::noting_begins, crate::proofs::ArgAttributes::noting_goes_on, crate::proofs::ArgAttributes::noting_ends))]
pub(crate) fn note_arg_attributes<'src, X: Expander>(
    attributes: &AttributeSet<'src>,
    parser: &mut ParserState<'_, 'src, X>,
) -> Result<(), ExpressionError<'src>>
    ensures { UnlessMemory result (λ done. state_of X.answer parser.new
        ≡ with (flat_map rules_features (rules_of attributes.now)) (state_of X.answer parser.old)) }
{
    let mut rest = attributes.iter();
    'attributes: loop {
        let Some(attribute) = rest.next() else {
            return Ok(());
        };
        note_attribute(attribute, parser)?;
    }
}

/// Notes what an attribute uses that needs the setting `lists`, at its keys.
fn note_attribute<'src, X: Expander>(
    attribute: &Attribute<'src>,
    parser: &mut ParserState<'_, 'src, X>,
) -> Result<(), ExpressionError<'src>>
    ensures { UnlessMemory result (λ done. state_of X.answer parser.new
        ≡ with (features_in (leaf_attribute_of attribute.now)) (state_of X.answer parser.old)) }
{
    match attribute {
        Attribute::Arg {
            flag,
            max,
            max_key,
            min,
            min_key,
            multiple,
            name,
            ..
        } => {
            note_at(parser, ListFeature::Flag, *flag)?;
            note_at(parser, ListFeature::Multiple, *multiple)?;
            note_at(
                parser,
                ListFeature::ArgMax,
                find_bound_place(name.token, *max_key, *max),
            )?;
            note_at(
                parser,
                ListFeature::ArgMin,
                find_bound_place(name.token, *min_key, *min),
            )
        }
        _ => Ok(()),
    }
}

/// Notes a feature at a key, if there is one.
#[tactic(auto, using(justfile_parse_expression::proofs::Rest::with_none))]
fn note_at<'src, X: Expander>(
    parser: &mut ParserState<'_, 'src, X>,
    feature: ListFeature,
    key: Option<Token<'src>>,
) -> Result<(), ExpressionError<'src>>
    ensures { UnlessMemory result (λ done. state_of X.answer parser.new
        ≡ with (noted_at feature key.entry) (state_of X.answer parser.old)) }
{
    match key {
        Some(key) => parser.note(feature, key),
        None => Ok(()),
    }
}

/// Returns where a bound is noted, if it is set: at its key, or at the name of the argument if
/// it has no key.
fn find_bound_place<'src>(
    name: Token<'src>,
    key: Option<Name<'src>>,
    number: Option<u64>,
) -> Option<Token<'src>>
    ensures { result ≡ bound_place_in name.entry key.entry number }
{
    match (number, key) {
        (None, _) => None,
        (Some(_), Some(key)) => Some(key.token),
        (Some(_), None) => Some(name),
    }
}

/// Refuses options of a recipe with the same name: attribute by attribute, of each the long option
/// before the short one.
pub(crate) fn check_options<'run, 'src>(
    attributes: &'run AttributeSet<'src>,
    alloc: Global,
    recipe: Token<'src>,
) -> Result<(), ParseError<'src>>
    ensures { ChecksRules (reader.same_options recipe.entry (rules_of attributes.now)) result }
{
    let mut longs: BTreeSet<&'run str> = BTreeSet::new(alloc);
    let mut shorts: Vec<char> = Vec::new(alloc);
    let mut left = attributes.iter();
    'attributes: loop {
        let Some(attribute) = left.next() else {
            return Ok(());
        };
        check_long(attribute, alloc, recipe, &mut longs)?;
        check_short(attribute, alloc, recipe, &mut shorts)?;
    }
}

/// Refuses the long option of an attribute if its name is in `before`, and adds it otherwise.
#[tactic(auto, using(crate::proofs::SameOptions::long_kept, crate::proofs::SameOptions::long_added, crate::proofs::SameOptions::long_same, crate::proofs::SameOptions::then_none, crate::proofs::SameOptions::then_some))]
fn check_long<'run, 'src>(
    attribute: &'run Attribute<'src>,
    alloc: Global,
    recipe: Token<'src>,
    before: &mut BTreeSet<&'run str>,
) -> Result<(), ParseError<'src>>
    ensures reads { (s : State) → ReadsRuled
        (λ _. and_named (texts_in before.old) (long_in (leaf_attribute_of attribute.now))) result
        s (long_step recipe.entry (texts_in before.old) (leaf_attribute_of attribute.now) s) }
    ensures added { OnOk result (HaveSame
        (and_named (texts_in before.old) (long_in (leaf_attribute_of attribute.now)))
        (texts_in before.new)) }
{
    let Some((option, token)) = find_long(attribute) else {
        return Ok(());
    };
    if is_among(before, option) {
        return Err(rule_error(alloc, same_long_fault(alloc, recipe, option, token)));
    }
    add_text(before, option)?;
    Ok(())
}

/// Makes the fault for a long option whose name is taken. It is `Memory` if there is no memory for
/// a copy that the error holds.
fn same_long_fault<'src>(
    alloc: Global,
    recipe: Token<'src>,
    option: &str,
    token: Token<'src>,
) -> Fault<'src>
    ensures { IsFaultOfRule (DuplicateLongOption option.now recipe.entry) token.entry result }
{
    match option.to_string(alloc) {
        Ok(option) => Fault::Compile(CompileError {
            kind: CompileErrorKind::DuplicateOption {
                recipe: recipe.lexeme(),
                option: Switch::Long(option),
            },
            token,
        }),
        Err(_) => Fault::Memory,
    }
}

/// Refuses the short option of an attribute if it is in `before`, and adds it otherwise.
#[tactic(auto, using(crate::proofs::SameOptions::short_none, crate::proofs::SameOptions::short_apart, crate::proofs::SameOptions::short_same))]
fn check_short<'src>(
    attribute: &Attribute<'src>,
    alloc: Global,
    recipe: Token<'src>,
    before: &mut Vec<char>,
) -> Result<(), ParseError<'src>>
    ensures { (s : State) → ReadsRuled (λ _. before.new.items) result s
        (short_step recipe.entry before.old.items (leaf_attribute_of attribute.now) s) }
{
    let Some((option, token)) = find_short_option(attribute) else {
        return Ok(());
    };
    if before.as_slice().contains(&option) {
        return Err(rule_error(alloc, same_short_fault(recipe, option, token)));
    }
    before.push(option)?;
    Ok(())
}

/// Makes the fault for a short option whose name is taken.
fn same_short_fault<'src>(recipe: Token<'src>, option: char, token: Token<'src>) -> Fault<'src>
    ensures { IsFaultOfRule (DuplicateShortOption option recipe.entry) token.entry result }
{
    Fault::Compile(CompileError {
        kind: CompileErrorKind::DuplicateOption {
            recipe: recipe.lexeme(),
            option: Switch::Short(option),
        },
        token,
    })
}
