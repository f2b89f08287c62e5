//! The keys `value`, `flag` and `multiple` of `arg`, which only options may have.
ghost use Rattle.std.specs.Prelude.{◌≡◌, ◌&&◌, not, codes, string_bytes};
ghost use Rattle.std.specs.Option.{is_some, option_map};
ghost use Rattle.justfile_model.specs.Meanings.Meaning.{at_key};
ghost use Rattle.justfile_model.specs.Readers.NewAttribute as new;
ghost use Rattle.justfile_model.specs.Meanings.Rules as broken;
ghost use Rattle.justfile_expression.specs.LeafTree.{leaf_tree_of};
ghost use Rattle.justfile_attribute_rules.specs.ArgumentRules.{rules_of};
ghost use Rattle.justfile_attribute_rules.specs.Keys.{IsTaken, key_arguments, keyed, views_keys};
ghost use Rattle.justfile_attribute_rules.specs.Made.{Makes};
ghost use Rattle.justfile_attribute_rules.specs.Steps.{flag_made, multiple_made, value_made, lacks_option};

use crate::argument_rules::ArgumentRules;
use crate::keys::{KeyMap, missing_value_fault, take};
use crate::options::argument_text;
use justfile_expression::Expression;
use justfile_token::{CompileError, CompileErrorKind, CompileResult, Fault, Name, Token};
use std::alloc::Global;

/// Removes the key `value` and returns its value.
///
/// # Errors
///
/// `Compile` at the key if it has no value, or if the parameter isn't an option.
pub(crate) fn take_value<'src>(
    keys: &mut KeyMap<'src>,
    rules: &ArgumentRules<'src>,
) -> CompileResult<'src, Option<Box<Expression<'src>>>>
    ensures made { Makes (option_map (λ e. leaf_tree_of e.value)) result
        (new.if_given (value_made (rules_of rules.now))
        (at_key views_keys (codes "value") (key_arguments keys.old))) }
    ensures removed { IsTaken (codes "value") keys.old keys.new }
{
    match take(keys, "value") {
        None => Ok(None),
        Some((key, None)) => Err(missing_value_fault(key)),
        Some((key, Some(value))) => match check_has_option(key, rules) {
            Ok(()) => Ok(Some(value)),
            Err(fault) => Err(fault),
        },
    }
}

/// Removes the key `flag` and returns its token.
///
/// # Errors
///
/// `Compile` at the key if it has a value, if the parameter isn't an option, or if it has a `value`
/// or a `pattern`; `Memory` if out of memory.
pub(crate) fn take_flag<'src>(
    alloc: Global,
    keys: &mut KeyMap<'src>,
    rules: &ArgumentRules<'src>,
) -> CompileResult<'src, Option<Token<'src>>>
    ensures made { Makes (λ token. token) result (new.if_given (flag_made (rules_of rules.now))
        (at_key views_keys (codes "flag") (key_arguments keys.old))) }
    ensures removed { IsTaken (codes "flag") keys.old keys.new }
{
    match take(keys, "flag") {
        None => Ok(None),
        Some((key, value)) => match check_flag(alloc, key, &value, rules) {
            Ok(()) => Ok(Some(*key)),
            Err(fault) => Err(fault),
        },
    }
}

/// Refuses a `flag` that has a value, one for a parameter that isn't an option, and one beside
/// `value` or `pattern`.
#[tactic(auto, using(crate::proofs::Refused::refused_first))]
fn check_flag<'src>(
    alloc: Global,
    key: Name<'src>,
    value: &Option<Box<Expression<'src>>>,
    rules: &ArgumentRules<'src>,
) -> CompileResult<'src>
    ensures { Makes (λ _. key.entry.token) result
        (flag_made (rules_of rules.now) (keyed (codes "flag") (key.entry, value.now))) }
{
    if value.is_some() {
        return match argument_text(alloc, &rules.name) {
            Ok(parameter) => Err(Fault::Compile(CompileError {
                kind: CompileErrorKind::FlagAttributeTakesNoValue { parameter },
                token: *key,
            })),
            Err(_) => Err(Fault::Memory),
        };
    }
    if let Err(fault) = check_has_option(key, rules) {
        return Err(fault);
    }
    if rules.value.is_some() {
        return match argument_text(alloc, &rules.name) {
            Ok(parameter) => Err(Fault::Compile(CompileError {
                kind: CompileErrorKind::FlagAndValueArgAttribute { parameter },
                token: *key,
            })),
            Err(_) => Err(Fault::Memory),
        };
    }
    if rules.pattern_property.is_some() {
        return match argument_text(alloc, &rules.name) {
            Ok(parameter) => Err(Fault::Compile(CompileError {
                kind: CompileErrorKind::FlagAndPatternArgAttribute { parameter },
                token: *key,
            })),
            Err(_) => Err(Fault::Memory),
        };
    }
    Ok(())
}

/// Removes the key `multiple` and returns its token.
///
/// # Errors
///
/// `Compile` at the key if it has a value, or if the parameter isn't an option.
pub(crate) fn take_multiple<'src>(
    keys: &mut KeyMap<'src>,
    rules: &ArgumentRules<'src>,
) -> CompileResult<'src, Option<Token<'src>>>
    ensures made { Makes (λ token. token) result (new.if_given (multiple_made (rules_of rules.now))
        (at_key views_keys (codes "multiple") (key_arguments keys.old))) }
    ensures removed { IsTaken (codes "multiple") keys.old keys.new }
{
    match take(keys, "multiple") {
        None => Ok(None),
        Some((key, value)) => match check_multiple(key, &value, rules) {
            Ok(()) => Ok(Some(*key)),
            Err(fault) => Err(fault),
        },
    }
}

/// Refuses a `multiple` that has a value, and one for a parameter that isn't an option.
fn check_multiple<'src>(
    key: Name<'src>,
    value: &Option<Box<Expression<'src>>>,
    rules: &ArgumentRules<'src>,
) -> CompileResult<'src>
    ensures { Makes (λ _. key.entry.token) result
        (multiple_made (rules_of rules.now)
        (keyed (codes "multiple") (key.entry, value.now))) }
{
    if value.is_some() {
        return Err(Fault::Compile(CompileError {
            kind: CompileErrorKind::AttributeKeyTakesNoValue { key },
            token: *key,
        }));
    }
    match check_has_option(key, rules) {
        Ok(()) => Ok(()),
        Err(fault) => Err(fault),
    }
}

/// Refuses a key if the parameter isn't an option.
fn check_has_option<'src>(key: Name<'src>, rules: &ArgumentRules<'src>) -> CompileResult<'src>
    ensures { Makes (λ _. tt) result (new.check (lacks_option (rules_of rules.now))
        (broken.ArgAttributeRequiresOption key.entry.token) key.entry.token) }
{
    if lacks_option(rules) {
        return Err(Fault::Compile(CompileError {
            kind: CompileErrorKind::ArgAttributeRequiresOption { key },
            token: *key,
        }));
    }
    Ok(())
}

/// Whether the parameter isn't an option: neither a literal nor a key gives it an option name.
fn lacks_option(rules: &ArgumentRules<'_>) -> bool
    ensures { result ≡ lacks_option (rules_of rules.now) }
{
    rules.long_key.is_none()
        && rules.long.is_none()
        && rules.short_key.is_none()
        && rules.short.is_none()
}
