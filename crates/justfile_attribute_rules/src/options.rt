//! The names of options: the keys `long` and `short` of `arg`.
ghost use Rattle.std.specs.Prelude.{◌≡◌, ◌==◌, length, IfOk, OnOk, Some, None, string_bytes};
ghost use Rattle.std.specs.Option.{option_map};
ghost use Rattle.std.specs.Str.{chars};
ghost use Rattle.justfile_model.specs.Meanings.Meaning.{at_key};
ghost use Rattle.justfile_model.specs.Readers.NewAttribute as new;
ghost use Rattle.justfile_expression.specs.LeafTree.{Named, leaf_tree_of};
ghost use Rattle.justfile_attribute_rules.specs.ArgumentRules.{IsNamedAs, option_of};
ghost use Rattle.justfile_attribute_rules.specs.Keys.{IsTaken, key_arguments, views_keys};
ghost use Rattle.justfile_attribute_rules.specs.Made.{Makes, option_word, quoted_leaf};

use crate::keys::{KeyMap, take};
use crate::literals::key_literal;
use justfile_expression::Expression;
use justfile_token::{CompileError, CompileErrorKind, CompileResult, Fault, Name, StringLiteral};
use std::alloc::{AllocError, Global};

/// The name of an option: a literal, or a key without a value that gives it the parameter's name.
/// Both are `None` if there is no such option.
pub(crate) type OptionName<'src> = (Option<StringLiteral<'src>>, Option<Name<'src>>);

/// Removes the key `long` or `short` and returns the option's name.
///
/// # Errors
///
/// `Compile` at the key if its value isn't a literal, and at the literal if it isn't a valid name;
/// `Memory` if out of memory.
pub(crate) fn take_option<'src>(
    alloc: Global,
    name: Name<'src>,
    argument: &StringLiteral<'src>,
    is_short: bool,
    keys: &mut KeyMap<'src>,
) -> CompileResult<'src, OptionName<'src>>
    ensures made { Makes (λ p. option_of p.1 p.0) result
        (new.option views_keys name.entry.token (string_bytes argument.now.cooked) is_short
        (at_key views_keys (option_word is_short) (key_arguments keys.old))) }
    ensures removed { IsTaken (option_word is_short) keys.old keys.new }
{
    let word = if is_short { "short" } else { "long" };
    match take(keys, word) {
        None => Ok((None, None)),
        Some((key, None)) => Ok((None, Some(key))),
        Some((key, Some(value))) => option_name(alloc, name, argument, is_short, key, value),
    }
}

/// Returns the name of an option from the value of its key.
#[tactic(auto, using(crate::proofs::Refused::refused_first))]
fn option_name<'src>(
    alloc: Global,
    name: Name<'src>,
    argument: &StringLiteral<'src>,
    is_short: bool,
    key: Name<'src>,
    value: Box<Expression<'src>>,
) -> CompileResult<'src, OptionName<'src>>
    ensures { Makes (λ p. option_of p.1 p.0) result
        (new.option_by views_keys name.entry.token (string_bytes argument.now.cooked) is_short
        (Named key.entry.token None) (Some (leaf_tree_of value.entry.value))) }
{
    let literal = match key_literal(name, key, value) {
        Ok(literal) => literal,
        Err(fault) => return Err(fault),
    };
    if let Err(fault) = check_option_name(alloc, argument, &literal) {
        return Err(fault);
    }
    match check_short(alloc, argument, is_short, &literal) {
        Ok(()) => Ok((Some(literal), None)),
        Err(fault) => Err(fault),
    }
}

/// Sets the name of an option whose key has no value to a copy of the parameter's name.
pub(crate) fn name_option<'src>(
    alloc: Global,
    argument: &StringLiteral<'src>,
    key: &Option<Name<'src>>,
    option: &mut Option<StringLiteral<'src>>,
) -> Result<(), AllocError>
    ensures same { option_of key.now option.new ≡ option_of key.now option.old }
    ensures named { OnOk result (IsNamedAs argument.now key.now option.new) }
{
    if key.is_some() {
        *option = Some(argument.clone(alloc)?);
    }
    Ok(())
}

/// Refuses an option name that contains `=`, begins with `-`, or is empty.
fn check_option_name<'src>(
    alloc: Global,
    argument: &StringLiteral<'src>,
    literal: &StringLiteral<'src>,
) -> CompileResult<'src>
    ensures { Makes (λ _. tt) result
        (new.check_option_name views_keys literal.now.token (string_bytes argument.now.cooked)
        (quoted_leaf literal.now) (string_bytes literal.now.cooked)) }
{
    let option = literal.cooked.as_str().as_bytes();
    if option.contains(&b'=') {
        return match argument_text(alloc, argument) {
            Ok(parameter) => Err(Fault::Compile(CompileError {
                kind: CompileErrorKind::OptionNameContainsEqualSign { parameter },
                token: literal.token,
            })),
            Err(_) => Err(Fault::Memory),
        };
    }
    if option.first().copied() == Some(b'-') {
        return match argument_text(alloc, argument) {
            Ok(parameter) => Err(Fault::Compile(CompileError {
                kind: CompileErrorKind::OptionNameStartsWithDash { parameter },
                token: literal.token,
            })),
            Err(_) => Err(Fault::Memory),
        };
    }
    if option.is_empty() {
        return match argument_text(alloc, argument) {
            Ok(parameter) => Err(Fault::Compile(CompileError {
                kind: CompileErrorKind::OptionNameEmpty { parameter },
                token: literal.token,
            })),
            Err(_) => Err(Fault::Memory),
        };
    }
    Ok(())
}

/// Refuses the name of a short option unless it is one character long.
fn check_short<'src>(
    alloc: Global,
    argument: &StringLiteral<'src>,
    is_short: bool,
    literal: &StringLiteral<'src>,
) -> CompileResult<'src>
    ensures { Makes (λ _. tt) result
        (new.check_short views_keys literal.now.token (string_bytes argument.now.cooked) is_short
        (quoted_leaf literal.now) (string_bytes literal.now.cooked)) }
{
    if is_short && !has_one_char(literal.cooked.as_str()) {
        return match argument_text(alloc, argument) {
            Ok(parameter) => Err(Fault::Compile(CompileError {
                kind: CompileErrorKind::ShortOptionWithMultipleCharacters { parameter },
                token: literal.token,
            })),
            Err(_) => Err(Fault::Memory),
        };
    }
    Ok(())
}

/// Whether the text is one character.
fn has_one_char(text: &str) -> bool
    ensures { result ≡ (length (chars text.now) == 1) }
{
    text.chars().count() == 1
}

/// Returns a copy of the parameter's name.
pub(crate) fn argument_text(
    alloc: Global,
    argument: &StringLiteral<'_>,
) -> Result<String, AllocError>
    ensures { IfOk result (λ text. string_bytes text ≡ string_bytes argument.now.cooked) }
{
    argument.cooked.as_str().to_string(alloc)
}
