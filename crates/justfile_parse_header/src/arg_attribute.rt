//! What an `arg` attribute sets for its parameter.
ghost use Rattle.std.specs.Prelude.{◌≡◌, IfOk, IsTrue, None, string_bytes};
ghost use Rattle.std.specs.Option.{is_some, option_map};
ghost use Rattle.justfile_attribute.specs.Attribute.{leaf_attribute_of};
ghost use Rattle.justfile_parse_header.specs.Arguments.{HasBoundKeys, rules_by};
ghost use Rattle.justfile_parse_header.specs.Options.{bound_token, bound_key_of, long_in, sets_flag, sets_multiple, short_in, option_in};
ghost use Rattle.justfile_parse_header.specs.ArgAttribute.{IsArgAttribute};

use justfile_attribute::Attribute;
use justfile_expression::{Expression, copy_optional};
use justfile_token::{Name, StringLiteral, Token};
use std::alloc::{AllocError, Global};

/// What an `arg` attribute sets for its parameter.
#[derive(Drop)]
pub(crate) struct ArgAttribute<'src> {
    pub(crate) flag: bool,
    pub(crate) long: Option<String>,
    pub(crate) max: Option<u64>,
    pub(crate) min: Option<u64>,
    pub(crate) multiple: bool,
    pub(crate) short: Option<char>,
    pub(crate) value: Option<Box<Expression<'src>>>,
}

/// Returns a copy of what an `arg` attribute sets for its parameter, or the defaults if there is no
/// such attribute.
#[tactic(auto, using(crate::proofs::CopiedValues::same_value))]
pub(crate) fn copy_arg_attribute<'src>(
    alloc: Global,
    attribute: Option<&Attribute<'src>>,
) -> Result<ArgAttribute<'src>, AllocError>
    ensures { IfOk result
        (λ arg_attribute. IsArgAttribute (rules_by attribute.entry) arg_attribute) }
{
    let Some(attribute) = attribute else {
        return Ok(no_arg_attribute());
    };
    match attribute {
        Attribute::Arg {
            max,
            min,
            value,
            ..
        } => {
            let long = copy_long(alloc, attribute)?;
            let value = copy_optional(alloc, value)?;
            Ok(ArgAttribute {
                flag: is_flag(attribute),
                long,
                max: *max,
                min: *min,
                multiple: is_multiple(attribute),
                short: find_short(attribute),
                value,
            })
        }
        _ => Ok(no_arg_attribute()),
    }
}

/// Returns the defaults, for a parameter without an `arg` attribute.
fn no_arg_attribute<'src>() -> ArgAttribute<'src>
    ensures { IsArgAttribute None result }
{
    ArgAttribute {
        flag: false,
        long: None,
        max: None,
        min: None,
        multiple: false,
        short: None,
        value: None,
    }
}

/// Whether the attribute makes the parameter a flag: an option without a value.
pub(crate) fn is_flag(attribute: &Attribute<'_>) -> bool
    ensures { result ≡ sets_flag (leaf_attribute_of attribute.now) }
{
    match attribute {
        Attribute::Arg { flag, .. } => flag.is_some(),
        _ => false,
    }
}

/// Whether the attribute allows the option to be given several times.
pub(crate) fn is_multiple(attribute: &Attribute<'_>) -> bool
    ensures { result ≡ sets_multiple (leaf_attribute_of attribute.now) }
{
    match attribute {
        Attribute::Arg { multiple, .. } => multiple.is_some(),
        _ => false,
    }
}

/// Returns the key of `max`, or else that of `min`, if the attribute sets one of them.
pub(crate) fn find_bound_key<'src>(attribute: &Attribute<'src>) -> Option<Name<'src>>
    requires { HasBoundKeys attribute.now }
    ensures { option_map (λ key. key.token) result
        ≡ bound_key_of (leaf_attribute_of attribute.now) }
{
    match attribute {
        Attribute::Arg {
            max,
            max_key,
            min,
            min_key,
            ..
        } => match find_key(*max, *max_key) {
            Some(key) => Some(key),
            None => find_key(*min, *min_key),
        },
        _ => None,
    }
}

/// Returns the key of a number, if the number is set.
fn find_key<'src>(number: Option<u64>, key: Option<Name<'src>>) -> Option<Name<'src>>
    requires { IsTrue (is_some number) → IsTrue (is_some key) }
    ensures { option_map (λ key. key.token) result
        ≡ bound_token number (option_map (λ key. key.token) key.entry) }
{
    match number {
        Some(_) => key,
        None => None,
    }
}

/// Returns the first character of the name of the short option.
fn find_short(attribute: &Attribute<'_>) -> Option<char>
    ensures { result
        ≡ option_map (λ option. option.0) (short_in (leaf_attribute_of attribute.now)) }
{
    let (character, _token) = find_short_option(attribute)?;
    Some(character)
}

/// Returns the parameter's short option, the first character of its name, and the token where an
/// error about it is reported.
pub(crate) fn find_short_option<'src>(attribute: &Attribute<'src>) -> Option<(char, Token<'src>)>
    ensures { result ≡ short_in (leaf_attribute_of attribute.now) }
{
    match attribute {
        Attribute::Arg {
            name,
            short,
            short_key,
            ..
        } => {
            let (text, token) = find_option(name, short, *short_key)?;
            let character = text.chars().next()?;
            Some((character, token))
        }
        _ => None,
    }
}

/// Returns a copy of the name of the long option.
fn copy_long(alloc: Global, attribute: &Attribute<'_>) -> Result<Option<String>, AllocError>
    ensures { IfOk result (λ copy. option_map string_bytes copy
        ≡ option_map (λ option. option.0) (long_in (leaf_attribute_of attribute.now))) }
{
    match find_long(attribute) {
        Some((text, _token)) => Ok(Some(text.to_string(alloc)?)),
        None => Ok(None),
    }
}

/// Returns the name of the parameter's long option, and the token where an error about it is
/// reported.
pub(crate) fn find_long<'run, 'src>(
    attribute: &'run Attribute<'src>,
) -> Option<(&'run str, Token<'src>)>
    ensures { option_map (λ option. (option.0.now, option.1)) result
        ≡ long_in (leaf_attribute_of attribute.now) }
{
    match attribute {
        Attribute::Arg {
            long,
            long_key,
            name,
            ..
        } => find_option(name, long, *long_key),
        _ => None,
    }
}

/// Returns the name of an option, and the token where an error about it is reported. For a key
/// without a value these are the name of the argument and the key; else both are those of the
/// literal.
fn find_option<'run, 'src>(
    name: &'run StringLiteral<'src>,
    literal: &'run Option<StringLiteral<'src>>,
    key: Option<Name<'src>>,
) -> Option<(&'run str, Token<'src>)>
    ensures { option_map (λ option. (option.0.now, option.1)) result
        ≡ option_in name.now literal.now key.entry }
{
    if let Some(key) = key {
        return Some((name.cooked.as_str(), key.token));
    }
    match literal {
        Some(literal) => Some((literal.cooked.as_str(), literal.token)),
        None => None,
    }
}
