//! The numbers of the keys `min` and `max` of `arg`.
ghost use Rattle.std.specs.Prelude.{◌≡◌, IsTrue, [], string_bytes};
ghost use Rattle.std.specs.List.{list_all};
ghost use Rattle.std.specs.Option.{option_map};
ghost use Rattle.justfile_model.proofs.Lists.CountLaws.{is_digit_byte};
ghost use Rattle.justfile_model.specs.Meanings.Meaning as means;
ghost use Rattle.justfile_model.specs.Meanings.Meaning.{at_key};
ghost use Rattle.justfile_model.specs.Readers.NewAttribute as new;
ghost use Rattle.justfile_expression.specs.LeafTree.{leaf_tree_of};
ghost use Rattle.justfile_attribute_rules.specs.Keys.{IsTaken, key_arguments, views_keys};
ghost use Rattle.justfile_attribute_rules.specs.Made.{Makes, bound_at, bound_made, count_made, quoted_leaf, bounds_checked};

use crate::keys::{KeyMap, missing_value_fault, take};
use crate::literals::key_literal;
use justfile_expression::Expression;
use justfile_token::{CompileError, CompileErrorKind, CompileResult, Fault, Name, StringLiteral};
use std::alloc::Global;

/// The message for a number that doesn't fit into 64 bits.
const TOO_LARGE: &str = "number too large to fit in target type";

/// Removes the key `max` or `min` and returns it with its number, or `None` if there is no such
/// key.
///
/// # Errors
///
/// `Compile` at the key if its value is missing or isn't a literal, and at the literal if it isn't
/// a number of 64 bits; `Memory` if out of memory.
#[tactic(auto, using(crate::proofs::Refused::refused_first))]
pub(crate) fn take_bound<'src>(
    alloc: Global,
    name: Name<'src>,
    keys: &mut KeyMap<'src>,
    word: &str,
) -> CompileResult<'src, Option<(Name<'src>, u64)>>
    ensures made { Makes (option_map bound_at) result
        (new.if_given (new.bound views_keys name.entry.token [])
        (at_key views_keys word.now (key_arguments keys.old))) }
    ensures removed { IsTaken word.now keys.old keys.new }
{
    match take(keys, word) {
        None => Ok(None),
        Some((key, None)) => Err(missing_value_fault(key)),
        Some((key, Some(value))) => bound(alloc, name, key, value),
    }
}

/// Returns a key with the number that is its value.
#[tactic(auto, using(crate::proofs::Refused::refused_first))]
fn bound<'src>(
    alloc: Global,
    name: Name<'src>,
    key: Name<'src>,
    value: Box<Expression<'src>>,
) -> CompileResult<'src, Option<(Name<'src>, u64)>>
    ensures { Makes (option_map bound_at) result
        (bound_made name.entry.token key.entry.token (leaf_tree_of value.entry.value)) }
{
    let literal = match key_literal(name, key, value) {
        Ok(literal) => literal,
        Err(fault) => return Err(fault),
    };
    match read_count(alloc, key, &literal) {
        Ok(number) => Ok(Some((key, number))),
        Err(fault) => Err(fault),
    }
}

/// Returns the number that a literal holds.
fn read_count<'src>(
    alloc: Global,
    key: Name<'src>,
    literal: &StringLiteral<'src>,
) -> CompileResult<'src, u64>
    ensures { Makes (λ number. number) result
        (count_made key.entry.token (quoted_leaf literal.now)) }
{
    let text = literal.cooked.as_str();
    if !is_count(text.as_bytes()) {
        return match text.to_string(alloc) {
            Ok(value) => Err(Fault::Compile(CompileError {
                kind: CompileErrorKind::ArgumentCountValue { key, value },
                token: literal.token,
            })),
            Err(_) => Err(Fault::Memory),
        };
    }
    match parse_count(text) {
        Some(number) => Ok(number),
        None => match text.to_string(alloc) {
            Ok(value) => Err(Fault::Compile(CompileError {
                kind: CompileErrorKind::ArgumentCountParse {
                    key,
                    source: TOO_LARGE,
                    value,
                },
                token: literal.token,
            })),
            Err(_) => Err(Fault::Memory),
        },
    }
}

/// Whether the text is `0`, or digits without a leading `0`.
#[tactic(auto, using(justfile_model::proofs::Lists::CountLaws::is_count_by))]
fn is_count(text: &[u8]) -> bool
    ensures { result ≡ means.is_count text.now }
{
    !text.is_empty() && are_digits(text) && (text.len() == 1 || text[0] != b'0')
}

/// Whether all bytes are digits.
#[tactic(auto, using(justfile_model::proofs::Lists::CountLaws::digits_are_ascii))]
fn are_digits(text: &[u8]) -> bool
    ensures { result ≡ list_all is_digit_byte text.now }
{
    text.iter().all(|digit| digit.is_ascii_digit())
}

/// Returns the number that a text of digits stands for, or `None` if it doesn't fit into 64 bits.
#[tactic(auto, using(justfile_model::proofs::Lists::CountLaws::count_read))]
fn parse_count(text: &str) -> Option<u64>
    requires { IsTrue (means.is_count text.now) }
    ensures { result ≡ means.count_of text.now }
{
    text.parse().ok()
}

/// Refuses a `min` above `max`.
///
/// # Errors
///
/// `Compile` at the key `min`.
pub(crate) fn check_bounds<'src>(
    min: Option<(Name<'src>, u64)>,
    max: Option<(Name<'src>, u64)>,
) -> CompileResult<'src>
    ensures { Makes (λ _. tt) result
        (bounds_checked (option_map bound_at min.entry) (option_map bound_at max.entry)) }
{
    if let (Some((key, min)), Some((_, max))) = (min, max) {
        if max < min {
            return Err(Fault::Compile(CompileError {
                kind: CompileErrorKind::ArgAttributeMinExceedsMax { min, max },
                token: *key,
            }));
        }
    }
    Ok(())
}
