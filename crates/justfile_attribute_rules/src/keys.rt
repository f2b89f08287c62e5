//! The keys of an attribute: removal, and the check that its kind accepts them.
ghost use Rattle.std.specs.Prelude.{◌≡◌};
ghost use Rattle.std.specs.List.{list_any};
ghost use Rattle.std.specs.Option.{option_map};
ghost use Rattle.std.specs.Str.{bytes_eq};
ghost use Rattle.justfile_model.specs.Meanings.AttributeKinds.{known_keys};
ghost use Rattle.justfile_model.specs.Meanings.Meaning.{at_key};
ghost use Rattle.justfile_model.specs.Readers.NewAttribute as new;
ghost use Rattle.justfile_expression.specs.LeafTree.{leaf_tree_of};
ghost use Rattle.justfile_attribute_rules.specs.ArgumentRules.{property_of};
ghost use Rattle.justfile_attribute_rules.specs.Keys.{IsTaken, key_arguments, keyed, views_keys};
ghost use Rattle.justfile_model.specs.Meanings.Rules.{AttributeKeyMissingValue};
ghost use Rattle.justfile_attribute_rules.specs.Made.{IsFaultOfRule, Makes};

use justfile_expression::Expression;
use justfile_token::{CompileError, CompileErrorKind, CompileResult, Fault, Name};
use justfile_vocabulary::AttributeKind;
use std::collections::BTreeMap;

/// The keys of an attribute, by their texts. Each has its name, which errors name, and an optional
/// value.
pub type KeyMap<'src> = BTreeMap<&'src str, (Name<'src>, Option<Box<Expression<'src>>>)>;

/// The keys that `arg` accepts.
static ARGUMENT_KEYS: [&str; 9] = [
    "long", "short", "pattern", "value", "flag", "multiple", "max", "min", "help",
];

/// The keys that `cache` accepts.
static CACHE_KEYS: [&str; 3] = ["extra", "inputs", "outputs"];

/// Removes the key with this text and returns it with its value, or `None` if there is no such key.
///
/// # Errors
///
/// `Compile` at the key if it has no value.
pub fn take_required<'src>(
    name: Name<'src>,
    keys: &mut KeyMap<'src>,
    word: &str,
) -> CompileResult<'src, Option<(Name<'src>, Box<Expression<'src>>)>>
    ensures made { Makes (option_map property_of) result
        (new.if_given (new.property views_keys name.entry.token)
        (at_key views_keys word.now (key_arguments keys.old))) }
    ensures removed { IsTaken word.now keys.old keys.new }
{
    match take(keys, word) {
        None => Ok(None),
        Some((key, Some(value))) => Ok(Some((key, value))),
        Some((key, None)) => Err(missing_value_fault(key)),
    }
}

/// Removes the key with this text and returns its value, or `None` if there is no such key.
///
/// # Errors
///
/// `Compile` at the key if it has no value.
pub fn take_value<'src>(
    name: Name<'src>,
    keys: &mut KeyMap<'src>,
    word: &str,
) -> CompileResult<'src, Option<Box<Expression<'src>>>>
    ensures made { Makes (option_map (λ e. leaf_tree_of e.value)) result
        (new.required_at views_keys name.entry.token word.now (key_arguments keys.old)) }
    ensures removed { IsTaken word.now keys.old keys.new }
{
    match take(keys, word) {
        None => Ok(None),
        Some((_key, Some(value))) => Ok(Some(value)),
        Some((key, None)) => Err(missing_value_fault(key)),
    }
}

/// Removes the key with this text and returns it, or `None` if there is none.
pub fn take<'src>(
    keys: &mut KeyMap<'src>,
    word: &str,
) -> Option<(Name<'src>, Option<Box<Expression<'src>>>)>
    ensures taken { option_map (keyed word.now) result
        ≡ at_key views_keys word.now (key_arguments keys.old) }
    ensures removed { IsTaken word.now keys.old keys.new }
{
    keys.remove(word)
}

/// Returns the error for a key without the value that it needs.
pub(crate) fn missing_value_fault(key: Name<'_>) -> Fault<'_>
    ensures { IsFaultOfRule (AttributeKeyMissingValue key.entry.token) key.entry.token result }
{
    Fault::Compile(key.error(CompileErrorKind::AttributeKeyMissingValue { key }))
}

/// Refuses the first key, in the order of their texts, that an attribute of this kind doesn't
/// accept.
///
/// # Errors
///
/// `Compile` at the key.
pub fn check_keys<'src>(
    name: Name<'src>,
    kind: AttributeKind,
    keys: &KeyMap<'src>,
) -> CompileResult<'src>
    ensures { Makes (λ _. tt) result
        (new.check_keys views_keys name.entry.token kind (key_arguments keys.now)) }
{
    for (text, (key, _value)) in keys {
        if !is_known(kind, text) {
            return Err(Fault::Compile(CompileError {
                kind: CompileErrorKind::UnknownAttributeKey {
                    attribute: name.lexeme(),
                    key: key.lexeme(),
                },
                token: **key,
            }));
        }
    }
    Ok(())
}

/// Whether an attribute of this kind accepts the key.
fn is_known(kind: AttributeKind, key: &str) -> bool
    ensures { result ≡ list_any (bytes_eq key.now) (known_keys kind) }
{
    match kind {
        AttributeKind::Arg => is_among(key, &ARGUMENT_KEYS),
        AttributeKind::Cache => is_among(key, &CACHE_KEYS),
        _ => false,
    }
}

/// Whether the text is one of the words.
fn is_among(text: &str, words: &[&str]) -> bool
    ensures { result ≡ list_any (λ word. bytes_eq text.now word.now) words.now }
{
    words.iter().any(|word| text == *word)
}
