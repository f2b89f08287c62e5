//! Attributes from their kinds and arguments.
ghost use Rattle.std.specs.Prelude.{◌≡◌, ◌≤◌, IfOk, IsTrue, [], ◌∷◌, false, true, length};
ghost use Rattle.std.specs.Option.{option_map};
ghost use Rattle.justfile_vocabulary.specs.declared.attribute_kind.AttributeKind.TheVariants as kinds;
ghost use Rattle.justfile_token.specs.declared.token.Token.{Token};
ghost use Rattle.justfile_model.specs.Meanings.AttributeKinds.{takes_expressions};
ghost use Rattle.justfile_model.specs.Meanings.Meaning.{first_of, texts_of};
ghost use Rattle.justfile_model.specs.Readers.NewAttribute as new;
ghost use Rattle.justfile_model.specs.Trees.Tree as tree;
ghost use Rattle.justfile_expression.specs.LeafTree.{leaf_tree_of};
ghost use Rattle.justfile_attribute.specs.Attribute.{leaf_attribute_of};
ghost use Rattle.justfile_attribute.specs.ByValue.{given_leaves, placed_leaves};
ghost use Rattle.justfile_attribute.specs.Cached.{cache_of, cache_read};
ghost use Rattle.justfile_attribute.specs.New.{IsCounted, HasDerivedAttributeFields, continue_made, has_no_own_rules, takes_no_arguments, values_of, with_known};
ghost use Rattle.justfile_attribute_rules.specs.ArgumentRules.{AreNamed, rules_of};
ghost use Rattle.justfile_attribute_rules.specs.Keys.{IsTaken, key_arguments, views_keys};
ghost use Rattle.justfile_attribute_rules.specs.Made.{Makes, positional_leaves, quoted_leaf, quoted_leaves};

use crate::attribute::Attribute;
use crate::boxes::{boxed_pairs, boxed_values};
use crate::cache_values::CacheValues;
use crate::interpreter::Interpreter;
use justfile_attribute_rules::{
    ArgumentRules, KeyMap, accepts_expressions, check_count, check_keys, read_argument_rules,
    signal_set, string_literals, take_value,
};
use justfile_expression::Expression;
use justfile_token::{CompileResult, Fault, Name, StringLiteral, Token};
use justfile_vocabulary::AttributeKind;
use std::alloc::{AllocError, Global};
use std::collections::BTreeMap;

impl<'src> Attribute<'src> {
    /// Returns the attribute of this kind with these arguments. Each positional argument comes with
    /// its first token. A key is found by its text in the map, and errors name its token. Only
    /// errors use the name of the attribute.
    ///
    /// # Errors
    ///
    /// `Compile` for the first broken rule; `Memory` if out of memory.
    #[tactic(auto, using(crate::proofs::ByValue::made_same))]
    pub fn new(
        alloc: Global,
        name: Name<'src>,
        kind: AttributeKind,
        arguments: Vec<(Token<'src>, Expression<'src>)>,
        keyword_arguments: BTreeMap<&'src str, (Name<'src>, Option<Expression<'src>>)>,
    ) -> CompileResult<'src, Self>
        ensures made { Makes leaf_attribute_of result (new.new_attribute views_keys
            name.entry.token kind (placed_leaves arguments.entry.items)
            (given_leaves keyword_arguments.entry.entries)) }
        // The fields of an `arg` that follow from others. With a `long_key` (the key of a `long`
        // without a value) `long` is a copy of `name`; the same for `short`. `min` is there exactly
        // if `min_key` is; the same for `max`. `help` is `None`: its expression, `help_property`,
        // isn't evaluated.
        ensures fields { IfOk result HasDerivedAttributeFields }
    {
        let arguments = match boxed_pairs(alloc, arguments) {
            Ok(arguments) => arguments,
            Err(_failed) => return Err(Fault::Memory),
        };
        match boxed_values(alloc, keyword_arguments) {
            Ok(keys) => Attribute::from_boxes(alloc, name, kind, arguments, keys),
            Err(_failed) => Err(Fault::Memory),
        }
    }

    /// Returns what `new` does, of arguments that are in boxes already.
    ///
    /// # Errors
    ///
    /// `Compile` for the first broken rule; `Memory` if out of memory.
    #[tactic(auto, using(justfile_attribute_rules::proofs::Refused::refused_first, crate::proofs::Counted::as_many), unfolding(justfile_model::specs::Readers::NewAttribute::new_attribute))]
    pub fn from_boxes(
        alloc: Global,
        name: Name<'src>,
        kind: AttributeKind,
        arguments: Vec<(Token<'src>, Box<Expression<'src>>)>,
        keyword_arguments: KeyMap<'src>,
    ) -> CompileResult<'src, Self>
        ensures made { Makes leaf_attribute_of result (new.new_attribute views_keys
            name.entry.token kind (positional_leaves arguments.entry.items)
            (key_arguments keyword_arguments.entry)) }
        ensures fields { IfOk result HasDerivedAttributeFields }
    {
        if let Err(fault) = check_count(name, kind, arguments.len()) {
            return Err(fault);
        }
        if accepts_expressions(kind) {
            from_expressions(name, kind, arguments, keyword_arguments)
        } else {
            from_literals(alloc, name, kind, arguments, keyword_arguments)
        }
    }
}

/// Returns an attribute whose positional arguments are any expressions.
#[tactic(auto, using(justfile_attribute_rules::proofs::Refused::refused_first))]
fn from_expressions<'src>(
    name: Name<'src>,
    kind: AttributeKind,
    arguments: Vec<(Token<'src>, Box<Expression<'src>>)>,
    keys: KeyMap<'src>,
) -> CompileResult<'src, Attribute<'src>>
    requires kind { takes_expressions kind ≡ true }
    requires counted { IsCounted name.token kind (length (positional_leaves arguments.items)) }
    ensures made { Makes leaf_attribute_of result (new.from_expressions views_keys
        name.entry.token kind (positional_leaves arguments.entry.items)
        (key_arguments keys.entry)) }
    ensures fields { IfOk result HasDerivedAttributeFields }
{
    if let Err(fault) = check_keys(name, kind, &keys) {
        return Err(fault);
    }
    match kind {
        AttributeKind::Confirm => Ok(Attribute::Confirm(first(arguments))),
        AttributeKind::Doc => Ok(Attribute::Doc(first(arguments))),
        AttributeKind::Env => Ok(env(arguments)),
        AttributeKind::Timestamp => Ok(Attribute::Timestamp(first(arguments))),
        AttributeKind::WorkingDirectory => Ok(working_directory(arguments)),
        _ => unreachable!(),
    }
}

/// Returns the first positional argument, if any.
#[tactic(auto, using(crate::proofs::Counted::first_is, crate::proofs::Counted::none_first))]
fn first<'src>(
    mut arguments: Vec<(Token<'src>, Box<Expression<'src>>)>,
) -> Option<Box<Expression<'src>>>
    ensures { option_map (λ b. leaf_tree_of b.value) result
        ≡ first_of (values_of (positional_leaves arguments.entry.items)) }
{
    if arguments.is_empty() {
        return None;
    }
    let (_first, value) = arguments.remove(0);
    Some(value)
}

/// Returns a `working-directory` attribute.
#[tactic(auto, using(crate::proofs::Counted::directory_is))]
fn working_directory<'src>(
    mut arguments: Vec<(Token<'src>, Box<Expression<'src>>)>,
) -> Attribute<'src>
    requires { 1 ≤ length arguments.items }
    ensures made { (at : Token) → leaf_attribute_of result ≡ new.new_of_expressions views_keys at
        kinds.WorkingDirectory (values_of (positional_leaves arguments.entry.items)) }
    ensures fields { HasDerivedAttributeFields result }
{
    let (_first, value) = arguments.remove(0);
    Attribute::WorkingDirectory(value)
}

/// Returns an `env` attribute.
#[tactic(auto, using(crate::proofs::Counted::env_is))]
fn env<'src>(mut arguments: Vec<(Token<'src>, Box<Expression<'src>>)>) -> Attribute<'src>
    requires { 2 ≤ length arguments.items }
    ensures made { (at : Token) → leaf_attribute_of result ≡ new.new_of_expressions views_keys at
        kinds.Env (values_of (positional_leaves arguments.entry.items)) }
    ensures fields { HasDerivedAttributeFields result }
{
    let (_first, value) = arguments.remove(1);
    let (_first, key) = arguments.remove(0);
    Attribute::Env(key, value)
}

/// Returns an attribute whose positional arguments are literals.
#[tactic(auto, using(justfile_attribute_rules::proofs::Refused::refused_first))]
fn from_literals<'src>(
    alloc: Global,
    name: Name<'src>,
    kind: AttributeKind,
    arguments: Vec<(Token<'src>, Box<Expression<'src>>)>,
    mut keys: KeyMap<'src>,
) -> CompileResult<'src, Attribute<'src>>
    requires kind { takes_expressions kind ≡ false }
    requires counted { IsCounted name.token kind (length (positional_leaves arguments.items)) }
    ensures made { Makes leaf_attribute_of result (new.from_literals views_keys name.entry.token
        kind (positional_leaves arguments.entry.items) (key_arguments keys.entry)) }
    ensures fields { IfOk result HasDerivedAttributeFields }
{
    let literals = string_literals(alloc, name, arguments)?;
    of_literals(alloc, name, kind, literals, &mut keys)
}

/// Returns an attribute with these literals, whose count is right, by the rules of its kind. Keys
/// that the kind doesn't accept are refused after all other checks.
#[tactic(auto, using(crate::proofs::Counted::continue_known))]
fn of_literals<'src>(
    alloc: Global,
    name: Name<'src>,
    kind: AttributeKind,
    literals: Vec<StringLiteral<'src>>,
    keys: &mut KeyMap<'src>,
) -> CompileResult<'src, Attribute<'src>>
    requires kind { takes_expressions kind ≡ false }
    requires counted { IsCounted name.token kind (length (quoted_leaves literals.items)) }
    ensures made { Makes leaf_attribute_of result
        (with_known (new.check_keys views_keys name.entry.token kind (key_arguments keys.old))
        (new.new_of_literals views_keys name.entry.token kind (quoted_leaves literals.entry.items)
        (key_arguments keys.old))) }
    ensures fields { IfOk result HasDerivedAttributeFields }
{
    match kind {
        AttributeKind::Arg => arg(alloc, name, literals, keys),
        AttributeKind::Cache => cache(alloc, name, keys),
        AttributeKind::Continue => continue_attribute(alloc, name, literals, keys),
        _ => of_plain_literals(name, kind, literals, keys),
    }
}

/// Returns an attribute that has only literals, or no arguments at all.
#[tactic(auto, using(justfile_attribute_rules::proofs::Refused::refused_first, crate::proofs::Counted::known_made))]
fn of_plain_literals<'src>(
    name: Name<'src>,
    kind: AttributeKind,
    literals: Vec<StringLiteral<'src>>,
    keys: &KeyMap<'src>,
) -> CompileResult<'src, Attribute<'src>>
    requires kind { takes_expressions kind ≡ false }
    requires texts { IsTrue (has_no_own_rules kind) }
    requires counted { IsCounted name.token kind (length (quoted_leaves literals.items)) }
    ensures made { Makes leaf_attribute_of result
        (with_known (new.check_keys views_keys name.entry.token kind (key_arguments keys.now))
        (new.new_of_literals views_keys name.entry.token kind (quoted_leaves literals.entry.items)
        (key_arguments keys.now))) }
    ensures fields { IfOk result HasDerivedAttributeFields }
{
    if let Err(fault) = check_keys(name, kind, keys) {
        return Err(fault);
    }
    match kind {
        AttributeKind::Extension => Ok(Attribute::Extension(only(literals))),
        AttributeKind::Group => Ok(Attribute::Group(only(literals))),
        AttributeKind::Metadata => Ok(Attribute::Metadata(literals)),
        AttributeKind::Script => Ok(script(literals)),
        _ => Ok(plain_attribute(kind)),
    }
}

/// Whether attributes of this kind take no arguments at all.
pub fn takes_no_arguments(kind: AttributeKind) -> bool
    ensures { result ≡ takes_no_arguments kind }
{
    matches!(
        kind,
        AttributeKind::Android
            | AttributeKind::Default
            | AttributeKind::Dragonfly
            | AttributeKind::ExitMessage
            | AttributeKind::Freebsd
            | AttributeKind::Linux
            | AttributeKind::Macos
            | AttributeKind::Netbsd
            | AttributeKind::NoCd
            | AttributeKind::NoExitMessage
            | AttributeKind::NoQuiet
            | AttributeKind::Openbsd
            | AttributeKind::Parallel
            | AttributeKind::PositionalArguments
            | AttributeKind::Private
            | AttributeKind::Shell
            | AttributeKind::Unix
            | AttributeKind::Windows
    )
}

/// Returns the attribute of this kind. Requires that the kind takes no arguments.
pub fn plain_attribute<'src>(kind: AttributeKind) -> Attribute<'src>
    requires { IsTrue (takes_no_arguments kind) }
    ensures made { leaf_attribute_of result ≡ tree.Plain kind }
    ensures fields { HasDerivedAttributeFields result }
{
    match kind {
        AttributeKind::Android => Attribute::Android,
        AttributeKind::Default => Attribute::Default,
        AttributeKind::Dragonfly => Attribute::Dragonfly,
        AttributeKind::ExitMessage => Attribute::ExitMessage,
        AttributeKind::Freebsd => Attribute::Freebsd,
        AttributeKind::Linux => Attribute::Linux,
        AttributeKind::Macos => Attribute::Macos,
        AttributeKind::Netbsd => Attribute::Netbsd,
        AttributeKind::NoCd => Attribute::NoCd,
        AttributeKind::NoExitMessage => Attribute::NoExitMessage,
        AttributeKind::NoQuiet => Attribute::NoQuiet,
        AttributeKind::Openbsd => Attribute::Openbsd,
        AttributeKind::Parallel => Attribute::Parallel,
        AttributeKind::PositionalArguments => Attribute::PositionalArguments,
        AttributeKind::Private => Attribute::Private,
        AttributeKind::Shell => Attribute::Shell,
        AttributeKind::Unix => Attribute::Unix,
        AttributeKind::Windows => Attribute::Windows,
        _ => unreachable!(),
    }
}

/// Returns a `continue` attribute.
#[tactic(auto, using(justfile_attribute_rules::proofs::Refused::refused_first))]
#[inline(never)]
fn continue_attribute<'src>(
    alloc: Global,
    name: Name<'src>,
    literals: Vec<StringLiteral<'src>>,
    keys: &KeyMap<'src>,
) -> CompileResult<'src, Attribute<'src>>
    ensures made { Makes leaf_attribute_of result
        (with_known (new.check_keys views_keys name.entry.token kinds.Continue
        (key_arguments keys.now)) (continue_made (quoted_leaves literals.entry.items))) }
    ensures fields { IfOk result HasDerivedAttributeFields }
{
    let signals = match signal_set(alloc, literals) {
        Ok(signals) => signals,
        Err(fault) => return Err(fault),
    };
    match check_keys(name, AttributeKind::Continue, keys) {
        Ok(()) => Ok(Attribute::Continue(signals)),
        Err(fault) => Err(fault),
    }
}

/// Returns a `script` attribute with a program and its arguments, or without arguments.
#[tactic(auto, using(crate::proofs::Counted::script_is))]
#[inline(never)]
fn script(mut literals: Vec<StringLiteral<'_>>) -> Attribute<'_>
    ensures made { leaf_attribute_of result
        ≡ texts_of views_keys kinds.Script (quoted_leaves literals.entry.items) }
    ensures fields { HasDerivedAttributeFields result }
{
    if literals.is_empty() {
        return Attribute::Script(None);
    }
    let command = literals.remove(0);
    Attribute::Script(Some(Interpreter {
        command,
        arguments: literals,
    }))
}

/// Returns a `cache` attribute.
#[tactic(auto, using(crate::proofs::Cached::cache_made, crate::proofs::Cached::refused_known, crate::proofs::Cached::refused_cache))]
#[inline(never)]
fn cache<'src>(
    alloc: Global,
    name: Name<'src>,
    keys: &mut KeyMap<'src>,
) -> CompileResult<'src, Attribute<'src>>
    ensures made { Makes leaf_attribute_of result (with_known
        (new.check_keys views_keys name.entry.token kinds.Cache (key_arguments keys.old))
        (new.new_cache views_keys name.entry.token (key_arguments keys.old))) }
    ensures fields { IfOk result HasDerivedAttributeFields }
{
    let mut values = match no_values(alloc) {
        Ok(values) => values,
        Err(_failed) => return Err(Fault::Memory),
    };
    let known = check_keys(name, AttributeKind::Cache, keys);
    match read_cache(name, keys, &mut values) {
        Ok(()) => match known {
            Ok(()) => Ok(of_values(values)),
            Err(fault) => Err(fault),
        },
        Err(fault) => Err(fault),
    }
}

/// Returns the values of a `cache` attribute without keys.
fn no_values<'src>(alloc: Global) -> Result<Box<CacheValues<'src>>, AllocError> {
    let values = CacheValues {
        extra: None,
        inputs: None,
        outputs: None,
    };
    Ok(Box::new(alloc, values)?)
}

/// Takes the keys of `cache` out of the map, one after another, and sets the values.
#[tactic(auto, using(justfile_attribute_rules::proofs::Refused::refused_first))]
fn read_cache<'src>(
    name: Name<'src>,
    keys: &mut KeyMap<'src>,
    values: &mut CacheValues<'src>,
) -> CompileResult<'src>
    ensures { Makes (λ _. cache_of values.new) result
        (cache_read name.entry.token (key_arguments keys.old)) }
{
    if let Err(fault) = read_value(name, keys, "extra", &mut values.extra) {
        return Err(fault);
    }
    if let Err(fault) = read_value(name, keys, "inputs", &mut values.inputs) {
        return Err(fault);
    }
    read_value(name, keys, "outputs", &mut values.outputs)
}

/// Takes one key of `cache` out of the map, and sets `value` to its value, or to `None` if there is
/// no such key.
fn read_value<'src>(
    name: Name<'src>,
    keys: &mut KeyMap<'src>,
    word: &str,
    value: &mut Option<Box<Expression<'src>>>,
) -> CompileResult<'src>
    ensures read { Makes (λ _. option_map (λ b. leaf_tree_of b.value) value.new) result
        (new.required_at views_keys name.entry.token word.now (key_arguments keys.old)) }
    ensures removed { IsTaken word.now keys.old keys.new }
{
    match take_value(name, keys, word) {
        Ok(given) => {
            *value = given;
            Ok(())
        }
        Err(fault) => Err(fault),
    }
}

/// Returns the `cache` attribute with these values.
fn of_values(values: Box<CacheValues<'_>>) -> Attribute<'_>
    ensures made { leaf_attribute_of result ≡ cache_of values.entry.value }
    ensures fields { HasDerivedAttributeFields result }
{
    let values = Box::into_inner(values);
    Attribute::Cache {
        extra: values.extra,
        inputs: values.inputs,
        outputs: values.outputs,
    }
}

/// Returns an `arg` attribute.
#[tactic(auto, using(justfile_attribute_rules::proofs::Refused::refused_first))]
#[inline(never)]
fn arg<'src>(
    alloc: Global,
    name: Name<'src>,
    literals: Vec<StringLiteral<'src>>,
    keys: &mut KeyMap<'src>,
) -> CompileResult<'src, Attribute<'src>>
    requires counted { length literals.items ≡ 1 }
    ensures made { Makes leaf_attribute_of result (with_known
        (new.check_keys views_keys name.entry.token kinds.Arg (key_arguments keys.old))
        (new.new_arg views_keys name.entry.token (quoted_leaves literals.entry.items)
        (key_arguments keys.old))) }
    ensures fields { IfOk result HasDerivedAttributeFields }
{
    let argument = only(literals);
    let known = check_keys(name, AttributeKind::Arg, keys);
    match read_argument_rules(alloc, name, argument, keys) {
        Ok(rules) => match known {
            Ok(()) => Ok(of_rules(rules)),
            Err(fault) => Err(fault),
        },
        Err(fault) => Err(fault),
    }
}

/// Returns the only literal of the vector.
#[tactic(auto, using(crate::proofs::Counted::only_is))]
fn only(mut literals: Vec<StringLiteral<'_>>) -> StringLiteral<'_>
    requires { length literals.items ≡ 1 }
    ensures { quoted_leaves literals.entry.items ≡ quoted_leaf result ∷ [] }
{
    literals.remove(0)
}

/// Returns the `arg` attribute with these rules.
fn of_rules(rules: Box<ArgumentRules<'_>>) -> Attribute<'_>
    requires { AreNamed rules.value }
    ensures made { leaf_attribute_of result ≡ tree.Arg (rules_of rules.entry.value) }
    ensures fields { HasDerivedAttributeFields result }
{
    let rules = Box::into_inner(rules);
    let (max_key, max) = parts(rules.max);
    let (min_key, min) = parts(rules.min);
    Attribute::Arg {
        flag: rules.flag,
        help: None,
        help_property: rules.help_property,
        long: rules.long,
        long_key: rules.long_key,
        max,
        max_key,
        min,
        min_key,
        multiple: rules.multiple,
        name: rules.name,
        pattern_property: rules.pattern_property,
        short: rules.short,
        short_key: rules.short_key,
        value: rules.value,
    }
}

/// Returns a key and its number separately.
fn parts<'src>(bound: Option<(Name<'src>, u64)>) -> (Option<Name<'src>>, Option<u64>)
    ensures key { result.0 ≡ option_map (λ p. p.0) bound.entry }
    ensures number { result.1 ≡ option_map (λ p. p.1) bound.entry }
{
    match bound {
        Some((key, number)) => (Some(key), Some(number)),
        None => (None, None),
    }
}
