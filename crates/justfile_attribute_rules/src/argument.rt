//! Reading of the keys of `arg`, one after another.
ghost use Rattle.std.specs.Prelude.{◌≡◌, IfOk, OnOk, codes, string_bytes};
ghost use Rattle.std.specs.Option.{option_map};
ghost use Rattle.justfile_token.specs.declared.string_literal.StringLiteral.{StringLiteral};
ghost use Rattle.justfile_model.specs.Readers.NewAttribute as new;
ghost use Rattle.justfile_attribute_rules.specs.ArgumentRules.{AreNamed, option_of, rules_of};
ghost use Rattle.justfile_attribute_rules.specs.Keys.{IsTaken, key_arguments, views_keys};
ghost use Rattle.justfile_attribute_rules.specs.Made.{Makes, bound_at, quoted_leaf};
ghost use Rattle.justfile_attribute_rules.specs.Steps.{after_bounds, after_names, after_switches, after_values, bounds_read, help_read, named_only, names_read, rules_read, switches_read, values_read, at, long_of, short_of, with_long, with_short, with_bounds};

use crate::argument_rules::ArgumentRules;
use crate::keys::{KeyMap, take_required};
use crate::numbers::{check_bounds, take_bound};
use crate::options::{OptionName, name_option, take_option};
use crate::switches::{take_flag, take_multiple, take_value};
use justfile_token::{CompileResult, Name, StringLiteral};
use std::alloc::{AllocError, Global};

/// Returns what an `arg` attribute sets for its parameter. The keys are taken out of the map one
/// after another.
///
/// # Errors
///
/// `Compile` for the first broken rule; `Memory` if out of memory.
pub fn read_argument_rules<'src>(
    alloc: Global,
    name: Name<'src>,
    argument: StringLiteral<'src>,
    keys: &mut KeyMap<'src>,
) -> CompileResult<'src, Box<ArgumentRules<'src>>>
    ensures made { Makes (λ rules. rules_of rules.value) result
        (new.new_rules views_keys name.entry.token (string_bytes argument.entry.cooked)
        (quoted_leaf argument.entry) (key_arguments keys.old)) }
    ensures named { IfOk result (λ rules. AreNamed rules.value) }
{
    let mut rules = boxed(alloc, argument)?;
    read_rules(alloc, name, keys, &mut rules)?;
    name_options(alloc, &mut rules)?;
    Ok(rules)
}

/// Returns the defaults for a parameter, in a box.
fn boxed<'src>(
    alloc: Global,
    argument: StringLiteral<'src>,
) -> Result<Box<ArgumentRules<'src>>, AllocError>
    ensures { IfOk result (λ rules. rules_of rules.value
        ≡ named_only (quoted_leaf argument.entry)) }
{
    Ok(Box::new(alloc, named(argument))?)
}

/// Returns the defaults for a parameter: only its name is set.
fn named(argument: StringLiteral<'_>) -> ArgumentRules<'_>
    ensures { rules_of result ≡ named_only (quoted_leaf argument.entry) }
{
    ArgumentRules {
        flag: None,
        help_property: None,
        long: None,
        long_key: None,
        max: None,
        min: None,
        multiple: None,
        name: argument,
        pattern_property: None,
        short: None,
        short_key: None,
        value: None,
    }
}

/// Takes all keys out of the map, in the order in which they are checked, and sets the rules.
#[tactic(auto, using(crate::proofs::Refused::refused_first))]
fn read_rules<'src>(
    alloc: Global,
    name: Name<'src>,
    keys: &mut KeyMap<'src>,
    rules: &mut ArgumentRules<'src>,
) -> CompileResult<'src>
    ensures { Makes (λ _. rules_of rules.new) result
        (rules_read name.entry.token (key_arguments keys.old) (rules_of rules.old)) }
{
    if let Err(fault) = read_names(alloc, name, keys, rules) {
        return Err(fault);
    }
    if let Err(fault) = read_values(name, keys, rules) {
        return Err(fault);
    }
    if let Err(fault) = read_switches(alloc, keys, rules) {
        return Err(fault);
    }
    if let Err(fault) = read_bounds(alloc, name, keys, rules) {
        return Err(fault);
    }
    read_help(name, keys, rules)
}

/// Takes `long` and `short` out of the keys and sets both option names.
#[tactic(auto, using(crate::proofs::Refused::refused_first))]
fn read_names<'src>(
    alloc: Global,
    name: Name<'src>,
    keys: &mut KeyMap<'src>,
    rules: &mut ArgumentRules<'src>,
) -> CompileResult<'src>
    ensures read { Makes (λ _. rules_of rules.new) result
        (names_read name.entry.token (key_arguments keys.old) (rules_of rules.old)) }
    ensures rest { OnOk result (key_arguments keys.new ≡ after_names (key_arguments keys.old)) }
{
    match read_long(alloc, name, keys, rules) {
        Ok(()) => read_short(alloc, name, keys, rules),
        Err(fault) => Err(fault),
    }
}

/// Takes `long` out of the keys and sets the name of the long option.
#[tactic(auto, using(crate::proofs::Refused::refused_first))]
fn read_long<'src>(
    alloc: Global,
    name: Name<'src>,
    keys: &mut KeyMap<'src>,
    rules: &mut ArgumentRules<'src>,
) -> CompileResult<'src>
    ensures read { Makes (λ _. rules_of rules.new) result (long_of name.entry.token
        (at (codes "long") (key_arguments keys.old)) (rules_of rules.old)) }
    ensures removed { IsTaken (codes "long") keys.old keys.new }
{
    match take_option(alloc, name, &rules.name, false, keys) {
        Ok(long) => {
            set_long(rules, long);
            Ok(())
        }
        Err(fault) => Err(fault),
    }
}

/// Sets the literal or the key that names the long option.
fn set_long<'src>(rules: &mut ArgumentRules<'src>, long: OptionName<'src>)
    ensures { rules_of rules.new
        ≡ with_long (option_of long.entry.1 long.entry.0) (rules_of rules.old) }
{
    let (long, long_key) = long;
    rules.long = long;
    rules.long_key = long_key;
}

/// Takes `short` out of the keys and sets the name of the short option.
#[tactic(auto, using(crate::proofs::Refused::refused_first))]
fn read_short<'src>(
    alloc: Global,
    name: Name<'src>,
    keys: &mut KeyMap<'src>,
    rules: &mut ArgumentRules<'src>,
) -> CompileResult<'src>
    ensures read { Makes (λ _. rules_of rules.new) result (short_of name.entry.token
        (at (codes "short") (key_arguments keys.old)) (rules_of rules.old)) }
    ensures removed { IsTaken (codes "short") keys.old keys.new }
{
    match take_option(alloc, name, &rules.name, true, keys) {
        Ok(short) => {
            set_short(rules, short);
            Ok(())
        }
        Err(fault) => Err(fault),
    }
}

/// Sets the literal or the key that names the short option.
fn set_short<'src>(rules: &mut ArgumentRules<'src>, short: OptionName<'src>)
    ensures { rules_of rules.new
        ≡ with_short (option_of short.entry.1 short.entry.0) (rules_of rules.old) }
{
    let (short, short_key) = short;
    rules.short = short;
    rules.short_key = short_key;
}

/// Takes `pattern` and `value` out of the keys and sets both.
#[tactic(auto, using(crate::proofs::Refused::refused_first))]
fn read_values<'src>(
    name: Name<'src>,
    keys: &mut KeyMap<'src>,
    rules: &mut ArgumentRules<'src>,
) -> CompileResult<'src>
    ensures read { Makes (λ _. rules_of rules.new) result
        (values_read name.entry.token (key_arguments keys.old) (rules_of rules.old)) }
    ensures rest { OnOk result (key_arguments keys.new ≡ after_values (key_arguments keys.old)) }
{
    match take_required(name, keys, "pattern") {
        Ok(pattern) => rules.pattern_property = pattern,
        Err(fault) => return Err(fault),
    }
    match take_value(keys, rules) {
        Ok(value) => {
            rules.value = value;
            Ok(())
        }
        Err(fault) => Err(fault),
    }
}

/// Takes `flag` and `multiple` out of the keys and sets both.
#[tactic(auto, using(crate::proofs::Refused::refused_first))]
fn read_switches<'src>(
    alloc: Global,
    keys: &mut KeyMap<'src>,
    rules: &mut ArgumentRules<'src>,
) -> CompileResult<'src>
    ensures read { Makes (λ _. rules_of rules.new) result
        (switches_read rules.old.name.token (key_arguments keys.old) (rules_of rules.old)) }
    ensures rest { OnOk result (key_arguments keys.new ≡ after_switches (key_arguments keys.old)) }
{
    match take_flag(alloc, keys, rules) {
        Ok(flag) => rules.flag = flag,
        Err(fault) => return Err(fault),
    }
    match take_multiple(keys, rules) {
        Ok(multiple) => {
            rules.multiple = multiple;
            Ok(())
        }
        Err(fault) => Err(fault),
    }
}

/// Takes `max` and `min` out of the keys and sets both.
#[tactic(auto, using(crate::proofs::Refused::refused_first))]
fn read_bounds<'src>(
    alloc: Global,
    name: Name<'src>,
    keys: &mut KeyMap<'src>,
    rules: &mut ArgumentRules<'src>,
) -> CompileResult<'src>
    ensures read { Makes (λ _. rules_of rules.new) result
        (bounds_read name.entry.token (key_arguments keys.old) (rules_of rules.old)) }
    ensures rest { OnOk result (key_arguments keys.new ≡ after_bounds (key_arguments keys.old)) }
{
    let max = match take_bound(alloc, name, keys, "max") {
        Ok(max) => max,
        Err(fault) => return Err(fault),
    };
    let min = match take_bound(alloc, name, keys, "min") {
        Ok(min) => min,
        Err(fault) => return Err(fault),
    };
    match check_bounds(min, max) {
        Ok(()) => {
            set_bounds(rules, min, max);
            Ok(())
        }
        Err(fault) => Err(fault),
    }
}

/// Sets `min` and `max`.
fn set_bounds<'src>(
    rules: &mut ArgumentRules<'src>,
    min: Option<(Name<'src>, u64)>,
    max: Option<(Name<'src>, u64)>,
)
    ensures { rules_of rules.new ≡ with_bounds (option_map bound_at min.entry)
        (option_map bound_at max.entry) (rules_of rules.old) }
{
    rules.min = min;
    rules.max = max;
}

/// Takes `help` out of the keys and sets it.
#[tactic(auto, using(crate::proofs::Refused::refused_first))]
fn read_help<'src>(
    name: Name<'src>,
    keys: &mut KeyMap<'src>,
    rules: &mut ArgumentRules<'src>,
) -> CompileResult<'src>
    ensures { Makes (λ _. rules_of rules.new) result
        (help_read name.entry.token (key_arguments keys.old) (rules_of rules.old)) }
{
    match take_required(name, keys, "help") {
        Ok(help) => {
            rules.help_property = help;
            Ok(())
        }
        Err(fault) => Err(fault),
    }
}

/// Sets the names of the options whose keys have no value: each is a copy of the parameter's name.
fn name_options<'src>(alloc: Global, rules: &mut ArgumentRules<'src>) -> Result<(), AllocError>
    ensures same { rules_of rules.new ≡ rules_of rules.old }
    ensures named { OnOk result (AreNamed rules.new) }
{
    name_option(alloc, &rules.name, &rules.long_key, &mut rules.long)?;
    name_option(alloc, &rules.name, &rules.short_key, &mut rules.short)
}
