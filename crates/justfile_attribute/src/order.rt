//! The order of attributes by content: by their kinds, and within a kind by their fields in
//! declared order, ignoring positions.
ghost use Rattle.std.specs.Prelude.{◌≡◌};
ghost use denote.Enum.Declared.{tag_of};
ghost use Rattle.std.specs.Ordering.{nat_cmp};
ghost use Rattle.justfile_vocabulary.specs.contracts.attribute_kind.AttributeKind.{the_type};
ghost use Rattle.justfile_vocabulary.specs.declared.attribute_kind.AttributeKind.TheVariants as kinds;
ghost use Rattle.justfile_model.specs.Trees.ContentLeaf.{content_cmp};
ghost use Rattle.justfile_model.specs.Trees.Key.{keys_cmp, end, next, keys_of, option_key, sequence};
ghost use Rattle.justfile_attribute.specs.Form.{case_kind};
ghost use Rattle.justfile_attribute.specs.Order.{attribute_content_cmp, boxed_key, by_content, case_keys, count_key, expression_key, interpreter_key, literal_key, name_key, property_key, signal_key, text_key, token_key};

use crate::attribute::Attribute;
use crate::interpreter::Interpreter;
use crate::parts_order::{
    compare_bounds, compare_expressions, compare_interpreters, compare_named, compare_optional,
    compare_properties, compare_rows, compare_texts, compare_tokens,
};
use justfile_expression::Expression;
use justfile_leaves::literal_content_cmp;
use justfile_token::StringLiteral;
use justfile_vocabulary::Signal;
use std::cmp::Ordering;
use std::collections::BTreeSet;

/// Compares two attributes by content: by their kinds, and within a kind by their fields.
pub fn attribute_content_cmp<'src>(attribute: &Attribute<'src>, other: &Attribute<'src>) -> Ordering
    ensures { result ≡ attribute_content_cmp attribute.now other.now }
{
    let order = compare_kinds(attribute, other);
    if order.is_ne() {
        return order;
    }
    compare_fields(attribute, other)
}

/// Compares the kinds of two attributes in the declared order of kinds.
fn compare_kinds(attribute: &Attribute<'_>, other: &Attribute<'_>) -> Ordering
    ensures { result ≡ nat_cmp (tag_of the_type (case_kind attribute.now))
        (tag_of the_type (case_kind other.now)) }
{
    kind_index(attribute).cmp(&kind_index(other))
}

/// Returns the index of an attribute's kind in the declared order, counted from 0.
#[tactic(auto, using(crate::proofs::Ordered::kind_index_is))]
fn kind_index(attribute: &Attribute<'_>) -> u8
    ensures { result ≡ tag_of the_type (case_kind attribute.now) }
{
    attribute.kind() as u8
}

/// Compares the fields of two attributes of the same kind.
fn compare_fields<'src>(attribute: &Attribute<'src>, other: &Attribute<'src>) -> Ordering
    requires { case_kind attribute.now ≡ case_kind other.now }
    ensures { result ≡ keys_cmp content_cmp (case_keys attribute.now) (case_keys other.now) }
{
    match attribute {
        Attribute::Arg { .. } => compare_arg(attribute, other),
        Attribute::Cache {
            extra,
            inputs,
            outputs,
        } => compare_cache(extra, inputs, outputs, other),
        Attribute::Confirm(prompt) => compare_confirm(prompt, other),
        Attribute::Continue(signals) => compare_continue(signals, other),
        Attribute::Doc(doc) => compare_doc(doc, other),
        Attribute::Env(name, value) => compare_env(name, value, other),
        Attribute::Extension(extension) => compare_extension(extension, other),
        Attribute::Group(group) => compare_group(group, other),
        Attribute::Metadata(texts) => compare_metadata(texts, other),
        Attribute::Script(interpreter) => compare_script(interpreter, other),
        Attribute::Timestamp(format) => compare_timestamp(format, other),
        Attribute::WorkingDirectory(path) => compare_working_directory(path, other),
        _ => Ordering::Equal,
    }
}

/// Compares the fields of two `arg` attributes.
fn compare_arg<'src>(attribute: &Attribute<'src>, other: &Attribute<'src>) -> Ordering
    requires is_arg { kinds.Arg ≡ case_kind attribute.now }
    requires other_is_arg { kinds.Arg ≡ case_kind other.now }
    ensures { result ≡ keys_cmp content_cmp (case_keys attribute.now) (case_keys other.now) }
{
    match attribute {
        Attribute::Arg {
            flag,
            help,
            help_property,
            long,
            long_key,
            max,
            max_key,
            min,
            min_key,
            multiple,
            name,
            pattern_property,
            short,
            short_key,
            value,
        } => match other {
            Attribute::Arg {
                flag: other_flag,
                help: other_help,
                help_property: other_property,
                long: other_long,
                long_key: other_long_key,
                max: other_max,
                max_key: other_max_key,
                min: other_min,
                min_key: other_min_key,
                multiple: other_multiple,
                name: other_name,
                pattern_property: other_pattern,
                short: other_short,
                short_key: other_short_key,
                value: other_value,
            } => compare_tokens(flag, other_flag)
                .then(compare_texts(help, other_help))
                .then(compare_properties(help_property, other_property))
                .then(compare_named(long, long_key, other_long, other_long_key))
                .then(compare_bounds(max, max_key, other_max, other_max_key))
                .then(compare_bounds(min, min_key, other_min, other_min_key))
                .then(compare_tokens(multiple, other_multiple))
                .then(literal_content_cmp(name, other_name))
                .then(compare_properties(pattern_property, other_pattern))
                .then(compare_named(short, short_key, other_short, other_short_key))
                .then(compare_optional(value, other_value)),
            _ => unreachable!(),
        },
        _ => unreachable!(),
    }
}

/// Compares the fields of two `cache` attributes, the first given by its fields.
fn compare_cache<'src>(
    extra: &Option<Box<Expression<'src>>>,
    inputs: &Option<Box<Expression<'src>>>,
    outputs: &Option<Box<Expression<'src>>>,
    other: &Attribute<'src>,
) -> Ordering
    requires { kinds.Cache ≡ case_kind other.now }
    ensures { result ≡ keys_cmp content_cmp
        (next (option_key boxed_key extra.now) (next (option_key boxed_key inputs.now)
        (next (option_key boxed_key outputs.now) end))) (case_keys other.now) }
{
    match other {
        Attribute::Cache {
            extra: other_extra,
            inputs: other_inputs,
            outputs: other_outputs,
        } => compare_optional(extra, other_extra)
            .then(compare_optional(inputs, other_inputs))
            .then(compare_optional(outputs, other_outputs)),
        _ => unreachable!(),
    }
}

/// Compares two optional prompts.
fn compare_confirm<'src>(
    prompt: &Option<Box<Expression<'src>>>,
    other: &Attribute<'src>,
) -> Ordering
    requires { kinds.Confirm ≡ case_kind other.now }
    ensures { result
        ≡ keys_cmp content_cmp (next (option_key boxed_key prompt.now) end) (case_keys other.now) }
{
    match other {
        Attribute::Confirm(other) => compare_optional(prompt, other),
        _ => unreachable!(),
    }
}

/// Compares the signals of two attributes.
fn compare_continue<'src>(signals: &BTreeSet<Signal>, other: &Attribute<'src>) -> Ordering
    requires { kinds.Continue ≡ case_kind other.now }
    ensures { result ≡ keys_cmp content_cmp (next (sequence (keys_of signal_key signals.now.keys)) end)
        (case_keys other.now) }
{
    match other {
        Attribute::Continue(other) => signals.cmp(other),
        _ => unreachable!(),
    }
}

/// Compares two optional docs.
fn compare_doc<'src>(doc: &Option<Box<Expression<'src>>>, other: &Attribute<'src>) -> Ordering
    requires { kinds.Doc ≡ case_kind other.now }
    ensures { result
        ≡ keys_cmp content_cmp (next (option_key boxed_key doc.now) end) (case_keys other.now) }
{
    match other {
        Attribute::Doc(other) => compare_optional(doc, other),
        _ => unreachable!(),
    }
}

/// Compares the names and values of two environment variables.
fn compare_env<'src>(
    name: &Expression<'src>,
    value: &Expression<'src>,
    other: &Attribute<'src>,
) -> Ordering
    requires { kinds.Env ≡ case_kind other.now }
    ensures { result ≡ keys_cmp content_cmp
        (next (expression_key name.now) (next (expression_key value.now) end))
        (case_keys other.now) }
{
    match other {
        Attribute::Env(other_name, other_value) => {
            compare_expressions(name, other_name).then(compare_expressions(value, other_value))
        }
        _ => unreachable!(),
    }
}

/// Compares two extensions.
fn compare_extension<'src>(extension: &StringLiteral<'src>, other: &Attribute<'src>) -> Ordering
    requires { kinds.Extension ≡ case_kind other.now }
    ensures { result
        ≡ keys_cmp content_cmp (next (literal_key extension.now) end) (case_keys other.now) }
{
    match other {
        Attribute::Extension(other) => literal_content_cmp(extension, other),
        _ => unreachable!(),
    }
}

/// Compares the names of two groups.
fn compare_group<'src>(group: &StringLiteral<'src>, other: &Attribute<'src>) -> Ordering
    requires { kinds.Group ≡ case_kind other.now }
    ensures { result
        ≡ keys_cmp content_cmp (next (literal_key group.now) end) (case_keys other.now) }
{
    match other {
        Attribute::Group(other) => literal_content_cmp(group, other),
        _ => unreachable!(),
    }
}

/// Compares two lists of metadata.
fn compare_metadata<'src>(texts: &Vec<StringLiteral<'src>>, other: &Attribute<'src>) -> Ordering
    requires { kinds.Metadata ≡ case_kind other.now }
    ensures { result ≡ keys_cmp content_cmp (next (sequence (keys_of literal_key texts.now.items)) end)
        (case_keys other.now) }
{
    match other {
        Attribute::Metadata(other) => compare_rows(texts, other),
        _ => unreachable!(),
    }
}

/// Compares two optional interpreters.
fn compare_script<'src>(
    interpreter: &Option<Interpreter<StringLiteral<'src>>>,
    other: &Attribute<'src>,
) -> Ordering
    requires { kinds.Script ≡ case_kind other.now }
    ensures { result ≡ keys_cmp content_cmp (next (option_key interpreter_key interpreter.now) end)
        (case_keys other.now) }
{
    match other {
        Attribute::Script(other) => compare_interpreters(interpreter, other),
        _ => unreachable!(),
    }
}

/// Compares two optional formats of times.
fn compare_timestamp<'src>(
    format: &Option<Box<Expression<'src>>>,
    other: &Attribute<'src>,
) -> Ordering
    requires { kinds.Timestamp ≡ case_kind other.now }
    ensures { result
        ≡ keys_cmp content_cmp (next (option_key boxed_key format.now) end) (case_keys other.now) }
{
    match other {
        Attribute::Timestamp(other) => compare_optional(format, other),
        _ => unreachable!(),
    }
}

/// Compares two working directories.
fn compare_working_directory<'src>(path: &Expression<'src>, other: &Attribute<'src>) -> Ordering
    requires { kinds.WorkingDirectory ≡ case_kind other.now }
    ensures { result
        ≡ keys_cmp content_cmp (next (expression_key path.now) end) (case_keys other.now) }
{
    match other {
        Attribute::WorkingDirectory(other) => compare_expressions(path, other),
        _ => unreachable!(),
    }
}
