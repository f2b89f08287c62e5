//! The arguments of an attribute in the order in which they are printed.
ghost use Rattle.std.specs.Prelude.{◌≡◌, ◌∷◌, ◌<◌, [], IsSome, map};
ghost use Rattle.std.specs.List.{slice_get};
ghost use Rattle.justfile_vocabulary.specs.declared.attribute_kind.AttributeKind.TheVariants as kinds;
ghost use Rattle.justfile_attribute.specs.Form.{case_kind};
ghost use Rattle.justfile_attribute.specs.Print.{cache_slots, flag_slot, literal_slot, number_slot, option_slot, positional, property_slot, script_slots, signal_slot, signal_text, single_slots, slot_of, slot_text, slots, value_slot};

use crate::attribute::Attribute;
use crate::interpreter::Interpreter;
use justfile_expression::Expression;
use justfile_token::{Name, StringLiteral, Token};
use justfile_vocabulary::Signal;
use std::collections::BTreeSet;

/// The parts of an argument that are printed.
#[derive(Clone, Copy)]
pub struct Part<'a, 'src> {
    /// What is printed first: a key, a key with `=`, a signal in quotes, or nothing.
    pub piece: &'static str,
    /// What is printed after `piece`.
    pub value: Value<'a, 'src>,
}

/// The value of an argument.
#[derive(Clone, Copy)]
pub enum Value<'a, 'src> {
    Nothing,
    Expression(&'a Expression<'src>),
    Literal(&'a StringLiteral<'src>),
    /// A number, printed in single quotes.
    Number(u64),
}

/// Returns the slot of an attribute with this index, counted from 0. A slot is one possible
/// argument: `Some(None)` if the argument is absent. Returns `None` after the last slot.
pub fn slot<'a, 'src>(
    attribute: &'a Attribute<'src>,
    index: usize,
) -> Option<Option<Part<'a, 'src>>>
    ensures slot { slot_of result ≡ slice_get (slots attribute.now) index }
    ensures bounded { IsSome result → index < usize.MAX }
{
    match attribute {
        Attribute::Arg { .. } => arg_slot(attribute, index),
        Attribute::Cache {
            extra,
            inputs,
            outputs,
        } => cache_slot(extra, inputs, outputs, index),
        Attribute::Confirm(value) => single_slot(value, index),
        Attribute::Continue(signals) => signal_slot(signals, index),
        Attribute::Doc(value) => single_slot(value, index),
        Attribute::Env(key, value) => env_slot(key, value, index),
        Attribute::Extension(literal) => literal_slot(literal, index),
        Attribute::Group(literal) => literal_slot(literal, index),
        Attribute::Metadata(literals) => row_slot(literals, index),
        Attribute::Script(interpreter) => script_slot(interpreter, index),
        Attribute::Timestamp(value) => single_slot(value, index),
        Attribute::WorkingDirectory(value) => expression_slot(value, index),
        _ => None,
    }
}

/// Returns a slot of an `arg` attribute.
fn arg_slot<'a, 'src>(
    attribute: &'a Attribute<'src>,
    index: usize,
) -> Option<Option<Part<'a, 'src>>>
    requires { kinds.Arg ≡ case_kind attribute.now }
    ensures slot { slot_of result ≡ slice_get (slots attribute.now) index }
    ensures bounded { IsSome result → index < usize.MAX }
{
    match attribute {
        Attribute::Arg {
            flag,
            help_property,
            long,
            long_key,
            max,
            min,
            multiple,
            name,
            pattern_property,
            short,
            short_key,
            value,
            ..
        } => match index {
            0 => literal_slot(name, 0),
            1 => Some(option_part("long", "long=", long_key, long)),
            2 => Some(option_part("short", "short=", short_key, short)),
            3 => Some(property_part("pattern=", pattern_property)),
            4 => Some(value_part("value=", value)),
            5 => Some(flag_part("flag", flag)),
            6 => Some(flag_part("multiple", multiple)),
            7 => Some(number_part("min=", min)),
            8 => Some(number_part("max=", max)),
            9 => Some(property_part("help=", help_property)),
            _ => None,
        },
        _ => unreachable!(),
    }
}

/// Returns a slot of a `cache` attribute.
fn cache_slot<'a, 'src>(
    extra: &'a Option<Box<Expression<'src>>>,
    inputs: &'a Option<Box<Expression<'src>>>,
    outputs: &'a Option<Box<Expression<'src>>>,
    index: usize,
) -> Option<Option<Part<'a, 'src>>>
    ensures slot { slot_of result ≡ slice_get (cache_slots extra.now inputs.now outputs.now) index }
    ensures bounded { IsSome result → index < usize.MAX }
{
    match index {
        0 => Some(value_part("extra=", extra)),
        1 => Some(value_part("inputs=", inputs)),
        2 => Some(value_part("outputs=", outputs)),
        _ => None,
    }
}

/// Returns the only slot of an attribute whose expression is optional.
fn single_slot<'a, 'src>(
    value: &'a Option<Box<Expression<'src>>>,
    index: usize,
) -> Option<Option<Part<'a, 'src>>>
    ensures slot { slot_of result ≡ slice_get (single_slots value.now) index }
    ensures bounded { IsSome result → index < usize.MAX }
{
    match value {
        None => None,
        Some(value) => expression_slot(value, index),
    }
}

/// Returns a slot of an `env` attribute: the name or the value.
fn env_slot<'a, 'src>(
    key: &'a Expression<'src>,
    value: &'a Expression<'src>,
    index: usize,
) -> Option<Option<Part<'a, 'src>>>
    ensures slot { slot_of result
        ≡ slice_get (positional key.now ∷ positional value.now ∷ []) index }
    ensures bounded { IsSome result → index < usize.MAX }
{
    if index == 0 {
        expression_slot(key, 0)
    } else {
        expression_slot(value, index - 1)
    }
}

/// Returns the only slot of an attribute that has one expression.
fn expression_slot<'a, 'src>(
    value: &'a Expression<'src>,
    index: usize,
) -> Option<Option<Part<'a, 'src>>>
    ensures slot { slot_of result ≡ slice_get (positional value.now ∷ []) index }
    ensures bounded { IsSome result → index < usize.MAX }
{
    if index == 0 {
        Some(Some(Part {
            piece: "",
            value: Value::Expression(value),
        }))
    } else {
        None
    }
}

/// Returns a slot of a `script` attribute: the command or one of its arguments.
fn script_slot<'a, 'src>(
    interpreter: &'a Option<Interpreter<StringLiteral<'src>>>,
    index: usize,
) -> Option<Option<Part<'a, 'src>>>
    ensures slot { slot_of result ≡ slice_get (script_slots interpreter.now) index }
    ensures bounded { IsSome result → index < usize.MAX }
{
    match interpreter {
        None => None,
        Some(interpreter) => {
            if index == 0 {
                literal_slot(&interpreter.command, 0)
            } else {
                row_slot(&interpreter.arguments, index - 1)
            }
        }
    }
}

/// Returns a slot of an attribute that has a list of literals.
fn row_slot<'a, 'src>(
    literals: &'a Vec<StringLiteral<'src>>,
    index: usize,
) -> Option<Option<Part<'a, 'src>>>
    ensures slot { slot_of result ≡ slice_get (map literal_slot literals.now.items) index }
    ensures bounded { IsSome result → index < usize.MAX }
{
    match literals.get(index) {
        None => None,
        Some(literal) => literal_slot(literal, 0),
    }
}

/// Returns the only slot of an attribute that has one literal.
fn literal_slot<'a, 'src>(
    literal: &'a StringLiteral<'src>,
    index: usize,
) -> Option<Option<Part<'a, 'src>>>
    ensures slot { slot_of result ≡ slice_get (literal_slot literal.now ∷ []) index }
    ensures bounded { IsSome result → index < usize.MAX }
{
    if index == 0 {
        Some(Some(Part {
            piece: "",
            value: Value::Literal(literal),
        }))
    } else {
        None
    }
}

/// Returns a slot of a `continue` attribute: a signal in double quotes.
fn signal_slot<'a, 'src>(
    signals: &'a BTreeSet<Signal>,
    index: usize,
) -> Option<Option<Part<'a, 'src>>>
    ensures slot { slot_of result ≡ slice_get (map signal_slot signals.now.keys) index }
    ensures bounded { IsSome result → index < usize.MAX }
{
    match signals.iter().nth(index) {
        None => None,
        Some(signal) => Some(Some(Part {
            piece: signal_piece(*signal),
            value: Value::Nothing,
        })),
    }
}

/// Returns the name of a signal in double quotes.
fn signal_piece(signal: Signal) -> &'static str
    ensures { result.now ≡ signal_text signal }
{
    match signal {
        Signal::Hangup => "\"SIGHUP\"",
        Signal::Interrupt => "\"SIGINT\"",
        Signal::Quit => "\"SIGQUIT\"",
    }
}

/// Returns a key without a value, or a key with its literal.
fn option_part<'a, 'src>(
    bare: &'static str,
    keyed: &'static str,
    key: &'a Option<Name<'src>>,
    literal: &'a Option<StringLiteral<'src>>,
) -> Option<Part<'a, 'src>>
    ensures { slot_text result ≡ option_slot bare.now keyed.now key.now literal.now }
{
    match key {
        Some(_) => Some(Part {
            piece: bare,
            value: Value::Nothing,
        }),
        None => match literal {
            Some(literal) => Some(Part {
                piece: keyed,
                value: Value::Literal(literal),
            }),
            None => None,
        },
    }
}

/// Returns a key with the value that is stored with it.
fn property_part<'a, 'src>(
    keyed: &'static str,
    property: &'a Option<(Name<'src>, Box<Expression<'src>>)>,
) -> Option<Part<'a, 'src>>
    ensures { slot_text result ≡ property_slot keyed.now property.now }
{
    match property {
        None => None,
        Some((_, value)) => Some(Part {
            piece: keyed,
            value: Value::Expression(value),
        }),
    }
}

/// Returns a key with its value.
fn value_part<'a, 'src>(
    keyed: &'static str,
    value: &'a Option<Box<Expression<'src>>>,
) -> Option<Part<'a, 'src>>
    ensures { slot_text result ≡ value_slot keyed.now value.now }
{
    match value {
        None => None,
        Some(value) => Some(Part {
            piece: keyed,
            value: Value::Expression(value),
        }),
    }
}

/// Returns a key without a value.
fn flag_part<'a, 'src>(bare: &'static str, key: &'a Option<Token<'src>>) -> Option<Part<'a, 'src>>
    ensures { slot_text result ≡ flag_slot bare.now key.now }
{
    match key {
        None => None,
        Some(_) => Some(Part {
            piece: bare,
            value: Value::Nothing,
        }),
    }
}

/// Returns a key with its number.
fn number_part<'a, 'src>(keyed: &'static str, number: &'a Option<u64>) -> Option<Part<'a, 'src>>
    ensures { slot_text result ≡ number_slot keyed.now number.now }
{
    match number {
        None => None,
        Some(number) => Some(Part {
            piece: keyed,
            value: Value::Number(*number),
        }),
    }
}
