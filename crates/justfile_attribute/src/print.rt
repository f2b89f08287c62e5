//! Printing of attributes.
ghost use Rattle.std.specs.Prelude.{◌≡◌, ◌∷◌, ◌++◌, ◌+◌, ◌<◌, [], false};
ghost use Rattle.std.specs.Fmt.{decimal};
ghost use Rattle.justfile_vocabulary.specs.ByteNames as byte;
ghost use Rattle.justfile_token.specs.StringLiteral.{literal_text};
ghost use Rattle.justfile_model.specs.Printed.Printing.{attribute_text};
ghost use Rattle.justfile_token.specs.Sink.{Puts};
ghost use Rattle.justfile_attribute.specs.Attribute.{attribute_shape};
ghost use Rattle.justfile_attribute.specs.Print.{closing, opening, part_text, quoted_number, slot_piece, slot_text, slots, slots_text, value_text};

use crate::attribute::Attribute;
use crate::part::{Part, Value, slot};
use justfile_inner_expressions::write_expression;
use justfile_leaves::put_piece;
use justfile_token::{Sink, StringLiteral};
use std::fmt;

/// The decimal digits.
static DIGITS: [&str; 10] = ["0", "1", "2", "3", "4", "5", "6", "7", "8", "9"];

impl fmt::Display for Attribute<'_> {
    ghost use Rattle.std.specs.Prelude.{Some};

    ghost output = { λ attribute. Some (attribute_text (attribute_shape attribute)) };

    fn fmt<W: fmt::Write>(&self, f: &mut fmt::Formatter<W>) -> fmt::Result {
        write_attribute(self, f)
    }
}

/// Writes the same text as `Display`.
impl fmt::Debug for Attribute<'_> {
    fn fmt<W: fmt::Write>(&self, f: &mut fmt::Formatter<W>) -> fmt::Result {
        write_attribute(self, f)
    }
}

/// Writes the text of an attribute.
pub fn write_attribute<S: Sink>(attribute: &Attribute<'_>, sink: &mut S) -> Result<(), S::Fault>
    ensures { Puts S.took S.failed sink.old result
        (attribute_text (attribute_shape attribute.now)) sink.new }
{
    sink.put(attribute.name())?;
    write_arguments(attribute, sink)
}

/// Writes the arguments in parentheses, or nothing if there are none.
fn write_arguments<S: Sink>(attribute: &Attribute<'_>, sink: &mut S) -> Result<(), S::Fault>
    ensures { Puts S.took S.failed sink.old result
        (slots_text false (slots attribute.now)) sink.new }
{
    let mut begun = false;
    let mut index = 0;
    while let Some(part) = slot(attribute, index) {
        write_slot(begun, &part, sink)?;
        begun |= part.is_some();
        index += 1;
    }
    write_closing(begun, sink)
}

/// Writes an argument with `(` or `, ` before it, or nothing if it is absent.
fn write_slot<S: Sink>(
    begun: bool,
    slot: &Option<Part<'_, '_>>,
    sink: &mut S,
) -> Result<(), S::Fault>
    ensures { Puts S.took S.failed sink.old result
        (slot_piece begun (slot_text slot.now)) sink.new }
{
    match slot {
        None => Ok(()),
        Some(part) => {
            write_opening(begun, sink)?;
            write_part(part, sink)
        }
    }
}

/// Writes what is before an argument: `, ` if an argument was written, and otherwise `(`.
fn write_opening<S: Sink>(begun: bool, sink: &mut S) -> Result<(), S::Fault>
    ensures { Puts S.took S.failed sink.old result (opening begun) sink.new }
{
    if begun {
        put_piece(", ", sink)
    } else {
        put_piece("(", sink)
    }
}

/// Writes an argument.
fn write_part<S: Sink>(part: &Part<'_, '_>, sink: &mut S) -> Result<(), S::Fault>
    ensures { Puts S.took S.failed sink.old result (part_text part.now) sink.new }
{
    sink.put(part.piece)?;
    write_value(&part.value, sink)
}

/// Writes the value of an argument.
fn write_value<S: Sink>(value: &Value<'_, '_>, sink: &mut S) -> Result<(), S::Fault>
    ensures { Puts S.took S.failed sink.old result (value_text value.now) sink.new }
{
    match value {
        Value::Nothing => Ok(()),
        Value::Expression(expression) => write_expression(expression, sink),
        Value::Literal(literal) => write_literal(literal, sink),
        Value::Number(number) => write_number(*number, sink),
    }
}

/// Writes a literal with its marks.
pub fn write_literal<S: Sink>(literal: &StringLiteral<'_>, sink: &mut S) -> Result<(), S::Fault>
    ensures { Puts S.took S.failed sink.old result (literal_text literal.now) sink.new }
{
    sink.put(literal.marks())?;
    sink.put(literal.token.lexeme())
}

/// Writes a number in single quotes.
fn write_number<S: Sink>(number: u64, sink: &mut S) -> Result<(), S::Fault>
    ensures { Puts S.took S.failed sink.old result (quoted_number number) sink.new }
{
    put_piece("'", sink)?;
    write_decimal(number, sink)?;
    put_piece("'", sink)
}

/// Writes a number in decimal.
fn write_decimal<S: Sink>(number: u64, sink: &mut S) -> Result<(), S::Fault>
    ensures { Puts S.took S.failed sink.old result (decimal number) sink.new }
{
    if number < 10 {
        return write_digit(number, sink);
    }
    write_decimal(number / 10, sink)?;
    write_digit(number % 10, sink)
}

/// Writes one digit.
fn write_digit<S: Sink>(digit: u64, sink: &mut S) -> Result<(), S::Fault>
    requires { digit < 10 }
    ensures { Puts S.took S.failed sink.old result ((byte.digit_zero + digit) ∷ []) sink.new }
{
    sink.put(DIGITS[digit as usize])
}

/// Writes `)` if an argument was written.
fn write_closing<S: Sink>(begun: bool, sink: &mut S) -> Result<(), S::Fault>
    ensures { Puts S.took S.failed sink.old result (closing begun) sink.new }
{
    if begun { put_piece(")", sink) } else { Ok(()) }
}
