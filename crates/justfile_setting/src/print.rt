//! Printing of settings.
ghost use Rattle.std.specs.Prelude.{◌≡◌, ◌++◌, codes};
ghost use Rattle.std.specs.List.{flat_map};
ghost use Rattle.justfile_model.specs.Printed.Printing.{fixed_text};
ghost use Rattle.justfile_token.specs.Sink.{Puts};
ghost use Rattle.justfile_setting.specs.Print.{interpreter_text, later_texts, setting_output, truth_text, value_text_of};
ghost use Rattle.justfile_expression.specs.Text.{text_of};

use crate::setting::Setting;
use crate::value::Value;
use justfile_attribute::{Interpreter, write_literal};
use justfile_expression::Expression;
use justfile_inner_expressions::write_expression;
use justfile_leaves::put_piece;
use justfile_token::Sink;
use std::fmt;

impl fmt::Display for Setting<'_> {
    ghost use Rattle.std.specs.Prelude.{Some};

    ghost output = { λ setting. Some (setting_output setting) };

    fn fmt<W: fmt::Write>(&self, f: &mut fmt::Formatter<W>) -> fmt::Result {
        write_setting(self, f)
    }
}

/// Writes the same text as `Display`.
impl fmt::Debug for Setting<'_> {
    fn fmt<W: fmt::Write>(&self, f: &mut fmt::Formatter<W>) -> fmt::Result {
        write_setting(self, f)
    }
}

/// Writes the text of a setting, which is that of its value.
#[tactic(auto, using(crate::proofs::SettingText::seen))]
pub fn write_setting<S: Sink>(setting: &Setting<'_>, sink: &mut S) -> Result<(), S::Fault>
    ensures { Puts S.took S.failed sink.old result (setting_output setting.now) sink.new }
{
    write_value(&setting.value(), sink)
}

/// Writes the value of a setting.
fn write_value<S: Sink>(value: &Value<'_, '_>, sink: &mut S) -> Result<(), S::Fault>
    ensures { Puts S.took S.failed sink.old result (value_text_of value.now) sink.new }
{
    match value {
        Value::Truth(value) => write_truth(**value, sink),
        Value::Expression(expression) => write_expression(expression, sink),
        Value::Literal(literal) => write_literal(literal, sink),
        Value::Interpreter(interpreter) => write_interpreter(interpreter, sink),
    }
}

/// Writes `true` or `false`.
fn write_truth<S: Sink>(value: bool, sink: &mut S) -> Result<(), S::Fault>
    ensures { Puts S.took S.failed sink.old result (truth_text value) sink.new }
{
    if value {
        put_piece("true", sink)
    } else {
        put_piece("false", sink)
    }
}

/// Writes a command and its arguments in brackets.
fn write_interpreter<S: Sink>(
    interpreter: &Interpreter<Expression<'_>>,
    sink: &mut S,
) -> Result<(), S::Fault>
    ensures { Puts S.took S.failed sink.old result (interpreter_text interpreter.now) sink.new }
{
    put_piece("[", sink)?;
    write_expression(&interpreter.command, sink)?;
    write_arguments(&interpreter.arguments, sink)?;
    put_piece("]", sink)
}

/// Writes arguments, each with a comma and a space before it.
fn write_arguments<S: Sink>(arguments: &[Expression<'_>], sink: &mut S) -> Result<(), S::Fault>
    ensures { Puts S.took S.failed sink.old result (later_texts arguments.now) sink.new }
{
    for argument in arguments {
        write_later(argument, sink)?;
    }
    Ok(())
}

/// Writes an argument with a comma and a space before it.
fn write_later<S: Sink>(argument: &Expression<'_>, sink: &mut S) -> Result<(), S::Fault>
    ensures { Puts S.took S.failed sink.old result
        (fixed_text (codes ", ") ++ text_of argument.now) sink.new }
{
    put_piece(", ", sink)?;
    write_expression(argument, sink)
}
