//! Settings, as rows show them.

use crate::shown::{put_if, put_literal, put_value};
use justfile_attribute::Interpreter;
use justfile_expression::Expression;
use justfile_setting::Setting;
use justfile_token::StringLiteral;
use justfile_vocabulary::{Indentation, Keyword};
use row_notation::{Answer, Text};

/// Writes an interpreter: its command and its arguments in brackets.
fn put_interpreter(interpreter: &Interpreter<Expression<'_>>, shown: &mut Text) {
    shown.put("[");
    put_value(&interpreter.command, shown);
    for argument in &interpreter.arguments {
        shown.put(", ");
        put_value(argument, shown);
    }
    shown.put("]");
}

/// Writes the literal of an indentation, and the indentation in ‹›.
fn put_indentation(literal: &StringLiteral<'_>, shown: &mut Text, indentation: Indentation) {
    put_literal(literal, shown);
    shown.put(" ‹");
    shown.put_display(&indentation);
    shown.put("›");
}

/// Writes the value of a setting.
pub fn put_setting(setting: &Setting<'_>, shown: &mut Text) {
    match setting {
        Setting::DotenvCommand(value) => put_value(value, shown),
        Setting::DotenvFilename(value) => put_value(value, shown),
        Setting::DotenvPath(value) => put_value(value, shown),
        Setting::Indentation(literal, indentation) => put_indentation(literal, shown, *indentation),
        Setting::MinimumVersion(literal) => put_literal(literal, shown),
        Setting::ScriptInterpreter(interpreter) => put_interpreter(interpreter, shown),
        Setting::Shell(interpreter) => put_interpreter(interpreter, shown),
        Setting::Tempdir(value) => put_value(value, shown),
        Setting::WindowsShell(interpreter) => put_interpreter(interpreter, shown),
        Setting::WorkingDirectory(value) => put_value(value, shown),
        _ => shown.put_display(setting),
    }
}

/// Writes which setting it is, whether it is as if its value were left out, and after `!` which
/// settings it conflicts with.
pub fn push_setting(setting: &Setting<'_>, answer: &mut Answer) {
    let mut shown = Text::new(answer.alloc());
    shown.put_debug(&setting.keyword());
    put_if(&mut shown, " default", setting.is_default());
    put_if(&mut shown, " !", !setting.conflicts().is_empty());
    put_keywords(setting.conflicts(), &mut shown);
    answer.push_text(shown);
}

/// Writes keywords, each after a blank.
fn put_keywords(keywords: &[Keyword], shown: &mut Text) {
    for keyword in keywords {
        shown.put(" ");
        shown.put(keyword.lexeme());
    }
}
