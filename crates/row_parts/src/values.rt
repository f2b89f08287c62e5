//! The parts of a value.

use justfile_expression::{ConditionalOperator, Expression, child};
use justfile_setting::Setting;
use justfile_token::{Name, StringLiteral, Token};
use row_notation::{Answer, Text, push_string_kind};

/// What is shown of a value.
#[derive(Clone, Copy, PartialEq, Eq)]
pub enum ValueForm {
    /// The literal that it is: its kind, its lexeme and the offset of that.
    Literal,
    /// Its form, and the texts of its parts.
    Parts,
}

/// Writes what a form shows of a setting's expression, or the command of its
/// interpreter, and returns whether there is one.
pub fn push_value_set(setting: &Setting<'_>, answer: &mut Answer, form: ValueForm) -> bool {
    match setting {
        Setting::DotenvCommand(value) => push_value(value, answer, form),
        Setting::DotenvFilename(value) => push_value(value, answer, form),
        Setting::DotenvPath(value) => push_value(value, answer, form),
        Setting::ScriptInterpreter(interpreter) => push_value(&interpreter.command, answer, form),
        Setting::Shell(interpreter) => push_value(&interpreter.command, answer, form),
        Setting::Tempdir(value) => push_value(value, answer, form),
        Setting::WindowsShell(interpreter) => push_value(&interpreter.command, answer, form),
        Setting::WorkingDirectory(value) => push_value(value, answer, form),
        _ => false,
    }
}

/// Writes what a form shows of a value, and returns true.
pub fn push_value(value: &Expression<'_>, answer: &mut Answer, form: ValueForm) -> bool {
    if form == ValueForm::Literal {
        push_place(value, answer);
    } else {
        push_parts(value, answer);
    }
    true
}

/// Writes what a form shows of the path of a module, and returns whether it has one.
pub fn push_module_path(
    relative: &Option<StringLiteral<'_>>,
    answer: &mut Answer,
    form: ValueForm,
) -> bool {
    match relative {
        Some(path) => push_path(path, answer, form),
        None => false,
    }
}

/// Writes what a form shows of a path, and returns true.
pub fn push_path(path: &StringLiteral<'_>, answer: &mut Answer, form: ValueForm) -> bool {
    if form == ValueForm::Literal {
        push_literal_place(path, answer);
    } else {
        push_literal(path, answer);
    }
    true
}

/// Writes a value as a literal.
fn push_place(value: &Expression<'_>, answer: &mut Answer) {
    match value {
        Expression::StringLiteral { string_literal } => push_literal_place(string_literal, answer),
        _ => answer.push("none"),
    }
}

/// Writes the kind of a literal, whether it is expanded, its lexeme and its offset.
fn push_literal_place(literal: &StringLiteral<'_>, answer: &mut Answer) {
    push_string_kind(answer, literal.kind);
    answer.push(if literal.expand { "marked" } else { "unmarked" });
    answer.push(literal.token.lexeme());
    answer.push_number(literal.token.offset);
    answer.push_if("part", literal.part.is_some());
}

/// Writes the parts of an expression: its outermost form, with the token that it holds, and the
/// texts of the expressions in it.
pub fn push_parts(expression: &Expression<'_>, answer: &mut Answer) {
    match expression {
        Expression::FormatString { start, expressions } => {
            push_format_string(expressions, start, answer)
        }
        _ => {
            push_form(expression, answer);
            push_children(expression, answer)
        }
    }
}

/// Writes a format string: its parts, and between them the expressions. Writes `another` after a
/// part that isn't of the start's kind.
fn push_format_string(
    expressions: &[(Expression<'_>, StringLiteral<'_>)],
    start: &StringLiteral<'_>,
    answer: &mut Answer,
) {
    push_literal(start, answer);
    for (expression, literal) in expressions {
        push_expression(expression, answer);
        push_literal(literal, answer);
        answer.push_if("another", literal.kind != start.kind || literal.expand);
    }
}

/// Writes the texts of the expressions in this one.
fn push_children(expression: &Expression<'_>, answer: &mut Answer) {
    for index in 0..usize::MAX {
        match child(expression, index) {
            Some((part, _)) => push_expression(part, answer),
            None => return,
        }
    }
}

/// Writes the text of an expression.
fn push_expression(expression: &Expression<'_>, answer: &mut Answer) {
    answer.push_display(expression);
}

/// Writes the form of an expression that isn't a format string, with the token that it holds.
fn push_form(expression: &Expression<'_>, answer: &mut Answer) {
    match expression {
        Expression::And { .. } => answer.push("&&"),
        Expression::Assert { name, .. } => push_head(answer, "", name),
        Expression::Backtick { contents, token } => push_command(answer, contents.as_str(), token),
        Expression::Call { name, .. } => push_head(answer, "call ", name),
        Expression::Comparison {
            operator,
            token,
            ..
        } => push_comparison(answer, *operator, token),
        Expression::Concatenation { operator, .. } => push_head(answer, "", operator),
        Expression::Conditional { .. } => answer.push("if"),
        Expression::FormatString { .. } => answer.push("format"),
        Expression::Group { .. } => answer.push("group"),
        Expression::Join { operator, .. } => push_head(answer, "", operator),
        Expression::List { opener, .. } => push_head(answer, "", opener),
        Expression::ListConcatenation { operator, .. } => push_head(answer, "", operator),
        Expression::Not { .. } => answer.push("!"),
        Expression::Or { .. } => answer.push("||"),
        Expression::StringLiteral { string_literal } => push_literal(string_literal, answer),
        Expression::Variable { name, number } => push_variable(answer, name, number.is_some()),
    }
}

/// Writes a word, and the token that an expression holds.
fn push_head(answer: &mut Answer, word: &str, token: &Token<'_>) {
    let mut head = Text::new(answer.alloc());
    head.put(word);
    head.put(token.lexeme());
    head.put("@");
    head.put_number(token.offset);
    answer.push_text(head);
}

/// Writes a command without and with its backticks.
fn push_command(answer: &mut Answer, contents: &str, token: &Token<'_>) {
    answer.push("command");
    answer.push(contents);
    answer.push(token.lexeme())
}

fn push_comparison(answer: &mut Answer, operator: ConditionalOperator, token: &Token<'_>) {
    answer.push_debug(&operator);
    push_head(answer, "", token)
}

/// Writes a literal: the part of a format string that it is, `text`, or `marked` if it is expanded;
/// and its text.
fn push_literal(literal: &StringLiteral<'_>, answer: &mut Answer) {
    match &literal.part {
        Some(part) => answer.push_debug(part),
        None if literal.expand => answer.push("marked"),
        None => answer.push("text"),
    }
    answer.push(literal.cooked.as_str())
}

fn push_variable(answer: &mut Answer, name: &Name<'_>, is_numbered: bool) {
    answer.push("name");
    answer.push_display(name);
    answer.push_if("numbered", is_numbered);
}
