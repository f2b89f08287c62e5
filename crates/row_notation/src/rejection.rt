//! Why texts are rejected, and where.

use crate::answer::Answer;
use crate::each::push_each_debug;
use crate::text::Text;
use justfile_numbers::Version;
use justfile_token::{CompileError, CompileErrorKind, Fault, Name, StringLiteral, Token};
use justfile_vocabulary::{Keyword, TokenKind};

/// Returns the line and the column after `before`, a beginning of the text. A newline at the end of
/// a text doesn't begin a line.
pub fn place_after(text: &str, before: &str) -> (usize, usize) {
    let counted = if before.len() == text.len() {
        before.strip_suffix('\n').unwrap_or(before)
    } else {
        before
    };
    let line = counted.matches('\n').count();
    let start = counted.rfind('\n').map_or(0, |at| at + 1);
    (line, before.len() - start)
}

/// Writes a name after a text, with its offset.
fn put_name(shown: &mut Text, before: &str, name: &Name<'_>) {
    shown.put(before);
    shown.put_display(name);
    shown.put("@");
    shown.put_number(name.token.offset);
}

/// Writes a number after a text.
fn put_number(shown: &mut Text, before: &str, number: usize) {
    shown.put(before);
    shown.put_number(number);
}

/// Writes the value of a key after a text, and the end of what an error holds.
fn put_value(shown: &mut Text, before: &str, value: &String) {
    shown.put(before);
    shown.put_debug(value);
    shown.put(" }");
}

/// Writes the literal of a group that was first on this line: its lexeme, its offset, its text, its
/// delimiter, its width, and whether it is a part.
fn put_group(shown: &mut Text, first: usize, group: &StringLiteral<'_>) {
    put_number(shown, "DuplicateGroupAttribute { first: ", first);
    shown.put(", group: ");
    shown.put_display(group);
    put_number(shown, "@", group.token.offset);
    shown.put("‹");
    shown.put(group.cooked.as_str());
    shown.put("› ");
    shown.put_debug(&group.kind.delimiter);
    shown.put(if group.kind.indented {
        " tripled"
    } else {
        " single"
    });
    shown.put(if group.part.is_some() {
        " part }"
    } else {
        " }"
    });
}

/// Writes the keywords that are expected, and the token that is found.
fn put_keywords(shown: &mut Text, expected: &Vec<Keyword>, found: &Token<'_>) {
    shown.put("ExpectedKeyword { expected: ");
    shown.put_debug(expected);
    shown.put(", found: ");
    shown.put(found.lexeme());
    put_number(shown, "@", found.offset);
    shown.put(" }");
}

/// Writes two versions as they are displayed.
fn put_versions(shown: &mut Text, current: &Version, minimum: &Version) {
    shown.put("MinimumVersion { current: ");
    shown.put_display(current);
    shown.put(", minimum: ");
    shown.put_display(minimum);
    shown.put(" }");
}

/// Writes an attribute with its number of arguments, and the least and the most that it takes.
fn put_counts(shown: &mut Text, attribute: &Name<'_>, found: usize, (min, max): (usize, usize)) {
    put_name(
        shown,
        "AttributeArgumentCountMismatch { attribute: ",
        attribute,
    );
    put_number(shown, ", found: ", found);
    put_number(shown, ", min: ", min);
    put_number(shown, ", max: ", max);
    shown.put(" }");
}

/// Writes a kind of error that holds only a name.
fn put_held(shown: &mut Text, before: &str, name: &Name<'_>) {
    put_name(shown, before, name);
    shown.put(" }");
}

/// Writes a kind of error that holds only a name, or nothing that has a place.
fn put_other(shown: &mut Text, kind: &CompileErrorKind<'_>) {
    match kind {
        CompileErrorKind::ArgAttributeRequiresMultipleOrVariadic { key } => {
            put_held(shown, "ArgAttributeRequiresMultipleOrVariadic { key: ", key)
        }
        CompileErrorKind::ArgAttributeRequiresOption { key } => {
            put_held(shown, "ArgAttributeRequiresOption { key: ", key)
        }
        CompileErrorKind::AttributeArgumentExpression { attribute } => put_held(
            shown,
            "AttributeArgumentExpression { attribute: ",
            attribute,
        ),
        CompileErrorKind::AttributeKeyMissingValue { key } => {
            put_held(shown, "AttributeKeyMissingValue { key: ", key)
        }
        CompileErrorKind::AttributeKeyTakesNoValue { key } => {
            put_held(shown, "AttributeKeyTakesNoValue { key: ", key)
        }
        kind => shown.put_debug(kind),
    }
}

/// Writes the name of a kind of error with what it holds: a name, literal or token with its offset,
/// or a version as it is displayed. For an unexpected token, leaves out what is expected.
fn put_kind(shown: &mut Text, kind: &CompileErrorKind<'_>) {
    match kind {
        CompileErrorKind::ArgumentCountParse { key, source, value } => {
            put_name(shown, "ArgumentCountParse { key: ", key);
            shown.put(", source: ");
            shown.put_debug(source);
            put_value(shown, ", value: ", value);
        }
        CompileErrorKind::ArgumentCountValue { key, value } => {
            put_name(shown, "ArgumentCountValue { key: ", key);
            put_value(shown, ", value: ", value);
        }
        CompileErrorKind::AttributeArgumentCountMismatch {
            attribute,
            found,
            min,
            max,
        } => put_counts(shown, attribute, *found, (*min, *max)),
        CompileErrorKind::DuplicateAttribute { attribute, first } => {
            put_name(shown, "DuplicateAttribute { attribute: ", attribute);
            put_number(shown, ", first: ", *first);
            shown.put(" }");
        }
        CompileErrorKind::DuplicateGroupAttribute { first, group } => {
            put_group(shown, *first, group)
        }
        CompileErrorKind::ExpectedKeyword { expected, found } => {
            put_keywords(shown, expected, found)
        }
        CompileErrorKind::MinimumVersion { current, minimum } => {
            put_versions(shown, current, minimum)
        }
        CompileErrorKind::UnexpectedToken { found, .. } => {
            shown.put("UnexpectedToken ");
            shown.put_debug(found);
        }
        kind => put_other(shown, kind),
    }
}

/// Writes the name of a kind of error with what it holds as a field.
pub fn push_kind(answer: &mut Answer, kind: &CompileErrorKind<'_>) {
    let mut shown = Text::new(answer.alloc());
    put_kind(&mut shown, kind);
    answer.push_text(shown);
}

/// Writes an error: its kind, and the offset and the length of its token. Also writes its line and
/// column if they aren't those of the offset.
pub fn push_rejection(answer: &mut Answer, text: &str, error: &CompileError<'_>) {
    let token = error.token;
    push_kind(answer, &error.kind);
    answer.push_number(token.offset);
    answer.push_number(token.length);
    let before = text.get(..token.offset).unwrap_or("");
    if (token.line, token.column) != place_after(text, before) {
        answer.push_number(token.line);
        answer.push_number(token.column);
    }
}

/// Writes why there is no result for a text.
pub fn push_fault(answer: &mut Answer, text: &str, fault: &Fault<'_>) {
    match fault {
        Fault::Compile(error) => push_rejection(answer, text, error),
        Fault::Memory => answer.push("memory"),
        Fault::Numbers => answer.push("numbers"),
    }
}

/// Writes the kinds of tokens that are expected, and after `but` the kind of the refused one; or
/// another fault.
pub fn push_expected(answer: &mut Answer, text: &str, fault: &Fault<'_>) {
    match fault {
        Fault::Compile(error) => match &error.kind {
            CompileErrorKind::UnexpectedToken { expected, found } => {
                push_kinds(answer, expected.as_slice());
                answer.push("but");
                push_kinds(answer, &[*found]);
            }
            _ => push_rejection(answer, text, error),
        },
        fault => push_fault(answer, text, fault),
    }
}

/// Writes the message of an error; or another fault. Writes `undisplayed` if the fault doesn't
/// display the message and the excerpt.
pub fn push_message(answer: &mut Answer, text: &str, fault: &Fault<'_>) {
    match fault {
        Fault::Compile(error) => {
            answer.push_display(error);
            push_undisplayed(answer, fault, error);
        }
        fault => push_fault(answer, text, fault),
    }
}

/// Writes `undisplayed` if a fault doesn't display the message of its error and the excerpt.
fn push_undisplayed(answer: &mut Answer, fault: &Fault<'_>, error: &CompileError<'_>) {
    let mut displayed = Text::new(answer.alloc());
    displayed.put_display(fault);
    let mut shown = Text::new(answer.alloc());
    shown.put_display(error);
    shown.put("\n");
    shown.put_display(&error.token);
    answer.push_if("undisplayed", !displayed.is_equal(&shown));
}

/// Writes the names of kinds of tokens.
fn push_kinds(answer: &mut Answer, kinds: &[TokenKind]) {
    push_each_debug(kinds.iter(), answer);
}
