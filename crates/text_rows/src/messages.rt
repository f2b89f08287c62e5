//! Messages of errors that no text leads to.

use justfile_token::{CompileError, CompileErrorKind, Namepath, Token};
use justfile_vocabulary::{AttributeKind, ItemKind, Keyword, ListFeature, TokenKind};
use row_notation::{Answer, field_at, number_at, path_of, tokens_of};
use std::alloc::{AllocError, Global};

/// A name on the third line.
const NAME: Token<'static> = Token {
    column: 0,
    kind: TokenKind::Identifier,
    length: 1,
    line: 2,
    offset: 2,
    path: "justfile",
    src: "\n\na",
};

/// The words for the errors that `kind_at` returns, in their order.
static ERRORS: &[&str] = &[
    "redefined",
    "redefined_as",
    "duplicate_set",
    "incompatible",
    "duplicate_variable",
    "duplicate_unexport",
    "duplicate_parameter",
    "duplicate_function_parameter",
    "required",
    "duplicate_default",
    "shell_recipe",
    "undefined_variable",
    "undefined_function",
    "exported",
    "sigils",
    "whitespace",
    "list",
    "mapped",
    "internal",
];

/// Returns the error at an index of `ERRORS`.
fn kind_at(index: usize) -> CompileErrorKind<'static> {
    if index < 6 {
        repeated(index)
    } else if index < 14 {
        named(index)
    } else {
        other(index)
    }
}

/// Returns an error for repeated definitions.
fn repeated(index: usize) -> CompileErrorKind<'static> {
    match index {
        0 => CompileErrorKind::Redefinition {
            first: 0,
            first_type: ItemKind::Recipe,
            name: "a",
            second_type: ItemKind::Recipe,
        },
        1 => CompileErrorKind::Redefinition {
            first: 0,
            first_type: ItemKind::Recipe,
            name: "a",
            second_type: ItemKind::Alias,
        },
        2 => CompileErrorKind::DuplicateSet {
            setting: "shell",
            first: 1,
        },
        3 => CompileErrorKind::IncompatibleSettings {
            first: Keyword::NoCd,
            first_line: 1,
            second: Keyword::WorkingDirectory,
        },
        4 => CompileErrorKind::DuplicateVariable { variable: "a" },
        _ => CompileErrorKind::DuplicateUnexport { variable: "a" },
    }
}

/// Returns an error for parameters, recipes and names.
fn named(index: usize) -> CompileErrorKind<'static> {
    match index {
        6 => CompileErrorKind::DuplicateParameter {
            recipe: "a",
            parameter: "b",
        },
        7 => CompileErrorKind::DuplicateFunctionParameter {
            function: "a",
            parameter: "b",
        },
        8 => CompileErrorKind::RequiredParameterFollowsDefaultParameter { parameter: "b" },
        9 => CompileErrorKind::DuplicateDefault { recipe: "a" },
        10 => CompileErrorKind::InvalidShellRecipeAttribute {
            attribute: AttributeKind::Extension,
            recipe: "a",
        },
        11 => CompileErrorKind::UndefinedVariable { variable: "a" },
        12 => CompileErrorKind::UndefinedFunction { function: "a" },
        _ => CompileErrorKind::ExportUnexported { variable: "a" },
    }
}

/// Returns an error for lines or for features that need the setting `lists`, or an internal error.
fn other(index: usize) -> CompileErrorKind<'static> {
    match index {
        14 => CompileErrorKind::GuardAndInfallibleSigil,
        15 => CompileErrorKind::ExtraLeadingWhitespace,
        16 => CompileErrorKind::ListFeature(ListFeature::ListLiteral),
        17 => CompileErrorKind::MappedDependencyWithoutListsSetting,
        _ => CompileErrorKind::Internal { message: "b" },
    }
}

/// Returns the error at an index of `ERRORS`, at the name.
fn error_at(index: usize) -> CompileError<'static> {
    NAME.error(kind_at(index))
}

/// Whether an error is equal to the one at an index.
fn is_equal(error: &CompileError<'static>, index: usize) -> bool {
    *error == error_at(index)
}

/// Writes the message of an error at a token.
fn push_message<'src>(answer: &mut Answer, token: &Token<'src>, kind: CompileErrorKind<'src>) {
    let error = CompileError {
        kind,
        token: *token,
    };
    answer.push_display(&error);
}

/// Writes the message of the error with this word, or `none`. Writes `unequal` if it isn't equal to
/// itself, and `equal` if it is equal to another one.
pub(crate) fn error(answer: &mut Answer, word: &str) {
    let Some(index) = ERRORS.iter().position(|error| *error == word) else {
        return answer.push("none");
    };
    let another = if index == 0 { 1 } else { 0 };
    push_compared(answer, &error_at(index), index, another);
}

/// Writes the message of the error at an index, and how it compares.
fn push_compared(answer: &mut Answer, error: &CompileError<'static>, index: usize, another: usize) {
    answer.push_display(error);
    answer.push_if("unequal", !is_equal(error, index));
    answer.push_if("equal", is_equal(error, another));
}

/// Writes the messages for this number of arguments of a dependency and of a function, where at
/// least and at most these are taken. A bound that isn't a number is none.
pub(crate) fn argument_counts(answer: &mut Answer, fields: &[String]) {
    let (found, least) = (number_at(fields, 0) as usize, number_at(fields, 1) as usize);
    let most = field_at(fields, 2).parse::<usize>().unwrap_or(usize::MAX);
    match path_of(answer.alloc(), "a") {
        Ok(dependency) => push_dependency(answer, dependency, found, (least, most)),
        Err(_) => answer.fail(),
    }
    push_function(answer, found, (least, most));
}

fn push_function(answer: &mut Answer, arguments: usize, (least, most): (usize, usize)) {
    let kind = CompileErrorKind::FunctionArgumentCountMismatch {
        arguments,
        expected: least..=most,
        function: "a",
    };
    push_message(answer, &NAME, kind);
}

fn push_dependency<'src>(
    answer: &mut Answer,
    dependency: Namepath<'src>,
    found: usize,
    (min, max): (usize, usize),
) {
    let kind = CompileErrorKind::DependencyArgumentCountMismatch {
        dependency,
        found,
        min,
        max,
    };
    push_message(answer, &NAME, kind);
}

/// Returns the words of a text.
fn words<'row>(alloc: Global, text: &'row str) -> Result<Vec<&'row str>, AllocError> {
    let mut words = Vec::new(alloc);
    for word in text.split_whitespace() {
        words.push(word)?;
    }
    Ok(words)
}

/// Writes the messages for recipes and for variables that depend on one another in a circle.
pub(crate) fn circle(answer: &mut Answer, text: &str) {
    match words(answer.alloc(), text) {
        Ok(circle) => push_recipes(answer, circle),
        Err(_) => answer.fail(),
    }
    match words(answer.alloc(), text) {
        Ok(circle) => push_variables(answer, circle),
        Err(_) => answer.fail(),
    }
}

fn push_recipes<'src>(answer: &mut Answer, circle: Vec<&'src str>) {
    let kind = CompileErrorKind::CircularRecipeDependency {
        recipe: "a",
        circle,
    };
    push_message(answer, &NAME, kind);
}

fn push_variables<'src>(answer: &mut Answer, circle: Vec<&'src str>) {
    let kind = CompileErrorKind::CircularVariableDependency {
        variable: "a",
        circle,
    };
    push_message(answer, &NAME, kind);
}

/// Writes the messages for a dependency and for a target of an alias that name no recipe.
pub(crate) fn unknown(answer: &mut Answer, text: &str) {
    match path_of(answer.alloc(), text) {
        Ok(path) => push_unknown(answer, path),
        Err(_) => answer.fail(),
    }
    match path_of(answer.alloc(), text) {
        Ok(path) => push_target(answer, path),
        Err(_) => answer.fail(),
    }
}

fn push_unknown<'src>(answer: &mut Answer, unknown: Namepath<'src>) {
    let kind = CompileErrorKind::UnknownDependency {
        recipe: "c",
        unknown,
    };
    push_message(answer, &NAME, kind);
}

fn push_target<'src>(answer: &mut Answer, target: Namepath<'src>) {
    let kind = CompileErrorKind::UnknownAliasTarget { alias: "c", target };
    push_message(answer, &NAME, kind);
}

/// Writes the message for a text that an expander refuses for this reason.
pub(crate) fn unexpanded(answer: &mut Answer, reason: &str) {
    match reason.to_string(answer.alloc()) {
        Ok(err) => push_unexpanded(answer, err),
        Err(_) => answer.fail(),
    }
}

fn push_unexpanded(answer: &mut Answer, err: String) {
    push_message(answer, &NAME, CompileErrorKind::ShellExpansion { err });
}

/// Writes the message for a text's first token in place of `true` or `false`.
pub(crate) fn untrue(answer: &mut Answer, text: &str) {
    let alloc = answer.alloc();
    let expected = vec![in alloc; Keyword::True, Keyword::False];
    let tokens = tokens_of(alloc, text);
    match (expected, tokens.first()) {
        (Ok(expected), Some(found)) => push_untrue(answer, expected, *found),
        _ => answer.fail(),
    }
}

fn push_untrue<'src>(answer: &mut Answer, expected: Vec<Keyword>, found: Token<'src>) {
    let kind = CompileErrorKind::ExpectedKeyword { expected, found };
    push_message(answer, &NAME, kind);
}
