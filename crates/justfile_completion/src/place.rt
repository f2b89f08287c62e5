//! What kind of place the cursor is at, by the words before it, the last one first.
ghost use Rattle.std.specs.Prelude.{◌≡◌};
ghost use Rattle.std.specs.List.{list_any};
ghost use Rattle.std.specs.Str.{bytes_eq};
ghost use Rattle.justfile_completion.specs.Places.{after_equals, after_word, argument_of, in_arguments, in_attributes, in_brackets, in_dependency, in_expression, in_item, in_line, in_parameters, in_parentheses, in_rest, is_header, later_argument_of, place_of, value_of, value_of_key, value_of_setting};
ghost use Rattle.justfile_completion.specs.Words.{from_opener, has};
ghost use Rattle.justfile_completion.specs.Kinds.{is_assign, is_colon};

use crate::kinds::{is_assign, is_blocking, is_bracket, is_colon, is_comma, is_equals};
use crate::tables::attributes::EXPRESSION_KEYS;
use crate::tables::settings::{EXPRESSION_SETTINGS, SWITCHES};
use crate::words::{from_opener, is_spelled, starts_line};
use justfile_token::Token;
use justfile_vocabulary::{AttributeKind, TokenKind};

/// A kind of place: what can be written there.
#[derive(Clone, Copy, Debug, PartialEq, Eq)]
pub(crate) enum Place {
    /// Nothing that is known.
    Nothing,
    /// An item, at the front of a line.
    LineStart,
    /// The name of a setting.
    Settings,
    /// The value of a setting that is true or false.
    Truth,
    /// The name of an attribute.
    Attributes,
    /// A key of the attribute `arg`.
    ArgKeys,
    /// A key of the attribute `cache`.
    CacheKeys,
    /// The name of a group.
    Groups,
    /// The name of a signal.
    Signals,
    /// A recipe that an alias is another name for.
    Target,
    /// A recipe that another one depends on.
    Dependencies,
    /// A recipe that another one depends on, with arguments.
    Dependency,
    /// An operand of an expression.
    Operand,
    /// The keyword `else`.
    Else,
    /// The keyword `if`.
    If,
}

/// Returns the place after a name or a keyword in an expression.
fn after_word(text: &str) -> Place
    ensures { result ≡ after_word text.now }
{
    if text == "if" {
        Place::Operand
    } else if text == "else" {
        Place::If
    } else {
        Place::Nothing
    }
}

/// Returns the place after words of an expression.
fn in_expression(words: &[Token<'_>]) -> Place
    ensures { result ≡ in_expression words.now }
{
    let [last, ..] = words else {
        return Place::Nothing;
    };
    match last.kind {
        TokenKind::Identifier => after_word(last.lexeme()),
        TokenKind::BraceR => Place::Else,
        TokenKind::Backtick
        | TokenKind::BracketR
        | TokenKind::ColonColon
        | TokenKind::Comment
        | TokenKind::FormatStringEnd
        | TokenKind::InterpolationEnd
        | TokenKind::ParenR
        | TokenKind::StringToken
        | TokenKind::Text => Place::Nothing,
        _ => Place::Operand,
    }
}

/// Whether the name is one of these.
fn is_among(name: &str, names: &[&str]) -> bool
    ensures { result ≡ list_any (λ s. bytes_eq s.now name.now) names.now }
{
    names.iter().any(|known| *known == name)
}

/// Returns the place of the value of the setting with a name.
fn value_of_setting(name: &str) -> Place
    ensures { result ≡ value_of_setting name.now }
{
    if is_among(name, &SWITCHES) {
        Place::Truth
    } else if is_among(name, &EXPRESSION_SETTINGS) {
        Place::Operand
    } else {
        Place::Nothing
    }
}

/// Returns the place of the value of what a word and a name begin.
fn value_of(name: &Token<'_>, word: &Token<'_>) -> Place
    ensures { result ≡ value_of name.now word.now }
{
    if is_spelled(word, "set") {
        value_of_setting(name.lexeme())
    } else if is_spelled(word, "alias") {
        Place::Target
    } else {
        Place::Operand
    }
}

/// Whether `:=` is among the words.
pub(crate) fn has_assign(words: &[Token<'_>]) -> bool
    ensures { result ≡ has is_assign words.now }
{
    words.iter().any(|word| is_assign(word.kind))
}

/// Whether `:` is among the words.
fn has_colon(words: &[Token<'_>]) -> bool
    ensures { result ≡ has is_colon words.now }
{
    words.iter().any(|word| is_colon(word.kind))
}

/// Returns the place after the front of a header, up to its colon.
fn in_parameters(words: &[Token<'_>]) -> Place
    ensures { result ≡ in_parameters words.now }
{
    match words {
        [last, ..] if is_equals(last.kind) => Place::Operand,
        _ => Place::Nothing,
    }
}

/// Returns the place in an assignment or the header of a recipe.
fn in_rest(words: &[Token<'_>]) -> Place
    ensures { result ≡ in_rest words.now }
{
    if has_assign(words) {
        in_expression(words)
    } else if has_colon(words) {
        Place::Dependencies
    } else {
        in_parameters(words)
    }
}

/// Returns the place in an item, where no bracket is open.
fn in_item(words: &[Token<'_>]) -> Place
    ensures { result ≡ in_item words.now }
{
    match words {
        [] => Place::Nothing,
        [word] => {
            if is_spelled(word, "set") {
                Place::Settings
            } else {
                Place::Nothing
            }
        }
        [assign, name, word] => {
            if is_assign(assign.kind) {
                value_of(name, word)
            } else {
                in_rest(words)
            }
        }
        [_, _] | [_, _, _, _, ..] => in_rest(words),
    }
}

/// Returns the place of the first argument of an attribute.
fn argument_of(kind: Option<AttributeKind>) -> Place
    ensures { result ≡ argument_of kind }
{
    match kind {
        Some(AttributeKind::Cache) => Place::CacheKeys,
        Some(AttributeKind::Continue) => Place::Signals,
        Some(AttributeKind::Group) => Place::Groups,
        Some(
            AttributeKind::Confirm
            | AttributeKind::Doc
            | AttributeKind::Env
            | AttributeKind::Timestamp
            | AttributeKind::WorkingDirectory,
        ) => Place::Operand,
        _ => Place::Nothing,
    }
}

/// Returns the place of a later argument of an attribute.
fn later_argument_of(kind: Option<AttributeKind>) -> Place
    ensures { result ≡ later_argument_of kind }
{
    match kind {
        Some(AttributeKind::Arg) => Place::ArgKeys,
        Some(AttributeKind::Cache) => Place::CacheKeys,
        Some(AttributeKind::Continue) => Place::Signals,
        Some(AttributeKind::Env) => Place::Operand,
        _ => Place::Nothing,
    }
}

/// Returns the place of the value of the key of an attribute.
fn value_of_key(key: &str) -> Place
    ensures { result ≡ value_of_key key.now }
{
    if is_among(key, &EXPRESSION_KEYS) {
        Place::Operand
    } else {
        Place::Nothing
    }
}

/// Returns the place after the words up to the `=` of a key.
fn after_equals(words: &[Token<'_>]) -> Place
    ensures { result ≡ after_equals words.now }
{
    match words {
        [_, key, ..] => value_of_key(key.lexeme()),
        _ => Place::Nothing,
    }
}

/// Returns the place in the arguments of the attribute with a name.
fn in_arguments(name: &str, words: &[Token<'_>]) -> Place
    ensures { result ≡ in_arguments name.now words.now }
{
    let [last, ..] = words else {
        return Place::Nothing;
    };
    match last.kind {
        TokenKind::Comma => later_argument_of(AttributeKind::from_name(name)),
        TokenKind::ParenL => argument_of(AttributeKind::from_name(name)),
        TokenKind::Equals => after_equals(words),
        _ => in_expression(words),
    }
}

/// Returns the place between the brackets around attributes.
fn in_attributes(words: &[Token<'_>]) -> Place
    ensures { result ≡ in_attributes words.now }
{
    match words {
        [] => Place::Nothing,
        [_] => Place::Attributes,
        [last, name, ..] => {
            if is_comma(last.kind) {
                Place::Attributes
            } else if is_colon(last.kind) {
                argument_of(AttributeKind::from_name(name.lexeme()))
            } else {
                in_expression(words)
            }
        }
    }
}

/// Returns the place in a dependency with arguments.
fn in_dependency(words: &[Token<'_>]) -> Place
    ensures { result ≡ in_dependency words.now }
{
    let [last, ..] = words else {
        return Place::Nothing;
    };
    match last.kind {
        TokenKind::ParenL => Place::Dependency,
        _ => Place::Operand,
    }
}

/// Whether the line is the header of a recipe.
pub(crate) fn is_header(words: &[Token<'_>]) -> bool
    ensures { result ≡ is_header words.now }
{
    has_colon(words) && !has_assign(words)
}

/// Returns the place in parentheses, after the words before them.
fn in_parentheses(before: &[Token<'_>], words: &[Token<'_>]) -> Place
    ensures { result ≡ in_parentheses (from_opener before.now) before.now words.now }
{
    match (from_opener(before), before) {
        ([], [_]) => Place::Nothing,
        ([], [_, _, ..]) => {
            if is_header(before) {
                in_dependency(words)
            } else {
                in_expression(words)
            }
        }
        ([opener], [name, ..]) => {
            if is_bracket(opener.kind) {
                in_arguments(name.lexeme(), words)
            } else {
                in_expression(words)
            }
        }
        _ => in_expression(words),
    }
}

/// Returns the place after the last bracket that is open, after the words before it.
fn in_brackets(kind: TokenKind, before: &[Token<'_>], words: &[Token<'_>]) -> Place
    ensures { result ≡ in_brackets kind before.now words.now }
{
    match kind {
        TokenKind::BracketL => {
            if before.is_empty() {
                in_attributes(words)
            } else {
                in_expression(words)
            }
        }
        TokenKind::ParenL => in_parentheses(before, words),
        _ => in_expression(words),
    }
}

/// Returns the place in a line, by the outline of its words.
fn in_line(words: &[Token<'_>]) -> Place
    ensures { result ≡ in_line words.now }
{
    let [last, ..] = words else {
        return Place::Nothing;
    };
    if is_blocking(last.kind) {
        return Place::Nothing;
    }
    match from_opener(words) {
        [] => in_item(words),
        [opener, before @ ..] => in_brackets(opener.kind, before, words),
    }
}

/// Returns the place by the tokens before the cursor, whether the cursor is inside of one, and the
/// outline of its line.
pub(crate) fn place_of(inside: bool, tokens: &[Token<'_>], outline: &[Token<'_>]) -> Place
    ensures { result ≡ place_of inside tokens.now outline.now }
{
    if inside {
        Place::Nothing
    } else if starts_line(tokens) {
        Place::LineStart
    } else {
        in_line(outline)
    }
}
