//! What values display that no text, or not every text, leads to.

use justfile_expression::ListOperator;
use justfile_lex::Lexer;
use justfile_message::List;
use justfile_model::ConditionalOperator;
use justfile_numbers::{Number, Numerator, Version};
use justfile_token::{
    Delimiter, ExpandFault, Fault, Keyed, Name, StringDelimiter, StringKind, StringLiteral, Token,
};
use justfile_vocabulary::{Count, FormatStringPart, ItemKind, ListFeature, TokenKind};
use row_notation::{Answer, field_at, names_of, number_at, tokens_of};
use std::alloc::{AllocError, Global};

/// Writes a number of things with their noun, with an irregular one, and the noun alone.
pub(crate) fn count(answer: &mut Answer, fields: &[String]) {
    let number = number_at(fields, 0) as usize;
    answer.push_display(&Count::numbered("dog", number));
    answer.push_display(&Count::numbered_irregular("foot", "feet", number));
    answer.push_display(&Count::unnumbered("dog", number));
}

/// Returns the characters of a text.
fn characters(alloc: Global, text: &str) -> Result<Vec<char>, AllocError> {
    let mut characters = Vec::new(alloc);
    for character in text.chars() {
        characters.push(character)?;
    }
    Ok(characters)
}

/// Writes the characters of a text as alternatives, without and with backticks.
pub(crate) fn alternatives(answer: &mut Answer, text: &str) {
    match characters(answer.alloc(), text) {
        Ok(items) => push_alternatives(answer, &items),
        Err(_) => answer.fail(),
    }
}

fn push_alternatives(answer: &mut Answer, items: &[char]) {
    answer.push_display(&List::or(items));
    answer.push_display(&List::or_ticked(items));
}

/// The features that need the setting `lists`.
static FEATURES: &[ListFeature] = &[
    ListFeature::ArgMax,
    ListFeature::ArgMin,
    ListFeature::BoolFunction,
    ListFeature::ComparisonOperator,
    ListFeature::Flag,
    ListFeature::IfWithoutElse,
    ListFeature::JoinListFunction,
    ListFeature::ListConcatenationOperator,
    ListFeature::ListLiteral,
    ListFeature::LogicalOperator,
    ListFeature::Multiple,
    ListFeature::NegationOperator,
    ListFeature::NonComparisonCondition,
    ListFeature::NumJobsFunction,
    ListFeature::ShowFunction,
    ListFeature::SplitFunction,
    ListFeature::WhichFunction,
];

/// Writes what messages say of each feature, and whether it is a function.
pub(crate) fn list_features(answer: &mut Answer) {
    for feature in FEATURES {
        answer.push_display(feature);
        answer.push_if("function", feature.function());
    }
}

/// The kinds of items.
static KINDS: &[ItemKind] = &[
    ItemKind::Alias,
    ItemKind::Assignment,
    ItemKind::Comment,
    ItemKind::Function,
    ItemKind::Import,
    ItemKind::Module,
    ItemKind::Newline,
    ItemKind::Recipe,
    ItemKind::Setting,
    ItemKind::Unexport,
];

/// Writes each kind of items after its article.
pub(crate) fn item_kinds(answer: &mut Answer) {
    for kind in KINDS {
        answer.push(kind.article());
        answer.push_display(kind);
    }
}

/// The operators that compare.
static CONDITIONAL: &[ConditionalOperator] = &[
    ConditionalOperator::Equality,
    ConditionalOperator::Inequality,
    ConditionalOperator::RegexMatch,
    ConditionalOperator::RegexMismatch,
];

/// The operators that join the elements of a list.
static JOINING: &[ListOperator] = &[ListOperator::Concatenate, ListOperator::Join];

/// Writes the operators that compare, and those that join, each with what it puts between.
pub(crate) fn operators(answer: &mut Answer) {
    for operator in CONDITIONAL {
        answer.push_display(operator);
    }
    for operator in JOINING {
        answer.push_display(operator);
        answer.push(operator.separator());
    }
}

/// The delimiters.
static DELIMITERS: &[Delimiter] = &[
    Delimiter::FormatString(StringKind {
        delimiter: StringDelimiter::QuoteSingle,
        indented: false,
    }),
    Delimiter::Brace,
    Delimiter::Bracket,
    Delimiter::Paren,
];

/// Writes the two sides of each delimiter.
pub(crate) fn delimiters(answer: &mut Answer) {
    for delimiter in DELIMITERS {
        answer.push(delimiter.open());
        answer.push(delimiter.close());
    }
}

/// Writes what begins and ends an interpolation, and what stands for its beginning.
pub(crate) fn interpolations(answer: &mut Answer) {
    answer.push(Lexer::INTERPOLATION_START);
    answer.push(Lexer::INTERPOLATION_END);
    answer.push(Lexer::INTERPOLATION_ESCAPE);
}

/// Displays a name with this padding.
fn padded_name(alloc: Global, padding: &str, name: Name<'_>) -> Result<String, AllocError> {
    match padding {
        ">5" => format!(in alloc; "{name:>5}"),
        "*<4" => format!(in alloc; "{name:*<4}"),
        "-^5" => format!(in alloc; "{name:-^5}"),
        "3" => format!(in alloc; "{name:3}"),
        _ => format!(in alloc; "{name}"),
    }
}

/// Writes each name of a text with a padding, and `unfound` if its key is another text.
pub(crate) fn padded(answer: &mut Answer, fields: &[String]) {
    match names_of(answer.alloc(), field_at(fields, 1)) {
        Ok(names) => push_padded(answer, field_at(fields, 0), &names),
        Err(_) => answer.fail(),
    }
}

fn push_padded(answer: &mut Answer, padding: &str, names: &[Name<'_>]) {
    for name in names {
        answer.push_made(padded_name(answer.alloc(), padding, *name));
        answer.push_if("unfound", name.key() != name.lexeme());
    }
}

/// Writes a kind of tokens that no token has, and one with a padding, which is ignored.
pub(crate) fn unpadded(answer: &mut Answer) {
    let (unspecified, comma) = (TokenKind::Unspecified, TokenKind::Comma);
    answer.push_display(&unspecified);
    answer.push_made(format!(in answer.alloc(); "{comma:>9}"));
}

/// Returns the part of a format string with this name.
fn part_of(name: &str) -> Option<FormatStringPart> {
    match name {
        "start" => Some(FormatStringPart::Start),
        "single" => Some(FormatStringPart::Single),
        "continue" => Some(FormatStringPart::Continue),
        "end" => Some(FormatStringPart::End),
        _ => None,
    }
}

/// Writes what a literal displays that is `expanded` or not, and which part of a format string it
/// is. Writes `uncopied` if its copy isn't equal to it, and `apart` if that displays another text.
pub(crate) fn marks(answer: &mut Answer, fields: &[String]) {
    let alloc = answer.alloc();
    let is_expanded = field_at(fields, 0) == "expanded";
    let part = part_of(field_at(fields, 1));
    let tokens = tokens_of(alloc, "'a'");
    match ("a".to_string(alloc), tokens.first()) {
        (Ok(cooked), Some(token)) => push_marks(answer, cooked, *token, (is_expanded, part)),
        _ => answer.fail(),
    }
}

fn push_marks(
    answer: &mut Answer,
    cooked: String,
    token: Token<'_>,
    (expand, part): (bool, Option<FormatStringPart>),
) {
    let literal = StringLiteral {
        cooked,
        expand,
        kind: StringKind {
            delimiter: StringDelimiter::QuoteSingle,
            indented: false,
        },
        part,
        token,
    };
    push_literal(answer, &literal);
}

fn push_literal(answer: &mut Answer, literal: &StringLiteral<'_>) {
    answer.push_display(literal);
    match literal.clone(answer.alloc()) {
        Ok(copy) => push_other(answer, literal, &copy),
        Err(_) => answer.fail(),
    }
}

fn push_other(answer: &mut Answer, literal: &StringLiteral<'_>, copy: &StringLiteral<'_>) {
    let alloc = answer.alloc();
    answer.push_if("uncopied", *literal != *copy);
    match (literal.to_string(alloc), copy.to_string(alloc)) {
        (Ok(one), Ok(other)) => answer.push_if("apart", one != other),
        _ => answer.fail(),
    }
}

/// Writes the sign between two versions.
pub(crate) fn version_order(answer: &mut Answer, fields: &[String]) {
    let one = field_at(fields, 0).parse::<Version>();
    match (one, field_at(fields, 1).parse::<Version>()) {
        (Ok(one), Ok(other)) => answer.push(sign(one, other)),
        _ => answer.push("none"),
    }
}

fn sign(one: Version, other: Version) -> &'static str {
    if one < other {
        "<"
    } else if one == other {
        "="
    } else {
        ">"
    }
}

/// Writes the numbers of two constants of three, of the first binding, and of a constant after it.
pub(crate) fn constants(answer: &mut Answer) {
    let mut numerator = Numerator::new(3);
    let (first, third) = (numerator.constant(0), numerator.constant(2));
    let binding = numerator.next_binding();
    let again = numerator.constant(2);
    answer.push_number(first.0 as usize);
    answer.push_number(third.0 as usize);
    if let Some(Number(number)) = binding {
        answer.push_number(number as usize);
    }
    answer.push_number(again.0 as usize);
}

/// Writes `memory` for each fault that a failed allocation becomes.
pub(crate) fn faults(answer: &mut Answer) {
    answer.push_if("memory", matches!(Fault::from(AllocError), Fault::Memory));
    let fault = ExpandFault::from(AllocError);
    answer.push_if("memory", matches!(fault, ExpandFault::Memory));
}
