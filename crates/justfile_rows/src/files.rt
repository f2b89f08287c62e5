//! Rows of texts that are parsed.

use crate::beginnings::beginnings;
use crate::expansion::Expansion;
use crate::printing::prints;
use crate::question::{Question, ask};
use crate::word::Word;
use justfile_syntax::ast::Ast;
use justfile_syntax::fault::Fault;
use justfile_syntax::format::own_indentation;
use justfile_syntax::indentation::Indentation;
use justfile_syntax::numerator::{Number, Numerator};
use justfile_syntax::parser::{RECURSION_LIMIT, release};
use row_items::items::file;
use row_items::items_part::{ItemsPart, push_of_items};
use row_items::names::{features, unstable};
use row_items::printing::{copies, prints_item, stops};
use row_items::recipes::RecipePart;
use row_notation::{
    Answer, Text, field_at, indentation_at, number_at, push_expected, push_fault, push_message,
};
use row_parts::values::ValueForm;
use std::alloc::Global;

/// Writes what a row's word asks for about a file.
fn push_file(ast: &mut Ast<'_>, answer: &mut Answer, word: Word, fields: &[String]) {
    match word {
        Word::Expected | Word::Message | Word::Rejected | Word::RejectedUnder => {
            answer.push("taken");
        }
        Word::Features => features(answer, &ast.list_features),
        Word::Indented => indented(ast, answer),
        Word::Items | Word::Numbers => file(ast, answer),
        Word::Unstable => unstable(answer, &ast.unstable_features),
        Word::Canonical
        | Word::CanonicalUnder
        | Word::Copies
        | Word::ExpandsTo
        | Word::Prints
        | Word::PrintsAt
        | Word::PrintsItem
        | Word::PrintsUnder
        | Word::Stops => push_printed(ast, answer, word, fields),
        _ => push_of_items(&ast.items, answer, items_part(word, fields)),
    }
}

/// Returns the part of a file's items that a row's word asks for.
fn items_part(word: Word, fields: &[String]) -> ItemsPart {
    match word {
        Word::Attributes => ItemsPart::Attributes,
        Word::Docs => ItemsPart::Docs,
        Word::Enabled => ItemsPart::Enabled,
        Word::Expressions => ItemsPart::Expressions,
        Word::Keys => ItemsPart::Keys,
        Word::Literal => ItemsPart::Value(ValueForm::Literal),
        Word::Expands | Word::Value => ItemsPart::Value(ValueForm::Parts),
        Word::Orders => ItemsPart::Orders,
        Word::Parts => ItemsPart::Parts,
        Word::References => ItemsPart::References,
        Word::Sets => ItemsPart::Sets,
        Word::Settings => ItemsPart::Settings,
        _ => ItemsPart::Recipe(recipe_part(word, fields)),
    }
}

/// Returns the part of a recipe that a row's word asks for.
fn recipe_part(word: Word, fields: &[String]) -> RecipePart {
    match word {
        Word::Arguments => RecipePart::Arguments,
        Word::Defaults => RecipePart::Defaults,
        Word::Dependencies => RecipePart::Dependencies,
        Word::Line => RecipePart::Line(number_at(fields, 0) as usize),
        Word::Parameters => RecipePart::Parameters,
        Word::Sigils => RecipePart::Sigils(field_at(fields, 0) == "guarded"),
        _ => RecipePart::Marks,
    }
}

/// Writes the indentation that a file sets, or `none`. Writes `own` after it if the file isn't
/// printed at this indentation, or else at four spaces.
fn indented(ast: &Ast<'_>, answer: &mut Answer) {
    push_indentation(ast, answer);
    let expected = ast.indentation().unwrap_or_default();
    answer.push_if("own", own_indentation(ast) != expected);
}

/// Writes the indentation that a file sets, or `none`.
fn push_indentation(ast: &Ast<'_>, answer: &mut Answer) {
    match ast.indentation() {
        Some(indentation) => answer.push_display(&indentation),
        None => answer.push("none"),
    }
}

/// Writes what a row's word asks for about a file's printed text.
fn push_printed(ast: &mut Ast<'_>, answer: &mut Answer, word: Word, fields: &[String]) {
    let indentation = indentation_for(word, fields);
    match word {
        Word::Copies => {
            copies(ast, answer, indentation);
            push_of_items(&ast.items, answer, ItemsPart::Copies);
        }
        Word::ExpandsTo => push_value_and_text(ast, answer),
        Word::PrintsItem => prints_item(ast, answer, indentation),
        Word::Stops => stops(ast, answer, number_at(fields, 1), field_at(fields, 0)),
        _ => prints(ast, answer, indentation, limit_of(word, fields)),
    }
}

/// Returns the indentation of a row.
fn indentation_for(word: Word, fields: &[String]) -> Indentation {
    match word {
        Word::PrintsAt | Word::PrintsItem => indentation_at(fields, 0),
        _ => Indentation::default(),
    }
}

/// Writes the parts of the first value of a file, and the file's printed text.
fn push_value_and_text(ast: &Ast<'_>, answer: &mut Answer) {
    push_of_items(&ast.items, answer, ItemsPart::Value(ValueForm::Parts));
    copies(ast, answer, Indentation::default());
}

/// Writes what a row's word asks for about a file, and also about its copy if that differs. For
/// printing there is no copy: the file is printed and parsed again.
pub(crate) fn push_file_and_copy(
    ast: &mut Ast<'_>,
    answer: &mut Answer,
    word: Word,
    fields: &[String],
) {
    let mut found = Answer::new(answer.alloc());
    push_file(ast, &mut found, word, fields);
    answer.push_all(&found);
    if is_copied(word) {
        let mut copied = Answer::new(answer.alloc());
        push_copy(ast, &mut copied, word, fields);
        answer.push_unless("copied", &copied, &found);
    }
}

/// Whether the word asks about a copy of the file, too. Words about printing ask only about the
/// file.
fn is_copied(word: Word) -> bool {
    !matches!(
        word,
        Word::Canonical | Word::CanonicalUnder | Word::Prints | Word::PrintsAt | Word::PrintsUnder
    )
}

/// Writes what a row's word asks for about a copy of a file.
fn push_copy(ast: &Ast<'_>, answer: &mut Answer, word: Word, fields: &[String]) {
    match ast.clone(answer.alloc()) {
        Ok(mut copy) => {
            push_file(&mut copy, answer, word, fields);
            release(copy);
        }
        Err(_) => answer.fail(),
    }
}

/// Writes what a row's word asks for about its text. For `numbers`, first writes the next numbers
/// of a binding and of a recipe.
fn push_text(answer: &mut Answer, word: Word, fields: &[String]) {
    let mut numerator = numerator_of(word, fields);
    let text = text_of(word, fields);
    let mut found = Answer::new(answer.alloc());
    ask(
        &mut found,
        &mut numerator,
        (expansion_of(word, fields), limit_of(word, fields)),
        text,
        question_of(word),
        fields,
    );
    if word == Word::Numbers {
        push_next(answer, &mut numerator);
    }
    answer.push_all(&found);
}

/// Writes why there is no file, in the form that a row's word asks for.
pub(crate) fn push_why(answer: &mut Answer, word: Word, text: &str, fault: &Fault<'_>) {
    match word {
        Word::Expected => push_expected(answer, text, fault),
        Word::Message => push_message(answer, text, fault),
        _ => push_fault(answer, text, fault),
    }
}

/// Writes the numbers of the next binding and of the next recipe.
pub(crate) fn push_next(answer: &mut Answer, numerator: &mut Numerator) {
    push_number(answer, numerator.next_binding());
    push_number(answer, numerator.next_recipe());
}

/// Writes a number, or `none`.
fn push_number(answer: &mut Answer, number: Option<Number>) {
    match number {
        Some(number) => answer.push_number(number.0 as usize),
        None => answer.push("none"),
    }
}

/// Returns the numerator of a row. For `numbers` it has already given bindings the numbers below
/// the first field, and recipes those below the second.
fn numerator_of(word: Word, fields: &[String]) -> Numerator {
    if word != Word::Numbers {
        return Numerator::new(0);
    }
    let mut numerator = Numerator::new(number_at(fields, 0));
    for _ in 0..number_at(fields, 1) {
        let _ = numerator.next_recipe();
    }
    numerator
}

/// Joins the fields after the first one.
fn join_fields(alloc: Global, fields: &[String]) -> Text {
    let mut joined = Text::new(alloc);
    for field in fields.iter().skip(1) {
        joined.put(field.as_str());
    }
    joined
}

/// Returns the expander of a row.
fn expansion_of(word: Word, fields: &[String]) -> Expansion<'_> {
    match word {
        Word::Expands => Expansion::of(field_at(fields, 0)).unwrap_or(Expansion::Unchanged),
        Word::ExpandsTo => Expansion::Constant(field_at(fields, 0)),
        _ => Expansion::Unchanged,
    }
}

/// Returns the limit of depth of a row.
fn limit_of(word: Word, fields: &[String]) -> usize {
    match word {
        Word::CanonicalUnder | Word::PrintsUnder | Word::RejectedUnder => {
            number_at(fields, 0) as usize
        }
        _ => RECURSION_LIMIT,
    }
}

/// Returns the text of a row.
fn text_of(word: Word, fields: &[String]) -> &str {
    match word {
        Word::CanonicalUnder
        | Word::Expands
        | Word::ExpandsTo
        | Word::Line
        | Word::PrintsAt
        | Word::PrintsItem
        | Word::PrintsUnder
        | Word::RejectedUnder
        | Word::Sigils => field_at(fields, 1),
        Word::Numbers | Word::Resolves | Word::Stops => field_at(fields, 2),
        _ => field_at(fields, 0),
    }
}

/// Returns what a row's word asks about the file that its text is parsed to. `resolves` changes the
/// file, and asks about no copy.
fn question_of(word: Word) -> Question {
    match word {
        Word::Resolves => Question::Resolved,
        _ => Question::Word(word),
    }
}

/// Writes what a row's word asks for about its fields.
pub(crate) fn push_fields(answer: &mut Answer, word: Word, fields: &[String]) {
    if word == Word::Beginnings {
        beginnings(answer, join_fields(answer.alloc(), fields).as_str());
    } else {
        push_text(answer, word, fields);
    }
}
