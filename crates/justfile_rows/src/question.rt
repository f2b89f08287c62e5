//! What rows ask about the files that texts are parsed to.

use crate::beginnings::{is_of_text, settles_everywhere};
use crate::expansion::Expansion;
use crate::files::{push_file_and_copy, push_why};
use crate::word::Word;
use justfile_syntax::ast::Ast;
use justfile_syntax::fault::{CompileResult, Fault};
use justfile_syntax::numerator::Numerator;
use justfile_syntax::parser::{Parser, release};
use justfile_syntax::source::Source;
use justfile_syntax::version::Version;
use row_items::items::WORKING_DIRECTORY;
use row_items::items_part::{ItemsPart, push_of_items};
use row_items::recipes::{FILE_DEPTH, IMPORT_OFFSETS};
use row_items::resolution::resolve_by_fields;
use row_items::symbols::push_outline;
use row_notation::{Answer, push_fault};
use std::alloc::Global;

/// What is asked about a file.
#[derive(Clone, Copy)]
pub(crate) enum Question {
    /// Where its printed text doesn't settle. A text may be rejected.
    Beginning,
    /// Its module, its working directory and its items.
    InModule,
    /// The symbols of its items.
    Outline,
    /// The numbers of its variables, with the numbers of names in the fields.
    Resolved,
    /// Its items, and whether it is in the root.
    Root,
    /// What a word asks for about the fields.
    Word(Word),
}

/// Parses a text under a limit of depth, with numbers from a numerator.
pub(crate) fn parse<'src>(
    alloc: Global,
    numerator: &mut Numerator,
    expansion: &Expansion<'_>,
    limit: usize,
    text: &'src str,
) -> CompileResult<'src, Ast<'src>> {
    let source = Source {
        file_depth: FILE_DEPTH,
        import_offsets: IMPORT_OFFSETS,
        namepath: None,
        working_directory: WORKING_DIRECTORY,
    };
    Parser::parse_source(
        alloc,
        numerator,
        "justfile",
        &source,
        text,
        expansion,
        Version::CURRENT,
        limit,
    )
}

/// Parses a text with an expander under a limit of depth, with numbers from a numerator, and writes
/// what a row with these fields asks about it. Returns whether it is a file.
pub(crate) fn ask<'src>(
    answer: &mut Answer,
    numerator: &mut Numerator,
    (expansion, limit): (Expansion<'_>, usize),
    text: &'src str,
    question: Question,
    fields: &'src [String],
) -> bool {
    let parsed = parse(answer.alloc(), numerator, &expansion, limit, text);
    push_parsed(parsed, answer, text, question, fields)
}

/// Writes what a row with these fields asks about the file that a text was parsed to, or why there
/// is none. Returns whether there is one.
pub(crate) fn push_parsed<'src>(
    parsed: CompileResult<'src, Ast<'src>>,
    answer: &mut Answer,
    text: &'src str,
    question: Question,
    fields: &'src [String],
) -> bool {
    match parsed {
        Ok(mut ast) => {
            push_asked(&mut ast, answer, question, fields);
            release(ast);
            true
        }
        Err(fault) => {
            push_unasked(answer, question, text, &fault);
            false
        }
    }
}

/// Writes what is asked about a file.
fn push_asked<'src>(
    ast: &mut Ast<'src>,
    answer: &mut Answer,
    question: Question,
    fields: &'src [String],
) {
    match question {
        Question::Beginning => settles_everywhere(ast, answer),
        Question::InModule => push_in_module(ast, answer),
        Question::Outline => push_outline(&ast.items, answer),
        Question::Resolved => resolve_by_fields(&mut ast.items, answer, fields),
        Question::Root => push_root(ast, answer),
        Question::Word(word) => push_file_and_copy(ast, answer, word, fields),
    }
}

/// Writes why there is no file. For a beginning of a text, only if that isn't an error of the text.
fn push_unasked(answer: &mut Answer, question: Question, text: &str, fault: &Fault<'_>) {
    match question {
        Question::Beginning if is_of_text(fault) => {}
        Question::Word(word) => push_why(answer, word, text, fault),
        _ => push_fault(answer, text, fault),
    }
}

/// Writes a file's module, its working directory and its items.
fn push_in_module(ast: &Ast<'_>, answer: &mut Answer) {
    answer.push_display(&ast.module_path);
    answer.push(ast.working_directory.as_str());
    push_of_items(&ast.items, answer, ItemsPart::Items);
}

/// Writes the items of a file, and `placed` if it isn't in the root.
fn push_root(ast: &Ast<'_>, answer: &mut Answer) {
    push_of_items(&ast.items, answer, ItemsPart::Items);
    answer.push_if("placed", !ast.working_directory.as_str().is_empty());
}
