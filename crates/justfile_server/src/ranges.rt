//! Formatting of the items in a part of a text. The others may have errors.
use crate::chunk::{chunk_start, chunk_text};
use editor_language::{Analysis, Replacement, Span, items_of};
use justfile_ast::Ast;
use justfile_canonical::reading::{Query, query_root};
use justfile_indentation::own_indentation;
use justfile_token::Fault;
use justfile_vocabulary::Indentation;
use std::alloc::{AllocError, Global};

/// Asks a text for its indentation.
#[derive(Drop)]
struct IndentationQuery;

impl Query for IndentationQuery {
    type Answer = Indentation;

    ghost answers = { λ query ast indentation. Unit {0} };

    fn answer(ast: &mut Ast<'_>, _alloc: Global, _query: &Self) -> Result<Indentation, AllocError> {
        Ok(own_indentation(ast))
    }
}

/// Asks a text for its formatted text at an indentation.
#[derive(Drop)]
struct PrintQuery {
    indentation: Indentation,
}

impl Query for PrintQuery {
    type Answer = Option<String>;

    ghost answers = { λ query ast printed. Unit {0} };

    fn answer(
        ast: &mut Ast<'_>,
        alloc: Global,
        query: &Self,
    ) -> Result<Option<String>, AllocError> {
        if !ast.printable() {
            return Ok(None);
        }
        let printed = ast.print(alloc, query.indentation)?;
        Ok(Some(printed))
    }
}

/// Returns what takes the place of the items in a part of a text, to format them.
pub(crate) fn formatted_in(
    alloc: Global,
    text: &str,
    analysis: &Analysis,
    span: Span,
) -> Result<Vec<Replacement>, AllocError> {
    let indentation = indentation_of(alloc, text)?;
    let items = items_of(alloc, &analysis.parts)?;
    let mut replacements = Vec::new(alloc);
    for item in &items {
        if item.span.start < span.end && span.start < item.span.end {
            push_replacement(alloc, &mut replacements, text, item.span, indentation)?;
        }
    }
    Ok(replacements)
}

/// Returns the indentation of a text, or four spaces if it has an error.
fn indentation_of(alloc: Global, text: &str) -> Result<Indentation, AllocError> {
    match query_root(alloc, "justfile", text, &IndentationQuery) {
        Ok(indentation) => Ok(indentation),
        Err(Fault::Memory) => Err(AllocError),
        Err(_) => Ok(Indentation::default()),
    }
}

/// Adds what takes the place of an item, if that differs from it.
fn push_replacement(
    alloc: Global,
    replacements: &mut Vec<Replacement>,
    text: &str,
    span: Span,
    indentation: Indentation,
) -> Result<(), AllocError> {
    let Some(printed) = printed(alloc, chunk_text(text, span), indentation)? else {
        return Ok(());
    };
    let skipped = span.start.saturating_sub(chunk_start(span));
    let Some(new) = printed.as_str().get(skipped..) else {
        return Ok(());
    };
    if text.get(span.start..span.end) != Some(new) {
        let text = new.to_string(alloc)?;
        replacements.push(Replacement { span, text })?;
    }
    Ok(())
}

/// Returns the printed text of an item, or none if it has an error.
fn printed(
    alloc: Global,
    chunk: &str,
    indentation: Indentation,
) -> Result<Option<String>, AllocError> {
    match query_root(alloc, "justfile", chunk, &PrintQuery { indentation }) {
        Ok(printed) => Ok(printed),
        Err(Fault::Memory) => Err(AllocError),
        Err(_) => Ok(None),
    }
}
