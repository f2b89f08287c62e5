//! The items of parts of a text, each parsed by itself.
ghost use Rattle.std.specs.Prelude.{◌≡◌, ◌-◌};
ghost use Rattle.justfile_server.specs.Links.{IsChunk, IsPart};

use editor_language::{Analysis, Item, Mention, Span, items_of};
use justfile_canonical::formatting::format_text;
use justfile_canonical::reading::symbols;
use justfile_outline::Symbol;
use justfile_vocabulary::ItemKind;
use std::alloc::{AllocError, Global};

/// Returns where the text begins that is parsed for an item: with the line feed before it, so that it
/// isn't taken for the first line of the file.
pub(crate) fn chunk_start(span: Span) -> usize
    ensures { result ≡ span.start - 1 }
{
    span.start.saturating_sub(1)
}

/// Returns the text that is parsed for an item.
pub(crate) fn chunk_text(text: &str, span: Span) -> &str
    ensures { IsChunk text.now span result.now }
{
    part_of(text, chunk_start(span), span.end)
}

/// Returns the text from one offset up to another one, and nothing if that is no part of the text.
pub(crate) fn part_of(text: &str, start: usize, end: usize) -> &str
    ensures { IsPart text.now start end result.now }
{
    match text.get(start..end) {
        Some(part) => part,
        None => "",
    }
}

/// Returns the item whose name is at an offset.
fn item_at(items: &[Item], offset: usize) -> Option<&Item> {
    for item in items {
        if item.name_span.start == offset {
            return Some(item);
        }
    }
    None
}

/// Returns what is shown of a name, by where it is defined.
pub(crate) fn description_of(
    alloc: Global,
    text: &str,
    analysis: &Analysis,
    definition: &Mention,
) -> Result<String, AllocError> {
    let name = definition.name.as_str();
    let items = items_of(alloc, &analysis.parts)?;
    match item_at(&items, definition.span.start) {
        Some(item) => item_description(alloc, chunk_text(text, item.span), name),
        None => format!(in alloc; "parameter {name}"),
    }
}

/// Returns what is shown of the item in a text: of an assignment or an alias the item as it is
/// formatted, and of another one its kind, its name, its parameters and its doc.
fn item_description(alloc: Global, chunk: &str, name: &str) -> Result<String, AllocError> {
    match symbols(alloc, "justfile", chunk) {
        Ok(symbols) => first_description(alloc, chunk, &symbols, name),
        Err(_) => name.to_string(alloc),
    }
}

/// Returns what is shown of the first symbol of a text, if there is one.
fn first_description(
    alloc: Global,
    chunk: &str,
    symbols: &[Symbol<'_>],
    name: &str,
) -> Result<String, AllocError> {
    let Some(symbol) = symbols.first() else {
        return name.to_string(alloc);
    };
    if matches!(symbol.kind, ItemKind::Alias | ItemKind::Assignment) {
        return formatted(alloc, chunk, name);
    }
    symbol_description(alloc, symbol, name)
}

/// Returns the formatted text of an item, or its name if it can't be formatted.
fn formatted(alloc: Global, chunk: &str, name: &str) -> Result<String, AllocError> {
    match format_text(alloc, "justfile", chunk) {
        Ok(text) => text.as_str().trim().to_string(alloc),
        Err(_) => name.to_string(alloc),
    }
}

/// Returns what is shown of a symbol.
fn symbol_description(
    alloc: Global,
    symbol: &Symbol<'_>,
    name: &str,
) -> Result<String, AllocError> {
    let kind = symbol.kind;
    let parameters = symbol.parameters.as_str();
    match &symbol.doc {
        Some(doc) => format!(in alloc; "{kind} {name}{parameters}\n\n{doc}"),
        None => format!(in alloc; "{kind} {name}{parameters}"),
    }
}
