//! Items as an editor is shown them.
ghost use Rattle.std.specs.Prelude.{◌≡◌, IfOk, map};
ghost use Rattle.justfile_analysis.specs.Shown.{editor_span, is_import, kind_of, shown, surveyed};

use editor_language::{Item, Span};
use editor_messages::SymbolKind;
use justfile_survey::SurveyedItem;
use justfile_vocabulary::ItemKind;
use std::alloc::{AllocError, Global};

/// Returns the items of a text, as they were found in it.
pub(crate) fn items_of(alloc: Global, found: &[SurveyedItem]) -> Result<Vec<Item>, AllocError>
    ensures { IfOk result (λ items. map shown items.items ≡ map surveyed found.now) }
{
    let mut items = Vec::new(alloc);
    for item in found {
        items.push(item_of(item)?)?;
    }
    Ok(items)
}

/// Returns an item that was found in a text.
fn item_of(item: &SurveyedItem) -> Result<Item, AllocError>
    ensures { IfOk result (λ made. shown made ≡ surveyed item.now) }
{
    let name = item.name.clone()?;
    let body = match item.body {
        Some(span) => Some(editor_span(span)),
        None => None,
    };
    Ok(Item {
        name,
        kind: kind_of(item.kind),
        is_link: is_import(item.kind),
        span: editor_span(item.span),
        name_span: editor_span(item.name_span),
        body,
    })
}

/// Whether an item of a kind is a link to a file by itself: an import.
fn is_import(kind: ItemKind) -> bool
    ensures { result ≡ is_import kind }
{
    matches!(kind, ItemKind::Import)
}

/// Returns a span as an editor is shown it.
pub(crate) fn editor_span(span: justfile_chunks::Span) -> Span
    ensures { result ≡ editor_span span }
{
    Span {
        start: span.start,
        end: span.end,
    }
}

/// Returns what an editor takes an item for.
fn kind_of(kind: ItemKind) -> SymbolKind
    ensures { result ≡ kind_of kind }
{
    match kind {
        ItemKind::Recipe | ItemKind::Function | ItemKind::Alias => SymbolKind::Function,
        ItemKind::Module | ItemKind::Import => SymbolKind::Module,
        ItemKind::Setting => SymbolKind::Property,
        _ => SymbolKind::Variable,
    }
}
