//! Symbols of items, as rows show them.

use justfile_item::Item;
use justfile_outline::{Symbol, outline};
use row_notation::{Answer, Text};
use row_parts::shown::{put_if, put_marked};

/// Writes the outline of a file's items.
pub fn push_outline(items: &[Item<'_>], answer: &mut Answer) {
    match outline(items, answer.alloc()) {
        Ok(symbols) => push_symbols(answer, &symbols),
        Err(_) => answer.fail(),
    }
}

/// Writes symbols, each as a field.
pub fn push_symbols(answer: &mut Answer, symbols: &[Symbol<'_>]) {
    for symbol in symbols {
        push_symbol(symbol, answer);
    }
}

/// Writes a symbol: its kind, its name, its parameters, its doc, its groups, its target, and
/// whether it is private or disabled on this system.
fn push_symbol(symbol: &Symbol<'_>, answer: &mut Answer) {
    let mut shown = Text::new(answer.alloc());
    shown.put_display(&symbol.kind);
    put_marked(&mut shown, " ", symbol.name.lexeme());
    if !symbol.parameters.as_str().is_empty() {
        put_marked(&mut shown, " parameters ", symbol.parameters.as_str());
    }
    if let Some(doc) = &symbol.doc {
        put_marked(&mut shown, " doc ", doc.as_str());
    }
    for group in &symbol.groups {
        put_marked(&mut shown, " group ", group.as_str());
    }
    if let Some(target) = &symbol.target {
        shown.put_made(format!(in answer.alloc(); " target {target}"));
    }
    put_if(&mut shown, " private", symbol.is_private);
    put_if(&mut shown, " disabled", !symbol.is_enabled);
    answer.push_text(shown);
}
