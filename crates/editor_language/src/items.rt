//! The items of a text, by those of its parts.
ghost use Rattle.std.specs.Prelude.{◌≡◌, ◌++◌, IfOk, OnOk, map, option_map};
ghost use Rattle.editor_language.specs.Items.{AreItems, item_view, moved_span, moved_view, views_in};

use crate::parts::{Item, Known, Span};
use std::alloc::{AllocError, Global};
use text_parts::Part;

impl Span {
    /// Returns a span of what was read from an offset of a text on, as it is in the text.
    pub fn moved(self, base: usize) -> Self
        ensures { result ≡ moved_span base self }
    {
        Span {
            start: base.saturating_add(self.start),
            end: base.saturating_add(self.end),
        }
    }
}

/// Returns the items of the parts of a text, with their places in the text.
///
/// # Errors
///
/// Memory ran out.
pub fn items_of(alloc: Global, parts: &[Part<Known>]) -> Result<Vec<Item>, AllocError>
    ensures { IfOk result (λ items. AreItems parts.now items.items) }
{
    let mut items = Vec::new(alloc);
    let mut start = 0usize;
    for part in parts {
        push_items(&part.known, start, &mut items)?;
        start = start.saturating_add(part.size);
    }
    Ok(items)
}

/// Adds the items of a part that begins at an offset.
fn push_items(known: &Known, start: usize, items: &mut Vec<Item>) -> Result<(), AllocError>
    ensures { OnOk result (map item_view items.new.items
        ≡ map item_view items.old.items ++ views_in start known.now) }
{
    let base = start.saturating_sub(1);
    for item in &known.items {
        items.push(moved_item(item, base)?)?;
    }
    Ok(())
}

/// Returns an item of what was read from an offset on, with its places in the text.
fn moved_item(item: &Item, base: usize) -> Result<Item, AllocError>
    ensures { IfOk result (λ moved. item_view moved ≡ moved_view base (item_view item.now)) }
{
    let name = item.name.clone()?;
    Ok(Item {
        name,
        kind: item.kind,
        is_link: item.is_link,
        span: item.span.moved(base),
        name_span: item.name_span.moved(base),
        body: moved_if(item.body, base),
    })
}

/// Returns a span of what was read from an offset on, as it is in the text, if there is one.
fn moved_if(span: Option<Span>, base: usize) -> Option<Span>
    ensures { result ≡ option_map (moved_span base) span }
{
    match span {
        Some(span) => Some(span.moved(base)),
        None => None,
    }
}
