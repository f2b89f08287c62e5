//! The items of a file that was parsed from a text or from a part of it.
ghost use Rattle.std.specs.Prelude.{◌∷◌, [], IfSome, OnOk, length};
ghost use Rattle.justfile_recovery.specs.Places.{LiesIn};
ghost use Rattle.std.specs.List.{flat_map};
ghost use Rattle.justfile_survey.specs.Items.{import_seen, item_seen, named_seen, seen_of};
ghost use Rattle.justfile_survey.specs.Seen.{Adds};

use crate::part::Part;
use crate::surveys::SurveyedItem;
use justfile_chunks::Span;
use justfile_item::Item;
use justfile_token::{Name, StringLiteral};
use justfile_vocabulary::ItemKind;
use std::alloc::{AllocError, Global};

/// Appends what is known of items.
#[tactic(auto, using(crate::proofs::Added::nothing))]
pub(crate) fn push_items(
    items: &[Item<'_>],
    alloc: Global,
    part: Part<'_>,
    found: &mut Vec<SurveyedItem>,
) -> Result<(), AllocError>
    ensures { let n = length part.entry.text.now in OnOk result (Adds n found.new.items
        found.old.items (flat_map (item_seen n part.entry.base) items.now)) }
{
    for item in items {
        push_item(item, alloc, part, found)?;
    }
    Ok(())
}

/// Appends what is known of an item, if it has a name or is an import.
fn push_item(
    item: &Item<'_>,
    alloc: Global,
    part: Part<'_>,
    found: &mut Vec<SurveyedItem>,
) -> Result<(), AllocError>
    ensures { let n = length part.entry.text.now in OnOk result (Adds n found.new.items
        found.old.items (item_seen n part.entry.base item.now)) }
{
    match item {
        Item::Import { relative, .. } => push_import(relative, alloc, part, found),
        _ => push_if_named(item, alloc, part, found),
    }
}

/// Appends what is known of an import of the file at a path.
#[tactic(auto, using(crate::proofs::Added::one))]
fn push_import(
    path: &StringLiteral<'_>,
    alloc: Global,
    part: Part<'_>,
    found: &mut Vec<SurveyedItem>,
) -> Result<(), AllocError>
    ensures { let n = length part.entry.text.now in OnOk result (Adds n found.new.items
        found.old.items (import_seen n part.entry.base path.now)) }
{
    let name = path.cooked.as_str().to_string(alloc)?;
    let name_span = part.span_of(&path.token);
    found.push(SurveyedItem {
        kind: ItemKind::Import,
        name,
        is_private: false,
        name_span,
        span: part.extent_around(name_span.start),
        body: None,
    })?;
    Ok(())
}

/// Appends what is known of an item, if it has a name.
#[tactic(auto, using(crate::proofs::Added::nothing))]
fn push_if_named(
    item: &Item<'_>,
    alloc: Global,
    part: Part<'_>,
    found: &mut Vec<SurveyedItem>,
) -> Result<(), AllocError>
    ensures { let n = length part.entry.text.now in OnOk result (Adds n found.new.items
        found.old.items (named_seen n part.entry.base item.now)) }
{
    match item.name() {
        None => Ok(()),
        Some(name) => push_named(item, alloc, name, part, found),
    }
}

/// Appends what is known of an item with this name.
#[tactic(auto, using(crate::proofs::Added::one))]
fn push_named(
    item: &Item<'_>,
    alloc: Global,
    name: Name<'_>,
    part: Part<'_>,
    found: &mut Vec<SurveyedItem>,
) -> Result<(), AllocError>
    ensures { let n = length part.entry.text.now in OnOk result (Adds n found.new.items
        found.old.items (seen_of n part.entry.base item.now name.entry ∷ [])) }
{
    let text = name.lexeme().to_string(alloc)?;
    let name_span = part.span_of(&name.token);
    found.push(SurveyedItem {
        kind: item.kind(),
        name: text,
        is_private: item.is_private(),
        name_span,
        span: part.extent_around(name_span.start),
        body: body_span(item, name.token.line, part, name_span.start),
    })?;
    Ok(())
}

/// Returns the lines of the body of an item whose name is on this line, at this offset of the whole
/// text.
fn body_span(item: &Item<'_>, line: usize, part: Part<'_>, offset: usize) -> Option<Span>
    ensures { IfSome result (LiesIn (length part.entry.text.now)) }
{
    let (first, last) = body_lines(item)?;
    let before = first.saturating_sub(line);
    let count = last.saturating_sub(first).saturating_add(1);
    Some(part.lines_after(offset, before, count))
}

/// Returns the numbers of the first and of the last line of the body of an item, if it is a recipe
/// that has one.
fn body_lines(item: &Item<'_>) -> Option<(usize, usize)> {
    match item {
        Item::Recipe(recipe) => match (recipe.body.first(), recipe.body.last()) {
            (Some(first), Some(last)) => Some((first.number, last.number)),
            _ => None,
        },
        _ => None,
    }
}
