//! The docs of recipes and modules: the comments before them.
ghost use Rattle.std.specs.Prelude.{◌≡◌, ◌+◌, ◌≤◌, ◌&&◌, IfOk, OnOk, Some, map, not, string_bytes, true};
ghost use Rattle.std.specs.Option.{is_some, option_map};
ghost use Rattle.justfile_attribute_set.specs.AttributeSet.{attributes_of};
ghost use Rattle.justfile_attribute_set.specs.Attributes.{has_kind};
ghost use Rattle.justfile_vocabulary.specs.declared.attribute_kind.AttributeKind.TheVariants as kinds;
ghost use Rattle.justfile_model.specs.Grammars.Docs.{item_with_doc};
ghost use Rattle.justfile_model.specs.Grammars.Files.{sets_doc};
ghost use Rattle.justfile_item.specs.declared.item.Item.TheVariants as variants;
ghost use Rattle.justfile_parse_docs.specs.Docs.{IsNextItem, IsWhole, comment_of, doc_before, is_line_end, item_can_take_doc, taken_docs};
ghost use Rattle.justfile_parse_item.specs.Tree.{item_tree};
ghost use Rattle.justfile_parse_item.specs.DerivedFields.{HaveDerivedFields, HasDerivedItemFields};

use justfile_attribute_set::AttributeSet;
use justfile_item::Item;
use justfile_leaves::{find_first_doc, find_later_doc};
use justfile_vocabulary::AttributeKind;
use std::alloc::{AllocError, Global};

/// Moves the comment before each item from `count` on into its doc. The items before these have
/// theirs already.
///
/// # Errors
///
/// `AllocError` if memory runs out.
pub(crate) fn take_docs(
    alloc: Global,
    items: &mut Vec<Item<'_>>,
    count: usize,
) -> Result<(), AllocError>
    requires { HaveDerivedFields items.old.items }
    ensures trees { OnOk result (map item_tree items.new.items
        ≡ taken_docs count count items.old.items) }
    ensures fields { OnOk result (HaveDerivedFields items.new.items) }
{
    let mut kept = count;
    for index in count..items.len() {
        kept = keep_item(alloc, items, kept, index)?;
    }
    items.truncate(kept);
    Ok(())
}

/// Adds the item at `index` to the items that are done, which are the first `kept` ones. If the
/// last two of these are a comment and a line end that become its doc, it replaces them. Returns
/// how many items are done now. A line end has no fields, so it is made anew and not moved.
fn keep_item(
    alloc: Global,
    items: &mut Vec<Item<'_>>,
    kept: usize,
    index: usize,
) -> Result<usize, AllocError>
    requires { IsNextItem kept index items.old }
    ensures trees { IfOk result (λ count. taken_docs count (index + 1) items.new.items
        ≡ taken_docs kept index items.old.items) }
    ensures order { IfOk result (λ count. count ≤ index + 1) }
    ensures whole { IsWhole items.old items.new }
{
    if is_line_end(&items[index]) {
        make_line_end(&mut items[kept]);
        return Ok(kept + 1);
    }
    move_item(alloc, items, kept, index)
}

/// Replaces an item by a line end, unless it is one already, as most are.
fn make_line_end(item: &mut Item<'_>)
    ensures { item.new ≡ variants.Newline }
{
    match item {
        Item::Newline => {}
        _ => set_line_end(item),
    }
}

/// Replaces an item by a line end. It is a function of its own, since the locals for what is dropped
/// are cleared wherever it is inlined.
#[inline(never)]
fn set_line_end(item: &mut Item<'_>)
    ensures { item.new ≡ variants.Newline }
{
    *item = Item::Newline;
}

/// Does what `keep_item` does for an item that isn't a line end: swaps it with the item at its new
/// index.
fn move_item(
    alloc: Global,
    items: &mut Vec<Item<'_>>,
    kept: usize,
    index: usize,
) -> Result<usize, AllocError>
    requires { IsNextItem kept index items.old }
    ensures trees { IfOk result (λ count. taken_docs count (index + 1) items.new.items
        ≡ taken_docs kept index items.old.items) }
    ensures order { IfOk result (λ count. count ≤ index + 1) }
    ensures whole { IsWhole items.old items.new }
{
    if can_take_doc(&items[index]) {
        if let Some(doc) = find_doc(&items[..kept]) {
            let text = doc.to_string(alloc)?;
            set_doc(&mut items[index], text);
            items.swap(kept - 2, index);
            return Ok(kept - 1);
        }
    }
    items.swap(kept, index);
    Ok(kept + 1)
}

/// Sets the doc of a module or recipe.
fn set_doc(item: &mut Item<'_>, text: String)
    requires fields { HasDerivedItemFields item.old }
    requires takes_doc { item_can_take_doc (item_tree item.old) ≡ true }
    ensures tree { Some (item_tree item.new)
        ≡ item_with_doc sets_doc (string_bytes text) (item_tree item.old) }
    ensures fields { HasDerivedItemFields item.new }
{
    match item {
        Item::Module { doc, .. } => *doc = Some(text),
        Item::Recipe(recipe) => recipe.doc = Some(text),
        _ => {}
    }
}

/// Whether the item can have a doc, and neither an attribute nor a comment has set it yet.
fn can_take_doc(item: &Item<'_>) -> bool
    ensures { result ≡ item_can_take_doc (item_tree item.now) }
{
    match item {
        Item::Module {
            attributes,
            doc,
            ..
        } => lacks_doc(attributes, doc),
        Item::Recipe(recipe) => lacks_doc(&recipe.attributes, &recipe.doc),
        _ => false,
    }
}

/// Whether there is neither the attribute `doc` nor a doc from a comment.
fn lacks_doc(attributes: &AttributeSet<'_>, doc: &Option<String>) -> bool
    ensures { result
        ≡ (not (has_kind kinds.Doc (attributes_of attributes.now)) && not (is_some doc.now)) }
{
    doc.is_none() && !attributes.contains(AttributeKind::Doc)
}

/// Returns the doc at the end of these items: a comment and one line end, at the front of the file
/// or after a line end.
fn find_doc<'src>(items: &[Item<'src>]) -> Option<&'src str>
    requires { HaveDerivedFields items.now }
    ensures { option_map (λ doc. doc.now) result ≡ doc_before (map item_tree items.now) }
{
    let count = items.len();
    if count < 2 || !is_line_end(&items[count - 1]) {
        return None;
    }
    let comment = find_comment(&items[count - 2])?;
    if count == 2 {
        return find_first_doc(comment);
    }
    find_later_doc(is_line_end(&items[count - 3]), comment)
}

/// Whether the item is a line end.
fn is_line_end(item: &Item<'_>) -> bool
    ensures { result ≡ is_line_end (item_tree item.now) }
{
    matches!(item, Item::Newline)
}

/// Returns the text of a comment, or `None` if the item isn't one.
fn find_comment<'src>(item: &Item<'src>) -> Option<&'src str>
    ensures { option_map (λ comment. comment.now) result ≡ comment_of (item_tree item.now) }
{
    match item {
        Item::Comment(comment) => Some(*comment),
        _ => None,
    }
}
