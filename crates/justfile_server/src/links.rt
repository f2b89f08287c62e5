//! The files that the imports and the modules of a justfile lead to.
ghost use Rattle.std.specs.Prelude.{◌≡◌, IfOk, IsTrue, option_copied, option_map, string_bytes};
ghost use Rattle.std.specs.List.{list_any};
ghost use Rattle.justfile_server.specs.Links.{AreBeside, HasGiven, IsPathOf, Links, given, given_in, is_module};

use crate::chunk::chunk_text;
use editor_language::{FileLink, Item};
use editor_messages::SymbolKind;
use justfile_ast::Ast;
use justfile_canonical::reading::{Query, query_root};
use justfile_item::Item as TreeItem;
use justfile_token::Fault;
use module_paths::{Folders, module_path, names_in};
use std::alloc::{AllocError, Global};

/// Asks a text for the path that its first module with a path is given.
#[derive(Drop)]
struct PathQuery;

impl Query for PathQuery {
    type Answer = Option<String>;

    ghost answers = { λ query ast path. option_map string_bytes path ≡ given_in ast.items.items };

    fn answer(
        ast: &mut Ast<'_>,
        _alloc: Global,
        _query: &Self,
    ) -> Result<Option<String>, AllocError> {
        given_in(&ast.items)
    }
}

/// Returns the path that an item is given, if it is a module with a path.
fn given<'a>(item: &'a TreeItem<'_>) -> Option<&'a String>
    ensures { option_map string_bytes (option_copied result) ≡ given item.now }
{
    match item {
        TreeItem::Module {
            relative: Some(relative),
            ..
        } => Some(&relative.cooked),
        _ => None,
    }
}

/// Returns the path that the first module with a path is given among items.
#[tactic(auto, using(crate::proofs::Given::not_here, crate::proofs::Given::here))]
fn given_in(items: &[TreeItem<'_>]) -> Result<Option<String>, AllocError>
    ensures { IfOk result (λ path. option_map string_bytes path ≡ given_in items.now) }
{
    for item in items {
        if let Some(path) = given(item) {
            return Ok(Some(path.clone()?));
        }
    }
    Ok(None)
}

/// Returns the path that the module in a text is given, if it is.
fn given_path(alloc: Global, chunk: &str) -> Result<Option<String>, AllocError>
    ensures { IfOk result (λ path. HasGiven chunk.now (option_map string_bytes path)) }
{
    match query_root(alloc, "justfile", chunk, &PathQuery) {
        Ok(path) => Ok(path),
        Err(Fault::Memory) => Err(AllocError),
        Err(_) => Ok(None),
    }
}

/// Whether an item is a module.
fn is_module(item: &Item) -> bool
    ensures { result ≡ is_module item.now }
{
    !item.is_link && matches!(item.kind, SymbolKind::Module)
}

/// Whether a module is among items.
fn has_module(items: &[Item]) -> bool
    ensures { result ≡ list_any is_module items.now }
{
    items.iter().any(|item| is_module(item))
}

/// Returns the names in the folder of a document, if it is a file and a module is among its items.
#[tactic(auto, using(crate::proofs::Beside::of_folder, crate::proofs::Beside::of_none, crate::proofs::Beside::of_others))]
fn names_beside<F: Folders>(
    alloc: Global,
    folders: &F,
    folder: Option<&str>,
    items: &[Item],
) -> Result<Vec<String>, AllocError>
    ensures { IfOk result (λ names. IsTrue (list_any is_module items.now)
        → AreBeside F.has (option_copied folder.entry) names.items) }
{
    let Some(folder) = folder else {
        return Ok(Vec::new(alloc));
    };
    if has_module(items) {
        names_in(alloc, folders, folder, "")
    } else {
        Ok(Vec::new(alloc))
    }
}

/// Returns the path of the file that an item of a text leads to, if it leads to one. These names are beside
/// the document, if it is a file and the item is a module.
#[tactic(auto, using(crate::proofs::Beside::here))]
fn path_of<F: Folders>(
    alloc: Global,
    folders: &F,
    folder: Option<&str>,
    beside: &[String],
    text: &str,
    item: &Item,
) -> Result<Option<String>, AllocError>
    requires { IsTrue (is_module item.now)
        → AreBeside F.has (option_copied folder) beside.now }
    ensures { IfOk result (λ path. IsPathOf F.has (option_copied folder.entry) text.now item.now
        (option_map string_bytes path)) }
{
    if item.is_link {
        return Ok(Some(item.name.clone()?));
    }
    let Some(folder) = folder else {
        return Ok(None);
    };
    match item.kind {
        SymbolKind::Module => {
            let path = given_path(alloc, chunk_text(text, item.span))?;
            module_path(alloc, folders, folder, beside, item.name.as_str(), &path)
        }
        SymbolKind::Property | SymbolKind::Function | SymbolKind::Variable => Ok(None),
    }
}

/// Returns what leads to files among the items of a text. Its document is in the folder at a path, if it
/// is a file.
pub(crate) fn links_of<F: Folders>(
    alloc: Global,
    folders: &F,
    folder: Option<&str>,
    text: &str,
    items: &[Item],
) -> Result<Vec<FileLink>, AllocError>
    ensures { IfOk result (λ links. Links (IsPathOf F.has (option_copied folder.entry) text.now)
        items.now links.items) }
{
    let beside = names_beside(alloc, folders, folder, items)?;
    let mut links = Vec::new(alloc);
    for item in items {
        let Some(path) = path_of(alloc, folders, folder, &beside, text, item)? else {
            continue;
        };
        let span = item.name_span;
        links.push(FileLink { span, path })?;
    }
    Ok(links)
}
