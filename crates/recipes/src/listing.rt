//! The list of a file's recipes.
ghost use Rattle.std.specs.Prelude.{◌≡◌, ◌++◌, IfOk, OnOk, map, string_bytes};
ghost use Rattle.std.specs.List.{flat_map, list_any};
ghost use Rattle.std.specs.Option.{option_map};
ghost use Rattle.std.specs.Str.{bytes_eq};
ghost use Rattle.justfile_syntax.specs.Symbols.{shown};
ghost use Rattle.recipes.specs.Listing.{doc_end, group_line, group_names, group_text, is_listed, line, line_if, listed_groups, listing, ungrouped_line, with_name, with_names};
ghost use Rattle.recipes.specs.Names.{texts};

use justfile_syntax::item::ItemKind;
use justfile_syntax::outline::Symbol;
use std::alloc::{AllocError, Global};

/// Returns the list of the recipes among these symbols: those in no group, and then each group.
#[tactic(auto, using(crate::proofs::Loops::joined_two))]
pub fn listing(alloc: Global, symbols: &[Symbol<'_>]) -> Result<String, AllocError>
    ensures { IfOk result (λ text. string_bytes text ≡ listing (map shown symbols.now)) }
{
    let names = group_names(alloc, symbols)?;
    let mut text = String::new(alloc);
    push_ungrouped(symbols, &mut text)?;
    push_groups(&names, symbols, &mut text)?;
    Ok(text)
}

/// Appends the lines of the recipes in no group.
fn push_ungrouped(symbols: &[Symbol<'_>], text: &mut String) -> Result<(), AllocError>
    ensures { OnOk result (string_bytes text.new
        ≡ string_bytes text.old ++ flat_map ungrouped_line (map shown symbols.now)) }
{
    for symbol in symbols {
        let is_shown = is_listed(symbol) && symbol.groups.is_empty();
        push_line_if(is_shown, symbol, text)?;
    }
    Ok(())
}

/// Appends the groups.
fn push_groups(names: &[&str], symbols: &[Symbol<'_>], text: &mut String) -> Result<(), AllocError>
    ensures { OnOk result (string_bytes text.new ≡ string_bytes text.old
        ++ flat_map (group_text (map shown symbols.now)) (texts names.now)) }
{
    for name in names {
        push_group(name, symbols, text)?;
    }
    Ok(())
}

/// Appends the name of a group in brackets, and the lines of its recipes.
#[tactic(auto, using(crate::proofs::Loops::joined_four))]
fn push_group(name: &str, symbols: &[Symbol<'_>], text: &mut String) -> Result<(), AllocError>
    ensures { OnOk result (string_bytes text.new
        ≡ string_bytes text.old ++ group_text (map shown symbols.now) name.now) }
{
    text.push_str("[")?;
    text.push_str(name)?;
    text.push_str("]\n")?;
    push_members(name, symbols, text)
}

/// Appends the lines of the recipes in a group.
fn push_members(name: &str, symbols: &[Symbol<'_>], text: &mut String) -> Result<(), AllocError>
    ensures { OnOk result (string_bytes text.new
        ≡ string_bytes text.old ++ flat_map (group_line name.now) (map shown symbols.now)) }
{
    for symbol in symbols {
        let is_shown = is_listed(symbol) && has_group(symbol, name);
        push_line_if(is_shown, symbol, text)?;
    }
    Ok(())
}

/// Appends the line of a recipe if it is shown.
fn push_line_if(is_shown: bool, symbol: &Symbol<'_>, text: &mut String) -> Result<(), AllocError>
    ensures { OnOk result (string_bytes text.new
        ≡ string_bytes text.old ++ line_if is_shown (shown symbol.now)) }
{
    if is_shown {
        return push_line(symbol, text);
    }
    Ok(())
}

/// Appends the line of a recipe.
#[tactic(auto, using(crate::proofs::Loops::joined_four))]
fn push_line(symbol: &Symbol<'_>, text: &mut String) -> Result<(), AllocError>
    ensures { OnOk result
        (string_bytes text.new ≡ string_bytes text.old ++ line (shown symbol.now)) }
{
    text.push_str(symbol.name.lexeme())?;
    text.push_str(symbol.parameters.as_str())?;
    push_doc(&symbol.doc, text)?;
    text.push_str("\n")
}

/// Appends a doc after ` # `, if there is one.
#[tactic(auto, using(crate::proofs::Loops::joined_two))]
fn push_doc(doc: &Option<String>, text: &mut String) -> Result<(), AllocError>
    ensures { OnOk result (string_bytes text.new
        ≡ string_bytes text.old ++ doc_end (option_map string_bytes doc.now)) }
{
    match doc {
        None => Ok(()),
        Some(doc) => {
            text.push_str(" # ")?;
            text.push_str(doc.as_str())
        }
    }
}

/// Whether lists show the symbol: it is a recipe that is enabled on this system and not private.
fn is_listed(symbol: &Symbol<'_>) -> bool
    ensures { result ≡ is_listed (shown symbol.now) }
{
    matches!(symbol.kind, ItemKind::Recipe) && symbol.is_enabled && !symbol.is_private
}

/// Whether the symbol is in this group.
fn has_group(symbol: &Symbol<'_>, name: &str) -> bool
    ensures { result ≡ list_any (bytes_eq name.now) (map string_bytes symbol.now.groups.items) }
{
    is_text(name, &symbol.groups)
}

/// Whether the name is one of these texts.
fn is_text(name: &str, texts: &[String]) -> bool
    ensures { result ≡ list_any (λ text. bytes_eq name.now (string_bytes text)) texts.now }
{
    texts.iter().any(|text| name == text.as_str())
}

/// Returns the names of the groups, each once, in the order in which they first occur.
fn group_names<'a>(alloc: Global, symbols: &'a [Symbol<'_>]) -> Result<Vec<&'a str>, AllocError>
    ensures { IfOk result (λ names. texts names.items ≡ group_names (map shown symbols.now)) }
{
    let mut names = Vec::new(alloc);
    for symbol in symbols {
        push_names(symbol, &mut names)?;
    }
    Ok(names)
}

/// Appends the names of the groups of a recipe that are new, if lists show it.
fn push_names<'a>(symbol: &'a Symbol<'_>, names: &mut Vec<&'a str>) -> Result<(), AllocError>
    ensures { OnOk result (texts names.new.items
        ≡ with_names (texts names.old.items) (listed_groups (shown symbol.now))) }
{
    if is_listed(symbol) {
        return push_new(&symbol.groups, names);
    }
    Ok(())
}

/// Appends the names that are new.
fn push_new<'a>(groups: &'a [String], names: &mut Vec<&'a str>) -> Result<(), AllocError>
    ensures { OnOk result (texts names.new.items
        ≡ with_names (texts names.old.items) (map string_bytes groups.now)) }
{
    for group in groups {
        push_if_new(group.as_str(), names)?;
    }
    Ok(())
}

/// Appends a name if it is new.
#[tactic(auto, using(crate::proofs::Loops::one_name, crate::proofs::Loops::old_name))]
fn push_if_new<'a>(name: &'a str, names: &mut Vec<&'a str>) -> Result<(), AllocError>
    ensures { OnOk result
        (texts names.new.items ≡ with_name (texts names.old.items) name.now) }
{
    if is_among(name, names) {
        return Ok(());
    }
    names.push(name)?;
    Ok(())
}

/// Whether the name is one of these.
fn is_among(name: &str, names: &[&str]) -> bool
    ensures { result ≡ list_any (λ other. bytes_eq name.now other.now) names.now }
{
    names.iter().any(|other| name == *other)
}
