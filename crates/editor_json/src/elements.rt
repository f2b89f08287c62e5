//! The elements of lists as JSON.
ghost use Rattle.std.specs.Prelude.{◌≡◌, IfOk, string_bytes};
ghost use Rattle.serde_json.specs.View.{view};
ghost use Rattle.serde_json.specs.Written.{compact_text};
ghost use Rattle.editor_json.specs.Integers.{HasIntegers, MembersHaveIntegers};
ghost use Rattle.editor_json.specs.Sent.{action_data, completion_data, count_data, diagnostic_data, edit_data, fold_data, highlight_data, lens_data, link_data, optional_text, parameter_data, place_data, put_data, related_data, related_text, signature_data, sure_data, symbol_data, with_related};

use crate::lists::{Written, list_text};
use crate::results::{quoted, range_text, rename_text};
use crate::values::{range_value, text_of};
use editor_messages::{
    CodeAction, Completion, Diagnostic, Fold, Highlight, LabelPart, Lens, Link, Related, Signature,
    Symbol,
};
use serde_json::{Value, json};
use std::alloc::{AllocError, Global};
use text_edits::{Range, TextEdit};

impl Written for usize {
    type Shared = ();

    ghost written = { λ _. count_data };

    fn text(&self, alloc: Global, _shared: &()) -> Result<String, AllocError> {
        let number = *self;
        number.to_string(alloc)
    }
}

impl Written for TextEdit {
    type Shared = ();

    ghost written = { λ _. edit_data };

    fn text(&self, alloc: Global, _shared: &()) -> Result<String, AllocError> {
        edit_text(alloc, self.range, self.text.as_str())
    }
}

/// Returns the text of the edit that puts a text in place of a range.
fn edit_text(alloc: Global, range: Range, new: &str) -> Result<String, AllocError>
    ensures exact { IfOk result (λ text. string_bytes text ≡ compact_text (put_data range new.now)) }
    ensures integers { IfOk result (λ _. HasIntegers (put_data range new.now)) }
{
    let range = range_text(alloc, range)?;
    let new = quoted(alloc, new)?;
    let text = format!(in alloc; "{{\"newText\":{new},\"range\":{range}}}")?;
    Ok(text)
}

impl Written for Range {
    // the address of the document
    type Shared = String;

    ghost written = { λ uri. place_data (string_bytes uri) };

    fn text(&self, alloc: Global, uri: &String) -> Result<String, AllocError> {
        place_text(alloc, uri.as_str(), *self)
    }
}

/// Returns the text of a range in the document with an address.
#[tactic(auto, unfolding(serde_json::proofs::OnLiterals::serde_json_on_literals))]
fn place_text(alloc: Global, uri: &str, range: Range) -> Result<String, AllocError>
    ensures exact { IfOk result (λ text. string_bytes text ≡ compact_text (place_data uri.now range)) }
    ensures integers { IfOk result (λ _. HasIntegers (place_data uri.now range)) }
{
    let range = range_text(alloc, range)?;
    let uri = quoted(alloc, uri)?;
    format!(in alloc; "{{\"range\":{range},\"uri\":{uri}}}")
}

/// Returns a range in the document with an address.
fn place_value(alloc: Global, uri: &str, range: Range) -> Result<Value, AllocError>
    ensures exact { IfOk result (λ v. view v ≡ place_data uri.now range) }
    ensures integers { IfOk result (λ _. HasIntegers (place_data uri.now range)) }
{
    let range = range_value(alloc, range)?;
    json!(in alloc; {"uri": uri, "range": range})
}

impl Written for Symbol {
    type Shared = ();

    ghost written = { λ _. symbol_data };

    fn text(&self, alloc: Global, _shared: &()) -> Result<String, AllocError> {
        let value = symbol_value(alloc, self)?;
        text_of(alloc, &value)
    }
}

/// Returns a symbol.
fn symbol_value(alloc: Global, symbol: &Symbol) -> Result<Value, AllocError>
    ensures exact { IfOk result (λ v. view v ≡ symbol_data symbol.now) }
    ensures integers { IfOk result (λ _. HasIntegers (symbol_data symbol.now)) }
{
    let range = range_value(alloc, symbol.range)?;
    let selection = range_value(alloc, symbol.selection)?;
    let name = symbol.name.as_str();
    let kind = symbol.kind.number();
    json!(in alloc; {"name": name, "kind": kind, "range": range, "selectionRange": selection})
}

impl Written for Highlight {
    type Shared = ();

    ghost written = { λ _. highlight_data };

    fn text(&self, alloc: Global, _shared: &()) -> Result<String, AllocError> {
        highlight_text(alloc, *self)
    }
}

/// Returns the text of where a name is.
#[tactic(auto, unfolding(serde_json::proofs::OnLiterals::serde_json_on_literals))]
fn highlight_text(alloc: Global, highlight: Highlight) -> Result<String, AllocError>
    ensures exact { IfOk result (λ text. string_bytes text ≡ compact_text (highlight_data highlight)) }
    ensures integers { IfOk result (λ _. HasIntegers (highlight_data highlight)) }
{
    let range = range_text(alloc, highlight.range)?;
    let kind = highlight.number();
    format!(in alloc; "{{\"kind\":{kind},\"range\":{range}}}")
}

impl Written for Fold {
    type Shared = ();

    ghost written = { λ _. fold_data };

    fn text(&self, alloc: Global, _shared: &()) -> Result<String, AllocError> {
        let value = fold_value(alloc, self)?;
        text_of(alloc, &value)
    }
}

/// Returns lines that can be folded together.
fn fold_value(alloc: Global, fold: &Fold) -> Result<Value, AllocError>
    ensures exact { IfOk result (λ v. view v ≡ fold_data fold.now) }
    ensures integers { IfOk result (λ _. HasIntegers (fold_data fold.now)) }
{
    json!(in alloc; {"startLine": fold.first, "endLine": fold.last})
}

impl Written for Link {
    type Shared = ();

    ghost written = { λ _. link_data };

    fn text(&self, alloc: Global, _shared: &()) -> Result<String, AllocError> {
        let value = link_value(alloc, self)?;
        text_of(alloc, &value)
    }
}

/// Returns a link.
fn link_value(alloc: Global, link: &Link) -> Result<Value, AllocError>
    ensures exact { IfOk result (λ v. view v ≡ link_data link.now) }
    ensures integers { IfOk result (λ _. HasIntegers (link_data link.now)) }
{
    let range = range_value(alloc, link.range)?;
    let target = link.target.as_str();
    json!(in alloc; {"range": range, "target": target})
}

impl Written for Lens {
    type Shared = ();

    ghost written = { λ _. lens_data };

    fn text(&self, alloc: Global, _shared: &()) -> Result<String, AllocError> {
        let value = lens_value(alloc, self)?;
        text_of(alloc, &value)
    }
}

/// Returns what can be run, with the command for it.
fn lens_value(alloc: Global, lens: &Lens) -> Result<Value, AllocError>
    ensures exact { IfOk result (λ v. view v ≡ lens_data lens.now) }
    ensures integers { IfOk result (λ _. HasIntegers (lens_data lens.now)) }
{
    let range = range_value(alloc, lens.range)?;
    let name = lens.name.as_str();
    json!(in alloc; {
        "command": {"arguments": [name], "command": "just.run", "title": "Run"},
        "range": range
    })
}

impl Written for LabelPart {
    type Shared = ();

    ghost written = { λ _. parameter_data };

    fn text(&self, alloc: Global, _shared: &()) -> Result<String, AllocError> {
        let value = parameter_value(alloc, *self)?;
        text_of(alloc, &value)
    }
}

/// Returns a parameter that is a part of a label.
fn parameter_value(alloc: Global, part: LabelPart) -> Result<Value, AllocError>
    ensures exact { IfOk result (λ v. view v ≡ parameter_data part) }
    ensures integers { IfOk result (λ _. HasIntegers (parameter_data part)) }
{
    json!(in alloc; {"label": [part.start, part.end]})
}

impl Written for Signature {
    type Shared = ();

    ghost written = { λ _. signature_data };

    fn text(&self, alloc: Global, _shared: &()) -> Result<String, AllocError> {
        signature_text(alloc, self)
    }
}

/// Returns the text of something that is called, with its parameters.
#[tactic(auto, unfolding(serde_json::proofs::OnLiterals::serde_json_on_literals))]
fn signature_text(alloc: Global, signature: &Signature) -> Result<String, AllocError>
    ensures exact { IfOk result (λ text.
        string_bytes text ≡ compact_text (signature_data signature.now)) }
    ensures integers { IfOk result (λ _. HasIntegers (signature_data signature.now)) }
{
    let label = quoted(alloc, signature.label.as_str())?;
    let parameters = list_text(alloc, &(), &signature.parameters)?;
    format!(in alloc; "{{\"label\":{label},\"parameters\":{parameters}}}")
}

impl Written for CodeAction {
    // the address of the document
    type Shared = String;

    ghost written = { λ uri. action_data (string_bytes uri) };

    fn text(&self, alloc: Global, uri: &String) -> Result<String, AllocError> {
        action_text(alloc, self, uri.as_str())
    }
}

/// Returns the text of a way to set something right in the document with an address.
#[tactic(auto, unfolding(serde_json::proofs::OnLiterals::serde_json_on_literals))]
fn action_text(alloc: Global, action: &CodeAction, uri: &str) -> Result<String, AllocError>
    ensures exact { IfOk result (λ text.
        string_bytes text ≡ compact_text (action_data uri.now action.now)) }
    ensures integers { IfOk result (λ _. HasIntegers (action_data uri.now action.now)) }
{
    let edit = rename_text(alloc, uri, &action.edits)?;
    let title = quoted(alloc, action.title.as_str())?;
    format!(in alloc; "{{\"edit\":{edit},\"kind\":\"quickfix\",\"title\":{title}}}")
}

impl Written for Completion {
    // what the text takes the place of
    type Shared = Range;

    ghost written = { completion_data };

    fn text(&self, alloc: Global, range: &Range) -> Result<String, AllocError> {
        completion_text(alloc, self, *range)
    }
}

/// Returns the text of something that can be written in place of a range.
fn completion_text(
    alloc: Global,
    completion: &Completion,
    range: Range,
) -> Result<String, AllocError>
    ensures exact { IfOk result (λ text.
        string_bytes text ≡ compact_text (completion_data range completion.now)) }
    ensures integers { IfOk result (λ _. HasIntegers (completion_data range completion.now)) }
{
    let label = completion.label.as_str();
    let first = member_text(alloc, "detail", completion.detail.as_str())?;
    let second = member_text(alloc, "documentation", completion.documentation.as_str())?;
    let kind = completion.kind.number();
    let edit = edit_text(alloc, range, label)?;
    let label = quoted(alloc, label)?;
    let text = format!(in alloc;
        "{{{first}{second}\"kind\":{kind},\"label\":{label},\"textEdit\":{edit}}}"
    )?;
    Ok(text)
}

/// Returns the text of a member before others, if it isn't empty.
fn member_text(alloc: Global, key: &str, text: &str) -> Result<String, AllocError>
    ensures { IfOk result (λ made. string_bytes made ≡ optional_text key.now text.now) }
{
    if text.is_empty() {
        return Ok(String::new(alloc));
    }
    let key = quoted(alloc, key)?;
    let text = quoted(alloc, text)?;
    let made = format!(in alloc; "{key}:{text},")?;
    Ok(made)
}

impl Written for Diagnostic {
    // the address of the document
    type Shared = String;

    ghost written = { λ uri. diagnostic_data (string_bytes uri) };

    fn text(&self, alloc: Global, uri: &String) -> Result<String, AllocError> {
        diagnostic_text(alloc, self, uri.as_str())
    }
}

/// Returns the text of what is wrong in a range of the document with an address.
fn diagnostic_text(alloc: Global, diagnostic: &Diagnostic, uri: &str) -> Result<String, AllocError>
    ensures exact { IfOk result (λ text.
        string_bytes text ≡ compact_text (diagnostic_data uri.now diagnostic.now)) }
    ensures integers { IfOk result (λ _. HasIntegers (diagnostic_data uri.now diagnostic.now)) }
{
    let code = member_text(alloc, "code", diagnostic.code)?;
    let message = quoted(alloc, diagnostic.message.as_str())?;
    let range = range_text(alloc, diagnostic.range)?;
    let related = related_text(alloc, uri, diagnostic.related)?;
    let text = format!(in alloc;
        "{{{code}\"message\":{message},\"range\":{range},{related}\"severity\":1,\"source\":\"just\"}}"
    )?;
    Ok(text)
}

/// Returns the text of the member with another range of the document, before others, if there is one.
fn related_text(alloc: Global, uri: &str, related: Option<Related>) -> Result<String, AllocError>
    ensures exact { IfOk result (λ made. string_bytes made ≡ related_text uri.now related) }
    ensures integers { IfOk result
        (λ _. MembersHaveIntegers (with_related uri.now related sure_data)) }
{
    let Some(related) = related else {
        return Ok(String::new(alloc));
    };
    let value = related_value(alloc, uri, related)?;
    let place = text_of(alloc, &value)?;
    let made = format!(in alloc; "\"relatedInformation\":[{place}],")?;
    Ok(made)
}

/// Returns another range of the document.
fn related_value(alloc: Global, uri: &str, related: Related) -> Result<Value, AllocError>
    ensures exact { IfOk result (λ v. view v ≡ related_data uri.now related) }
    ensures integers { IfOk result (λ _. HasIntegers (related_data uri.now related)) }
{
    let place = place_value(alloc, uri, related.range)?;
    json!(in alloc; {"location": place, "message": related.message})
}
