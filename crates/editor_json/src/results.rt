//! Answers as JSON.
ghost use Rattle.std.specs.Prelude.{◌≡◌, IfOk, string_bytes};
ghost use Rattle.serde_json.specs.View.{view};
ghost use Rattle.serde_json.specs.Written.{compact_text};
ghost use Rattle.editor_json.specs.Integers.{HasIntegers};
ghost use Rattle.editor_json.specs.Sent.{abilities_data, completions_data, encoding_name, help_data, hover_data, position_data, range_data, rename_data, result_data, text_data, tokens_data};

use crate::lists::list_text;
use crate::values::{range_value, text_of};
use editor_messages::{Answer, Completions, Hover, Signature};
use justfile_lines::{Encoding, Position};
use serde_json::{Value, json};
use std::alloc::{AllocError, Global};
use std::slice;
use text_edits::{Range, TextEdit};

/// Returns the text of the result that an answer is.
#[tactic(auto, unfolding(serde_json::proofs::OnLiterals::serde_json_on_literals))]
pub(crate) fn result_text(alloc: Global, answer: &Answer) -> Result<String, AllocError>
    ensures exact { IfOk result (λ text. string_bytes text ≡ compact_text (result_data answer.now)) }
    ensures integers { IfOk result (λ _. HasIntegers (result_data answer.now)) }
{
    match answer {
        Answer::Nothing => String::from_str(alloc, "null"),
        Answer::Abilities(encoding) => abilities_text(alloc, *encoding),
        Answer::Symbols(symbols) => list_text(alloc, &(), symbols),
        Answer::Folds(folds) => list_text(alloc, &(), folds),
        Answer::Edits(edits) => list_text(alloc, &(), edits),
        Answer::Places(uri, ranges) => list_text(alloc, uri, ranges),
        Answer::Place(range) => range_text(alloc, *range),
        Answer::Highlights(highlights) => list_text(alloc, &(), highlights),
        Answer::Rename(rename) => rename_text(alloc, rename.uri.as_str(), &rename.edits),
        Answer::Hover(hover) => hover_text(alloc, hover),
        Answer::Completions(completions) => completions_text(alloc, completions),
        Answer::Fixes(uri, actions) => list_text(alloc, uri, actions),
        Answer::Signature(signature) => help_text(alloc, signature),
        Answer::Lenses(lenses) => list_text(alloc, &(), lenses),
        Answer::Tokens(numbers) => tokens_text(alloc, numbers),
        Answer::Links(links) => list_text(alloc, &(), links),
    }
}

/// Returns the name of an encoding.
fn encoding_name(encoding: Encoding) -> &'static str
    ensures { result.now ≡ encoding_name encoding }
{
    match encoding {
        Encoding::Utf8 => "utf-8",
        Encoding::Utf16 => "utf-16",
    }
}

/// What the server can do, before the encoding that it counts columns in. An editor asks what can be
/// written at each letter of a word, and right after the characters that are named here: after each of
/// them a name or a keyword can follow. There is no quote among them, since in a string there is nothing
/// to ask for, and no space, which is in each line of a body.
const BEFORE: &str = "{\"capabilities\":{\
    \"codeActionProvider\":{\"codeActionKinds\":[\"quickfix\"]},\
    \"codeLensProvider\":{},\
    \"completionProvider\":{\"triggerCharacters\":[\
        \"(\",\",\",\":\",\"=\",\"[\",\"{\"]},\
    \"definitionProvider\":true,\
    \"documentFormattingProvider\":true,\
    \"documentHighlightProvider\":true,\
    \"documentLinkProvider\":{},\
    \"documentRangeFormattingProvider\":true,\
    \"documentSymbolProvider\":true,\
    \"foldingRangeProvider\":true,\
    \"hoverProvider\":true,\
    \"positionEncoding\":\"";

/// What the server can do, after the encoding.
const AFTER: &str = "\",\
    \"referencesProvider\":true,\
    \"renameProvider\":{\"prepareProvider\":true},\
    \"semanticTokensProvider\":{\"full\":true,\"legend\":{\"tokenModifiers\":[],\"tokenTypes\":[\
        \"comment\",\"string\",\"operator\",\"keyword\",\
        \"property\",\"function\",\"variable\",\"parameter\"]}},\
    \"signatureHelpProvider\":{\"triggerCharacters\":[\"(\",\",\",\" \"]},\
    \"textDocumentSync\":{\"change\":2,\"openClose\":true}},\
    \"serverInfo\":{\"name\":\"justfile_server\"}}";

/// Returns the text of what the server can do.
fn abilities_text(alloc: Global, encoding: Encoding) -> Result<String, AllocError>
    ensures exact { IfOk result (λ text. string_bytes text ≡ compact_text (abilities_data encoding)) }
    ensures integers { IfOk result (λ _. HasIntegers (abilities_data encoding)) }
{
    let name = encoding_name(encoding);
    let text = format!(in alloc; "{BEFORE}{name}{AFTER}")?;
    Ok(text)
}

/// Returns the text of a range.
pub(crate) fn range_text(alloc: Global, range: Range) -> Result<String, AllocError>
    ensures exact { IfOk result (λ text. string_bytes text ≡ compact_text (range_data range)) }
    ensures integers { IfOk result (λ _. HasIntegers (range_data range)) }
{
    let start = position_text(alloc, range.start)?;
    let end = position_text(alloc, range.end)?;
    let text = format!(in alloc; "{{\"end\":{end},\"start\":{start}}}")?;
    Ok(text)
}

/// Returns the text of a position.
#[tactic(auto, unfolding(serde_json::proofs::OnLiterals::serde_json_on_literals))]
fn position_text(alloc: Global, position: Position) -> Result<String, AllocError>
    ensures exact { IfOk result (λ text. string_bytes text ≡ compact_text (position_data position)) }
    ensures integers { IfOk result (λ _. HasIntegers (position_data position)) }
{
    let line = position.line;
    let column = position.column;
    format!(in alloc; "{{\"character\":{column},\"line\":{line}}}")
}

/// Returns the text of edits of the document with an address.
pub(crate) fn rename_text(
    alloc: Global,
    uri: &str,
    edits: &[TextEdit],
) -> Result<String, AllocError>
    ensures exact { IfOk result
        (λ text. string_bytes text ≡ compact_text (rename_data uri.now edits.now)) }
    ensures integers { IfOk result (λ _. HasIntegers (rename_data uri.now edits.now)) }
{
    let uri = quoted(alloc, uri)?;
    let edits = list_text(alloc, &(), edits)?;
    let text = format!(in alloc; "{{\"changes\":{{{uri}:{edits}}}}}")?;
    Ok(text)
}

/// Returns a text as a string of JSON.
pub(crate) fn quoted(alloc: Global, text: &str) -> Result<String, AllocError>
    ensures { IfOk result (λ made. string_bytes made ≡ compact_text (text_data text.now)) }
{
    let value = Value::try_from_str(alloc, text)?;
    text_of(alloc, &value)
}

/// Returns the text of what is known of a name.
fn hover_text(alloc: Global, hover: &Hover) -> Result<String, AllocError>
    ensures exact { IfOk result (λ text. string_bytes text ≡ compact_text (hover_data hover.now)) }
    ensures integers { IfOk result (λ _. HasIntegers (hover_data hover.now)) }
{
    let value = hover_value(alloc, hover)?;
    text_of(alloc, &value)
}

/// Returns what is known of a name.
fn hover_value(alloc: Global, hover: &Hover) -> Result<Value, AllocError>
    ensures exact { IfOk result (λ v. view v ≡ hover_data hover.now) }
    ensures integers { IfOk result (λ _. HasIntegers (hover_data hover.now)) }
{
    let range = range_value(alloc, hover.range)?;
    let text = hover.text.as_str();
    json!(in alloc; {"contents": {"kind": "plaintext", "value": text}, "range": range})
}

/// Returns the text of what can be written.
#[tactic(auto, unfolding(serde_json::proofs::OnLiterals::serde_json_on_literals))]
fn completions_text(alloc: Global, completions: &Completions) -> Result<String, AllocError>
    ensures exact { IfOk result
        (λ text. string_bytes text ≡ compact_text (completions_data completions.now)) }
    ensures integers { IfOk result (λ _. HasIntegers (completions_data completions.now)) }
{
    let is_incomplete = completions.is_incomplete;
    let items = list_text(alloc, &completions.range, &completions.found)?;
    format!(in alloc; "{{\"isIncomplete\":{is_incomplete},\"items\":{items}}}")
}

/// Returns the text of what is called.
#[tactic(auto, unfolding(serde_json::proofs::OnLiterals::serde_json_on_literals))]
fn help_text(alloc: Global, signature: &Signature) -> Result<String, AllocError>
    ensures exact { IfOk result (λ text. string_bytes text ≡ compact_text (help_data signature.now)) }
    ensures integers { IfOk result (λ _. HasIntegers (help_data signature.now)) }
{
    let active = signature.active;
    let list = list_text(alloc, &(), slice::from_ref(signature))?;
    format!(in alloc; "{{\"activeParameter\":{active},\"signatures\":{list}}}")
}

/// Returns the text of the kinds of tokens.
#[tactic(auto, unfolding(serde_json::proofs::OnLiterals::serde_json_on_literals))]
fn tokens_text(alloc: Global, numbers: &[usize]) -> Result<String, AllocError>
    ensures exact { IfOk result (λ text. string_bytes text ≡ compact_text (tokens_data numbers.now)) }
    ensures integers { IfOk result (λ _. HasIntegers (tokens_data numbers.now)) }
{
    let list = list_text(alloc, &(), numbers)?;
    format!(in alloc; "{{\"data\":{list}}}")
}
