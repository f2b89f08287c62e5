//! What is asked, by the parameters of methods.
ghost use Rattle.std.specs.Prelude.{◌≡◌, cond, option_and_then, option_map};
ghost use Rattle.std.specs.List.{list_any};
ghost use Rattle.justfile_lines.specs.declared.encoding.Encoding.TheVariants.{Utf8, Utf16};
ghost use Rattle.serde_json.specs.View.{items_view, view};
ghost use Rattle.editor_json.specs.Requests.{about_document, best_of, is_utf8, offered, offers_utf8, question_in, question_of, range_in, references_in, rename_in, said_of_definitions, wish_in, wish_of, with_definitions};

use crate::members::{document_in, position_in, range_of, text_in, uri_of};
use editor_messages::{Method, Query, Request};
use justfile_lines::Encoding;
use serde_json::Value;
use text_edits::Range;

/// Returns in what columns are counted, by the parameters of `initialize`: in bytes if the editor
/// offers it.
fn encoding_in(parameters: Option<&Value>) -> Encoding
    ensures { result ≡ best_of (option_and_then offered
        (option_map (λ v. view v.now) parameters.entry)) }
{
    match offered(parameters) {
        Some(encodings) => best_of(encodings),
        None => Encoding::Utf16,
    }
}

/// Returns the encodings that an editor offers.
fn offered<'a>(parameters: Option<&'a Value>) -> Option<&'a Vec<Value>>
    ensures { option_map (λ v. items_view v.now.items) result
        ≡ option_and_then offered (option_map (λ v. view v.now) parameters.entry) }
{
    let general = parameters?.get("capabilities")?.get("general")?;
    general.get("positionEncodings")?.as_array()
}

/// Returns bytes if they are among the encodings, and otherwise units of UTF-16.
#[tactic(auto, using(crate::proofs::Changes::offers_any))]
fn best_of(encodings: &[Value]) -> Encoding
    ensures { result ≡ cond (offers_utf8 (items_view encodings.now)) Utf8 Utf16 }
{
    if offers_utf8(encodings) {
        Encoding::Utf8
    } else {
        Encoding::Utf16
    }
}

/// Whether bytes are among the encodings.
fn offers_utf8(encodings: &[Value]) -> bool
    ensures { result ≡ list_any (λ v. is_utf8 (view v)) encodings.now }
{
    encodings.iter().any(|encoding| is_utf8(encoding))
}

/// Whether a value is the name of bytes.
fn is_utf8(value: &Value) -> bool
    ensures { result ≡ is_utf8 (view value.now) }
{
    match value.as_str() {
        Some(name) => name == "utf-8",
        None => false,
    }
}

/// Returns what a method asks about a document, if the parameters have what it needs.
fn query_of<'a>(method: Method, parameters: &'a Value) -> Option<Query<'a>>
    ensures { option_map question_of result ≡ question_in method (view parameters.now) }
{
    match method {
        Method::DocumentSymbol => Some(Query::Symbols),
        Method::FoldingRange => Some(Query::Folds),
        Method::Formatting => Some(Query::Format),
        Method::RangeFormatting => Some(Query::FormatRange(range_in(parameters)?)),
        Method::Definition => Some(Query::Definition(position_in(parameters)?)),
        Method::References => references_in(parameters),
        Method::DocumentHighlight => Some(Query::Highlights(position_in(parameters)?)),
        Method::PrepareRename => Some(Query::PrepareRename(position_in(parameters)?)),
        Method::Rename => rename_in(parameters),
        Method::Hover => Some(Query::Hover(position_in(parameters)?)),
        Method::Completion => Some(Query::Complete(position_in(parameters)?)),
        Method::CodeAction => Some(Query::Fixes(range_in(parameters)?)),
        Method::SignatureHelp => Some(Query::Signature(position_in(parameters)?)),
        Method::CodeLens => Some(Query::Lenses),
        Method::SemanticTokens => Some(Query::Tokens),
        Method::DocumentLink => Some(Query::Links),
        _ => None,
    }
}

/// Returns of which name the places are asked for, and whether those of its definitions are.
fn references_in<'a>(parameters: &'a Value) -> Option<Query<'a>>
    ensures { option_map question_of result ≡ references_in (view parameters.now) }
{
    let position = position_in(parameters)?;
    Some(Query::References(position, with_definitions(parameters)))
}

/// Whether the places of definitions are asked for: they are unless the parameters say otherwise.
fn with_definitions(parameters: &Value) -> bool
    ensures { result ≡ with_definitions (view parameters.now) }
{
    match said_of_definitions(parameters) {
        Some(wanted) => wanted,
        None => true,
    }
}

/// Returns what parameters say of the places of definitions.
fn said_of_definitions(parameters: &Value) -> Option<bool>
    ensures { result ≡ said_of_definitions (view parameters.now) }
{
    parameters
        .get("context")?
        .get("includeDeclaration")?
        .as_bool()
}

/// Returns the range that parameters have.
fn range_in(parameters: &Value) -> Option<Range>
    ensures { result ≡ range_in (view parameters.now) }
{
    range_of(parameters.get("range")?)
}

/// Returns which name is to be replaced, and by which one.
fn rename_in<'a>(parameters: &'a Value) -> Option<Query<'a>>
    ensures { option_map question_of result ≡ rename_in (view parameters.now) }
{
    let name = text_in(parameters, "newName")?;
    Some(Query::Rename(position_in(parameters)?, name))
}

/// Returns what a method asks for, if it asks and the parameters have what it needs.
pub(crate) fn request_of<'a>(method: Method, parameters: Option<&'a Value>) -> Option<Request<'a>>
    ensures { option_map wish_of result
        ≡ wish_in method (option_map (λ v. view v.now) parameters.entry) }
{
    match method {
        Method::Initialize => Some(Request::Initialize(encoding_in(parameters))),
        Method::Shutdown => Some(Request::Shutdown),
        _ => about_document(method, parameters?),
    }
}

/// Returns what a method asks about the document that the parameters name.
fn about_document<'a>(method: Method, parameters: &'a Value) -> Option<Request<'a>>
    ensures { option_map wish_of result ≡ about_document method (view parameters.now) }
{
    let uri = uri_of(document_in(parameters)?)?;
    let query = query_of(method, parameters)?;
    Some(Request::About(uri, query))
}
