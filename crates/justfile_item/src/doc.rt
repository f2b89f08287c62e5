//! Docs of constructs, which are printed as comments.
ghost use Rattle.std.specs.Prelude.{◌≡◌, string_bytes};
ghost use Rattle.std.specs.Option.{option_copied, option_map};
ghost use Rattle.justfile_item.specs.Doc.{doc_text_of, shown_doc_of};
ghost use Rattle.justfile_model.specs.Printed.Printing.{doc_comment, doc_line};
ghost use Rattle.justfile_token.specs.Sink.{Puts};

use justfile_attribute_set::AttributeSet;
use justfile_leaves::put_piece;
use justfile_token::Sink;
use justfile_vocabulary::AttributeKind;

/// Writes the doc of a construct as a comment on a line of its own, unless there is an attribute
/// `doc`.
pub(crate) fn write_doc<S: Sink>(
    attributes: &AttributeSet<'_>,
    doc: &Option<String>,
    sink: &mut S,
) -> Result<(), S::Fault>
    ensures { Puts S.took S.failed sink.old result (doc_text_of attributes.now doc.now) sink.new }
{
    match shown_doc(attributes, doc) {
        Some(doc) => write_doc_line(doc, sink),
        None => Ok(()),
    }
}

/// Returns the doc that is printed as a comment: none if there is an attribute `doc`.
#[tactic(auto, using(crate::proofs::ShownDocs::shown_doc_is))]
pub(crate) fn shown_doc<'a>(
    attributes: &AttributeSet<'_>,
    doc: &'a Option<String>,
) -> Option<&'a str>
    ensures { option_copied result ≡ shown_doc_of attributes.now doc.now }
{
    if attributes.contains(AttributeKind::Doc) {
        None
    } else {
        text_of(doc)
    }
}

/// Returns the text of an optional doc.
pub(crate) fn text_of(doc: &Option<String>) -> Option<&str>
    ensures { option_copied result ≡ option_map string_bytes doc.now }
{
    match doc {
        None => None,
        Some(text) => Some(text.as_str()),
    }
}

/// Writes a doc as a comment on a line of its own.
fn write_doc_line<S: Sink>(doc: &str, sink: &mut S) -> Result<(), S::Fault>
    ensures { Puts S.took S.failed sink.old result (doc_line doc.now) sink.new }
{
    write_doc_comment(doc, sink)?;
    put_piece("\n", sink)
}

/// Writes a doc as a comment.
fn write_doc_comment<S: Sink>(doc: &str, sink: &mut S) -> Result<(), S::Fault>
    ensures { Puts S.took S.failed sink.old result (doc_comment doc.now) sink.new }
{
    if doc.is_empty() {
        return put_piece("#", sink);
    }
    put_piece("# ", sink)?;
    sink.put(doc)
}
