//! The open documents.
ghost use Rattle.std.specs.Prelude.{◌≡◌, ℕ, List, IfNone, IfOk, OnErr, OnOk, false, string_bytes};
ghost use Rattle.std.specs.Option.{option_copied};
ghost use Rattle.std.specs.BTreeMap.{IsEmpty, IsUnchanged, get_by_text};
ghost use Rattle.editor_messages.specs.Changes.{AreApplied};
ghost use Rattle.editor_server.specs.Changed.{AreKnown, IsKnown, IsStored};
ghost use Rattle.editor_server.specs.Model.{Changes, Closes, Loses, LosesAll, Restores, Stores, TellsAll, begins_whole, is_restored};

use editor_answers::diagnostics;
use editor_language::{Analysis, Language};
use editor_messages::{Change, Diagnostic, changed_text};
use justfile_lines::Encoding;
use std::alloc::{AllocError, Global};
use std::collections::BTreeMap;

/// An open document.
#[derive(Drop)]
pub(crate) struct Document {
    /// Its text.
    pub(crate) text: String,
    /// What is known of the text.
    pub(crate) analysis: Analysis,
}

/// A document, and what is told of it.
#[derive(Drop)]
struct Told {
    document: Document,
    found: Vec<Diagnostic>,
}

/// The open documents, by their addresses.
#[derive(Drop)]
pub(crate) struct Documents {
    list: BTreeMap<String, Document>,
    /// Whether a text was lost. Then a document that isn't in the list may be open, with a text that
    /// isn't known.
    pub(crate) has_lost: bool,
}

impl Documents {
    /// Returns no documents.
    pub(crate) fn new(alloc: Global) -> Self
        ensures empty { IsEmpty result.list }
        ensures lost { result.has_lost ≡ false }
    {
        Documents {
            list: BTreeMap::new(alloc),
            has_lost: false,
        }
    }

    /// Returns the document with an address.
    pub(crate) fn get(&self, uri: &str) -> Option<&Document>
        ensures { option_copied result ≡ get_by_text self.now.list uri.now }
    {
        self.list.get(uri)
    }

    /// Opens a document, or gives it another text. Returns what is wrong in it.
    ///
    /// # Errors
    ///
    /// Memory ran out. The document's text is lost.
    #[tactic(auto, using(crate::proofs::Kept::known_loses, crate::proofs::Kept::known_stored))]
    pub(crate) fn open<L: Language>(
        &mut self,
        alloc: Global,
        language: &L,
        encoding: Encoding,
        uri: &str,
        text: &str,
    ) -> Result<Vec<Diagnostic>, AllocError>
        requires { AreKnown L.knows self.old.list }
        ensures ok { IfOk result (λ found. Stores L.knows L.finds encoding uri.now text.now
            self.old self.new found.items) }
        ensures failed { OnErr result (Loses uri.now self.old self.new) }
        ensures known { AreKnown L.knows self.new.list }
    {
        match opened_document(alloc, language, encoding, uri, text) {
            Ok(opened) => self.store(alloc, uri, opened),
            Err(_) => {
                self.lose(uri);
                Err(AllocError)
            }
        }
    }

    /// Stores a document. Returns what is told of it.
    fn store(&mut self, alloc: Global, uri: &str, told: Told) -> Result<Vec<Diagnostic>, AllocError>
        ensures put { OnOk result (IsStored uri.now told.document self.old self.new) }
        ensures same { IfOk result (λ found. found ≡ told.found) }
        ensures failed { OnErr result (Loses uri.now self.old self.new) }
    {
        let Told { document, found } = told;
        match self.insert(alloc, uri, document) {
            Ok(()) => Ok(found),
            Err(_) => {
                self.lose(uri);
                Err(AllocError)
            }
        }
    }

    /// Adds a document, or puts it in the place of one.
    fn insert(&mut self, alloc: Global, uri: &str, document: Document) -> Result<(), AllocError>
        ensures put { OnOk result (IsStored uri.now document self.old self.new) }
        ensures unchanged { OnErr result (IsUnchanged self.old.list self.new.list) }
    {
        let uri = uri.to_string(alloc)?;
        match self.list.insert(uri, document) {
            Ok(_) => Ok(()),
            Err(_) => Err(AllocError),
        }
    }

    /// Changes a document, if its text is known or the changes make it known. Returns what is wrong in
    /// it then.
    ///
    /// # Errors
    ///
    /// Memory ran out. The document's text is lost.
    #[tactic(auto, using(crate::proofs::Kept::known_after, crate::proofs::Kept::known_loses, crate::proofs::Restored::unheld))]
    pub(crate) fn change<L: Language>(
        &mut self,
        alloc: Global,
        language: &L,
        encoding: Encoding,
        uri: &str,
        changes: &[Change<'_>],
    ) -> Result<Option<Vec<Diagnostic>>, AllocError>
        requires { AreKnown L.knows self.old.list }
        ensures ok { IfOk result (Changes L.knows L.finds encoding uri.now changes.now
            (get_by_text self.old.list uri.now) self.old self.new) }
        ensures failed { OnErr result (Loses uri.now self.old self.new) }
        ensures known { AreKnown L.knows self.new.list }
    {
        let Some(document) = self.take(uri) else {
            return self.restore(alloc, language, encoding, uri, changes);
        };
        match changed_document(alloc, language, encoding, uri, document, changes) {
            Ok(changed) => Ok(Some(self.store(alloc, uri, changed)?)),
            Err(_) => {
                self.lose(uri);
                Err(AllocError)
            }
        }
    }

    /// Takes the document with an address out of the list, if it is there.
    fn take(&mut self, uri: &str) -> Option<Document>
        ensures document { result ≡ get_by_text self.old.list uri.now }
        ensures taken { Closes uri.now self.old self.new }
        ensures unchanged { IfNone result (self.new ≡ self.old) }
    {
        if self.list.contains_key(uri) {
            self.list.remove(uri)
        } else {
            None
        }
    }

    /// Gives a document whose text isn't known one again, if a text was lost and the changes begin
    /// with a whole one. Returns what is wrong in it then.
    ///
    /// # Errors
    ///
    /// Memory ran out. The document's text is lost.
    #[tactic(auto, using(crate::proofs::Kept::known_loses, crate::proofs::Restored::restored, crate::proofs::Restored::unrestored))]
    fn restore<L: Language>(
        &mut self,
        alloc: Global,
        language: &L,
        encoding: Encoding,
        uri: &str,
        changes: &[Change<'_>],
    ) -> Result<Option<Vec<Diagnostic>>, AllocError>
        requires { AreKnown L.knows self.old.list }
        ensures ok { IfOk result (Restores L.knows L.finds encoding uri.now changes.now
            (is_restored self.old.has_lost changes.now) self.old self.new) }
        ensures failed { OnErr result (Loses uri.now self.old self.new) }
        ensures known { AreKnown L.knows self.new.list }
    {
        if !self.is_restored(changes) {
            return Ok(None);
        }
        match changed_text(alloc, encoding, "", changes) {
            Ok(text) => Ok(Some(self.open(alloc, language, encoding, uri, text.as_str())?)),
            Err(_) => {
                self.lose(uri);
                Err(AllocError)
            }
        }
    }

    /// Whether changes make the text of a document known that isn't held.
    fn is_restored(&self, changes: &[Change<'_>]) -> bool
        ensures { result ≡ is_restored self.now.has_lost changes.now }
    {
        self.has_lost && begins_whole(changes)
    }

    /// Closes a document.
    pub(crate) fn close(&mut self, uri: &str)
        ensures { Closes uri.now self.old self.new }
    {
        let _ = self.list.remove(uri);
    }

    /// Forgets the text of a document, since that which the editor has isn't known.
    pub(crate) fn lose(&mut self, uri: &str)
        ensures { Loses uri.now self.old self.new }
    {
        self.close(uri);
        self.has_lost = true;
    }

    /// Forgets all texts, since those which the editor has aren't known.
    pub(crate) fn lose_all(&mut self, alloc: Global)
        ensures { LosesAll self.new }
    {
        self.list = BTreeMap::new(alloc);
        self.has_lost = true;
    }
}

/// Whether changes begin with a whole text.
fn begins_whole(changes: &[Change<'_>]) -> bool
    ensures { result ≡ begins_whole changes.now }
{
    match changes {
        [Change::Whole(_), ..] => true,
        _ => false,
    }
}

/// Returns a document with a text.
fn opened_document<L: Language>(
    alloc: Global,
    language: &L,
    encoding: Encoding,
    uri: &str,
    text: &str,
) -> Result<Told, AllocError>
    ensures text { IfOk result (λ told. string_bytes told.document.text ≡ text.now) }
    ensures known { IfOk result (λ told. L.knows text.now told.document.analysis) }
    ensures tells { IfOk result (λ opened. TellsAll L.finds encoding uri.now text.now
        opened.document.analysis opened.found.items) }
{
    let analysis = language.analysis(alloc, text)?;
    let found = found_in(alloc, language, encoding, uri, text, &analysis)?;
    let text = String::from_str(alloc, text)?;
    Ok(Told {
        document: Document { text, analysis },
        found,
    })
}

/// Returns a document after changes.
fn changed_document<L: Language>(
    alloc: Global,
    language: &L,
    encoding: Encoding,
    uri: &str,
    document: Document,
    changes: &[Change<'_>],
) -> Result<Told, AllocError>
    requires { IsKnown L.knows document }
    ensures applied { IfOk result (λ changed. AreApplied encoding
        (string_bytes document.text) changes.now (string_bytes changed.document.text)) }
    ensures known { IfOk result (λ changed. IsKnown L.knows changed.document) }
    ensures tells { IfOk result (λ changed. TellsAll L.finds encoding uri.now
        (string_bytes changed.document.text) changed.document.analysis changed.found.items) }
{
    let Document {
        text: old,
        analysis,
    } = document;
    let text = changed_text(alloc, encoding, old.as_str(), changes)?;
    let analysis = language.analysis_after(alloc, old.as_str(), analysis, text.as_str())?;
    let found = found_in(alloc, language, encoding, uri, text.as_str(), &analysis)?;
    Ok(Told {
        document: Document { text, analysis },
        found,
    })
}

/// Returns what is told of a text of which this is known: its problems, and then the findings in it.
fn found_in<L: Language>(
    alloc: Global,
    language: &L,
    encoding: Encoding,
    uri: &str,
    text: &str,
    analysis: &Analysis,
) -> Result<Vec<Diagnostic>, AllocError>
    ensures { IfOk result (λ found. TellsAll L.finds encoding uri.now text.now analysis.now
        found.items) }
{
    let findings = language.findings(alloc, uri, text, analysis)?;
    diagnostics(alloc, encoding, text, &analysis.problems, &findings)
}
